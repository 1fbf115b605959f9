//! The buses and units of a network, the units in which their numbers are given, and the most of each.
#![tactic(auto)]

mod participants;
mod scales;

pub use participants::{Bus, Unit, UnitList};
pub use scales::{
    FACTOR_ONE, FACTOR_PLACES, FactorPlaces, MONEY_PLACES, MOST_BLOCKS, MOST_BUSES, MOST_FACTOR,
    MOST_LINES, MOST_OUTAGES, MOST_PENALTIES, MOST_PICKUPS, MOST_RATIO, MOST_REACTANCE,
    MOST_RESERVES, MOST_SHARE, MOST_UNITS, MW_ONE, MW_PLACES, PICKUP_ONE, PRICE_ONE, PRICE_PLACES,
    RATIO_ONE, REACTANCE_PLACES, SCALED_REACTANCE_PLACES, SHARE_ONE, SHARE_PLACES,
};
