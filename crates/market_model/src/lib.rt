//! The plain data of one interval's market, and the answers to it.
#![tactic(auto)]

mod amounts;
mod answered;
mod assembled;
mod blocks;
mod factor_table;
pub mod laws;
mod limits;
mod outages;
mod participants;
mod pickup_table;
mod putting;
mod reserving;
mod stops;

pub use amounts::{datum, with_part, zeros};
pub use answered::{
    Answer, Dual, Duals, Farkas, Load, Money, Outcome, Price, Rent, ReservePay, RoomDual, RowId,
    UnitPay,
};
pub use assembled::{Market, assemble};
pub use blocks::{block_price, block_quantity, block_value, by_side};
pub use limits::{Cause, Row};
pub use market_data::{Bus, FactorPlaces, MONEY_PLACES, MW_PLACES, PRICE_PLACES, Unit, UnitList};
pub use participants::{
    Block, Factor, Line, Parts, Pickup, Reserve, ReserveOffer, Side, TransmissionRight,
};
pub use plain_list::{List, Memory};
pub use putting::{balance, injections, output};
pub use reserving::{
    is_offered, need_quantity, offer_price, offer_quantity, offer_value, offers_reserve,
    reserve_in_all, room_quantity, room_used,
};
pub use stops::Stop;
