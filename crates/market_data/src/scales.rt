//! The units in which data are whole numbers, and the most of what is given.

ghost use Rattle.std.specs.Prelude.{◌≡◌, pos};
ghost use Rattle.market_data.specs.Scales.{place_count, place_step};

/// Decimal places of MW: a datum is a number of 10^-9 MW.
pub const MW_PLACES: u8 = 9;

/// One MW as a datum.
pub const MW_ONE: i64 = 1_000_000_000;

/// Decimal places of prices: a datum is a number of 10^-6 per MWh.
pub const PRICE_PLACES: u8 = 6;

/// A price of 1 per MWh as a datum.
pub const PRICE_ONE: i64 = 1_000_000;

/// Decimal places of money and welfare, a product of the two.
pub const MONEY_PLACES: u8 = 15;

/// Decimal places of factors: a datum is a number of 10^-9.
pub const FACTOR_PLACES: u8 = 9;

/// A factor of 1 as a datum: of how many parts a factor is a number.
pub const FACTOR_ONE: u64 = 1_000_000_000;

/// The greatest size of a factor as a datum: that of 1000.
pub const MOST_FACTOR: u64 = 1_000_000_000_000;

/// How many decimal places the factors of tables have at the most. A factor that is rounded to these misses the network's by up to half
/// a unit of the last one.
#[derive(Clone, Copy, PartialEq, Eq, Debug)]
pub enum FactorPlaces {
    Six,
    Nine,
}

impl FactorPlaces {
    /// Their number.
    pub fn count(self) -> u8
        ensures { result ≡ place_count self }
    {
        match self {
            FactorPlaces::Six => 6,
            FactorPlaces::Nine => 9,
        }
    }

    /// A unit of the last place as a datum of factors, which is a number of 10^-9.
    pub fn step(self) -> i64
        ensures { result ≡ pos (place_step self) }
    {
        match self {
            FactorPlaces::Six => 1_000,
            FactorPlaces::Nine => 1,
        }
    }
}

/// Decimal places of the shares of a lost unit's output: a datum is a number of 10^-6.
pub const SHARE_PLACES: u8 = 6;

/// A share of 1, all of it, as a datum.
pub const SHARE_ONE: u64 = 1_000_000;

/// The greatest size of a share that a table may state, as a datum: that of 1000.
pub const MOST_SHARE: u64 = 1_000_000_000;

/// A share of 1 times a factor of 1 as a datum: of how many parts a pickup factor is a number.
pub const PICKUP_ONE: u64 = SHARE_ONE * FACTOR_ONE;

/// Decimal places of reactances and of ratios: of both a datum is a number of 10^-9.
pub const REACTANCE_PLACES: u8 = 9;

/// A ratio of 1 as a datum.
pub const RATIO_ONE: i64 = 1_000_000_000;

/// The greatest size of a reactance as a datum: that of 1000.
pub const MOST_REACTANCE: i64 = 1_000_000_000_000;

/// The greatest ratio as a datum: that of 10.
pub const MOST_RATIO: i64 = 10_000_000_000;

/// Decimal places of a reactance times a ratio.
pub const SCALED_REACTANCE_PLACES: u8 = 18;

/// The most buses.
pub const MOST_BUSES: usize = 1000;

/// The most units.
pub const MOST_UNITS: usize = 1000;

/// The most blocks of all units.
pub const MOST_BLOCKS: usize = 4000;

/// The most branches.
pub const MOST_LINES: usize = 2000;

/// The most outages.
pub const MOST_OUTAGES: usize = 500;

/// The most records of what is picked up of the outputs of lost units.
pub const MOST_PICKUPS: usize = 5000;

/// The most penalties: one for each limit that the most branches can have.
pub const MOST_PENALTIES: usize = 2 * MOST_LINES;

/// The most records of reserve: an offer of each unit, and a need.
pub const MOST_RESERVES: usize = MOST_UNITS + 1;
