//! Why there are no offers.

ghost use Rattle.std.specs.Prelude.{◌≡◌};

use cost_reading::CostFault;
use plain_list::Memory;
use thiserror::Error;

/// Why a case's costs give no offers. Units are named by their gen rows.
#[derive(Clone, Copy, Debug, PartialEq, Eq, Error)]
pub enum OfferStop {
    /// `gencost` has so many rows, which are fewer than the case has gen rows.
    #[error("{rows} rows in gencost")]
    TooFew { rows: usize },
    /// The row of a unit gives no cost.
    #[error("unit {unit}: {fault}")]
    Cost { unit: u32, fault: CostFault },
    /// A price of a unit does not fit 63 bits.
    #[error("unit {unit}: a price that does not fit")]
    Price { unit: u32 },
    /// More blocks than a market may have.
    #[error("too many blocks")]
    TooMany,
    #[error("memory was refused")]
    Memory,
}

impl From<Memory> for OfferStop {
    ghost use Rattle.unit_offers.specs.declared.stops.OfferStop.TheVariants as offer_stop;

    ghost from_gives = { λ _ stop. stop ≡ offer_stop.Memory };

    fn from(_refused: Memory) -> OfferStop {
        OfferStop::Memory
    }
}
