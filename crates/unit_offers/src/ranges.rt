//! The outputs between which a unit's blocks move it.

ghost use Rattle.std.specs.Prelude.{◌≡◌};
ghost use Rattle.unit_offers.specs.UnitOffers.{HasBounds, range_of};

use cost_steps::Way;
use market_data::Unit;
use market_model::Side;

/// A range of outputs, in 10^-9 MW, and which way blocks move a unit in it.
#[derive(Clone, Copy, PartialEq, Eq, Debug)]
pub struct OutputRange {
    pub way: Way,
    pub low: i64,
    pub high: i64,
}

/// Where the blocks of a side move a unit: sells from its fixed part up to PMAX, bids from there down to PMIN.
pub fn range_of(unit: &Unit, side: Side) -> OutputRange
    requires { HasBounds unit.now }
    ensures { result ≡ range_of side unit.now }
{
    match side {
        Side::Sell => OutputRange {
            way: Way::Up,
            low: unit.fixed,
            high: unit.fixed + unit.up,
        },
        Side::Buy => OutputRange {
            way: Way::Down,
            low: unit.fixed - unit.down,
            high: unit.fixed,
        },
    }
}
