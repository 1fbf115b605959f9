//! What blocks have and count for, as numbers.

ghost use Rattle.std.specs.Prelude.{◌≡◌, pos, ◌≤ℤ◌};
ghost use Rattle.fraction_theory.specs.Fraction.{whole, neg_ℚ};
ghost use Rattle.market_data.specs.Participants.{IsDatum};
ghost use Rattle.market_model.specs.Dispatch.{signed_by_side};

use crate::amounts::datum;
use crate::{Block, Side};
use exact_fraction::Exact;

/// A number where a block sells, its opposite where it buys.
pub fn by_side<N: Exact>(side: Side, number: N) -> N
    ensures { N.value result ≡ signed_by_side side (N.value number) }
{
    match side {
        Side::Sell => number,
        Side::Buy => number.neg(),
    }
}

/// All that a block has, in 10^-9 MW.
#[tactic(auto, using(market_data::proofs::Data::datum_read))]
pub fn block_quantity<N: Exact>(block: &Block) -> N
    requires { pos 0 ≤ℤ block.now.quantity }
    ensures { N.value result ≡ whole block.now.quantity }
{
    datum(block.quantity)
}

/// Its price, in 10^-6 per MWh.
#[tactic(auto, using(market_data::proofs::Data::datum_read))]
pub fn block_price<N: Exact>(block: &Block) -> N
    requires { IsDatum block.now.price }
    ensures { N.value result ≡ whole block.now.price }
{
    datum(block.price)
}

/// What accepting a MW of a block is worth, in 10^-6 per MWh: the price of a buy, and the opposite of that of a sell.
pub fn block_value<N: Exact>(block: &Block) -> N
    requires { IsDatum block.now.price }
    ensures { N.value result ≡ neg_ℚ (signed_by_side block.now.side (whole block.now.price)) }
{
    let price: N = block_price(block);
    by_side(block.side, price).neg()
}
