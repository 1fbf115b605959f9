//! What may be wrong with the quantities of a certificate, the first in block order.

ghost use Rattle.std.specs.Prelude.{◌≡◌, List, length, map};
ghost use Rattle.fraction_theory.specs.Fraction.{Fraction};
ghost use Rattle.market_model.specs.declared.answered.Duals.{Duals};
ghost use Rattle.market_model.specs.Dispatch.{dispatch_with, places};
ghost use Rattle.market_model.specs.Optimality.{energy_worth};
ghost use Rattle.cert_verify.specs.Certified.{certified_dispatch};
ghost use Rattle.cert_verify.specs.Reasons.{block_reason, count_reason, support_reason};

use crate::Reason;
use crate::certified::CertifiedDispatch;
use crate::comparing::{breaks_support, is_outside};
use exact_fraction::Exact;
use market_model::{Market, block_price, block_quantity};

/// Whether there is not one quantity for each block and for each offer of reserve.
pub(crate) fn other_count<N: Exact>(
    market: &Market,
    dispatch: &CertifiedDispatch<'_, N>,
) -> Option<Reason>
    ensures { result ≡ count_reason market.now (certified_dispatch N.value dispatch.now) }
{
    if dispatch.blocks.len() == market.blocks().len()
        && dispatch.quantities.len() == market.reserve().offers.len()
    {
        None
    } else {
        Some(Reason::Count)
    }
}

/// The first block whose quantity is below 0 or above what it offers.
pub(crate) fn outside_block<N: Exact>(market: &Market, blocks: &[N]) -> Option<Reason>
    requires { length blocks.now ≡ length market.now.blocks }
    ensures { (reserve : List Fraction) → result ≡ block_reason market.now (dispatch_with (map N.value blocks.now) reserve) }
{
    for (at, block) in market.blocks().slice().iter().enumerate() {
        if is_outside(blocks[at], block_quantity(block)) {
            return Some(Reason::Block { n: at + 1 });
        }
    }
    None
}

/// The first block that gains at what a MW of its unit is worth and is not accepted whole, or loses and is accepted. Worths are by unit.
pub(crate) fn unsupported_block<N: Exact>(
    market: &Market,
    blocks: &[N],
    worths: &[N],
) -> Option<Reason>
    requires blocks { length blocks.now ≡ length market.now.blocks }
    requires worths { length worths.now ≡ length market.now.units }
    ensures { (d : Duals Fraction) (reserve : List Fraction) → map N.value worths.now ≡ map (energy_worth market.now d) (places (length market.now.units)) → result ≡ support_reason market.now (dispatch_with (map N.value blocks.now) reserve) d }
{
    let _units = market.units();
    for (at, block) in market.blocks().slice().iter().enumerate() {
        if breaks_support(
            block.side,
            block_price(block),
            worths[block.unit],
            block_quantity(block),
            blocks[at],
        ) {
            return Some(Reason::Support { n: at + 1 });
        }
    }
    None
}
