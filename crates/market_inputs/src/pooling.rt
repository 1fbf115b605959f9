//! The market of a case and of offers, without branches.

ghost use Rattle.std.specs.Prelude.{◌≡◌, [], IfOk};
ghost use Rattle.market_model.specs.Market.{IsMarket};
ghost use Rattle.market_model.specs.Reserves.{no_reserve};
ghost use Rattle.refusal_text.specs.declared.refusals.Input.TheVariants as input;
ghost use Rattle.refusal_text.specs.declared.refusals.Refusal.TheVariants as refusal;
ghost use Rattle.market_inputs.specs.Files.{sized};
ghost use Rattle.market_inputs.specs.Pooling.{IsPoolMarket};
ghost use Rattle.market_inputs.specs.Stops.{IsToldAs};

use crate::cases::read_buses;
use crate::offers::offer_table;
use crate::stops::InputStop;
use market_model::{Market, Parts, assemble};
use std::alloc::Global;

/// The market of a case and its offers.
///
/// The whole case is read before the offers.
pub fn pool_market(alloc: Global, case: &[u8], offers: &[u8]) -> Result<Market, InputStop>
    ensures told { IsToldAs (IsPoolMarket (sized (refusal.TooLong input.Case) case.now) (sized (refusal.TooLong input.Offers) offers.now)) result }
    ensures kept { IfOk result IsMarket }
    ensures energy_alone { IfOk result (λ m. m.reserve ≡ no_reserve) }
    ensures bare { IfOk result (λ market. market.lines ≡ []) }
{
    let network = read_buses(alloc, case)?;
    let offered = offer_table(alloc, &network, offers)?;
    let parts = Parts::bare(alloc, network.into_buses(), offered.units, offered.blocks);
    Ok(assemble(alloc, parts)?)
}
