//! The transmission rights of a table.

ghost use Rattle.std.specs.Prelude.{All, IfOk, length};
ghost use Rattle.market_model.specs.Rights.{IsTransmissionRight};
ghost use Rattle.refusal_text.specs.declared.refusals.Input.TheVariants as input;
ghost use Rattle.refusal_text.specs.declared.refusals.Refusal.TheVariants as refusal;
ghost use Rattle.market_inputs.specs.Files.{sized};
ghost use Rattle.market_inputs.specs.RightsInputs.{rights_in};
ghost use Rattle.market_inputs.specs.Steps.{Is};
ghost use Rattle.market_inputs.specs.Stops.{IsToldAs};

use crate::lengths::check_length;
use crate::stops::InputStop;
use market_model::Market;
use refusal_text::Input;
use rights_test::{Rights, rights};
use std::alloc::Global;

/// The rights of a table, between buses of a market.
pub fn read_rights(alloc: Global, market: &Market, bytes: &[u8]) -> Result<Rights, InputStop>
    ensures told { IsToldAs (Is (rights_in market.now (sized (refusal.TooLong input.Rights) bytes.now))) result }
    ensures kept { IfOk result (All (IsTransmissionRight (length market.now.buses))) }
{
    check_length(bytes, Input::Rights)?;
    Ok(rights(alloc, market, bytes)?)
}
