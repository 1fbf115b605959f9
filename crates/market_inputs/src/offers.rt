//! The units of a network, their blocks, and their offers of reserve.

ghost use Rattle.std.specs.Prelude.{◌≡◌, ◌↔◌, length, IfOk};
ghost use Rattle.market_model.specs.Market.{IsReserve};
ghost use Rattle.market_model.specs.Reserves.{no_reserve};
ghost use Rattle.net_case.specs.NetworkReading.{unit_list_of};
ghost use Rattle.refusal_text.specs.declared.refusals.Input.TheVariants as input;
ghost use Rattle.refusal_text.specs.declared.refusals.Refusal.TheVariants as refusal;
ghost use Rattle.market_inputs.specs.Files.{sized};
ghost use Rattle.market_inputs.specs.Steps.{Is};
ghost use Rattle.market_inputs.specs.Stops.{IsToldAs};
ghost use Rattle.market_inputs.specs.Tables.{AreOffered, ListsNoReserve, offers_in, reserves_in};

use crate::lengths::check_length;
use crate::stops::InputStop;
use market_model::{Block, List, Reserve, Unit};
use net_case::Network;
use offer_book::{blocks, reserves};
use refusal_text::Input;
use std::alloc::Global;

/// The live units, and the blocks that are offered of them.
#[derive(Drop)]
pub(crate) struct Offered {
    pub units: List<Unit>,
    pub blocks: List<Block>,
}

/// The units of a network with the blocks of a table of offers.
pub(crate) fn offer_table(
    alloc: Global,
    network: &Network,
    bytes: &[u8],
) -> Result<Offered, InputStop>
    ensures told { IsToldAs (Is (offers_in network.now (sized (refusal.TooLong input.Offers) bytes.now))) result }
    ensures kept { IfOk result (AreOffered network.now) }
{
    check_length(bytes, Input::Offers)?;
    let units = network.unit_list(alloc)?;
    let blocks = blocks(alloc, &units, bytes)?;
    Ok(Offered {
        units: units.units,
        blocks,
    })
}

/// What a table lists of spinning reserve of the units of a network. A market is of energy alone where it has no records.
pub(crate) fn reserve_table(
    alloc: Global,
    network: &Network,
    bytes: &[u8],
) -> Result<Reserve, InputStop>
    ensures told { IsToldAs (Is (reserves_in network.now (sized (refusal.TooLong input.Reserves) bytes.now))) result }
    ensures kept { IfOk result (IsReserve (length (unit_list_of network.now).units)) }
    ensures energy_alone { IfOk result (λ reserve. (reserve ≡ no_reserve) ↔ ListsNoReserve bytes.now) }
{
    check_length(bytes, Input::Reserves)?;
    let units = network.unit_list(alloc)?;
    Ok(reserves(alloc, &units, bytes)?)
}
