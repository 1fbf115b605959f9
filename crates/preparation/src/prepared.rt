//! The tables that are prepared of a case, as texts, and what is told of them.

ghost use Rattle.std.specs.Prelude.{◌≡◌, IfOk, IfSome};
ghost use Rattle.std.specs.Option.{option_map};
ghost use Rattle.market_inputs.specs.Stops.{IsToldAs};
ghost use Rattle.preparation.specs.Parts.{AreOfUnits, IsWanted};
ghost use Rattle.preparation.specs.Preparations.{IsPreparation, offers_part, outages_part, penalties_part, prepared_with};

use crate::lines::prepared_text;
use crate::parts::{Prepared, Wanted, prepared_parts};
use factor_tables::Softness;
use market_inputs::InputStop;
use net_case::Network;
use plain_list::Memory;
use prepared_text::{offers_text, outages_text, penalties_text};
use std::alloc::Global;

/// The tables that are prepared, whatever stands for each: its text, the name of its file. They are written in this order.
#[derive(Clone, Copy, Debug, Drop)]
pub struct PreparedTables<T> {
    pub offers: Option<T>,
    pub contingencies: Option<T>,
    pub penalties: Option<T>,
}

/// The texts of the tables, and what is told of them.
#[derive(Drop)]
pub struct Preparation {
    pub tables: PreparedTables<Vec<u8>>,
    pub text: Vec<u8>,
}

/// The text of the offers, where they are wanted.
fn offers_part(alloc: Global, prepared: &Prepared<'_>) -> Result<Option<Vec<u8>>, Memory>
    requires { IfSome prepared.now.offers (λ offers. AreOfUnits prepared.now.units offers.blocks) }
    ensures { IfOk result (λ text. option_map (λ bytes. bytes.items) text ≡ offers_part prepared.now) }
{
    match &prepared.offers {
        Some(offers) => Ok(Some(offers_text(alloc, &prepared.units, &offers.blocks)?)),
        None => Ok(None),
    }
}

/// That of the outages.
fn outages_part(alloc: Global, prepared: &Prepared<'_>) -> Result<Option<Vec<u8>>, Memory>
    ensures { IfOk result (λ text. option_map (λ bytes. bytes.items) text ≡ outages_part prepared.now) }
{
    match &prepared.outages {
        Some(choice) => Ok(Some(outages_text(alloc, &choice.listed)?)),
        None => Ok(None),
    }
}

/// That of the penalties.
fn penalties_part(
    alloc: Global,
    network: &Network,
    softness: Option<Softness>,
) -> Result<Option<Vec<u8>>, Memory>
    ensures { IfOk result (λ text. option_map (λ bytes. bytes.items) text ≡ penalties_part network.now softness) }
{
    match softness {
        Some(softness) => {
            let text = penalties_text(alloc, network, softness.price, softness.most_excess)?;
            Ok(Some(text))
        }
        None => Ok(None),
    }
}

/// Makes the tables that are wanted of the whole bytes of a case, and tells of them.
pub fn prepare(alloc: Global, case: &[u8], wanted: &Wanted) -> Result<Preparation, InputStop>
    requires { IsWanted wanted.now }
    ensures { IsToldAs (IsPreparation wanted.now case.now) (prepared_with result) }
{
    let prepared = prepared_parts(alloc, case, wanted)?;
    let tables = PreparedTables {
        offers: offers_part(alloc, &prepared)?,
        contingencies: outages_part(alloc, &prepared)?,
        penalties: penalties_part(alloc, &prepared.inputs.network, wanted.softness)?,
    };
    let text = prepared_text(alloc, wanted, &prepared)?;
    Ok(Preparation { tables, text })
}
