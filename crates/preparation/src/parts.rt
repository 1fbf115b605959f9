//! The parts that are made of a case, one after the other.

ghost use Rattle.std.specs.Prelude.{◌≡◌, ◌≤◌, All, IfOk, IfSome};
ghost use Rattle.net_case.specs.NetworkReading.{unit_list_of};
ghost use Rattle.market_inputs.specs.Stops.{IsToldAs};
ghost use Rattle.preparation.specs.Parts.{AreChosen, AreOfUnits, AreOffered, AreParts, ArePrepared, IfAsked, IfWanted, IsWanted, unoffered_stop};
ghost use Rattle.unit_offers.specs.UnitOffers.{IsRanged};

use factor_tables::{Softness, TableFault};
use market_data::{MOST_OUTAGES, UnitList};
use market_inputs::{CaseInputs, InputStop, case_inputs, unit_costs};
use net_case::{Network, PostRating};
use outage_choice::{OutageChoice, choose_outages};
use plain_list::Memory;
use record_reading::FrameFault;
use refusal_text::{Input, Refusal};
use std::alloc::Global;
use unit_offers::{OfferStop, UnitOffers, laws, offers_of};

/// What is wanted of a case.
#[derive(Clone, Copy, Debug)]
pub struct Wanted {
    /// The rating that limits a branch after an outage.
    pub rating: PostRating,
    /// Into how many steps of one width a quadratic cost is cut on either side, from 1 to 20, where offers are wanted.
    pub steps: Option<u32>,
    /// Whether the outages that the network stands are.
    pub outages: bool,
    /// What each limit gives way for, where penalties are.
    pub softness: Option<Softness>,
}

/// A case with its network and its units, and what was wanted of them.
#[derive(Drop)]
pub struct Prepared<'a> {
    pub inputs: CaseInputs<'a>,
    pub units: UnitList,
    pub offers: Option<UnitOffers>,
    pub outages: Option<OutageChoice>,
}

/// Why there are no offers, as why the work ends.
fn unoffered(why: OfferStop) -> InputStop
    ensures { result ≡ unoffered_stop why }
{
    match why {
        OfferStop::Memory => InputStop::Memory,
        _ => InputStop::Refused(Refusal::Unoffered(why)),
    }
}

/// The offers of the units of a case.
fn case_offers(
    alloc: Global,
    case: &[u8],
    units: &UnitList,
    steps: u32,
) -> Result<UnitOffers, InputStop>
    requires units { All (IsRanged units.now.rows) units.now.units }
    requires steps { 1 ≤ steps }
    ensures { IsToldAs (AreOffered case.now units.now steps) result }
{
    let costs = unit_costs(alloc, case)?;
    match offers_of(alloc, units, &costs, steps) {
        Ok(offers) => Ok(offers),
        Err(why) => Err(unoffered(why)),
    }
}

/// The same where they are wanted.
fn offers_if_wanted(
    alloc: Global,
    case: &[u8],
    units: &UnitList,
    steps: Option<u32>,
) -> Result<Option<UnitOffers>, InputStop>
    requires units { All (IsRanged units.now.rows) units.now.units }
    requires steps { IfSome steps (λ count. 1 ≤ count) }
    ensures { IsToldAs (IfWanted (AreOffered case.now units.now) steps) result }
{
    match steps {
        Some(steps) => Ok(Some(case_offers(alloc, case, units, steps)?)),
        None => Ok(None),
    }
}

/// The outages that the network stands, of which there are no more than may be listed.
fn network_outages(alloc: Global, network: &Network) -> Result<OutageChoice, InputStop>
    ensures { IsToldAs (AreChosen network.now) result }
{
    let choice = choose_outages(alloc, network)?;
    let count = choice.listed.len();
    if count > MOST_OUTAGES {
        let fault = TableFault::Frame(FrameFault::TooMany { count });
        return Err(InputStop::Refused(Refusal::Table(Input::Contingencies, fault)));
    }
    Ok(choice)
}

/// The same where they are wanted.
fn outages_if_wanted(
    alloc: Global,
    network: &Network,
    wanted: bool,
) -> Result<Option<OutageChoice>, InputStop>
    ensures { IsToldAs (IfAsked (AreChosen network.now) wanted) result }
{
    if !wanted {
        return Ok(None);
    }
    Ok(Some(network_outages(alloc, network)?))
}

/// The units of a network, each with the range that its offers are of.
fn network_units(alloc: Global, network: &Network) -> Result<UnitList, Memory>
    ensures is { IfOk result (λ units. units ≡ unit_list_of network.now) }
    ensures ranged { IfOk result (λ units. All (IsRanged units.rows) units.units) }
{
    laws::network_units();
    let _ = network.units();
    network.unit_list(alloc)
}

/// Makes what is wanted of a case with its network: first the offers of its units, then the outages.
fn parts_of<'a>(
    alloc: Global,
    case: &'a [u8],
    inputs: CaseInputs<'a>,
    wanted: &Wanted,
) -> Result<Prepared<'a>, InputStop>
    requires { IsWanted wanted.now }
    ensures told { IsToldAs (AreParts wanted.now case.entry.now inputs.entry) result }
    ensures placed { IfOk result (λ p. IfSome p.offers (λ offers. AreOfUnits p.units offers.blocks)) }
{
    laws::offer_blocks();
    let units = network_units(alloc, &inputs.network)?;
    let offers = offers_if_wanted(alloc, case, &units, wanted.steps)?;
    let outages = outages_if_wanted(alloc, &inputs.network, wanted.outages)?;
    Ok(Prepared {
        inputs,
        units,
        offers,
        outages,
    })
}

/// Makes what is wanted of the whole bytes of a case, of which its network comes first.
pub(crate) fn prepared_parts<'a>(
    alloc: Global,
    case: &'a [u8],
    wanted: &Wanted,
) -> Result<Prepared<'a>, InputStop>
    requires { IsWanted wanted.now }
    ensures told { IsToldAs (ArePrepared wanted.now case.entry.now) result }
    ensures placed { IfOk result (λ p. IfSome p.offers (λ offers. AreOfUnits p.units offers.blocks)) }
{
    let inputs = case_inputs(alloc, case, wanted.rating)?;
    parts_of(alloc, case, inputs, wanted)
}
