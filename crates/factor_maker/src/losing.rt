//! Outage factors.

ghost use Rattle.std.specs.Prelude.{◌≡◌, ◌<◌, ◌≤◌, ◌++◌, ℕ, List, length, map, All, IfErr, IfOk, Some};
ghost use Rattle.net_case.specs.Networks.{IsNetwork};
ghost use Rattle.net_case.specs.declared.live_parts.NetBranch.{NetBranch};
ghost use Rattle.factor_tables.specs.declared.made.MadeFactor.{MadeFactor};
ghost use Rattle.net_paths.specs.Connection.{JoinAll};
ghost use Rattle.net_paths.specs.Detours.{IsBranchOf, IsLiveRow};
ghost use Rattle.net_paths.specs.Loops.{kept};
ghost use Rattle.outage_list.specs.Listing.{AreOutages, IsOutage};
ghost use Rattle.factor_residuals.specs.Residuals.{AreReactances, places_below};
ghost use Rattle.dc_network.specs.DcNetworks.{ArePositive, dc_network};
ghost use Rattle.dc_network.specs.Laws.{IsSound};
ghost use Rattle.factor_maker.specs.Columns.{AreColumn, AreLossRecords, AreOutageRecords, made_of};
ghost use Rattle.factor_maker.specs.Made.{IsMadeLoss};
ghost use Rattle.factor_maker.specs.Stops.{IsLossStop, IsOutagePair, IsPairOfOne, OnPassed, loss_count, most_made};

use crate::columns::guessed_column;
use crate::exact_columns::{differences, flows_from, rounded};
use crate::lines::{flows_of, guesser_of, kept_branches};
use crate::stops::{MakeStop, check_count, check_positive, flow_stop};
use exact_fraction::{Exact, Frac};
use factor_tables::{Loss, MadeFactor};
use market_data::FactorPlaces;
use net_case::{NetBranch, Network, Reactances};
use net_paths::branch_of;
use outage_list::Outages;
use plain_list::{List, Memory};
use std::alloc::Global;

/// The column of a lost branch by exact fractions; so many others are live.
fn exact_column(
    alloc: Global,
    network: &Network,
    reactances: &Reactances,
    lost: &NetBranch,
    others: usize,
    places: FactorPlaces,
) -> Result<List<i64>, MakeStop<Frac>>
    requires sound { IsSound network.now reactances.now (Some lost.now.row) }
    requires lost { IsBranchOf network.now lost.now.row lost.now }
    requires others { others ≡ length (kept (Some lost.now.row) network.now.branches) }
    ensures column { IfOk result (AreColumn (dc_network network.now reactances.now (Some lost.now.row)) network.now.reference lost.now.from lost.now.to places) }
    ensures stop { IfErr result (λ stop. OnPassed stop (IsOutagePair ⟦<Frac as Exact>⟧.value ⟦<Frac as Exact>⟧.bound network.now reactances.now lost.now)) }
{
    let flows = match flows_of(alloc, network, reactances, Some(lost.row)) {
        Ok(flows) => flows,
        Err(stop) => return Err(flow_stop(stop)),
    };
    let buses = network.buses().len();
    let from_source = flows_from(alloc, flows.slice(), others, buses, lost.from)?;
    let from_sink = flows_from(alloc, flows.slice(), others, buses, lost.to)?;
    let factors = differences(alloc, from_source.slice(), from_sink.slice())?;
    Ok(rounded(alloc, factors.slice(), places)?)
}

/// The column of a lost branch: what the others carry of 1 from its F_BUS to its T_BUS.
fn column_of(
    alloc: Global,
    network: &Network,
    reactances: &Reactances,
    lost: &NetBranch,
    others: usize,
    places: FactorPlaces,
) -> Result<List<i64>, MakeStop<Frac>>
    requires sound { IsSound network.now reactances.now (Some lost.now.row) }
    requires lost { IsBranchOf network.now lost.now.row lost.now }
    requires others { others ≡ length (kept (Some lost.now.row) network.now.branches) }
    ensures column { IfOk result (AreColumn (dc_network network.now reactances.now (Some lost.now.row)) network.now.reference lost.now.from lost.now.to places) }
    ensures stop { IfErr result (λ stop. OnPassed stop (IsOutagePair ⟦<Frac as Exact>⟧.value ⟦<Frac as Exact>⟧.bound network.now reactances.now lost.now)) }
{
    let guesser = guesser_of(alloc, network, reactances, Some(lost.row))?;
    match guessed_column(alloc, &guesser, lost.from, lost.to, places)? {
        Some(column) => Ok(column),
        None => exact_column(alloc, network, reactances, lost, others, places),
    }
}

/// Adds the records of a column.
fn add_records(
    records: &mut List<MadeFactor>,
    branches: &[NetBranch],
    of: u32,
    units: &[i64],
) -> Result<(), Memory>
    requires count { length units.now ≡ length branches.now }
    ensures { IfOk result (λ _. records.new ≡ records.old ++ map (made_of branches.now of units.now) (places_below (length branches.now))) }
{
    for place in 0..branches.len() {
        records.push(MadeFactor {
            branch: branches[place].row,
            of,
            units: units[place],
        })?;
    }
    Ok(())
}

/// Adds the records of an outage.
fn add_outage(
    alloc: Global,
    network: &Network,
    reactances: &Reactances,
    outage: u32,
    places: FactorPlaces,
    records: &mut List<MadeFactor>,
) -> Result<(), MakeStop<Frac>>
    requires sound { IsSound network.now reactances.now (Some outage) }
    requires live { IsLiveRow network.now outage }
    ensures added { IfOk result (λ _. (k : NetBranch) × IsBranchOf network.now outage k
        × (more : List MadeFactor) × (records.new ≡ records.old ++ more) × AreOutageRecords network.now reactances.now places k more) }
    ensures stop { IfErr result (λ stop. OnPassed stop (λ e. (k : NetBranch) × IsBranchOf network.now outage k
        × IsOutagePair ⟦<Frac as Exact>⟧.value ⟦<Frac as Exact>⟧.bound network.now reactances.now k e)) }
{
    let lost = branch_of(network, outage);
    let branches = kept_branches(alloc, network, Some(lost.row))?;
    let units = column_of(alloc, network, reactances, &lost, branches.len(), places)?;
    add_records(records, branches.slice(), lost.row, units.slice())?;
    Ok(())
}

/// The records by outage, and for each by branch other than it.
fn records_of(
    alloc: Global,
    network: &Network,
    reactances: &Reactances,
    outages: &Outages,
    places: FactorPlaces,
) -> Result<List<MadeFactor>, MakeStop<Frac>>
    requires network { IsNetwork network.now }
    requires reactances { AreReactances network.now reactances.now }
    requires positive { ArePositive reactances.now }
    requires joined { JoinAll network.now.branches (length network.now.buses) }
    requires outages { All (IsOutage network.now) outages.now }
    ensures records { IfOk result (AreLossRecords network.now reactances.now places outages.now) }
    ensures stop { IfErr result (λ stop. OnPassed stop (IsPairOfOne ⟦<Frac as Exact>⟧.value ⟦<Frac as Exact>⟧.bound network.now reactances.now outages.now)) }
{
    let mut records = List::new(alloc);
    for outage in outages.slice() {
        add_outage(alloc, network, reactances, *outage, places, &mut records)?;
    }
    Ok(records)
}

/// The factors of listed outages, rounded to so many places: by outage in the list's order, and for each by live branch other than it. There
/// is no answer where they would be more than `MOST_MADE`, counted with the lost branches, or else where a reactance is not above 0.
pub fn make_loss(
    alloc: Global,
    network: &Network,
    reactances: &Reactances,
    outages: &Outages,
    places: FactorPlaces,
) -> Result<Loss, MakeStop<Frac>>
    requires reactances { AreReactances network.now reactances.now }
    requires joined { JoinAll network.now.branches (length network.now.buses) }
    requires outages { AreOutages network.now outages.now }
    ensures made { IfOk result (IsMadeLoss network.now reactances.now outages.now places) }
    ensures few { IfOk result (λ _. loss_count network.now outages.now ≤ most_made) }
    ensures positive { IfOk result (λ _. ArePositive reactances.now) }
    ensures stop { IfErr result (IsLossStop ⟦<Frac as Exact>⟧.value ⟦<Frac as Exact>⟧.bound network.now reactances.now outages.now) }
{
    check_count(network.branches().len(), outages.len())?;
    check_positive(network, reactances)?;
    let records = records_of(alloc, network, reactances, outages, places)?;
    Ok(Loss::of(alloc, places, records.slice())?)
}
