//! Shift factors.

ghost use Rattle.std.specs.Prelude.{◌≡◌, ◌<◌, ◌≤◌, ◌++◌, ℕ, [], length, map, IfErr, IfOk, IfSome, None, slice_index_or};
ghost use Rattle.std.specs.List.{flat_map};
ghost use Rattle.net_paths.specs.Connection.{JoinAll};
ghost use Rattle.factor_residuals.specs.Residuals.{AreReactances, places_below};
ghost use Rattle.dc_network.specs.DcNetworks.{ArePositive, dc_network};
ghost use Rattle.dc_network.specs.Laws.{IsSound};
ghost use Rattle.exact_flows.specs.FlowSystems.{IsFlowStop};
ghost use Rattle.factor_maker.specs.Columns.{AreColumns, shift_made};
ghost use Rattle.factor_maker.specs.Made.{IsMadeShift};
ghost use Rattle.factor_maker.specs.Stops.{IsShiftStop, most_made, shift_count};

use crate::columns::guessed_column;
use crate::exact_columns::{flows_from, rounded};
use crate::lines::{flows_of, guesser_of};
use crate::stops::{MakeStop, check_count, check_positive, flow_stop};
use exact_flows::FlowStop;
use exact_fraction::{Exact, Frac};
use factor_tables::{MadeFactor, Shift};
use market_data::FactorPlaces;
use net_case::{Network, Reactances};
use net_paths::bus_number;
use plain_list::{List, Memory};
use std::alloc::Global;

/// For each bus the nearest units of what branches carry from there to the reference.
type Columns = List<List<i64>>;

/// The columns, where guesses tell all of them.
fn guessed_columns(
    alloc: Global,
    network: &Network,
    reactances: &Reactances,
    places: FactorPlaces,
) -> Result<Option<Columns>, Memory>
    requires sound { IsSound network.now reactances.now None }
    ensures { IfOk result (λ told. IfSome told (λ columns. (length columns ≡ length network.now.buses)
        × AreColumns (dc_network network.now reactances.now None) network.now.reference places columns)) }
{
    let guesser = guesser_of(alloc, network, reactances, None)?;
    let mut columns = List::new(alloc);
    for bus in 0..network.buses().len() {
        match guessed_column(alloc, &guesser, bus, network.reference(), places)? {
            Some(column) => columns.push(column)?,
            None => return Ok(None),
        }
    }
    Ok(Some(columns))
}

/// The columns by exact fractions.
fn exact_columns(
    alloc: Global,
    network: &Network,
    reactances: &Reactances,
    places: FactorPlaces,
) -> Result<Columns, FlowStop<Frac>>
    requires sound { IsSound network.now reactances.now None }
    ensures columns { IfOk result (λ columns. (length columns ≡ length network.now.buses)
        × AreColumns (dc_network network.now reactances.now None) network.now.reference places columns) }
    ensures stop { IfErr result (IsFlowStop ⟦<Frac as Exact>⟧.value ⟦<Frac as Exact>⟧.bound (dc_network network.now reactances.now None) network.now.reference) }
{
    let flows = flows_of(alloc, network, reactances, None)?;
    let branches = network.branches().len();
    let buses = network.buses().len();
    let mut columns = List::new(alloc);
    for bus in 0..buses {
        let factors = flows_from(alloc, flows.slice(), branches, buses, bus)?;
        columns.push(rounded(alloc, factors.slice(), places)?)?;
    }
    Ok(columns)
}

/// The columns of the shift factors.
fn columns_of(
    alloc: Global,
    network: &Network,
    reactances: &Reactances,
    places: FactorPlaces,
) -> Result<Columns, FlowStop<Frac>>
    requires sound { IsSound network.now reactances.now None }
    ensures columns { IfOk result (λ columns. (length columns ≡ length network.now.buses)
        × AreColumns (dc_network network.now reactances.now None) network.now.reference places columns) }
    ensures stop { IfErr result (IsFlowStop ⟦<Frac as Exact>⟧.value ⟦<Frac as Exact>⟧.bound (dc_network network.now reactances.now None) network.now.reference) }
{
    match guessed_columns(alloc, network, reactances, places)? {
        Some(columns) => Ok(columns),
        None => exact_columns(alloc, network, reactances, places),
    }
}

/// Adds the records of the branch at a place.
fn add_records(
    records: &mut List<MadeFactor>,
    network: &Network,
    columns: &[List<i64>],
    place: usize,
) -> Result<(), Memory>
    requires place { place < length network.now.branches }
    requires count { length columns.now ≡ length network.now.buses }
    requires units { (i : ℕ) → i < length columns.now → length (slice_index_or columns.now i []) ≡ length network.now.branches }
    ensures { IfOk result (λ _. records.new ≡ records.old ++ map (shift_made network.now columns.now place) (places_below (length network.now.buses))) }
{
    let branch = network.branches().slice()[place].row;
    for bus in 0..network.buses().len() {
        records.push(MadeFactor {
            branch,
            of: bus_number(network, bus),
            units: columns[bus].slice()[place],
        })?;
    }
    Ok(())
}

/// The records by branch, and for each by bus.
fn records_of(
    alloc: Global,
    network: &Network,
    columns: &[List<i64>],
) -> Result<List<MadeFactor>, Memory>
    requires count { length columns.now ≡ length network.now.buses }
    requires units { (i : ℕ) → i < length columns.now → length (slice_index_or columns.now i []) ≡ length network.now.branches }
    ensures { IfOk result (λ records. records ≡ flat_map (λ b. map (shift_made network.now columns.now b) (places_below (length network.now.buses))) (places_below (length network.now.branches))) }
{
    let mut records = List::new(alloc);
    for place in 0..network.branches().len() {
        add_records(&mut records, network, columns, place)?;
    }
    Ok(records)
}

/// The shift factors of a network, rounded to so many places: by branch, and for each by bus in row order, the reference too. There is no
/// answer where they would be more than `MOST_MADE`, or else where a reactance is not above 0.
pub fn make_shift(
    alloc: Global,
    network: &Network,
    reactances: &Reactances,
    places: FactorPlaces,
) -> Result<Shift, MakeStop<Frac>>
    requires reactances { AreReactances network.now reactances.now }
    requires joined { JoinAll network.now.branches (length network.now.buses) }
    ensures made { IfOk result (IsMadeShift network.now reactances.now places) }
    ensures few { IfOk result (λ _. shift_count network.now ≤ most_made) }
    ensures positive { IfOk result (λ _. ArePositive reactances.now) }
    ensures stop { IfErr result (IsShiftStop ⟦<Frac as Exact>⟧.value ⟦<Frac as Exact>⟧.bound network.now reactances.now) }
{
    check_count(network.branches().len(), network.buses().len())?;
    check_positive(network, reactances)?;
    let columns = match columns_of(alloc, network, reactances, places) {
        Ok(columns) => columns,
        Err(stop) => return Err(flow_stop(stop)),
    };
    let records = records_of(alloc, network, columns.slice())?;
    Ok(Shift::of(alloc, places, records.slice())?)
}
