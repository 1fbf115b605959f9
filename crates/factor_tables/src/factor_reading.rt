//! Reading the tables of factors.

ghost use Rattle.std.specs.Prelude.{◌≡◌, ◌≢◌, ℕ, ◌+◌, ◌<◌, ◌≤◌, ◌^◌, ◌&&◌, not, unsigned_abs, length, map, get_or, [], Ok, Err, IfOk, IfErr, false};
ghost use Rattle.record_reading.specs.Gathering.{read_records};
ghost use Rattle.record_reading.specs.Steps.{checked, fine};
ghost use Rattle.market_data.specs.Scales.{most_factor};
ghost use Rattle.factor_tables.specs.Factors.{ArePairFactors, HasNoPairTwice, has_pair, marked_row};
ghost use Rattle.factor_tables.specs.Records.{FactorIsRead};
ghost use Rattle.factor_tables.specs.Rules.{IsRecordPair, loss_faults, record_faults, shift_faults};
ghost use Rattle.factor_tables.specs.Tables.{entry_in, factors_of, header_of, loss_of, shift_of};

use crate::TableFault;
use crate::by_pair::{Column, FactorTable, Loss, Pairs, Shift, marked_row};
use crate::cells::{FactorRecord, record_of};
use crate::names::{is_idle, is_live_branch, is_live_bus, is_row};
use csv_table::{Table, read_table};
use market_data::FactorPlaces;
use net_case::Network;
use std::alloc::Global;
use std::marker::PhantomData;

/// The header of the table of shift factors.
pub const SHIFT_HEADER: &[&str] = &["branch", "bus", "factor"];

/// The header of the table of outage factors.
pub const LOSS_HEADER: &[&str] = &["branch", "outage", "factor"];

/// Refuses a record that names a row that is not there, or one out of service with a factor that is not 0.
#[tactic(auto, unfolding(crate::specs::Rules::shift_faults))]
fn check_shift(network: &Network, numbers: FactorRecord, line: usize) -> Result<(), TableFault>
    requires { FactorIsRead numbers }
    ensures pair { IfOk result (λ _. IsRecordPair Column.Bus network.now.branch_rows numbers) }
    ensures is { result ≡ checked (shift_faults network.now line numbers) fine }
{
    if !is_row(network, numbers.branch) {
        return Err(TableFault::NoBranch { line });
    }
    if !network.has_bus(numbers.of) {
        return Err(TableFault::NoBus { line });
    }
    if is_idle(numbers.factor, is_live_branch(network, numbers.branch)) {
        return Err(TableFault::DeadBranch { line });
    }
    if is_idle(numbers.factor, is_live_bus(network, numbers.of)) {
        return Err(TableFault::DeadBus { line });
    }
    Ok(())
}

/// The same of an outage table.
#[tactic(auto, unfolding(crate::specs::Rules::loss_faults))]
fn check_loss(network: &Network, numbers: FactorRecord, line: usize) -> Result<(), TableFault>
    requires { FactorIsRead numbers }
    ensures pair { IfOk result (λ _. IsRecordPair Column.Outage network.now.branch_rows numbers) }
    ensures is { result ≡ checked (loss_faults network.now line numbers) fine }
{
    if !is_row(network, numbers.branch) {
        return Err(TableFault::NoBranch { line });
    }
    if !is_row(network, numbers.of) {
        return Err(TableFault::NoBranch { line });
    }
    if is_idle(numbers.factor, is_live_branch(network, numbers.branch)) {
        return Err(TableFault::DeadBranch { line });
    }
    if is_idle(numbers.factor, is_live_branch(network, numbers.of)) {
        return Err(TableFault::DeadBranch { line });
    }
    Ok(())
}

fn check_names(
    network: &Network,
    column: Column,
    numbers: FactorRecord,
    line: usize,
) -> Result<(), TableFault>
    requires { FactorIsRead numbers }
    ensures pair { IfOk result (λ _. IsRecordPair column network.now.branch_rows numbers) }
    ensures is { result ≡ checked (record_faults column network.now line numbers) fine }
{
    match column {
        Column::Bus => check_shift(network, numbers, line),
        Column::Outage => check_loss(network, numbers, line),
    }
}

/// The pair and the factor of a record, in the light of those before it.
#[tactic(auto, unfolding(crate::specs::Tables::entry_in))]
fn entry_of(
    network: &Network,
    column: Column,
    done: &Pairs,
    table: &Table,
    place: usize,
    places: FactorPlaces,
) -> Result<((u32, u32), i64), TableFault>
    requires { (place < length table.now) × (place + 2 < 2 ^ 64) }
    ensures new { IfOk result (λ entry. has_pair done.now.by_pair.entries entry.0 ≡ false) }
    ensures size { IfOk result (λ entry. unsigned_abs entry.1 ≤ most_factor) }
    ensures row { IfOk result (λ entry. marked_row column entry.0 ≤ network.now.branch_rows) }
    ensures is { result ≡ entry_in places network.now column done.now.by_pair.entries (place + 2) (get_or table.now place []) }
{
    let numbers = record_of(table, place, places)?;
    check_names(network, column, numbers, place + 2)?;
    let pair = (numbers.branch as u32, numbers.of as u32);
    if done.has(pair) {
        return Err(TableFault::Twice { line: place + 2 });
    }
    Ok((pair, numbers.factor))
}

/// The factors of a table's records.
fn pairs_of(
    alloc: Global,
    network: &Network,
    column: Column,
    table: &Table,
    places: FactorPlaces,
) -> Result<Pairs, TableFault>
    ensures kept { IfOk result (ArePairFactors column) }
    ensures ok { IfOk result (λ pairs. read_records (entry_in places network.now column) [] 2 table.now ≡ Ok pairs.by_pair.entries) }
    ensures err { IfErr result (λ fault. fault ≢ TableFault.Memory → read_records (entry_in places network.now column) [] 2 table.now ≡ Err fault) }
{
    let mut pairs = Pairs::new(alloc, network.branch_rows(), table.len())?;
    for place in 0..table.len() {
        let (pair, factor) = entry_of(network, column, &pairs, table, place, places)?;
        pairs.add(pair, factor, marked_row(column, pair))?;
    }
    Ok(pairs)
}

/// The factors of a table of this kind, under its header.
fn factors_of(
    alloc: Global,
    network: &Network,
    column: Column,
    header: &[&str],
    bytes: &[u8],
    places: FactorPlaces,
) -> Result<Pairs, TableFault>
    requires { map (λ name. name.now) header.now ≡ header_of column }
    ensures kept { IfOk result (ArePairFactors column) }
    ensures ok { IfOk result (λ pairs. factors_of column network.now bytes.now places ≡ Ok pairs.by_pair.entries) }
    ensures err { IfErr result (λ fault. fault ≢ TableFault.Memory → factors_of column network.now bytes.now places ≡ Err fault) }
{
    let table = read_table(alloc, bytes, header, None)??;
    pairs_of(alloc, network, column, &table, places)
}

/// Reads a shift table, whose factors may have so many places.
pub fn shift(
    alloc: Global,
    network: &Network,
    bytes: &[u8],
    places: FactorPlaces,
) -> Result<Shift, TableFault>
    ensures once { IfOk result (λ shift. HasNoPairTwice shift.entries) }
    ensures is { result ≢ Err TableFault.Memory → result ≡ shift_of network.now bytes.now places }
{
    let pairs = factors_of(alloc, network, Column::Bus, SHIFT_HEADER, bytes, places)?;
    Ok(FactorTable {
        places,
        pairs,
        kind: PhantomData,
    })
}

/// Reads an outage table, whose factors may have so many places.
pub fn outage(
    alloc: Global,
    network: &Network,
    bytes: &[u8],
    places: FactorPlaces,
) -> Result<Loss, TableFault>
    ensures once { IfOk result (λ loss. HasNoPairTwice loss.entries) }
    ensures is { result ≢ Err TableFault.Memory → result ≡ loss_of network.now bytes.now places }
{
    let pairs = factors_of(alloc, network, Column::Outage, LOSS_HEADER, bytes, places)?;
    Ok(FactorTable {
        places,
        pairs,
        kind: PhantomData,
    })
}
