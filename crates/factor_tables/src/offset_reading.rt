//! Reading the table of offsets.

ghost use Rattle.std.specs.Prelude.{◌≡◌, ◌≢◌, ℕ, ◌+◌, ◌<◌, ◌^◌, length, get_or, [], List, Ok, Err, IfOk, IfErr, is_some, option_map, false};
ghost use Rattle.std.specs.List.{find};
ghost use Rattle.record_reading.specs.Gathering.{read_records};
ghost use Rattle.record_reading.specs.Steps.{checked, fine};
ghost use Rattle.market_data.specs.Participants.{IsDatum};
ghost use Rattle.factor_tables.specs.Offsets.{AreOffsets, OffsetEntry, has_offset, offset_entry, offset_faults, offsets_of, wants_offset, with_all_offsets};
ghost use Rattle.factor_tables.specs.Records.{OffsetIsRead};
ghost use Rattle.factor_tables.specs.Rules.{IsRowOf};

use crate::TableFault;
use crate::cells::{OffsetRecord, offset_of};
use crate::names::{is_idle, is_live_branch, is_row};
use crate::offset_list::Offsets;
use csv_table::{Table, read_table};
use indexmap::IndexMap;
use net_case::{NetBranch, Network};
use std::alloc::Global;

/// The header of the table of offsets.
pub const OFFSET_HEADER: &[&str] = &["branch", "mw"];

/// Refuses a record that names a row that is not there, or one out of service with an offset that is not 0.
#[tactic(auto, unfolding(crate::specs::Offsets::offset_faults))]
fn check_offset(network: &Network, numbers: OffsetRecord, line: usize) -> Result<(), TableFault>
    requires { OffsetIsRead numbers }
    ensures row { IfOk result (λ _. IsRowOf network.now.branch_rows numbers.branch) }
    ensures is { result ≡ checked (offset_faults network.now line numbers) fine }
{
    if !is_row(network, numbers.branch) {
        return Err(TableFault::NoBranch { line });
    }
    if is_idle(numbers.mw, is_live_branch(network, numbers.branch)) {
        return Err(TableFault::DeadBranch { line });
    }
    Ok(())
}

/// Whether a branch has a record.
fn has_record(by_row: &IndexMap<u32, i64>, branch: u32) -> bool
    ensures { result ≡ has_offset by_row.now.entries branch }
{
    by_row.contains_key(&branch)
}

/// The branch row and the offset of a record, in the light of those before it.
#[tactic(auto, unfolding(crate::specs::Offsets::offset_entry))]
fn entry_of(
    network: &Network,
    done: &IndexMap<u32, i64>,
    table: &Table,
    place: usize,
) -> Result<(u32, i64), TableFault>
    requires { (place < length table.now) × (place + 2 < 2 ^ 64) }
    ensures new { IfOk result (λ entry. has_offset done.now.entries entry.0 ≡ false) }
    ensures datum { IfOk result (λ entry. IsDatum entry.1) }
    ensures is { result ≡ offset_entry network.now done.now.entries (place + 2) (get_or table.now place []) }
{
    let numbers = offset_of(table, place)?;
    check_offset(network, numbers, place + 2)?;
    let branch = numbers.branch as u32;
    if has_record(done, branch) {
        return Err(TableFault::Twice { line: place + 2 });
    }
    Ok((branch, numbers.mw))
}

/// The offsets of a table's records.
fn entries_of(
    alloc: Global,
    network: &Network,
    table: &Table,
) -> Result<IndexMap<u32, i64>, TableFault>
    ensures kept { IfOk result (λ by_row. AreOffsets by_row.entries) }
    ensures ok { IfOk result (λ by_row. read_records (offset_entry network.now) [] 2 table.now ≡ Ok by_row.entries) }
    ensures err { IfErr result (λ fault. fault ≢ TableFault.Memory → read_records (offset_entry network.now) [] 2 table.now ≡ Err fault) }
{
    let mut by_row = IndexMap::new(alloc);
    for place in 0..table.len() {
        let (branch, mw) = entry_of(network, &by_row, table, place)?;
        if by_row.insert(branch, mw).is_err() {
            return Err(TableFault::Memory);
        }
    }
    Ok(by_row)
}

/// Whether a branch shifts phases and has no record.
fn wants_offset(by_row: &IndexMap<u32, i64>, branch: &NetBranch) -> bool
    ensures { result ≡ wants_offset by_row.now.entries branch.now }
{
    branch.shifted && !has_record(by_row, branch.row)
}

/// The row of the first of these branches that shifts phases and has no record.
fn missing(by_row: &IndexMap<u32, i64>, branches: &[NetBranch]) -> Option<u32>
    ensures { result ≡ option_map (λ branch. branch.row) (find (wants_offset by_row.now.entries) branches.now) }
{
    for branch in branches {
        if wants_offset(by_row, branch) {
            return Some(branch.row);
        }
    }
    None
}

/// Reads the table of offsets, in 10^-9 MW.
pub fn offsets(alloc: Global, network: &Network, bytes: &[u8]) -> Result<Offsets, TableFault>
    ensures { result ≢ Err TableFault.Memory → result ≡ offsets_of network.now bytes.now }
{
    let table = read_table(alloc, bytes, OFFSET_HEADER, None)??;
    let by_row = entries_of(alloc, network, &table)?;
    match missing(&by_row, network.branches().slice()) {
        Some(branch) => Err(TableFault::NoOffset { branch }),
        None => Ok(Offsets { by_row }),
    }
}
