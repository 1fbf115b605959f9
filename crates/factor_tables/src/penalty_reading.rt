//! Reading the table of penalties.

ghost use Rattle.std.specs.Prelude.{◌≡◌, ◌≢◌, ℕ, ◌+◌, ◌<◌, ◌^◌, length, get_or, [], List, Ok, Err, IfOk, IfErr, is_some, false};
ghost use Rattle.record_reading.specs.Gathering.{read_records};
ghost use Rattle.record_reading.specs.Steps.{checked, fine};
ghost use Rattle.factor_tables.specs.Penalties.{ArePenalties, IsSoftness, has_branch_limit, has_penalty, branch_limit, penalties_of, penalty_entry, penalty_faults};
ghost use Rattle.factor_tables.specs.Records.{PenaltyIsRead};
ghost use Rattle.factor_tables.specs.Rules.{IsRowOf};

use crate::TableFault;
use crate::cells::{PenaltyRecord, penalty_of};
use crate::names::is_row;
use crate::penalty_list::{Penalties, Softness};
use csv_table::{Table, read_table};
use indexmap::IndexMap;
use market_data::MOST_PENALTIES;
use net_case::{NetBranch, Network};
use std::alloc::Global;

/// The header of the table of penalties.
pub const PENALTY_HEADER: &[&str] = &["branch", "limit", "price", "excess"];

/// Whether a branch has a limit after an outage, or in the base.
fn is_limited(branch: &NetBranch, post: bool) -> bool
    ensures { result ≡ is_some (branch_limit post branch.now) }
{
    if post {
        branch.post.is_some()
    } else {
        branch.base.is_some()
    }
}

/// Whether a live branch of a row has such a limit.
fn has_branch_limit(network: &Network, row: i64, post: bool) -> bool
    ensures { result ≡ has_branch_limit network.now row post }
{
    let branches = network.branches().slice();
    branches.iter().any(|branch| i64::from(branch.row) == row && is_limited(branch, post))
}

/// Refuses a record that names no limit of the network, or has no penalty.
#[tactic(auto, unfolding(crate::specs::Penalties::penalty_faults))]
fn check_penalty(network: &Network, numbers: PenaltyRecord, line: usize) -> Result<(), TableFault>
    requires { PenaltyIsRead numbers }
    ensures row { IfOk result (λ _. IsRowOf network.now.branch_rows numbers.branch) }
    ensures kept { IfOk result (λ _. IsSoftness numbers.softness) }
    ensures is { result ≡ checked (penalty_faults network.now line numbers) fine }
{
    if !is_row(network, numbers.branch) {
        return Err(TableFault::NoBranch { line });
    }
    if !has_branch_limit(network, numbers.branch, numbers.post) {
        return Err(TableFault::NoLimit { line });
    }
    if numbers.softness.price <= 0 || numbers.softness.most_excess < 0 {
        return Err(TableFault::Penalty { line });
    }
    Ok(())
}

/// Whether a limit has a record.
fn has_record(by_limit: &IndexMap<(u32, bool), Softness>, limit: (u32, bool)) -> bool
    ensures { result ≡ has_penalty by_limit.now.entries limit }
{
    by_limit.contains_key(&limit)
}

/// The limit and the penalty of a record, in the light of those before it.
#[tactic(auto, unfolding(crate::specs::Penalties::penalty_entry))]
fn entry_of(
    network: &Network,
    done: &IndexMap<(u32, bool), Softness>,
    table: &Table,
    place: usize,
) -> Result<((u32, bool), Softness), TableFault>
    requires { (place < length table.now) × (place + 2 < 2 ^ 64) }
    ensures new { IfOk result (λ entry. has_penalty done.now.entries entry.0 ≡ false) }
    ensures kept { IfOk result (λ entry. IsSoftness entry.1) }
    ensures is { result ≡ penalty_entry network.now done.now.entries (place + 2) (get_or table.now place []) }
{
    let numbers = penalty_of(table, place)?;
    check_penalty(network, numbers, place + 2)?;
    let limit = (numbers.branch as u32, numbers.post);
    if has_record(done, limit) {
        return Err(TableFault::Twice { line: place + 2 });
    }
    Ok((limit, numbers.softness))
}

/// The penalties of a table's records.
fn entries_of(
    alloc: Global,
    network: &Network,
    table: &Table,
) -> Result<IndexMap<(u32, bool), Softness>, TableFault>
    ensures kept { IfOk result (λ by_limit. ArePenalties by_limit.entries) }
    ensures ok { IfOk result (λ by_limit. read_records (penalty_entry network.now) [] 2 table.now ≡ Ok by_limit.entries) }
    ensures err { IfErr result (λ fault. fault ≢ TableFault.Memory → read_records (penalty_entry network.now) [] 2 table.now ≡ Err fault) }
{
    let mut by_limit = IndexMap::new(alloc);
    for place in 0..table.len() {
        let (limit, penalty) = entry_of(network, &by_limit, table, place)?;
        if by_limit.insert(limit, penalty).is_err() {
            return Err(TableFault::Memory);
        }
    }
    Ok(by_limit)
}

/// Reads the table of penalties. Their prices are in 10^-6 per MWh, their excesses in 10^-9 MW.
pub fn penalties(alloc: Global, network: &Network, bytes: &[u8]) -> Result<Penalties, TableFault>
    ensures kept { IfOk result ArePenalties }
    ensures is { result ≢ Err TableFault.Memory → result ≡ penalties_of network.now bytes.now }
{
    let table = read_table(alloc, bytes, PENALTY_HEADER, Some(MOST_PENALTIES))??;
    let by_limit = entries_of(alloc, network, &table)?;
    Ok(Penalties { by_limit })
}
