//! Reading the branch rows of a case.

ghost use Rattle.std.specs.Prelude.{◌≡◌, ◌≢◌, ℕ, ◌≤◌, ◌<◌, [], length, map, All, IfOk, IfSome, Err, Ok};
ghost use Rattle.market_data.specs.Participants.{IsDatum};
ghost use Rattle.market_data.specs.Scales.{most_lines};
ghost use Rattle.record_reading.specs.Gathering.{gather};
ghost use Rattle.net_case.specs.Networks.{IsNetBranch, IsLimit, AreRows, ArePlaces};
ghost use Rattle.net_case.specs.NetworkReading.{row_at, cell_in, is_infinite, is_below_all, rated_limit, limit_in, shifted_in, post_column, limits_in, branch_where, branch_row, branch_count, branches_in};

use crate::bus_rows::named_place;
use crate::cells::{cell_fault, in_service, number, row_count, sign};
use crate::columns::{BR_STATUS, F_BUS, RATE_A, RATE_B, RATE_C, SHIFT, T_BUS};
use crate::live_parts::{Branches, NetBranch, NetFault, Places, PostRating, place_of_number};
use case_text::{Field, RawCase};
use market_data::{MOST_LINES, MW_PLACES};
use plain_list::List;
use record_reading::{Why, push_some};
use scaled_decimal::Sign;
use std::alloc::Global;

/// Whether a cell is infinity, without a minus sign.
fn is_infinite(cell: &[u8]) -> bool
    ensures { result ≡ is_infinite cell.now }
{
    cell == b"Inf".as_slice()
        || cell == b"inf".as_slice()
        || cell == b"+Inf".as_slice()
        || cell == b"+inf".as_slice()
}

/// Whether a cell is infinity with a minus sign.
fn is_below_all(cell: &[u8]) -> bool
    ensures { result ≡ is_below_all cell.now }
{
    cell == b"-Inf".as_slice() || cell == b"-inf".as_slice()
}

/// The limit that a rating is; 0 is none.
#[tactic(auto, unfolding(crate::specs::NetworkReading::rated_limit))]
fn rated_limit(row: usize, col: usize, rating: i64) -> Result<Option<i64>, NetFault>
    requires { IsDatum rating }
    ensures limit { IfOk result (λ limit. IfSome limit IsLimit) }
    ensures is { result ≡ rated_limit row col rating }
{
    if rating < 0 {
        return Err(cell_fault(Field::Branch, row, col, Why::Bounds));
    }
    if rating == 0 {
        return Ok(None);
    }
    Ok(Some(rating))
}

/// The limit in a cell; 0 and infinity are none.
#[tactic(auto, unfolding(crate::specs::NetworkReading::limit_in))]
fn limit(case: &RawCase<'_>, row: usize, col: usize) -> Result<Option<i64>, NetFault>
    requires { (1 ≤ row) × (1 ≤ col) }
    ensures limit { IfOk result (λ limit. IfSome limit IsLimit) }
    ensures is { result ≡ limit_in row (row_at case.now.branch row) col }
{
    let cell = case.cell(Field::Branch, row, col);
    if is_infinite(cell) {
        return Ok(None);
    }
    if is_below_all(cell) {
        return Err(cell_fault(Field::Branch, row, col, Why::Bounds));
    }
    let rating = number(case, Field::Branch, row, col, MW_PLACES)?;
    rated_limit(row, col, rating)
}

/// Whether the phase shift angle of a branch row is not 0.
#[tactic(auto, unfolding(crate::specs::NetworkReading::shifted_in))]
fn shifted(case: &RawCase<'_>, row: usize) -> Result<bool, NetFault>
    requires { 1 ≤ row }
    ensures { result ≡ shifted_in row (row_at case.now.branch row) }
{
    match sign(case, Field::Branch, row, SHIFT)? {
        Sign::Zero => Ok(false),
        Sign::Below | Sign::Above => Ok(true),
    }
}

/// The column of the rating that is the limit after an outage.
fn post_column(post: PostRating) -> usize
    ensures is { result ≡ post_column post }
    ensures range { 1 ≤ result }
{
    match post {
        PostRating::A => RATE_A,
        PostRating::B => RATE_B,
        PostRating::C => RATE_C,
    }
}

/// A live branch with its limits.
#[tactic(auto, unfolding(crate::specs::NetworkReading::limits_in))]
fn live_branch(
    case: &RawCase<'_>,
    post: PostRating,
    row: u32,
    from: usize,
    to: usize,
) -> Result<NetBranch, NetFault>
    requires { 1 ≤ row }
    ensures branch { (buses : ℕ) → from < buses → to < buses → IfOk result (IsNetBranch buses) }
    ensures row { IfOk result (λ branch. branch.row ≡ row) }
    ensures is { result ≡ limits_in post row (row_at case.now.branch row) from to }
{
    if from == to {
        return Err(NetFault::SameEnds { row: row as usize });
    }
    let base = limit(case, row as usize, RATE_A)?;
    let post = limit(case, row as usize, post_column(post))?;
    let shifted = shifted(case, row as usize)?;
    Ok(NetBranch {
        row,
        from,
        to,
        base,
        post,
        shifted,
    })
}

/// The branch of a row, where both its buses are live and it is in service.
#[tactic(auto, unfolding(crate::specs::NetworkReading::branch_where))]
fn branch_at(
    case: &RawCase<'_>,
    post: PostRating,
    row: u32,
    ends: (Option<usize>, Option<usize>),
    in_service: bool,
) -> Result<Option<NetBranch>, NetFault>
    requires { 1 ≤ row }
    ensures branch { (buses : ℕ) → IfSome ends.0 (λ place. place < buses) → IfSome ends.1 (λ place. place < buses) → IfOk result (λ branch. IfSome branch (IsNetBranch buses)) }
    ensures row { IfOk result (λ branch. IfSome branch (λ branch. branch.row ≡ row)) }
    ensures is { result ≡ branch_where post row (row_at case.now.branch row) ends.0 ends.1 in_service }
{
    match ends {
        (Some(from), Some(to)) if in_service => match live_branch(case, post, row, from, to) {
            Ok(branch) => Ok(Some(branch)),
            Err(fault) => Err(fault),
        },
        _ => Ok(None),
    }
}

/// The branch of a row, where it is live.
#[tactic(auto, unfolding(crate::specs::NetworkReading::branch_row))]
fn read_branch(
    case: &RawCase<'_>,
    places: &Places,
    post: PostRating,
    row: u32,
) -> Result<Option<NetBranch>, NetFault>
    requires { 1 ≤ row }
    ensures branch { (buses : ℕ) → ArePlaces buses places.now.entries → IfOk result (λ branch. IfSome branch (IsNetBranch buses)) }
    ensures row { IfOk result (λ branch. IfSome branch (λ branch. branch.row ≡ row)) }
    ensures is { result ≡ branch_row post places.now.entries row (row_at case.now.branch row) }
{
    let f_bus = number(case, Field::Branch, row as usize, F_BUS, 0)?;
    let t_bus = number(case, Field::Branch, row as usize, T_BUS, 0)?;
    let from = named_place(place_of_number(places, f_bus), Field::Branch, row as usize)?;
    let to = named_place(place_of_number(places, t_bus), Field::Branch, row as usize)?;
    let in_service = in_service(case, Field::Branch, row as usize, BR_STATUS)?;
    branch_at(case, post, row, (from, to), in_service)
}

/// The live branches.
fn live_branches(
    alloc: Global,
    case: &RawCase<'_>,
    places: &Places,
    post: PostRating,
    count: usize,
) -> Result<List<NetBranch>, NetFault>
    requires count { count ≤ most_lines }
    requires all { count ≡ length case.now.branch }
    ensures count { IfOk result (λ branches. length branches ≤ count) }
    ensures branches { (buses : ℕ) → ArePlaces buses places.now.entries → IfOk result (All (IsNetBranch buses)) }
    ensures rows { IfOk result (λ branches. AreRows count (map (λ branch. branch.row) branches)) }
    ensures is { result ≢ Err NetFault.Memory → result ≡ gather (λ _. branch_row post places.now.entries) [] 1 case.now.branch }
{
    let mut branches = List::new(alloc);
    for row in 0..count {
        let branch = read_branch(case, places, post, row as u32 + 1)?;
        push_some(&mut branches, branch)?;
    }
    Ok(branches)
}

/// The number of branch rows, where they are read.
pub fn count_branches(case: &RawCase<'_>, branches: Branches) -> Result<usize, NetFault>
    ensures few { IfOk result (λ count. count ≤ most_lines) }
    ensures is { result ≡ branch_count branches case.now.branch }
{
    match branches {
        Branches::Skip => Ok(0),
        Branches::Read(_) => row_count(case, Field::Branch, MOST_LINES),
    }
}

/// The live branches, where branch rows are read.
pub fn read_branches(
    alloc: Global,
    case: &RawCase<'_>,
    places: &Places,
    branches: Branches,
    count: usize,
) -> Result<List<NetBranch>, NetFault>
    requires few { count ≤ most_lines }
    requires count { branch_count branches case.now.branch ≡ Ok count }
    ensures count { IfOk result (λ branches. length branches ≤ count) }
    ensures branches { (buses : ℕ) → ArePlaces buses places.now.entries → IfOk result (All (IsNetBranch buses)) }
    ensures rows { IfOk result (λ branches. AreRows count (map (λ branch. branch.row) branches)) }
    ensures is { result ≢ Err NetFault.Memory → result ≡ branches_in branches places.now.entries case.now.branch }
{
    match branches {
        Branches::Skip => Ok(List::new(alloc)),
        Branches::Read(post) => live_branches(alloc, case, places, post, count),
    }
}
