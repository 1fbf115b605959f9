//! The reactances of live branches.

ghost use Rattle.std.specs.Prelude.{◌≡◌, ◌≢◌, ◌≤◌, ◌*ℤ◌, pos, neg_ℤ, ◌≤ℤ◌, length, All, IfOk, unsigned_abs, Err};
ghost use Rattle.market_data.specs.Scales.{most_ratio, most_reactance, most_scaled_reactance};
ghost use Rattle.net_case.specs.NetworkReading.{row_at};
ghost use Rattle.net_case.specs.ReactanceReading.{bounded_in, ratio_of, reactance_in, reactances_of};

use crate::cells::{cell_fault, number};
use crate::columns::{BR_X, TAP};
use crate::live_parts::{NetFault, Network};
use case_text::{Field, RawCase};
use market_data::{MOST_RATIO, MOST_REACTANCE, RATIO_ONE, REACTANCE_PLACES};
use plain_list::List;
use record_reading::Why;
use std::alloc::Global;

/// By live branch, BR_X times the ratio of TAP, in 10^-18 (`SCALED_REACTANCE_PLACES`).
pub type Reactances = List<i128>;

/// The number in a branch row's cell, within bounds.
#[tactic(auto, unfolding(crate::specs::ReactanceReading::bounded_in))]
fn bounded(case: &RawCase<'_>, row: usize, col: usize, low: i64, high: i64) -> Result<i64, NetFault>
    requires { (1 ≤ row) × (1 ≤ col) }
    ensures range { IfOk result (λ number. (low ≤ℤ number) × (number ≤ℤ high)) }
    ensures is { result ≡ bounded_in row (row_at case.now.branch row) col low high }
{
    let number = number(case, Field::Branch, row, col, REACTANCE_PLACES)?;
    if low <= number && number <= high {
        Ok(number)
    } else {
        Err(cell_fault(Field::Branch, row, col, Why::Bounds))
    }
}

/// The ratio that a TAP stands for: 0 counts as 1.
fn ratio_of(tap: i64) -> i64
    requires { (pos 0 ≤ℤ tap) × (tap ≤ℤ pos most_ratio) }
    ensures range { (pos 0 ≤ℤ result) × (result ≤ℤ pos most_ratio) }
    ensures is { result ≡ ratio_of tap }
{
    if tap == 0 { RATIO_ONE } else { tap }
}

/// The reactance of a BR_X and a ratio.
fn product(x: i64, ratio: i64) -> i128
    requires x { (neg_ℤ (pos most_reactance) ≤ℤ x) × (x ≤ℤ pos most_reactance) }
    requires ratio { (pos 0 ≤ℤ ratio) × (ratio ≤ℤ pos most_ratio) }
    ensures { result ≡ x *ℤ ratio }
{
    i128::from(x) * i128::from(ratio)
}

/// The reactance of a branch row.
#[tactic(auto, unfolding(crate::specs::ReactanceReading::reactance_in))]
fn reactance(case: &RawCase<'_>, row: usize) -> Result<i128, NetFault>
    requires { 1 ≤ row }
    ensures size { IfOk result (λ x. unsigned_abs x ≤ most_scaled_reactance) }
    ensures is { result ≡ reactance_in row (row_at case.now.branch row) }
{
    let x = bounded(case, row, BR_X, -MOST_REACTANCE, MOST_REACTANCE)?;
    let tap = bounded(case, row, TAP, 0, MOST_RATIO)?;
    Ok(product(x, ratio_of(tap)))
}

/// The reactances of a network's live branches, by the rows of a case.
pub fn reactances(
    alloc: Global,
    case: &RawCase<'_>,
    network: &Network,
) -> Result<Reactances, NetFault>
    ensures count { IfOk result (λ list. length list ≡ length network.now.branches) }
    ensures size { IfOk result (All (λ x. unsigned_abs x ≤ most_scaled_reactance)) }
    ensures is { result ≢ Err NetFault.Memory → result ≡ reactances_of case.now network.now }
{
    let mut list = List::new(alloc);
    for branch in network.branches().slice() {
        list.push(reactance(case, branch.row as usize)?)?;
    }
    Ok(list)
}
