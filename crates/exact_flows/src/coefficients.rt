//! The coefficients of the rows: what a branch carries, and what is put in at a bus, for each unit of an angle.
ghost use Rattle.std.specs.Prelude.{◌≡◌, ◌+◌, ◌<◌, ◌≤◌, ℕ, IfErr, IfOk, IsTrue, length, map, pos};
ghost use Rattle.exact_fraction.specs.Passes.{IsTooLargeAt};
ghost use Rattle.exact_fraction.specs.declared.Op.TheVariants as Op;
ghost use Rattle.exact_flows.specs.Building.{IsAmongBranches, bus_of};
ghost use Rattle.exact_flows.specs.FlowSystems.{IsFlowStop, IsRowOf, IsSumPair, bus_term, coefficient};
ghost use Rattle.exact_flows.specs.Lines.{line_branch, line_network};
ghost use Rattle.exact_flows.specs.declared.rows.Row.TheVariants as kind;
ghost use Rattle.fraction_theory.specs.Fraction.{whole, ◌*ℚ◌, ◌+ℚ◌};
ghost use Rattle.linear_dict.specs.Adding.{AreSums};
ghost use Rattle.market_data.specs.Scales.{most_buses};
ghost use Rattle.network_theory.specs.Carrying.{put_through};

use crate::line::Line;
use crate::rows::{Row, bus_at};
use crate::stop::FlowStop;
use exact_fraction::{Exact, Passed, exact_sum};
use plain_list::List;
use std::alloc::Global;

/// The amount at the first bus of a branch, its opposite at the second, and 0 at all others and where the two are one.
fn at_end<N: Exact>(from: usize, to: usize, bus: usize, amount: N) -> N
    ensures { N.value result ≡ put_through from to bus *ℚ N.value amount }
{
    if from == to {
        N::of_parts(0, 1)
    } else if from == bus {
        amount
    } else if to == bus {
        amount.neg()
    } else {
        N::of_parts(0, 1)
    }
}

/// Whether a branch is not at a bus.
fn is_away(from: usize, to: usize, bus: usize) -> bool
    ensures { IsTrue result → put_through from to bus ≡ whole (pos 0) }
{
    from != bus && to != bus
}

/// A sum with what a branch takes out of a bus for each unit of another angle. A branch that is not at both leaves it as it is.
fn add_branch<N: Exact>(sum: N, line: Line<N>, bus: usize, other: usize) -> Result<N, Passed<N>>
    ensures sum { IfOk result (λ more. N.value more ≡ N.value sum +ℚ bus_term bus other (line_branch N.value line)) }
    ensures stops { IfErr result (λ e. (left : N) × (right : N) × (N.value left ≡ N.value sum) × (N.value right ≡ bus_term bus other (line_branch N.value line))
        × IsTooLargeAt N.value N.bound Op.Plus left right e) }
{
    if is_away(line.from, line.to, bus) || is_away(line.from, line.to, other) {
        return Ok(sum);
    }
    let through = at_end(line.from, line.to, other, line.susceptance);
    let term = at_end(line.from, line.to, bus, through);
    exact_sum(sum, term)
}

/// What is put in at a bus for each unit of an angle: the sum over the branches of what they take out of the bus.
fn bus_coefficient<N: Exact>(lines: &[Line<N>], bus: usize, other: usize) -> Result<N, Passed<N>>
    ensures sum { IfOk result (λ sum. N.value sum ≡ coefficient (map (line_branch N.value) lines.now) (kind.Injection bus) other) }
    ensures stops { IfErr result (λ e. IsSumPair (map (line_branch N.value) lines.now) N.bound bus other e.op (N.value e.left) (N.value e.right)) }
{
    let mut sum = N::of_parts(0, 1);
    for k in 0..lines.len() {
        sum = add_branch(sum, lines[k], bus, other)?;
    }
    Ok(sum)
}

/// What a row gives for each unit of an angle.
fn row_coefficient<N: Exact>(lines: &[Line<N>], row: Row, other: usize) -> Result<N, Passed<N>>
    requires { IsAmongBranches (length lines.now) row }
    ensures number { IfOk result (λ number. N.value number ≡ coefficient (map (line_branch N.value) lines.now) row other) }
    ensures stops { IfErr result (λ e. (bus : ℕ) × (row ≡ kind.Injection bus) × IsSumPair (map (line_branch N.value) lines.now) N.bound bus other e.op (N.value e.left) (N.value e.right)) }
{
    match row {
        Row::Flow(branch) => {
            let line = lines[branch];
            Ok(at_end(line.from, line.to, other, line.susceptance))
        }
        Row::Injection(bus) => bus_coefficient(lines, bus, other),
    }
}

/// What a row gives for each unit of the angles of the columns in turn.
pub(crate) fn coefficients<N: Exact>(
    alloc: Global,
    lines: &[Line<N>],
    buses: usize,
    reference: usize,
    row: Row,
) -> Result<List<N>, FlowStop<N>>
    requires reference { reference < buses }
    requires few { buses ≤ most_buses }
    requires row { IsRowOf (line_network N.value buses lines.now) reference row }
    ensures numbers { IfOk result (λ numbers. (count : ℕ) → count + 1 ≡ buses
        → AreSums N.value numbers count (λ c. coefficient (map (line_branch N.value) lines.now) row (bus_of reference c))) }
    ensures pair { IfErr result (IsFlowStop N.value N.bound (line_network N.value buses lines.now) reference) }
{
    let mut numbers = List::new(alloc);
    for column in 0..buses - 1 {
        numbers.push(row_coefficient(lines, row, bus_at(reference, column))?)?;
    }
    Ok(numbers)
}
