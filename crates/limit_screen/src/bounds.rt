//! Bounds of the flows of rows, in whole numbers.

ghost use Rattle.std.specs.Prelude.{◌≡◌, ℕ, ◌≤◌, ◌<◌, ◌^◌, ◌+◌, ◌*◌, ◌+ℤ◌, ◌*ℤ◌, pos, unsigned_abs, IsTrue, IfSome, Some, length};
ghost use Rattle.std.specs.List.{slice_get};
ghost use Rattle.fraction_theory.specs.Fraction.{Fraction, ◌+ℚ◌, ◌*ℚ◌, over, whole};
ghost use Rattle.fraction_theory.specs.Order.{◌≤ℚ◌};
ghost use Rattle.fraction_theory.specs.Signs.{abs_ℚ};
ghost use Rattle.exact_fraction.specs.Floor.{IsFloor};
ghost use Rattle.market_data.specs.Scales.{pickup_one};
ghost use Rattle.market_model.specs.LimitRows.{Carried, flow_by, pickup_factor, IsCauseOf};
ghost use Rattle.limit_screen.specs.Bounds.{AreWholeParts, IsNear, IsNearFlow, IsSmall, IsUpTo};

use crate::parts::WholeParts;
use limit_rows::loss_of;
use market_data::{FACTOR_ONE, PICKUP_ONE};
use market_model::{Cause, Market, Row};

/// A whole number that is near another number, and how far from it that is at the most.
#[derive(Clone, Copy)]
pub(crate) struct Near {
    number: i128,
    off: i128,
}

/// A flow in parts of 10^-9 MW, by a number near it, and how many of these parts are 10^-9 MW.
#[derive(Clone, Copy)]
pub(crate) struct NearFlow {
    parts: Near,
    one: u64,
}

/// The whole part at a place, where there is one.
fn part_at(parts: &[Option<i64>], place: usize) -> Option<i64>
    ensures { IfSome result (λ part. slice_get parts.now place ≡ Some (Some part)) }
{
    *parts.get(place)?
}

/// The pickup factor of a line at an outage of a unit, in 10^-15, where 64 bits hold that.
fn pickup_at(market: &Market, line: usize, outage: usize) -> Option<i64>
    requires line { line < length market.now.lines }
    requires outage { outage < length market.now.unit_outages }
    ensures { IfSome result (λ factor. pickup_factor market.now line outage ≡ over factor pickup_one) }
{
    match i64::try_from(market.pickup_factor(line, outage)) {
        Ok(factor) => Some(factor),
        Err(_) => None,
    }
}

/// The product of a factor and a number, by the whole part of that.
fn near_product(factor: i64, part: i64) -> Near
    ensures near { (x : Fraction) → IsFloor x part → IsNear (whole factor *ℚ x) result }
    ensures small { (most : ℕ) → unsigned_abs factor ≤ most → IsUpTo (most * 2 ^ 63) result }
{
    Near {
        number: i128::from(factor) * i128::from(part),
        off: i128::from(factor.unsigned_abs()),
    }
}

/// The sum of two numbers.
fn near_sum(first: Near, second: Near) -> Near
    requires first { IsUpTo (2 ^ 113) first }
    requires second { IsUpTo (2 ^ 126) second }
    ensures near { (x y : Fraction) → IsNear x first → IsNear y second → IsNear (x +ℚ y) result }
    ensures small { IsUpTo (2 ^ 126 + 2 ^ 113) result }
{
    Near {
        number: first.number + second.number,
        off: first.off + second.off,
    }
}

/// A flow and a factor of a number besides, by the whole parts of both. So many of the factor are one.
fn near_flow_with(own: i64, factor: i64, part: i64, one: u64) -> NearFlow
    requires above { 0 < one }
    requires most { one ≤ pickup_one }
    ensures near { (f x : Fraction) → IsFloor f own → IsFloor x part → IsNearFlow (f +ℚ over factor one *ℚ x) result }
    ensures small { IsSmall result }
{
    NearFlow {
        parts: near_sum(near_product(one as i64, own), near_product(factor, part)),
        one,
    }
}

/// The flow of a row, by the whole parts of what is carried. Nothing where one of them is missing.
pub(crate) fn near_flow(market: &Market, parts: &WholeParts, row: Row) -> Option<NearFlow>
    requires line { row.line < length market.now.lines }
    requires lost { IsCauseOf market.now row.cause }
    ensures near { (c : Carried) → AreWholeParts market.now c parts.now → IfSome result (IsNearFlow (flow_by market.now c row)) }
    ensures small { IfSome result IsSmall }
{
    let own = part_at(&parts.carried, row.line)?;
    match row.cause {
        Cause::Base => Some(near_flow_with(own, 0, own, FACTOR_ONE)),
        Cause::Branch(lost) => {
            let gone = part_at(&parts.carried, lost)?;
            let factor = loss_of(market, row.line, lost);
            Some(near_flow_with(own, factor, gone, FACTOR_ONE))
        }
        Cause::UnitOutage(outage) => {
            let gone = part_at(&parts.carried, market.lines().len() + outage)?;
            let factor = pickup_at(market, row.line, outage)?;
            Some(near_flow_with(own, factor, gone, PICKUP_ONE))
        }
    }
}

/// A limit and so much more, in parts of 10^-9 MW.
fn most_flow(limit: i64, more: i64, one: u64) -> i128
    requires { one ≤ pickup_one }
    ensures is { result ≡ (limit +ℤ more) *ℤ pos one }
    ensures small { unsigned_abs result ≤ 2 ^ 114 }
{
    (i128::from(limit) + i128::from(more)) * i128::from(one)
}

/// Whether it is told that the size of a flow is at most a limit and so much more, in 10^-9 MW.
pub(crate) fn is_within(flow: NearFlow, limit: i64, more: i64) -> bool
    requires { IsSmall flow }
    ensures { (f : Fraction) → IsNearFlow f flow → IsTrue result → abs_ℚ f ≤ℚ (whole limit +ℚ whole more) }
{
    let most = most_flow(limit, more, flow.one);
    flow.parts.number <= most - flow.parts.off && flow.parts.off - most <= flow.parts.number
}
