//! Whether the duals that support a dispatch, within caps, are plainly one set alone: the blocks of which a part is accepted fix all prices.

ghost use Rattle.std.specs.Prelude.{◌≡◌, ◌++◌, ◌≤◌, IfErr, IfOk, false, length, true};
ghost use Rattle.market_model.specs.Dispatch.{Dispatch, zero};
ghost use Rattle.market_model.specs.Stops.{StopsBy};
ghost use Rattle.limit_screen.specs.Reaching.{are_same};
ghost use Rattle.price_system.specs.PriceSystem.{Caps, worths};
ghost use Rattle.price_dict.specs.Reached.{columns_put};
ghost use Rattle.price_dict.specs.Refusals.{IsEntriesRefusal};
ghost use Rattle.price_search.specs.OnlyPoint.{AreFixed, AreMarginal, HasMarked, IsOnlyPoint};
ghost use Rattle.price_search.specs.Points.{IsPointOf};
ghost use Rattle.price_search.specs.PriceBounds.{AreBounds, dispatch_at};

use crate::point::PricePoint;
use crate::posing::is_same;
use exact_fraction::Exact;
use fewer_columns::laws::points_stay;
use linear_dict::Dict;
use market_model::{Market, Stop, block_quantity, datum};
use one_point::leaves_one_point;
use plain_list::{List, Memory};
use price_dict::start_with_marked;
use simplex_core::Bounds;
use std::alloc::Global;

/// Whether of a quantity a part is accepted, and not all.
fn is_marginal<N: Exact>(accepted: N, quantity: N) -> bool
    ensures some { result ≡ true → are_same (N.value accepted) zero ≡ false }
    ensures not_all { result ≡ true → are_same (N.value accepted) (N.value quantity) ≡ false }
{
    !is_same(accepted, datum(0)) && !is_same(accepted, quantity)
}

/// Of which blocks a part is accepted, and not all.
fn marginal_blocks<N: Exact>(
    alloc: Global,
    market: &Market,
    point: PricePoint<'_, N>,
) -> Result<List<bool>, Memory>
    requires { IsPointOf N.value market.now (dispatch_at N.value point) point }
    ensures { IfOk result (AreMarginal market.now (dispatch_at N.value point.entry) (length market.now.blocks)) }
{
    let mut marks = List::new(alloc);
    for (place, block) in market.blocks().slice().iter().enumerate() {
        let quantity: N = block_quantity(block);
        marks.push(is_marginal(point.accepted[place], quantity))?;
    }
    Ok(marks)
}

/// Whether one is marked.
fn is_some_marked(marks: &[bool]) -> bool
    ensures { result ≡ true → HasMarked marks.now }
{
    for mark in marks {
        if *mark {
            return true;
        }
    }
    false
}

/// Which of the first so many variables have to be as they are, since their two bounds are the same.
fn fixed_columns<N: Exact>(
    alloc: Global,
    bounds: &[Bounds<N>],
    count: usize,
) -> Result<List<bool>, Memory>
    requires { count ≤ length bounds.now }
    ensures { IfOk result (AreFixed N.value bounds.now count) }
{
    let mut fixed = List::new(alloc);
    for place in 0..count {
        let bound = bounds[place];
        fixed.push(is_same(bound.low, bound.high))?;
    }
    Ok(fixed)
}

/// Whether the system of prices has one point at most, and of some block a part is accepted and not all, by the bounds of its variables. Where a
/// number passes its bound in an exchange, the answer is no, which promises nothing.
pub(crate) fn has_one_point<N: Exact>(
    alloc: Global,
    market: &Market,
    point: PricePoint<'_, N>,
    bounds: &[Bounds<N>],
) -> Result<bool, Stop<N>>
    requires { (x : Dispatch) × (c : Caps) × IsPointOf N.value market.now x point × AreBounds N.value market.now x c (columns_put market.now x ++ worths market.now) bounds.now }
    ensures alone { (x : Dispatch) (c : Caps) → IsPointOf N.value market.now x point.entry → AreBounds N.value market.now x c (columns_put market.now x ++ worths market.now) bounds.now
        → IfOk result (λ alone. alone ≡ true → IsOnlyPoint market.now x c) }
    ensures stops { (x : Dispatch) → IsPointOf N.value market.now x point.entry → IfErr result (StopsBy N.value (IsEntriesRefusal market.now x N.bound)) }
{
    // a point of all prices is one of those that are not left out
    points_stay();
    let _lines = market.lines();
    let marks = marginal_blocks(alloc, market, point)?;
    if !is_some_marked(marks.slice()) {
        return Ok(false);
    }
    let mut dict: Dict<N> = start_with_marked(alloc, market, point.reached, marks.slice())?;
    let mut known = fixed_columns(alloc, bounds, dict.column_count())?;
    Ok(leaves_one_point(&mut dict, known.slice_mut()))
}
