//! The prices that are to be printed at a dispatch.

ghost use Rattle.std.specs.Prelude.{◌≡◌, IfErr, IfOk, length, map, option_map, unwrap_or};
ghost use Rattle.limit_screen.specs.Reaching.{IsReach};
ghost use Rattle.market_model.specs.Dispatch.{Dispatch, dispatch_with};
ghost use Rattle.market_model.specs.Optimality.{ProperDuals, Supports};
ghost use Rattle.market_model.specs.Stops.{StopsBy};
ghost use Rattle.market_model.specs.Valued.{duals_at};
ghost use Rattle.one_price.specs.FirstPrices.{AreFirstDuals};
ghost use Rattle.price_system.specs.PriceSystem.{Caps};
ghost use Rattle.price_search.specs.Points.{IsPointOf, caps_at};
ghost use Rattle.price_search.specs.Searching.{HoldsFirstPrices};
ghost use Rattle.price_search.specs.Settling.{HasCaps, IsPointRefusal, IsPosed, IsPriceRefusal, IsSearchRefusal};

use crate::caps::price_caps;
use crate::energy::energy_price;
use crate::only_point::has_one_point;
use crate::point::{PriceCaps, PricePoint};
use crate::posing::{PriceBounds, price_bounds};
use crate::reading::duals_shown;
use crate::solving::first_prices_dict;
use exact_fraction::Exact;
use limit_screen::{Reach, used_up};
use linear_dict::Dict;
use market_model::{Duals, Market, Stop};
use price_dict::{Reached, start};
use std::alloc::Global;

/// The dictionary that shows the first best point of the system of prices, by what its columns count and its bounds.
fn first_point_dict<N: Exact>(
    alloc: Global,
    market: &Market,
    point: PricePoint<'_, N>,
    posing: &PriceBounds<N>,
) -> Result<Dict<N>, Stop<N>>
    requires { (x : Dispatch) × (c : Caps) × IsPosed N.value market.now x c point posing.now }
    ensures first { (x : Dispatch) (c : Caps) → IsPosed N.value market.now x c point.entry posing.now → IfOk result (HoldsFirstPrices market.now x c) }
    ensures stops { (x : Dispatch) (c : Caps) → IsPosed N.value market.now x c point.entry posing.now → IfErr result (StopsBy N.value (IsPointRefusal market.now x c N.bound)) }
{
    let _lines = market.lines();
    let dict = start(alloc, market, point.reached)?;
    first_prices_dict(alloc, dict, posing.prices.slice(), posing.bounds.slice())
}

/// Of the duals that support the dispatch of a point those that are to be printed, by caps that some of them give: nothing where these are
/// plainly the first.
fn first_duals_within<N: Exact>(
    alloc: Global,
    market: &Market,
    point: PricePoint<'_, N>,
    caps: PriceCaps<N>,
) -> Result<Option<Duals<N>>, Stop<N>>
    requires { (x : Dispatch) × IsPointOf N.value market.now x point × HasCaps market.now x (caps_at N.value caps) }
    ensures first { (x : Dispatch) → IsPointOf N.value market.now x point.entry → (has : HasCaps market.now x (caps_at N.value caps))
        → IfOk result (λ found. AreFirstDuals market.now x (unwrap_or (option_map (duals_at N.value) found) has.duals)) }
    ensures stops { (x : Dispatch) → IsPointOf N.value market.now x point.entry → IfErr result (StopsBy N.value (IsSearchRefusal market.now x (caps_at N.value caps) N.bound)) }
{
    let _lines = market.lines();
    let posing = price_bounds(alloc, market, point, caps)?;
    if has_one_point(alloc, market, point, posing.bounds.slice())? {
        return Ok(None);
    }
    let dict = first_point_dict(alloc, market, point, &posing)?;
    let duals = duals_shown(alloc, market, &dict, point.reached)?;
    let energy = energy_price(market, point.accepted, &dict, duals.energy)?;
    Ok(Some(Duals { energy, ..duals }))
}

/// Of the duals that support the dispatch of a point those that are to be printed, from some that do, by the caps that these give: nothing where
/// these are plainly the first.
fn first_duals_at<N: Exact>(
    alloc: Global,
    market: &Market,
    point: PricePoint<'_, N>,
    duals: &Duals<N>,
) -> Result<Option<Duals<N>>, Stop<N>>
    requires point { (x : Dispatch) × IsPointOf N.value market.now x point × Supports market.now x (duals_at N.value duals.now) }
    requires proper { ProperDuals market.now (duals_at N.value duals.now) }
    ensures first { (x : Dispatch) → IsPointOf N.value market.now x point.entry → Supports market.now x (duals_at N.value duals.now)
        → IfOk result (λ found. AreFirstDuals market.now x (unwrap_or (option_map (duals_at N.value) found) (duals_at N.value duals.now))) }
    ensures stops { (x : Dispatch) → IsPointOf N.value market.now x point.entry → IfErr result (StopsBy N.value (IsPriceRefusal market.now x (duals_at N.value duals.now) N.bound)) }
{
    let caps = price_caps(market, point.reached, duals)?;
    first_duals_within(alloc, market, point, caps)
}

/// Of the duals that support a dispatch those that are to be printed, from some that do. All prices but that of energy add up to the least that they
/// can, and then each is as low as can be, one after the other: those of rooms, from the last unit that offers reserve to the first, then those of
/// limits, from the last row to the first and of each down before up, then that of reserve. Energy has the least price that it may have beside them;
/// where there is no least, the greatest; where there is neither, 0. Nothing where those that are handed in are plainly the first. What is
/// accepted is in 10^-9 MW, prices are in 10^-6 a MWh. `reach` is what the dispatch carries and which rows it reaches.
pub fn first_duals<'a, N: Exact>(
    alloc: Global,
    market: &Market,
    accepted: &'a [N],
    reserved: &'a [N],
    duals: &Duals<N>,
    reach: &'a Reach<N>,
) -> Result<Option<Duals<N>>, Stop<N>>
    requires accepted { length accepted.now ≡ length market.now.blocks }
    requires reserved { length reserved.now ≡ length market.now.reserve.offers }
    requires proper { ProperDuals market.now (duals_at N.value duals.now) }
    requires supported { Supports market.now (dispatch_with (map N.value accepted.now) (map N.value reserved.now)) (duals_at N.value duals.now) }
    requires reach { IsReach N.value market.now (dispatch_with (map N.value accepted.now) (map N.value reserved.now)) reach.now }
    ensures first { IfOk result (λ found.
        AreFirstDuals market.now (dispatch_with (map N.value accepted.now) (map N.value reserved.now)) (unwrap_or (option_map (duals_at N.value) found) (duals_at N.value duals.now))) }
    ensures stops { IfErr result (StopsBy N.value (IsPriceRefusal market.now (dispatch_with (map N.value accepted.now) (map N.value reserved.now)) (duals_at N.value duals.now) N.bound)) }
{
    let _lines = market.lines();
    let units = used_up(alloc, market, accepted, reserved)?;
    let point = PricePoint {
        accepted,
        reserved,
        flows: &reach.flows,
        reached: Reached {
            rows: &reach.rows,
            units: &units,
        },
    };
    first_duals_at(alloc, market, point, duals)
}
