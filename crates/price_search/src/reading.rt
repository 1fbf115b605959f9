//! The duals of a dictionary that holds prices.

ghost use Rattle.std.specs.Prelude.{◌≡◌, ◌++◌, ◌<◌, IfOk, false, length, map, slice_index};
ghost use Rattle.std.specs.List.{flat_map};
ghost use Rattle.linear_dict.specs.Dictionaries.{IsDictionary};
ghost use Rattle.market_model.specs.Dispatch.{Dispatch};
ghost use Rattle.market_model.specs.Valued.{dual_at, duals_at, room_dual_at};
ghost use Rattle.limit_screen.specs.Reaching.{used_up_units};
ghost use Rattle.simplex_core.specs.States.{state_of};
ghost use Rattle.fewer_columns.specs.Fewer.{with_nil};
ghost use Rattle.price_system.specs.PriceSystem.{duals_of, is_nil, limit_dual, room_dual};
ghost use Rattle.price_dict.specs.Holding.{HoldsPrices};
ghost use Rattle.price_dict.specs.Reached.{AreReached, is_kept, reached_rows};
ghost use Rattle.price_search.specs.Reading.{limit_noted, price_noted, room_noted};

use exact_fraction::{Exact, Sign};
use limit_rows::name_at;
use linear_dict::Dict;
use market_model::{Dual, Duals, Market, RoomDual, RowId};
use plain_list::{List, Memory};
use price_dict::Reached;
use std::alloc::Global;

/// Whether a number is 0.
fn is_nil<N: Exact>(number: N) -> bool
    ensures { result ≡ is_nil (N.value number) }
{
    match number.sign() {
        Sign::Zero => true,
        Sign::Below | Sign::Above => false,
    }
}

/// The price of a column, by the place at which it was put in: the opposite of its value.
fn price_shown<N: Exact>(dict: &Dict<N>, place: usize) -> N
    requires live { dict.now.spent ≡ false }
    requires sound { IsDictionary dict.now }
    requires place { place < length dict.now.columns }
    ensures { N.value result ≡ price_noted dict.now (slice_index dict.now.columns place) }
{
    dict.note(dict.column_name(place)).value.neg()
}

/// Adds the prices of a limit's two sides, unless both are 0.
fn push_limit<N: Exact>(
    limits: &mut List<Dual<N>>,
    row: RowId,
    up: N,
    down: N,
) -> Result<(), Memory>
    ensures { IfOk result (λ _. map (dual_at N.value) limits.new ≡ map (dual_at N.value) limits.old ++ limit_dual row (N.value up) (N.value down)) }
{
    if is_nil(up) && is_nil(down) {
        return Ok(());
    }
    limits.push(Dual { row, up, down })
}

/// Adds the price of a unit's room, unless it is 0.
fn push_room<N: Exact>(rooms: &mut List<RoomDual<N>>, unit: u32, price: N) -> Result<(), Memory>
    ensures { IfOk result (λ _. map (room_dual_at N.value) rooms.new ≡ map (room_dual_at N.value) rooms.old ++ room_dual unit (N.value price)) }
{
    if is_nil(price) {
        return Ok(());
    }
    rooms.push(RoomDual { unit, price })
}

/// The prices of the limits that are reached.
fn limits_shown<N: Exact>(
    alloc: Global,
    market: &Market,
    dict: &Dict<N>,
    reached: Reached<'_>,
) -> Result<List<Dual<N>>, Memory>
    requires holds { (x : Dispatch) × AreReached market.now x reached × HoldsPrices market.now x dict.now }
    ensures { (x : Dispatch) → AreReached market.now x reached.entry → HoldsPrices market.now x dict.now
        → IfOk result (λ limits. map (dual_at N.value) limits ≡ flat_map (limit_noted market.now dict.now) (reached_rows market.now x)) }
{
    let _lines = market.lines();
    let _columns = dict.column_count();
    let mut limits = List::new(alloc);
    for place in 0..reached.rows.len() {
        let up = price_shown(dict, 2 + 2 * place);
        let down = price_shown(dict, 3 + 2 * place);
        push_limit(&mut limits, name_at(market, reached.rows[place]), up, down)?;
    }
    Ok(limits)
}

/// The prices of the rooms that are used up.
fn rooms_shown<N: Exact>(
    alloc: Global,
    market: &Market,
    dict: &Dict<N>,
    reached: Reached<'_>,
) -> Result<List<RoomDual<N>>, Memory>
    requires holds { (x : Dispatch) × AreReached market.now x reached × HoldsPrices market.now x dict.now }
    ensures { (x : Dispatch) → AreReached market.now x reached.entry → HoldsPrices market.now x dict.now
        → IfOk result (λ rooms. map (room_dual_at N.value) rooms ≡ flat_map (room_noted market.now dict.now) (used_up_units market.now x)) }
{
    let _lines = market.lines();
    let _columns = dict.column_count();
    let first = 2 + 2 * reached.rows.len();
    let mut rooms = List::new(alloc);
    for place in 0..reached.units.len() {
        let price = price_shown(dict, first + place);
        push_room(
            &mut rooms,
            market.units().at(reached.units[place]).row,
            price,
        )?;
    }
    Ok(rooms)
}

/// The duals of a dictionary that holds the prices of a dispatch: what is not reached has no price.
pub(crate) fn duals_shown<N: Exact>(
    alloc: Global,
    market: &Market,
    dict: &Dict<N>,
    reached: Reached<'_>,
) -> Result<Duals<N>, Memory>
    requires holds { (x : Dispatch) × AreReached market.now x reached × HoldsPrices market.now x dict.now }
    ensures { (x : Dispatch) → AreReached market.now x reached.entry → HoldsPrices market.now x dict.now
        → IfOk result (λ duals. duals_at N.value duals ≡ duals_of market.now (with_nil (is_kept market.now x) (state_of dict.now).value)) }
{
    let _lines = market.lines();
    let limits = limits_shown(alloc, market, dict, reached)?;
    let rooms = rooms_shown(alloc, market, dict, reached)?;
    Ok(Duals {
        energy: price_shown(dict, 0),
        limits,
        reserve: price_shown(dict, 1),
        rooms,
    })
}
