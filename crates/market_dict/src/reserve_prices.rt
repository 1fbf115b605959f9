//! The prices of reserve and of rooms, of what a MW costs on each variable of a dictionary.

ghost use Rattle.std.specs.Prelude.{◌≡◌, ℕ, List, ◌++◌, length, map, IfOk};
ghost use Rattle.fraction_theory.specs.Fraction.{Fraction};
ghost use Rattle.fraction_theory.specs.Signs.{part_above, sign_of};
ghost use Rattle.market_model.specs.Valued.{room_dual_at};
ghost use Rattle.market_system.specs.MarketSystem.{duals_by_cost, room_dual_by};
ghost use Rattle.market_dict.specs.Holding.{HoldsMarket};
ghost use Rattle.market_dict.specs.Takings.{taken_of};
ghost use Rattle.market_dict.specs.declared.taking.Taking.{Taking};

use crate::names::{DualKind, kind_of, name_of};
use exact_fraction::{Exact, Sign};
use limit_rows::count;
use linear_dict::Dict;
use market_model::{Market, RoomDual, datum};
use market_system::Variable;
use plain_list::{List, Memory};
use std::alloc::Global;

/// A price, or 0 where it is below that.
fn clamped<N: Exact>(price: N) -> N
    ensures { N.value result ≡ part_above (N.value price) }
{
    match price.sign() {
        Sign::Below | Sign::Zero => datum(0),
        Sign::Above => price,
    }
}

/// The price of reserve: the opposite of what a MW costs on the need, of what it costs on each variable by rank. It is 0 where that is
/// below 0, and where no reserve is cleared.
pub(crate) fn reserve_price<N: Exact>(market: &Market, dict: &Dict<N>, costs: &[N]) -> N
    requires holds { (ts : List Taking) × HoldsMarket market.now ts dict.now }
    requires costs { length costs.now ≡ length dict.now.names }
    ensures { (ts : List Taking) (cost : ℕ → Fraction) → HoldsMarket market.now ts dict.now → map N.value costs.now ≡ map cost dict.now.names
        → N.value result ≡ (duals_by_cost market.now (taken_of ts) cost).reserve }
{
    if !market.reserve().listed {
        return datum(0);
    }
    let rank = dict.rank_of(name_of(market, Variable::Need));
    clamped(costs[rank].neg())
}

/// Adds the price of a unit's room by what a MW costs on it. Where that is not above 0 nothing is added.
fn push_room_dual<N: Exact>(rooms: &mut List<RoomDual<N>>, unit: u32, cost: N) -> Result<(), Memory>
    ensures { IfOk result (λ _. map (room_dual_at N.value) rooms.new ≡ map (room_dual_at N.value) rooms.old ++ room_dual_by unit (N.value cost) (sign_of (N.value cost))) }
{
    match cost.sign() {
        Sign::Below | Sign::Zero => Ok(()),
        Sign::Above => rooms.push(RoomDual { unit, price: cost }),
    }
}

/// The prices of the rooms taken, of what a MW costs on each variable by rank.
pub(crate) fn room_prices<N: Exact>(
    alloc: Global,
    market: &Market,
    dict: &Dict<N>,
    costs: &[N],
) -> Result<List<RoomDual<N>>, Memory>
    requires holds { (ts : List Taking) × HoldsMarket market.now ts dict.now }
    requires costs { length costs.now ≡ length dict.now.names }
    ensures { (ts : List Taking) (cost : ℕ → Fraction) → HoldsMarket market.now ts dict.now → map N.value costs.now ≡ map cost dict.now.names
        → IfOk result (λ rooms. map (room_dual_at N.value) rooms ≡ (duals_by_cost market.now (taken_of ts) cost).rooms) }
{
    let _lines = market.lines();
    let all = count(market);
    let mut rooms = List::new(alloc);
    for rank in 0..costs.len() {
        match kind_of(market, all, dict.ranked(rank)) {
            DualKind::Room(unit) => {
                push_room_dual(&mut rooms, market.units().at(unit).row, costs[rank])?;
            }
            DualKind::Column => {}
            DualKind::Balance => {}
            DualKind::Limit(_) => {}
            DualKind::Need => {}
        }
    }
    Ok(rooms)
}
