//! What a dictionary that was run says of its market.

ghost use Rattle.std.specs.Prelude.{◌≡◌, ℕ, ◌<◌, false, not, List, ◌++◌, length, map, slice_index, IfOk, IfErr};
ghost use Rattle.fraction_theory.specs.Fraction.{Fraction};
ghost use Rattle.fraction_theory.specs.Signs.{sign_of};
ghost use Rattle.linear_dict.specs.Causes.{IsPairOf};
ghost use Rattle.linear_dict.specs.Dictionaries.{IsDictionary, choice_of, note_of, system_in};
ghost use Rattle.simplex_core.specs.Outcomes.{IsEmptyAt, ShowsChoice};
ghost use Rattle.simplex_theory.specs.Steps.{opposite_if};
ghost use Rattle.simplex_theory.specs.Stuck.{multiplier as multiplier_of, margin as margin_of};
ghost use Rattle.market_model.specs.Valued.{dual_at, duals_at};
ghost use Rattle.market_system.specs.MarketSystem.{dual_by, duals_by_cost, choice_dispatch, choice_duals};
ghost use Rattle.market_system.specs.SolvedLaws.{stuck_duals};
ghost use Rattle.market_dict.specs.Holding.{HoldsMarket, HoldsSystem};
ghost use Rattle.market_dict.specs.Takings.{taken_of};
ghost use Rattle.market_dict.specs.declared.taking.Taking.{Taking};

use crate::names::{DualKind, first_offer_name, kind_of, name_of, offer_name_behind};
use crate::reserve_prices::{reserve_price, room_prices};
use exact_fraction::{Exact, Passed, Sign, exact_difference};
use limit_rows::{count, id};
use linear_dict::{Dict, Place};
use market_model::{Dual, Duals, Market, RowId, datum};
use market_system::Variable;
use plain_list::{List, Memory};
use std::alloc::Global;

/// The accepted MW of each block: the values noted of them.
pub(crate) fn dispatch<N: Exact>(
    alloc: Global,
    market: &Market,
    dict: &Dict<N>,
) -> Result<List<N>, Memory>
    requires holds { (ts : List Taking) × HoldsSystem market.now ts dict.now }
    requires shows { ShowsChoice dict.now }
    ensures { (ts : List Taking) → HoldsSystem market.now ts dict.now → IfOk result (λ values. map N.value values ≡ (choice_dispatch market.now (taken_of ts) (choice_of dict.now)).blocks) }
{
    let mut values = List::new(alloc);
    for block in 0..market.blocks().len() {
        let name = name_of(market, Variable::Block(block));
        values.push(dict.note(name).value)?;
    }
    Ok(values)
}

/// The accepted MW of each offer of reserve, likewise.
pub(crate) fn reserved<N: Exact>(
    alloc: Global,
    market: &Market,
    dict: &Dict<N>,
) -> Result<List<N>, Memory>
    requires holds { (ts : List Taking) × HoldsSystem market.now ts dict.now }
    requires shows { ShowsChoice dict.now }
    ensures { (ts : List Taking) → HoldsSystem market.now ts dict.now → IfOk result (λ values. map N.value values ≡ (choice_dispatch market.now (taken_of ts) (choice_of dict.now)).reserve) }
{
    let mut values = List::new(alloc);
    let first = first_offer_name(market, count(market));
    for offer in 0..market.reserve().offers.len() {
        let name = offer_name_behind(market, first, offer);
        values.push(dict.note(name).value)?;
    }
    Ok(values)
}

/// Adds the prices of a limit's two sides by what a MW on its flow costs. Where that is 0 nothing is added.
fn push_dual<N: Exact>(limits: &mut List<Dual<N>>, row: RowId, cost: N) -> Result<(), Memory>
    ensures { IfOk result (λ _. map (dual_at N.value) limits.new ≡ map (dual_at N.value) limits.old ++ dual_by row (N.value cost) (sign_of (N.value cost))) }
{
    let none: N = datum(0);
    match cost.sign() {
        Sign::Below => limits.push(Dual {
            row,
            up: none,
            down: cost.neg(),
        }),
        Sign::Zero => Ok(()),
        Sign::Above => limits.push(Dual {
            row,
            up: cost,
            down: none,
        }),
    }
}

/// The price of energy and those of the limits taken, by what a MW costs on the balance and on their flows, of what it costs on each
/// variable by rank.
fn energy_prices<N: Exact>(
    alloc: Global,
    market: &Market,
    dict: &Dict<N>,
    costs: &[N],
) -> Result<(N, List<Dual<N>>), Memory>
    requires holds { (ts : List Taking) × HoldsMarket market.now ts dict.now }
    requires costs { length costs.now ≡ length dict.now.names }
    ensures energy { (ts : List Taking) (cost : ℕ → Fraction) → HoldsMarket market.now ts dict.now → map N.value costs.now ≡ map cost dict.now.names
        → IfOk result (λ prices. N.value prices.0 ≡ (duals_by_cost market.now (taken_of ts) cost).energy) }
    ensures limits { (ts : List Taking) (cost : ℕ → Fraction) → HoldsMarket market.now ts dict.now → map N.value costs.now ≡ map cost dict.now.names
        → IfOk result (λ prices. map (dual_at N.value) prices.1 ≡ (duals_by_cost market.now (taken_of ts) cost).limits) }
{
    let _lines = market.lines();
    let all = count(market);
    let mut energy: N = datum(0);
    let mut limits = List::new(alloc);
    for rank in 0..costs.len() {
        match kind_of(market, all, dict.ranked(rank)) {
            DualKind::Balance => energy = costs[rank].neg(),
            DualKind::Limit(place) => push_dual(&mut limits, id(market, place), costs[rank])?,
            DualKind::Column => {}
            DualKind::Need => {}
            DualKind::Room(_) => {}
        }
    }
    Ok((energy, limits))
}

/// The duals of what a MW costs on each variable by rank.
fn duals_by<N: Exact>(
    alloc: Global,
    market: &Market,
    dict: &Dict<N>,
    costs: &[N],
) -> Result<Duals<N>, Memory>
    requires holds { (ts : List Taking) × HoldsMarket market.now ts dict.now }
    requires costs { length costs.now ≡ length dict.now.names }
    ensures { (ts : List Taking) (cost : ℕ → Fraction) → HoldsMarket market.now ts dict.now → map N.value costs.now ≡ map cost dict.now.names
        → IfOk result (λ duals. duals_at N.value duals ≡ duals_by_cost market.now (taken_of ts) cost) }
{
    let (energy, limits) = energy_prices(alloc, market, dict, costs)?;
    let reserve = reserve_price(market, dict, costs);
    let rooms = room_prices(alloc, market, dict, costs)?;
    Ok(Duals {
        energy,
        limits,
        reserve,
        rooms,
    })
}

/// The reduced prices noted, by rank.
fn reduced<N: Exact>(alloc: Global, dict: &Dict<N>) -> Result<List<N>, Memory>
    requires { dict.now.spent ≡ false }
    ensures { IfOk result (λ prices. map N.value prices ≡ map (λ w. (note_of dict.now w).reduced) dict.now.names) }
{
    let mut prices = List::new(alloc);
    for rank in 0..dict.name_count() {
        prices.push(dict.note_at(rank).reduced)?;
    }
    Ok(prices)
}

/// The duals of the reduced prices noted: the price of energy is the opposite of that of the balance, and a limit whose own is 0 is not named.
/// The price of reserve is the opposite of that of the need, or 0 where that is below 0, and only rooms whose own is above 0 are named.
pub fn duals<N: Exact>(alloc: Global, market: &Market, dict: &Dict<N>) -> Result<Duals<N>, Memory>
    requires holds { (ts : List Taking) × HoldsSystem market.now ts dict.now }
    requires shows { ShowsChoice dict.now }
    ensures { (ts : List Taking) → HoldsSystem market.now ts dict.now → IfOk result (λ duals. duals_at N.value duals ≡ choice_duals market.now (taken_of ts) (choice_of dict.now)) }
{
    let prices = reduced(alloc, dict)?;
    duals_by(alloc, market, dict, prices.slice())
}

/// What the variable of a rank counts in the combination that shows that the basic variable of a row place is stuck: 1 for that
/// one, the opposite of its entry for an other one, and nothing for the rest of the basic ones.
fn multiplier<N: Exact>(dict: &Dict<N>, row: usize, rank: usize) -> N
    requires live { dict.now.spent ≡ false }
    requires sound { IsDictionary dict.now }
    requires row { row < length dict.now.basics }
    requires within { rank < length dict.now.names }
    ensures { N.value result ≡ multiplier_of (choice_of dict.now) (slice_index dict.now.basics row) (slice_index dict.now.names rank) }
{
    match dict.place_at(rank) {
        Place::Row(place) => { if place == row { datum(1) } else { datum(0) } }
        Place::Column(column) => dict.entry(row, column).neg(),
    }
}

/// These by rank, with the other sign where the variable is below its low bound.
fn multipliers<N: Exact>(
    alloc: Global,
    dict: &Dict<N>,
    row: usize,
    above: bool,
) -> Result<List<N>, Memory>
    requires live { dict.now.spent ≡ false }
    requires sound { IsDictionary dict.now }
    requires row { row < length dict.now.basics }
    ensures { IfOk result (λ multipliers. map N.value multipliers ≡ map (λ w. opposite_if (not above) (multiplier_of (choice_of dict.now) (slice_index dict.now.basics row) w)) dict.now.names) }
{
    let mut multipliers = List::new(alloc);
    for rank in 0..dict.name_count() {
        let multiplier = multiplier(dict, row, rank);
        let counted = if above { multiplier } else { multiplier.neg() };
        multipliers.push(counted)?;
    }
    Ok(multipliers)
}

/// What the basic variable of a row place leaves of its high bound, or what it has above its low one.
pub(crate) fn margin<N: Exact>(dict: &Dict<N>, row: usize, above: bool) -> Result<N, Passed<N>>
    requires live { dict.now.spent ≡ false }
    requires sound { IsDictionary dict.now }
    requires shows { ShowsChoice dict.now }
    requires empty { IsEmptyAt dict.now row above }
    ensures margin { IfOk result (λ margin. N.value margin ≡ margin_of (system_in dict.now) (choice_of dict.now) (slice_index dict.now.basics row) above) }
    ensures pair { IfErr result (IsPairOf N.value N.bound (system_in dict.now)) }
{
    let note = dict.note(dict.basics(row));
    if above {
        exact_difference(note.high, note.value)
    } else {
        exact_difference(note.value, note.low)
    }
}

/// The duals of a basic variable that is stuck, at a row place.
pub(crate) fn stuck_duals<N: Exact>(
    alloc: Global,
    market: &Market,
    dict: &Dict<N>,
    row: usize,
    above: bool,
) -> Result<Duals<N>, Memory>
    requires holds { (ts : List Taking) × HoldsMarket market.now ts dict.now }
    requires row { row < length dict.now.basics }
    ensures { (ts : List Taking) → HoldsMarket market.now ts dict.now → IfOk result (λ duals. duals_at N.value duals ≡ stuck_duals market.now (taken_of ts) (choice_of dict.now) (slice_index dict.now.basics row) above) }
{
    let costs = multipliers(alloc, dict, row, above)?;
    duals_by(alloc, market, dict, costs.slice())
}
