//! The rounds of a clear: each solves the market over the limits and rooms in hand, and takes the limit or room that is passed by the most,
//! where one is. Where a best dispatch passes none, the best dispatch that goes first is looked for, which may pass one where it is another.

ghost use Rattle.std.specs.Prelude.{◌≡◌, List, length, map, IfOk, IfErr};
ghost use Rattle.market_model.specs.Dispatch.{dispatch_with, empty};
ghost use Rattle.market_model.specs.Infeasibility.{IsFarkas};
ghost use Rattle.market_model.specs.Valued.{duals_at, farkas_at};
ghost use Rattle.market_system.specs.Growth.{Growth};
ghost use Rattle.limit_screen.specs.Flows.{flows_at};
ghost use Rattle.limit_screen.specs.Reaching.{IsReach};
ghost use Rattle.market_dict.specs.Findings.{IsFirstFound, IsFound, IsStuckBy};
ghost use Rattle.market_dict.specs.PricesAndBounds.{ArePricesAndBounds};
ghost use Rattle.market_dict.specs.Takings.{limits_of};
ghost use Rattle.market_dict.specs.declared.solving.Found.TheVariants as found;
ghost use Rattle.market_dict.specs.declared.taking.Taking.{Taking};
ghost use Rattle.clear_loop.specs.Growing.{Grown};
ghost use Rattle.clear_loop.specs.Keeping.{AreListed};
ghost use Rattle.clear_loop.specs.Rounds.{KeepsAll, HoldsStart, IsEnded, IsInHand, IsRound, StopsInRange};

use crate::answering::answer_of;
use crate::bounding::farkas_bound;
use crate::hand::{Hand, TakenInOrder, with_taking};
use crate::reached::ReachedAnswer;
use crate::sameness::are_same;
use crate::screen::{Screened, screened_at};
use dual_restart::Warm;
use exact_fraction::Exact;
use limit_screen::Reach;
use linear_dict::Dict;
use market_dict::{First, Found, PricesAndBounds, duals, go_first, solve};
use market_model::{Duals, Farkas, Market, Stop};
use plain_list::List;
use std::alloc::Global;

/// How a clear ends: with an answer, or with duals that show that no dispatch is feasible.
#[derive(Drop)]
pub(crate) struct Ended<N: Exact> {
    pub dict: Dict<N>,
    pub taken: TakenInOrder,
    pub end: Result<ReachedAnswer<N>, Farkas<N>>,
}

/// What a round comes to.
#[derive(Drop)]
enum Round<N: Exact> {
    /// A limit or a room was passed, and is in hand now.
    Grown(Hand<N>),
    Done(Ended<N>),
}

/// What the market comes to over what is in hand.
fn solved<N: Exact>(
    alloc: Global,
    market: &Market,
    warm: Warm<N>,
    posing: &PricesAndBounds<N>,
) -> Result<Found<N>, Stop<N>>
    requires { (ts : List Taking) × HoldsStart market.now ts warm × ArePricesAndBounds N.value market.now ts posing.now }
    ensures found { (ts : List Taking) → HoldsStart market.now ts warm → ArePricesAndBounds N.value market.now ts posing.now → IfOk result (IsFound N.value market.now ts) }
    ensures stops { (ts : List Taking) → HoldsStart market.now ts warm → ArePricesAndBounds N.value market.now ts posing.now → IfErr result (StopsInRange N.value N.bound market.now (limits_of ts)) }
{
    let _lines = market.lines();
    let bounds = posing.bounds(alloc)?;
    let posed = warm.repose(posing.prices.slice(), bounds.slice())?;
    solve(alloc, market, posed)
}

/// The bound of the duals of a variable that is stuck: what it leaves of the bound that it violates, in a market of energy alone. Where
/// reserve is cleared it is made of the duals, and of the flows where nothing is accepted.
fn bound_of<N: Exact>(
    alloc: Global,
    market: &Market,
    flows: &[N],
    duals: &Duals<N>,
    margin: N,
) -> Result<N, Stop<N>>
    requires flows { map N.value flows.now ≡ flows_at market.now (empty market.now) }
    requires stuck { (ts : List Taking) × IsStuckBy market.now ts (duals_at N.value duals.now) (N.value margin) }
    ensures farkas { IfOk result (λ bound. IsFarkas market.now (farkas_at N.value (record { duals = duals.now; bound = bound }))) }
    ensures stops { (ts : List Taking) → IsStuckBy market.now ts (duals_at N.value duals.now) (N.value margin) → IfErr result (StopsInRange N.value N.bound market.now (limits_of ts)) }
{
    let _lines = market.lines();
    if market.reserve().listed {
        farkas_bound(alloc, market, flows, duals)
    } else {
        Ok(margin)
    }
}

/// The end with an answer, of the best dispatch that goes first, where it keeps all limits and rooms. What it carries and reaches is handed on.
fn answered<N: Exact>(
    alloc: Global,
    market: &Market,
    first: First<N>,
    taken: TakenInOrder,
    reach: Reach<N>,
) -> Result<Ended<N>, Stop<N>>
    requires first { IsFirstFound N.value market.now taken.takings first }
    requires listed { AreListed market.now taken }
    requires kept { KeepsAll market.now (limits_of taken.takings) (dispatch_with (map N.value first.dispatch) (map N.value first.reserve)) }
    requires reach { IsReach N.value market.now (dispatch_with (map N.value first.dispatch) (map N.value first.reserve)) reach }
    ensures ended { IfOk result (IsEnded N.value market.now) }
    ensures taken { IfOk result (λ ended. ended.taken ≡ taken) }
    ensures stops { IfErr result (StopsInRange N.value N.bound market.now (limits_of taken.takings)) }
{
    let _lines = market.lines();
    let duals = duals(alloc, market, &first.dict)?;
    let answer = answer_of(
        alloc,
        market,
        first.dispatch,
        first.reserve,
        &reach.flows,
        duals,
    )?;
    Ok(Ended {
        dict: first.dict,
        taken,
        end: Ok(ReachedAnswer { answer, reach }),
    })
}

/// What a round comes to with the best dispatch that goes first, where all limits and rooms are still to be looked at.
fn after_first<N: Exact>(
    alloc: Global,
    market: &Market,
    first: First<N>,
    posing: PricesAndBounds<N>,
    taken: TakenInOrder,
) -> Result<Round<N>, Stop<N>>
    requires first { IsFirstFound N.value market.now taken.takings first }
    requires posing { ArePricesAndBounds N.value market.now taken.takings posing }
    requires listed { AreListed market.now taken }
    ensures round { IfOk result (IsRound N.value market.now taken.takings) }
    ensures stops { IfErr result (StopsInRange N.value N.bound market.now (limits_of taken.takings)) }
{
    let _lines = market.lines();
    match screened_at(
        alloc,
        market,
        first.dispatch.slice(),
        first.reserve.slice(),
        taken.rows.slice(),
    )? {
        Screened::Worst(taking) => Ok(Round::Grown(with_taking(
            alloc, market, first.dict, posing, taken, taking,
        )?)),
        Screened::Within(reach) => Ok(Round::Done(answered(alloc, market, first, taken, reach)?)),
    }
}

/// What a round comes to with a best dispatch for what is in hand. Where it passes no limit and no room, the one that goes first is looked
/// for; its limits and rooms are looked at only where it is another one.
fn after_best<N: Exact>(
    alloc: Global,
    market: &Market,
    dict: Dict<N>,
    posing: PricesAndBounds<N>,
    taken: TakenInOrder,
    dispatch: List<N>,
    reserve: List<N>,
) -> Result<Round<N>, Stop<N>>
    requires found { IsFound N.value market.now taken.takings (found.Best dict dispatch reserve) }
    requires posing { ArePricesAndBounds N.value market.now taken.takings posing }
    requires listed { AreListed market.now taken }
    ensures round { IfOk result (IsRound N.value market.now taken.takings) }
    ensures stops { IfErr result (StopsInRange N.value N.bound market.now (limits_of taken.takings)) }
{
    let _lines = market.lines();
    let blocks = dispatch.slice();
    let offers = reserve.slice();
    match screened_at(alloc, market, blocks, offers, taken.rows.slice())? {
        Screened::Worst(taking) => Ok(Round::Grown(with_taking(
            alloc, market, dict, posing, taken, taking,
        )?)),
        Screened::Within(reach) => {
            let first = go_first(alloc, market, dict)?;
            if are_same(blocks, first.dispatch.slice()) && are_same(offers, first.reserve.slice()) {
                Ok(Round::Done(answered(alloc, market, first, taken, reach)?))
            } else {
                after_first(alloc, market, first, posing, taken)
            }
        }
    }
}

/// One round.
fn one_round<N: Exact>(alloc: Global, market: &Market, hand: Hand<N>) -> Result<Round<N>, Stop<N>>
    requires { IsInHand N.value market.now hand }
    ensures round { IfOk result (IsRound N.value market.now hand.taken.takings) }
    ensures stops { IfErr result (StopsInRange N.value N.bound market.now (limits_of hand.taken.takings)) }
{
    let posing = hand.posing;
    let taken = hand.taken;
    match solved(alloc, market, hand.warm, &posing)? {
        Found::Best {
            dict,
            dispatch,
            reserve,
        } => after_best(alloc, market, dict, posing, taken, dispatch, reserve),
        Found::Nothing {
            dict,
            duals,
            margin,
        } => {
            let bound = bound_of(alloc, market, &posing.base_flows, &duals, margin)?;
            Ok(Round::Done(Ended {
                dict,
                taken,
                end: Err(Farkas { duals, bound }),
            }))
        }
    }
}

/// Rounds until one ends the clear. Each takes a limit or a room that is new, so there are no more of them than of these together, and the
/// last one.
pub(crate) fn all_rounds<N: Exact>(
    alloc: Global,
    market: &Market,
    first: Hand<N>,
) -> Result<Ended<N>, Stop<N>>
    requires { IsInHand N.value market.now first }
    ensures ended { IfOk result (IsEnded N.value market.now) }
    ensures taken { IfOk result (λ ended. Growth market.now (limits_of first.taken.takings) (limits_of ended.taken.takings)) }
    ensures grown { IfOk result (λ ended. Grown market.now first.taken.takings ended.taken.takings) }
    ensures stops { IfErr result (StopsInRange N.value N.bound market.now (limits_of first.taken.takings)) }
{
    let mut hand = first;
    loop {
        match one_round(alloc, market, hand)? {
            Round::Grown(next) => hand = next,
            Round::Done(ended) => return Ok(ended),
        }
    }
}
