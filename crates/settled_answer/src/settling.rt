//! The answer and the outcome that are to be printed.

ghost use Rattle.std.specs.Prelude.{ℕ, List, IfOk};
ghost use Rattle.limit_screen.specs.Reaching.{IsReach, IsReachOf};
ghost use Rattle.market_model.specs.declared.limits.Row.{Row};
ghost use Rattle.market_model.specs.Fitting.{FitsMarket, FitsOutcome};
ghost use Rattle.market_model.specs.RightAnswers.{IsRight, dispatch_in};
ghost use Rattle.market_model.specs.Valued.{answer_at, outcome_at};
ghost use Rattle.market_system.specs.Outcomes.{IsRightOutcome};
ghost use Rattle.settled_answer.specs.Settled.{IsSettled, KeepsDispatch, KeepsOutcome, SettlesOutcome};

use crate::repricing::repriced;
use exact_fraction::{Exact, Passed};
use limit_screen::Reach;
use market_model::{Answer, Market, Memory, Outcome, Stop};
use std::alloc::Global;

/// The answer that is to be printed, and the operation whose outcome passed the bound on the way to the first prices, where they were not found for
/// that; then the answer is the one that was handed in.
#[derive(Drop)]
pub struct SettledAnswer<N> {
    pub answer: Answer<N>,
    pub passed: Option<Passed<N>>,
}

/// The outcome that is to be printed, and the operation whose outcome passed the bound on the way to the first prices of an answer, where one
/// did; then the outcome is the one that was handed in.
#[derive(Drop)]
pub struct SettledOutcome<N> {
    pub outcome: Outcome<N>,
    pub passed: Option<Passed<N>>,
}

/// Of a right answer that which is to be printed: the same dispatch with its first prices, and with the bus prices and the settlement that
/// these make. Where a number passes the bound of its type on the way, the answer as it was, with the operation that did. `reach` is what the
/// dispatch carries and which rows it reaches.
pub fn settled<N: Exact>(
    alloc: Global,
    market: &Market,
    answer: Answer<N>,
    reach: &Reach<N>,
) -> Result<SettledAnswer<N>, Memory>
    requires right { IsRight market.now (answer_at N.value answer) }
    requires fits { FitsMarket market.now answer }
    requires reach { IsReach N.value market.now (dispatch_in (answer_at N.value answer)) reach.now }
    ensures fits { IfOk result (λ settled. FitsMarket market.now settled.answer) }
    ensures right { IfOk result (λ settled. IsRight market.now (answer_at N.value settled.answer)) }
    ensures dispatch { IfOk result (λ settled. KeepsDispatch answer settled.answer) }
    ensures settled { IfOk result (IsSettled N.value N.bound market.now answer) }
{
    match repriced(alloc, market, &answer, reach) {
        Ok(None) => Ok(SettledAnswer {
            answer,
            passed: None,
        }),
        Ok(Some(made)) => Ok(SettledAnswer {
            answer: Answer {
                dispatch: answer.dispatch,
                reserve: answer.reserve,
                duals: made.duals,
                prices: made.prices,
                welfare: answer.welfare,
                money: made.money,
            },
            passed: None,
        }),
        Err(Stop::Passed(passed)) => Ok(SettledAnswer {
            answer,
            passed: Some(passed),
        }),
        Err(Stop::Memory) => Err(Memory),
    }
}

/// Of a right outcome that which is to be printed: where it is an answer, the settled one, and any other as it is. `reach` is what the dispatch
/// of an answer carries and which rows it reaches; of another outcome it may be missing.
pub fn settled_outcome<N: Exact>(
    alloc: Global,
    market: &Market,
    outcome: Outcome<N>,
    reach: Option<Reach<N>>,
) -> Result<SettledOutcome<N>, Memory>
    requires right { (bound : ℕ) × (taken : List Row) × IsRightOutcome bound market.now taken (outcome_at N.value outcome) }
    requires fits { FitsOutcome market.now outcome }
    requires reach { IsReachOf N.value market.now outcome reach }
    ensures fits { IfOk result (λ settled. FitsOutcome market.now settled.outcome) }
    ensures right { (bound : ℕ) (taken : List Row) → IsRightOutcome bound market.now taken (outcome_at N.value outcome) → IfOk result (λ settled. IsRightOutcome bound market.now taken (outcome_at N.value settled.outcome)) }
    ensures dispatch { IfOk result (λ settled. KeepsOutcome outcome settled.outcome) }
    ensures settled { IfOk result (SettlesOutcome N.value N.bound market.now outcome) }
{
    match outcome {
        Outcome::Cleared(answer) => {
            let Some(reach) = reach else { unreachable!() };
            let made = settled(alloc, market, answer, &reach)?;
            Ok(SettledOutcome {
                outcome: Outcome::Cleared(made.answer),
                passed: made.passed,
            })
        }
        Outcome::Infeasible(farkas) => Ok(SettledOutcome {
            outcome: Outcome::Infeasible(farkas),
            passed: None,
        }),
        Outcome::Range(passed) => Ok(SettledOutcome {
            outcome: Outcome::Range(passed),
            passed: None,
        }),
    }
}
