//! A market that is cleared by itself, and what is to be printed of it.

ghost use Rattle.std.specs.Prelude.{[], IfOk};
ghost use Rattle.market_model.specs.Fitting.{FitsOutcome};
ghost use Rattle.market_model.specs.Valued.{outcome_at};
ghost use Rattle.market_system.specs.Outcomes.{IsRightOutcome};
ghost use Rattle.limit_screen.specs.Reaching.{IsReachOf};
ghost use Rattle.market_dict.specs.Chosen.{IsChosenOutcome};
ghost use Rattle.edit_replay.specs.declared.step_outcome.StepOutcome.TheVariants as reply;
ghost use Rattle.settled_answer.specs.Settled.{IsSettledOutcome};
ghost use Rattle.settled_replay.specs.Refusals.{TellsRefusal};

use clear_loop::{Clearer, ReachedOutcome};
use exact_fraction::Exact;
use market_model::{Market, Memory, Outcome};
use settled_answer::settled_outcome;
use std::alloc::Global;

/// What is printed of a market, and whether settling was refused: whether a number passed the bound of its type on the way to the first prices
/// of an answer, which then has its own.
#[derive(Drop)]
pub struct SettledClear<N> {
    pub outcome: Outcome<N>,
    pub is_passed: bool,
}

/// What a market is cleared to, with what its dispatch carries and reaches.
fn cleared<N: Exact>(alloc: Global, market: &Market) -> Result<ReachedOutcome<N>, Memory>
    ensures fits { IfOk result (λ reached. FitsOutcome market.now reached.outcome) }
    ensures right { IfOk result (λ reached. IsRightOutcome N.bound market.now [] (outcome_at N.value reached.outcome)) }
    ensures chosen { IfOk result (λ reached. IsChosenOutcome market.now (outcome_at N.value reached.outcome)) }
    ensures reach { IfOk result (λ reached. IsReachOf N.value market.now reached.outcome reached.reach) }
{
    let mut clearer = Clearer::new(market);
    clearer.clear_reached(alloc, market)
}

/// Clears a market, with no limits and no rooms taken before, and settles what that comes to: an answer is told with the first prices of its
/// dispatch, or with its own, where a number passes the bound of its type on the way to these; and it is told whether one did.
pub fn settled_clear<N: Exact>(alloc: Global, market: &Market) -> Result<SettledClear<N>, Memory>
    ensures fits { IfOk result (λ cleared. FitsOutcome market.now cleared.outcome) }
    ensures right { IfOk result (λ cleared. IsRightOutcome N.bound market.now [] (outcome_at N.value cleared.outcome)) }
    ensures settled { IfOk result (λ cleared. IsSettledOutcome N.bound market.now (outcome_at N.value cleared.outcome)) }
    ensures passed { IfOk result (λ cleared. TellsRefusal N.bound market.now (reply.Clear (outcome_at N.value cleared.outcome)) cleared.is_passed) }
{
    let reached = cleared(alloc, market)?;
    let settled = settled_outcome(alloc, market, reached.outcome, reached.reach)?;
    Ok(SettledClear {
        is_passed: settled.passed.is_some(),
        outcome: settled.outcome,
    })
}
