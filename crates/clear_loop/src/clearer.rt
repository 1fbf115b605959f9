//! What clears markets, with what it keeps from one to the next.

ghost use Rattle.std.specs.Prelude.{◌≡◌, ◌<◌, List, length, map, slice_get, Some, IfOk, IfErr, false};
ghost use Rattle.market_model.specs.Fitting.{FitsMarket, FitsOutcome};
ghost use Rattle.market_model.specs.LimitRows.{row_id};
ghost use Rattle.market_model.specs.Valued.{outcome_at};
ghost use Rattle.market_system.specs.Growth.{Growth};
ghost use Rattle.market_system.specs.Outcomes.{IsClear};
ghost use Rattle.limit_screen.specs.Reaching.{IsReachOf};
ghost use Rattle.market_dict.specs.Chosen.{IsChosenOutcome};
ghost use Rattle.market_dict.specs.Takings.{limits_of};
ghost use Rattle.clear_loop.specs.Clearing.{ClearComesTo, KeepsAfter, KeepsStart, Takes, TakesAfter};
ghost use Rattle.clear_loop.specs.Growing.{Grown};
ghost use Rattle.clear_loop.specs.Keeping.{FitsFrame, Kept, cold};
ghost use Rattle.clear_loop.specs.Rounds.{HoldsStart, IsEnded, IsInHand, StopsInRange};

use crate::fault::{ClearFault, cleared};
use crate::hand::{Hand, TakenInOrder, started, taken_or_none};
use crate::merit::start_at_margin;
use crate::reached::{ReachedOutcome, outcome_at_end};
use crate::rounds::{Ended, all_rounds};
use dual_restart::Warm;
use exact_fraction::Exact;
use linear_dict::Dict;
use market_dict::prices_and_bounds;
use market_model::{Answer, Market, Outcome, RowId, Stop};
use plain_list::Memory;
use std::alloc::Global;
use std::marker::Model;

/// Clears markets of one frame, one after another: those that come of one market by edits of its prices, quantities, loads, limits and need. Each
/// clear starts from the limits and rooms that the one before it took, with its dictionary, at the prices and bounds of the market handed in.
#[derive(Drop)]
pub struct Clearer<N: Exact> {
    warm: Warm<N>,
    taken: Option<TakenInOrder>,
}

impl<N: Exact> Model for Clearer<N> {
    ghost use Rattle.clear_loop.specs.Keeping.{Kept, kept_code};

    ghost Value = { Kept };

    ghost coded = { kept_code };

    ghost use Rattle.clear_loop.specs.Starts.{HaveNames, kept_as};

    ghost view = { λ c. kept_as c.warm c.taken };

    ghost invariant = { λ c. HaveNames c.taken };
}

/// Nothing is kept.
fn unused<N: Exact>() -> Clearer<N>
    ensures { result ≡ cold }
{
    Clearer {
        warm: Warm::new(),
        taken: None,
    }
}

/// A clearer that keeps a dictionary over the limits and rooms taken.
fn keeping<N: Exact>(dict: Dict<N>, taken: TakenInOrder) -> Clearer<N>
    requires live { dict.spent ≡ false }
    requires names { length taken.names ≡ length taken.rows }
    ensures { result ≡ record { dict = Some dict; taken = taken } }
{
    Clearer {
        warm: started(dict),
        taken: Some(taken),
    }
}

/// The start, or that of a market over none of its limits and rooms where there is none.
fn warmed<N: Exact>(alloc: Global, market: &Market, warm: Warm<N>) -> Result<Warm<N>, Stop<N>>
    ensures start { (k : Kept) → k.dict ≡ warm → FitsFrame market.now k → IfOk result (HoldsStart market.now k.taken.takings) }
    ensures stops { (k : Kept) → k.dict ≡ warm → FitsFrame market.now k → IfErr result (StopsInRange N.value N.bound market.now (limits_of k.taken.takings)) }
{
    if warm.is_kept() {
        Ok(warm)
    } else {
        Ok(started(start_at_margin(alloc, market)?))
    }
}

/// What the first round begins with.
fn first_hand<N: Exact>(
    alloc: Global,
    market: &Market,
    clearer: Clearer<N>,
) -> Result<Hand<N>, Stop<N>>
    requires { FitsFrame market.now clearer }
    ensures hand { IfOk result (IsInHand N.value market.now) }
    ensures taken { IfOk result (λ hand. hand.taken ≡ clearer.taken) }
    ensures stops { IfErr result (StopsInRange N.value N.bound market.now (limits_of clearer.taken.takings)) }
{
    let _lines = market.lines();
    let warm = warmed(alloc, market, clearer.warm)?;
    let taken = taken_or_none(alloc, clearer.taken);
    let posing = prices_and_bounds(alloc, market, taken.takings.slice())?;
    Ok(Hand {
        warm,
        posing,
        taken,
    })
}

/// How a clear ends that starts from what a clearer keeps.
fn rounds_from<N: Exact>(
    alloc: Global,
    market: &Market,
    clearer: Clearer<N>,
) -> Result<Ended<N>, Stop<N>>
    requires { FitsFrame market.now clearer }
    ensures ended { IfOk result (IsEnded N.value market.now) }
    ensures taken { IfOk result (λ ended. Growth market.now (limits_of clearer.taken.takings) (limits_of ended.taken.takings)) }
    ensures grown { IfOk result (λ ended. Grown market.now clearer.taken.takings ended.taken.takings) }
    ensures stops { IfErr result (StopsInRange N.value N.bound market.now (limits_of clearer.taken.takings)) }
{
    let hand = first_hand(alloc, market, clearer)?;
    all_rounds(alloc, market, hand)
}

impl<N: Exact> Clearer<N> {
    /// Nothing is kept yet, so the first clear starts without limits. Takes no memory.
    pub fn new(market: &Market) -> Clearer<N>
        ensures cold { result ≡ cold }
        ensures frame { FitsFrame market.now result }
    {
        unused()
    }

    /// How many limits the last clear ended with; none where numbers became too large, or memory was refused.
    pub fn taken(&self) -> usize
        ensures { result ≡ length self.now.taken.rows }
    {
        match &self.taken {
            Some(taken) => taken.rows.len(),
            None => 0,
        }
    }

    /// The name of one of these, in the order in which they were taken, the first being 0.
    pub fn taken_row(&self, place: usize) -> RowId
        requires { place < length self.now.taken.rows }
        ensures { slice_get self.now.taken.names place ≡ Some result }
    {
        match &self.taken {
            Some(taken) => *taken.names.at(place),
            None => unreachable!(),
        }
    }

    /// Clears a market: of the best dispatches over all its limits and rooms the one that goes first, with prices that support it, duals that
    /// show that no dispatch is feasible, or two numbers that together are too large. Each round takes a limit or a room that is new, so it
    /// ends; and only one that a best dispatch for those in hand passes. After an answer and after `Infeasible` the dictionary with what is
    /// taken is kept; after `Range` and `Memory` nothing is, so that the next clear starts without limits and rooms. A clearer that keeps
    /// nothing fits every market; what is kept has to be of the market's frame, and edits keep it so (`laws::start_is_of_the_frame`).
    pub fn clear(&mut self, alloc: Global, market: &Market) -> Result<Answer<N>, ClearFault<N>>
        requires frame { FitsFrame market.now self.old }
        ensures fits { IfOk result (FitsMarket market.now) }
        ensures clear { ClearComesTo N.value N.bound market.now self.old.taken.rows result self.new.taken.rows }
        ensures frame { FitsFrame market.now self.new }
        ensures takings { Takes market.now self.old.taken.takings result self.new.taken.takings }
        ensures kept { KeepsStart result self.new }
    {
        match self.clear_reached(alloc, market) {
            Ok(reached) => cleared(reached.outcome),
            Err(Memory) => Err(ClearFault::Memory),
        }
    }

    /// What a clear comes to, with what its dispatch carries and reaches where it is an answer. Its last look at the limits of the market tells
    /// this. The rest as in `clear`.
    pub fn clear_reached(
        &mut self,
        alloc: Global,
        market: &Market,
    ) -> Result<ReachedOutcome<N>, Memory>
        requires frame { FitsFrame market.now self.old }
        ensures fits { IfOk result (λ reached. FitsOutcome market.now reached.outcome) }
        ensures clear { IfOk result (λ reached. IsClear N.bound market.now self.old.taken.rows (outcome_at N.value reached.outcome) self.new.taken.rows) }
        ensures takings { IfOk result (λ reached. TakesAfter market.now self.old.taken.takings reached.outcome self.new.taken.takings) }
        ensures kept { IfOk result (λ reached. KeepsAfter reached.outcome self.new) }
        ensures frame { FitsFrame market.now self.new }
        ensures memory { IfErr result (λ _. self.new ≡ cold) }
        ensures reach { IfOk result (λ reached. IsReachOf N.value market.now reached.outcome reached.reach) }
        ensures chosen { IfOk result (λ reached. IsChosenOutcome market.now (outcome_at N.value reached.outcome)) }
    {
        let _lines = market.lines();
        let before = std::mem::replace(self, unused());
        match rounds_from(alloc, market, before) {
            Ok(Ended { dict, taken, end }) => {
                *self = keeping(dict, taken);
                Ok(outcome_at_end(end))
            }
            Err(Stop::Passed(passed)) => Ok(ReachedOutcome {
                outcome: Outcome::Range(passed),
                reach: None,
            }),
            Err(Stop::Memory) => Err(Memory),
        }
    }
}
