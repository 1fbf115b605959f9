//! A market that is edited and cleared.

ghost use Rattle.std.specs.Prelude.{◌≡◌, All, List, length, map, IfOk, IfErr};
ghost use Rattle.market_data.specs.Participants.{IsDatum};
ghost use Rattle.market_model.specs.declared.participants.Parts.{Parts};
ghost use Rattle.market_model.specs.Fitting.{FitsOutcome};
ghost use Rattle.market_model.specs.Frame.{SameFrame};
ghost use Rattle.market_model.specs.Valued.{outcome_at};
ghost use Rattle.market_system.specs.Outcomes.{IsClear};
ghost use Rattle.limit_screen.specs.Reaching.{IsReachOf};
ghost use Rattle.market_dict.specs.Chosen.{IsChosenOutcome};
ghost use Rattle.market_dict.specs.Takings.{limits_of};
ghost use Rattle.offer_book.specs.Edits.{answer, judge, number_of, step_of};
ghost use Rattle.edit_table.specs.EditTable.{IsStep};
ghost use Rattle.clear_loop.specs.Clearing.{KeepsAfter, TakesAfter};
ghost use Rattle.clear_loop.specs.Keeping.{FitsFrame, cold};
ghost use Rattle.edit_replay.specs.Replays.{FitsStep, IsEditedPart, IsReplay, IsReply, KeepsStep, KeepsSteps, edited_by, stepped, step_outcome_at};

use crate::step_outcome::{Outcomes, StepOutcome, replied};
use clear_loop::{Clearer, ReachedOutcome};
use edit_table::{Step, Steps};
use exact_fraction::Exact;
use market_model::{List, Market, Memory, Outcome};
use offer_book::{Edit, EditFault, edit};
use std::alloc::Global;
use std::marker::Model;

/// A market with what clears of it leave for the next one. Each clear starts from the limits and rooms that the one before it took, whatever
/// edits came between.
#[derive(Drop)]
pub struct Session<N: Exact> {
    market: Market,
    clearer: Clearer<N>,
}

impl<N: Exact> Model for Session<N> {
    ghost use Rattle.clear_loop.specs.Keeping.{FitsFrame};
    ghost use Rattle.edit_replay.specs.SessionStates.{SessionState};

    ghost Value = { SessionState };

    ghost view = { λ s. record { market = s.market; kept = s.clearer } };

    ghost invariant = { λ s. FitsFrame s.market s.clearer };
}

impl<N: Exact> Session<N> {
    /// Nothing is kept yet, so the first clear starts without limits and rooms.
    pub fn new(market: Market) -> Session<N>
        ensures { result ≡ record { market = market; kept = cold } }
    {
        let clearer = Clearer::new(&market);
        Session { market, clearer }
    }

    /// The market as the edits have left it.
    pub fn market(&self) -> &Market
        ensures { result.now ≡ self.now.market }
    {
        &self.market
    }

    /// What clears the market. Takes no memory.
    pub fn clearer(&self) -> &Clearer<N>
        ensures kept { result.now ≡ self.now.kept }
        ensures frame { FitsFrame self.now.market self.now.kept }
    {
        &self.clearer
    }

    /// Sets the one number that an edit names, or says why it is refused and changes nothing, as `offer_book::edit` does. What is kept
    /// for the next clear stays. Takes no memory.
    pub fn edit(&mut self, asked: &Edit) -> Result<(), EditFault>
        requires { IsDatum (number_of asked.now) }
        ensures judged { result ≡ answer (judge self.old.market asked.now) }
        ensures changed { self.new ≡ record { market = step_of self.old.market asked.now; kept = self.old.kept } }
    {
        edit(&mut self.market, asked)
    }

    /// Clears the market as it is now, from the limits and rooms that the clear before took. After an answer, and where nothing is feasible,
    /// those taken are kept; where numbers became too large, or memory was refused, nothing is, and the next clear starts without any.
    pub fn clear(&mut self, alloc: Global) -> Result<Outcome<N>, Memory>
        ensures market { self.new.market ≡ self.old.market }
        ensures clear { IfOk result (λ outcome. IsClear N.bound self.old.market (limits_of self.old.kept.taken.takings) (outcome_at N.value outcome) (limits_of self.new.kept.taken.takings)) }
        ensures fits { IfOk result (FitsOutcome self.old.market) }
        ensures takings { IfOk result (λ outcome. TakesAfter self.old.market self.old.kept.taken.takings outcome self.new.kept.taken.takings) }
        ensures kept { IfOk result (λ outcome. KeepsAfter outcome self.new.kept) }
        ensures memory { IfErr result (λ _. self.new.kept ≡ cold) }
    {
        let reached = self.clear_reached(alloc)?;
        Ok(reached.outcome)
    }

    /// What a clear of the market as it is now comes to, with what its dispatch carries and reaches where it is an answer. The rest as in `clear`.
    pub fn clear_reached(&mut self, alloc: Global) -> Result<ReachedOutcome<N>, Memory>
        ensures market { self.new.market ≡ self.old.market }
        ensures clear { IfOk result (λ reached. IsClear N.bound self.old.market (limits_of self.old.kept.taken.takings) (outcome_at N.value reached.outcome) (limits_of self.new.kept.taken.takings)) }
        ensures fits { IfOk result (λ reached. FitsOutcome self.old.market reached.outcome) }
        ensures takings { IfOk result (λ reached. TakesAfter self.old.market self.old.kept.taken.takings reached.outcome self.new.kept.taken.takings) }
        ensures kept { IfOk result (λ reached. KeepsAfter reached.outcome self.new.kept) }
        ensures memory { IfErr result (λ _. self.new.kept ≡ cold) }
        ensures reach { IfOk result (λ reached. IsReachOf N.value self.old.market reached.outcome reached.reach) }
        ensures chosen { IfOk result (λ reached. IsChosenOutcome self.old.market (outcome_at N.value reached.outcome)) }
    {
        self.clearer.clear_reached(alloc, &self.market)
    }

    /// Does one step.
    #[tactic(auto, using(crate::proofs::KeptLemmas::takes_at))]
    fn step(&mut self, alloc: Global, step: &Step) -> Result<StepOutcome<N>, Memory>
        requires { IsStep step.now }
        ensures reply { IfOk result (λ outcome. IsReply N.bound self.old.market self.old.kept.taken.takings step.now (step_outcome_at N.value outcome) self.new.kept.taken.takings) }
        ensures market { IfOk result (λ _. self.new.market ≡ stepped self.old.market step.now) }
        ensures fits { IfOk result (FitsStep self.old.market) }
        ensures kept { IfOk result (λ outcome. KeepsStep self.old.kept outcome self.new.kept) }
        ensures memory { IfErr result (λ _. self.new.market ≡ self.old.market) }
    {
        match step {
            Step::Edit(edit) => Ok(replied(self.edit(edit))),
            Step::Clear => Ok(StepOutcome::Clear(self.clear(alloc)?)),
        }
    }

    /// Does steps in their order, as long as there is memory.
    fn all_steps(&mut self, alloc: Global, steps: &Steps) -> Result<Outcomes<N>, Memory>
        requires { All IsStep steps.now }
        ensures replay { IfOk result (λ outcomes. IsReplay N.bound self.old.market self.old.kept.taken.takings steps.now (map (step_outcome_at N.value) outcomes) self.new.kept.taken.takings) }
        ensures market { IfOk result (λ _. self.new.market ≡ edited_by self.old.market steps.now) }
        ensures fits { IfOk result (λ outcomes. (m : Parts) → SameFrame self.old.market m → All (FitsStep m) outcomes) }
        ensures kept { IfOk result (λ outcomes. KeepsSteps self.old.kept outcomes self.new.kept) }
        ensures memory { IfErr result (λ _. IsEditedPart self.old.market steps.now self.new.market) }
    {
        let mut outcomes = List::new(alloc);
        for step in steps.slice() {
            let outcome = self.step(alloc, step)?;
            outcomes.push(outcome)?;
        }
        Ok(outcomes)
    }

    /// Keeps nothing for the next clear.
    fn forget(&mut self)
        ensures { self.new ≡ record { market = self.old.market; kept = cold } }
    {
        self.clearer = Clearer::new(&self.market);
    }

    /// Does steps in their order. A refused edit ends nothing, nor does a clear in which nothing is feasible or numbers become too large.
    /// Where memory is refused, the session holds the market after the first of the steps, up to some place, and the next clear starts
    /// without limits and rooms.
    pub fn replay(&mut self, alloc: Global, steps: &Steps) -> Result<Outcomes<N>, Memory>
        requires { All IsStep steps.now }
        ensures replay { IfOk result (λ outcomes. IsReplay N.bound self.old.market self.old.kept.taken.takings steps.now (map (step_outcome_at N.value) outcomes) self.new.kept.taken.takings) }
        ensures count { IfOk result (λ outcomes. length outcomes ≡ length steps.now) }
        ensures market { IfOk result (λ _. self.new.market ≡ edited_by self.old.market steps.now) }
        ensures frame { SameFrame self.old.market self.new.market }
        // An answer fits the market that it is of, and every other one of the session's frame.
        ensures fits { IfOk result (λ outcomes. (m : Parts) → SameFrame self.old.market m → All (FitsStep m) outcomes) }
        ensures kept { IfOk result (λ outcomes. KeepsSteps self.old.kept outcomes self.new.kept) }
        ensures memory { IfErr result (λ _. IsEditedPart self.old.market steps.now self.new.market) }
        ensures dropped { IfErr result (λ _. self.new.kept ≡ cold) }
    {
        match self.all_steps(alloc, steps) {
            Ok(outcomes) => Ok(outcomes),
            Err(Memory) => {
                self.forget();
                Err(Memory)
            }
        }
    }
}
