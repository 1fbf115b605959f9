//! A session's steps, and what is to be printed of them.

ghost use Rattle.std.specs.Prelude.{◌≡◌, All, length, map, IfOk, IfErr};
ghost use Rattle.market_data.specs.Participants.{IsDatum};
ghost use Rattle.market_model.specs.declared.participants.Parts.{Parts};
ghost use Rattle.market_model.specs.Frame.{SameFrame};
ghost use Rattle.offer_book.specs.Edits.{number_of};
ghost use Rattle.edit_table.specs.EditTable.{IsStep};
ghost use Rattle.edit_table.specs.declared.Step.TheVariants as step;
ghost use Rattle.edit_replay.specs.Replays.{FitsStep, IsEditedPart, IsReply, KeepsStep, KeepsSteps, edited_by, stepped, step_outcome_at};
ghost use Rattle.settled_replay.specs.PrintedReplays.{IsPrintedReplay, IsPrintedReply};
ghost use Rattle.settled_replay.specs.Refusals.{TellsRefusal, TellsRefusals};

use edit_replay::{Outcomes, Session, Step, StepOutcome, Steps};
use exact_fraction::Exact;
use market_model::{List, Memory};
use offer_book::Edit;
use settled_answer::settled_outcome;
use std::alloc::Global;

/// What is printed of each of some steps, and whether settling was refused at some clear among them: whether a number passed the bound of its
/// type on the way to the first prices of an answer, which then has its own.
#[derive(Drop)]
pub struct SettledReplay<N> {
    pub outcomes: Outcomes<N>,
    pub is_passed: bool,
}

/// What is printed of a step, and whether settling was refused.
#[derive(Drop)]
struct SettledStep<N> {
    outcome: StepOutcome<N>,
    is_passed: bool,
}

/// Does an edit.
fn edit_outcome<N: Exact>(session: &mut Session<N>, asked: &Edit) -> StepOutcome<N>
    requires { IsDatum (number_of asked.now) }
    ensures reply { IsReply N.bound session.old.market session.old.kept.taken.takings (step.Edit asked.now) (step_outcome_at N.value result) session.new.kept.taken.takings }
    ensures market { session.new.market ≡ stepped session.old.market (step.Edit asked.now) }
    ensures fits { FitsStep session.old.market result }
    ensures kept { KeepsStep session.old.kept result session.new.kept }
{
    match session.edit(asked) {
        Ok(()) => StepOutcome::Accepted,
        Err(fault) => StepOutcome::Refused(fault),
    }
}

/// Clears the market, and settles what that comes to.
fn clear_outcome<N: Exact>(
    session: &mut Session<N>,
    alloc: Global,
) -> Result<SettledStep<N>, Memory>
    ensures reply { IfOk result (λ printed. IsPrintedReply N.bound session.old.market session.old.kept.taken.takings step.Clear (step_outcome_at N.value printed.outcome) session.new.kept.taken.takings) }
    ensures passed { IfOk result (λ printed. TellsRefusal N.bound session.old.market (step_outcome_at N.value printed.outcome) printed.is_passed) }
    ensures market { session.new.market ≡ session.old.market }
    ensures fits { IfOk result (λ printed. FitsStep session.old.market printed.outcome) }
    ensures kept { IfOk result (λ printed. KeepsStep session.old.kept printed.outcome session.new.kept) }
{
    let reached = session.clear_reached(alloc)?;
    let settled = settled_outcome(alloc, session.market(), reached.outcome, reached.reach)?;
    Ok(SettledStep {
        is_passed: settled.passed.is_some(),
        outcome: StepOutcome::Clear(settled.outcome),
    })
}

/// Does one step.
fn step_outcome<N: Exact>(
    session: &mut Session<N>,
    alloc: Global,
    step: &Step,
) -> Result<SettledStep<N>, Memory>
    requires { IsStep step.now }
    ensures reply { IfOk result (λ printed. IsPrintedReply N.bound session.old.market session.old.kept.taken.takings step.now (step_outcome_at N.value printed.outcome) session.new.kept.taken.takings) }
    ensures passed { IfOk result (λ printed. TellsRefusal N.bound session.old.market (step_outcome_at N.value printed.outcome) printed.is_passed) }
    ensures market { IfOk result (λ _. session.new.market ≡ stepped session.old.market step.now) }
    ensures fits { IfOk result (λ printed. FitsStep session.old.market printed.outcome) }
    ensures kept { IfOk result (λ printed. KeepsStep session.old.kept printed.outcome session.new.kept) }
    ensures memory { IfErr result (λ _. session.new.market ≡ session.old.market) }
{
    match step {
        Step::Edit(asked) => Ok(SettledStep {
            outcome: edit_outcome(session, asked),
            is_passed: false,
        }),
        Step::Clear => clear_outcome(session, alloc),
    }
}

/// Does steps of a session in their order, as long as there is memory. What a clear comes to is told as it is to be printed: an answer with the
/// first prices of its dispatch, or with its own, where a number passes the bound of its type on the way to these; and it is told whether one
/// did. The session goes on from what its own clear took and keeps. Where memory is refused, it holds the market after the first of the steps,
/// up to some place.
pub fn settled_replay<N: Exact>(
    session: &mut Session<N>,
    alloc: Global,
    steps: &Steps,
) -> Result<SettledReplay<N>, Memory>
    requires { All IsStep steps.now }
    ensures replay { IfOk result (λ printed. IsPrintedReplay N.bound session.old.market session.old.kept.taken.takings steps.now (map (step_outcome_at N.value) printed.outcomes) session.new.kept.taken.takings) }
    // Where no settling was refused, each printed answer has its first prices; else some clear's was.
    ensures passed { IfOk result (λ printed. TellsRefusals N.bound session.old.market steps.now (map (step_outcome_at N.value) printed.outcomes) printed.is_passed) }
    ensures count { IfOk result (λ printed. length printed.outcomes ≡ length steps.now) }
    ensures market { IfOk result (λ _. session.new.market ≡ edited_by session.old.market steps.now) }
    ensures frame { SameFrame session.old.market session.new.market }
    // An answer fits the market that it is of, and every other one of the session's frame.
    ensures fits { IfOk result (λ printed. (m : Parts) → SameFrame session.old.market m → All (FitsStep m) printed.outcomes) }
    ensures kept { IfOk result (λ printed. KeepsSteps session.old.kept printed.outcomes session.new.kept) }
    ensures memory { IfErr result (λ _. IsEditedPart session.old.market steps.now session.new.market) }
{
    let mut printed = List::new(alloc);
    let mut is_passed = false;
    for step in steps.slice() {
        let settled = step_outcome(session, alloc, step)?;
        is_passed = is_passed || settled.is_passed;
        printed.push(settled.outcome)?;
    }
    Ok(SettledReplay {
        outcomes: printed,
        is_passed,
    })
}
