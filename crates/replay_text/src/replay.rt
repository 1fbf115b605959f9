//! The text of a replay.

ghost use Rattle.std.specs.Prelude.{◌≡◌, ◌++◌, All, length, map, IfOk};
ghost use Rattle.market_model.specs.declared.participants.Parts.{Parts};
ghost use Rattle.market_model.specs.Changes.{with_need};
ghost use Rattle.market_model.specs.Frame.{SameFrame};
ghost use Rattle.edit_replay.specs.Replays.{FitsStep, step_outcome_at};
ghost use Rattle.replay_text.specs.ReplayTexts.{came_to_text, replayed, step_text, steps_text};

use crate::fault::fault_words;
use crate::need::need_after;
use edit_replay::{Outcomes, StepOutcome, Steps};
use exact_fraction::Exact;
use line_text::Text;
use market_model::{Market, Memory};
use report_text::report_with_need;
use std::alloc::Global;

/// What a step came to, behind its number, of the market with this need of reserve.
fn outcome_lines<N: Exact>(
    alloc: Global,
    text: &mut Text,
    market: &Market,
    need: i64,
    outcome: &StepOutcome<N>,
) -> Result<(), Memory>
    requires { FitsStep market.now outcome.now }
    ensures { IfOk result (λ _. text.new ≡ text.old ++ came_to_text (with_need market.now need) (step_outcome_at N.value outcome.now)) }
{
    match outcome {
        StepOutcome::Accepted => text.word(b" edit accepted\n"),
        StepOutcome::Refused(fault) => {
            text.word(b" edit refused ")?;
            fault_words(text, *fault)?;
            text.word(b"\n")
        }
        StepOutcome::Clear(outcome) => {
            text.word(b" clear\n")?;
            text.word(report_with_need(alloc, market, need, outcome)?.as_slice())
        }
    }
}

/// The lines of a step of this number, of the market with this need of reserve.
fn step_lines<N: Exact>(
    alloc: Global,
    text: &mut Text,
    number: usize,
    market: &Market,
    need: i64,
    outcome: &StepOutcome<N>,
) -> Result<(), Memory>
    requires { FitsStep market.now outcome.now }
    ensures { IfOk result (λ _. text.new ≡ text.old ++ step_text number (with_need market.now need) (step_outcome_at N.value outcome.now)) }
{
    text.word(b"step ")?;
    text.number(number)?;
    outcome_lines(alloc, text, market, need, outcome)
}

/// The lines of the steps of a market with this need of reserve, numbered from 1. Of what edits change a report tells the need alone, which
/// is told as it is by then.
fn steps_lines<N: Exact>(
    alloc: Global,
    text: &mut Text,
    market: &Market,
    need: i64,
    steps: &Steps,
    outcomes: &Outcomes<N>,
) -> Result<(), Memory>
    requires count { length outcomes.now ≡ length steps.now }
    requires fits { All (FitsStep market.now) outcomes.now }
    ensures { IfOk result (λ _. text.new ≡ text.old ++ steps_text 1 (with_need market.now need) steps.now (map (step_outcome_at N.value) outcomes.now)) }
{
    let mut need = need;
    for (place, outcome) in outcomes.slice().iter().enumerate() {
        step_lines(alloc, text, place + 1, market, need, outcome)?;
        need = need_after(market, need, steps.at(place));
    }
    Ok(())
}

/// The text of a replay, by the need of reserve before its first step, in 10^-9 MW, and by a market of its frame, as that before this step
/// or that after the last one: a report tells of a market only the need and what no edit changes.
pub fn replay_text<N: Exact>(
    alloc: Global,
    market: &Market,
    need: i64,
    steps: &Steps,
    outcomes: &Outcomes<N>,
) -> Result<Vec<u8>, Memory>
    requires count { length outcomes.now ≡ length steps.now }
    requires fits { All (FitsStep market.now) outcomes.now }
    ensures { (m : Parts) → SameFrame market.now m → IfOk result (λ bytes. bytes.items ≡ replayed (with_need m need) steps.now (map (step_outcome_at N.value) outcomes.now)) }
{
    let mut text = Text::new(alloc);
    if steps.len() == 0 {
        text.word(b"no steps\n")?;
        return Ok(text.into_bytes());
    }
    steps_lines(alloc, &mut text, market, need, steps, outcomes)?;
    Ok(text.into_bytes())
}
