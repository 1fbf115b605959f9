//! Edits and clears of a market, one after another.

ghost use Rattle.std.specs.Prelude.{◌≡◌, ◌≢◌, ◌≤◌, ℕ, true, false, None, All, IfOk, IfSome, OnOk, length, map, option_and_then, option_map};
ghost use Rattle.fraction_theory.specs.Fraction.{Fraction};
ghost use Rattle.cert_format.specs.Certificates.{NumbersFit, cert_of_outcome};
ghost use Rattle.cert_format.specs.Written.{certificate_of};
ghost use Rattle.edit_replay.specs.Replays.{FitsStep, step_outcome_at};
ghost use Rattle.edit_table.specs.EditTable.{AreSteps, IsStep};
ghost use Rattle.market_tables.specs.Tables.{tables_lent};
ghost use Rattle.market_inputs.specs.Stops.{IsToldAs};
ghost use Rattle.market_model.specs.Changes.{with_need};
ghost use Rattle.market_model.specs.Frame.{SameFrame};
ghost use Rattle.market_model.specs.Market.{IsMarket};
ghost use Rattle.market_model.specs.declared.participants.Parts.{Parts};
ghost use Rattle.market_model.specs.Valued.{outcome_at};
ghost use Rattle.command_answers.specs.Inputs.{IsReplayed, steps_with};
ghost use Rattle.command_answers.specs.Replaying.{IsNoRange, ReplaysTo, TellsReplay, TellsSteps, clear_or, is_done, last_clear, replay_status, step_status};
ghost use Rattle.command_answers.specs.Status.{IsOfWork};
ghost use Rattle.command_answers.specs.Tellings.{Tells, telling_of};
ghost use Rattle.number_bits.specs.Bits.{most_of};

use crate::anew::{is_either, is_made_anew};
use crate::clearing::clear_status;
use crate::status::Status;
use crate::told::{Attempt, Outputs, Told, refused};
use cert_format::outcome_json;
use edit_replay::{Outcomes, Session, StepOutcome, Steps};
use exact_fraction::{Exact, Frac};
use long_fraction::Frac1023;
use market_data::FactorPlaces;
use market_inputs::{InputStop, clear_market, edit_steps};
use market_model::{Market, Memory, Outcome};
use market_tables::MarketTables;
use net_case::PostRating;
use number_bits::NumberBits;
use replay_text::replay_text;
use settled_replay::settled_replay;
use std::alloc::Global;

/// The market of the files of a replay, and its steps.
#[derive(Drop)]
pub(crate) struct Replayed {
    pub market: Market,
    pub steps: Steps,
}

/// What the files of a replay stand for.
pub(crate) fn replay_inputs(
    alloc: Global,
    bytes: &MarketTables<&[u8]>,
    rating: PostRating,
    places: FactorPlaces,
    edits: &[u8],
) -> Result<Replayed, InputStop>
    ensures told { IsToldAs (IsReplayed rating places (tables_lent bytes.now) edits.now) (steps_with result) }
    ensures kept { IfOk result (λ made. IsMarket made.market × AreSteps made.steps) }
{
    let market = clear_market(alloc, bytes, rating, places)?;
    let steps = edit_steps(alloc, edits)?;
    Ok(Replayed { market, steps })
}

/// The status of a step's outcome.
fn step_status<N: Exact>(outcome: &StepOutcome<N>) -> Status
    ensures status { result ≡ step_status (step_outcome_at N.value outcome.now) }
    ensures work { IsOfWork result }
{
    match outcome {
        StepOutcome::Accepted => Status::Done,
        StepOutcome::Refused(_) => Status::Refused,
        StepOutcome::Clear(outcome) => clear_status(outcome),
    }
}

fn is_done(status: Status) -> bool
    ensures { result ≡ is_done status }
{
    matches!(status, Status::Done)
}

/// The status of the first step that was neither accepted nor cleared.
fn replay_status<N: Exact>(outcomes: &Outcomes<N>) -> Status
    ensures status { result ≡ replay_status (map (step_outcome_at N.value) outcomes.now) }
    ensures work { IsOfWork result }
{
    for outcome in outcomes.slice() {
        let status = step_status(outcome);
        if !is_done(status) {
            return status;
        }
    }
    Status::Done
}

/// The outcome of a clear, or what there was before.
fn clear_or<'a, N>(
    before: Option<&'a Outcome<N>>,
    outcome: &'a StepOutcome<N>,
) -> Option<&'a Outcome<N>>
    ensures { (value : N → Fraction) → option_map (λ o. outcome_at value o.now) result ≡ clear_or (option_map (λ o. outcome_at value o.now) before.entry) (step_outcome_at value outcome.entry.now) }
{
    match outcome {
        StepOutcome::Clear(outcome) => Some(outcome),
        _ => before,
    }
}

/// The certificate of the last clear, of a market whose factors have so many places and whose reserve is listed or not.
fn last_certificate<N: Exact>(
    alloc: Global,
    outcomes: &Outcomes<N>,
    places: FactorPlaces,
    listed: bool,
) -> Result<Option<Vec<u8>>, Memory>
    ensures text { IfOk result (λ made. option_map (λ bytes. bytes.items) made ≡ option_and_then (certificate_of places listed) (last_clear None (map (step_outcome_at N.value) outcomes.now))) }
    ensures fits { OnOk result (IfSome (option_and_then (cert_of_outcome places listed) (last_clear None (map (step_outcome_at N.value) outcomes.now))) (NumbersFit N.bound)) }
{
    let mut last = None;
    for outcome in outcomes.slice() {
        last = clear_or(last, outcome);
    }
    match last {
        Some(outcome) => outcome_json(alloc, places, listed, outcome),
        None => Ok(None),
    }
}

/// Whether a step was a clear that ended with numbers that became too large.
fn is_passed<N: Exact>(outcome: &StepOutcome<N>) -> bool
    ensures none { result ≡ false → IsNoRange (step_outcome_at N.value outcome.now) }
    ensures one { result ≡ true → ¬ (IsNoRange (step_outcome_at N.value outcome.now)) }
{
    match outcome {
        StepOutcome::Clear(Outcome::Range(_)) => true,
        StepOutcome::Clear(Outcome::Cleared(_) | Outcome::Infeasible(_)) => false,
        StepOutcome::Accepted | StepOutcome::Refused(_) => false,
    }
}

/// Whether one of the steps was.
fn is_any_passed<N: Exact>(outcomes: &Outcomes<N>) -> bool
    ensures none { result ≡ false → All IsNoRange (map (step_outcome_at N.value) outcomes.now) }
    ensures one { result ≡ true → ¬ (All IsNoRange (map (step_outcome_at N.value) outcomes.now)) }
{
    for outcome in outcomes.slice() {
        if is_passed(outcome) {
            return true;
        }
    }
    false
}

/// The text of the outcomes of steps, by a market of their frame and by the need of reserve before the first step, with their status and
/// the certificate of the last clear.
fn outcomes_told<N: Exact>(
    alloc: Global,
    market: &Market,
    need: i64,
    steps: &Steps,
    outcomes: &Outcomes<N>,
) -> Result<Attempt, Memory>
    requires count { length outcomes.now ≡ length steps.now }
    requires fits { All (FitsStep market.now) outcomes.now }
    ensures status { IfOk result (λ made. IsOfWork made.told.status) }
    ensures tells { (m : Parts) → SameFrame market.now m → IfOk result (λ made. TellsSteps N.bound (with_need m need) steps.now (map (step_outcome_at N.value) outcomes.now) (telling_of made.told)) }
    ensures within { IfOk result (λ made. made.is_passed ≡ false → All IsNoRange (map (step_outcome_at N.value) outcomes.now)) }
{
    let text = replay_text(alloc, market, need, steps, outcomes)?;
    let places = market.factor_places();
    let certificate = last_certificate(alloc, outcomes, places, market.reserve().listed)?;
    let told = Told {
        status: replay_status(outcomes),
        text,
        outputs: Outputs::certified(certificate),
    };
    let is_passed = is_any_passed(outcomes);
    Ok(Attempt { told, is_passed })
}

/// How much reserve is needed, in 10^-9 MW.
fn need_of(market: &Market) -> i64
    ensures { result ≡ market.now.reserve.need }
{
    market.reserve().need
}

/// What replaying the steps of a market comes to.
fn replay_outcome<N: Exact>(alloc: Global, market: Market, steps: &Steps) -> Result<Attempt, Memory>
    requires market { IsMarket market }
    requires steps { All IsStep steps.now }
    ensures status { IfOk result (λ made. IsOfWork made.told.status) }
    ensures replays { IfOk result (λ made. ReplaysTo N.bound market steps.now (telling_of made.told)) }
    ensures wider { (bound : ℕ) → N.bound ≤ bound → IfOk result (λ made. made.is_passed ≡ false → ReplaysTo bound market steps.now (telling_of made.told)) }
{
    let need = need_of(&market);
    let mut session = Session::<N>::new(market);
    let printed = settled_replay(&mut session, alloc, steps)?;
    let made = outcomes_told(alloc, session.market(), need, steps, &printed.outcomes)?;
    Ok(Attempt {
        told: made.told,
        is_passed: is_either(made.is_passed, printed.is_passed),
    })
}

/// What the whole bytes of the files of a market and of a table of edits come to by one type of numbers.
fn replay_by<N: Exact>(
    alloc: Global,
    bytes: &MarketTables<&[u8]>,
    rating: PostRating,
    places: FactorPlaces,
    edits: &[u8],
) -> Result<Attempt, Memory>
    ensures status { IfOk result (λ made. IsOfWork made.told.status) }
    ensures tells { IfOk result (λ made. Tells (IsReplayed rating places (tables_lent bytes.now) edits.now) (TellsReplay N.bound) (telling_of made.told)) }
    ensures wider { (bound : ℕ) → N.bound ≤ bound → IfOk result (λ made. made.is_passed ≡ false → Tells (IsReplayed rating places (tables_lent bytes.now) edits.now) (TellsReplay bound) (telling_of made.told)) }
{
    match replay_inputs(alloc, bytes, rating, places, edits) {
        Ok(replayed) => replay_outcome::<N>(alloc, replayed.market, &replayed.steps),
        Err(InputStop::Refused(refusal)) => Ok(Attempt {
            told: refused(alloc, &refusal)?,
            is_passed: false,
        }),
        Err(InputStop::Memory) => Err(Memory),
    }
}

/// What the whole bytes of the files of a market and of a table of edits come to by numbers of so many bits. They are replayed by numbers of
/// 127 bits, and anew as a whole where one of these becomes too large in a clear and wider ones are asked for.
pub fn replay_told(
    alloc: Global,
    bytes: &MarketTables<&[u8]>,
    rating: PostRating,
    places: FactorPlaces,
    edits: &[u8],
    bits: NumberBits,
) -> Result<Told, Memory>
    ensures status { IfOk result (λ told. IsOfWork told.status) }
    ensures tells { IfOk result (λ told. Tells (IsReplayed rating places (tables_lent bytes.now) edits.now) (TellsReplay (most_of bits)) (telling_of told)) }
{
    let made = replay_by::<Frac>(alloc, bytes, rating, places, edits)?;
    if !is_made_anew(bits, made.is_passed) {
        return Ok(made.told);
    }
    let anew = replay_by::<Frac1023>(alloc, bytes, rating, places, edits)?;
    Ok(anew.told)
}
