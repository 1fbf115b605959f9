//! Markets that are cleared.

ghost use Rattle.std.specs.Prelude.{◌≡◌, ◌≤◌, ℕ, false, [], IfOk};
ghost use Rattle.market_tables.specs.Tables.{tables_lent};
ghost use Rattle.market_model.specs.Fitting.{FitsOutcome};
ghost use Rattle.market_model.specs.Market.{IsMarket};
ghost use Rattle.market_model.specs.Valued.{outcome_at, passed_at};
ghost use Rattle.market_system.specs.Outcomes.{IsRightOutcome};
ghost use Rattle.report_text.specs.Reports.{range_text};
ghost use Rattle.settled_answer.specs.Settled.{HasFirstPrices, IsSettledOutcome};
ghost use Rattle.command_answers.specs.Bounds.{IsOutcomeWithin};
ghost use Rattle.command_answers.specs.Clearing.{ClearsTo, TellsCertified, TellsClear, status_of};
ghost use Rattle.command_answers.specs.Status.{IsOfWork};
ghost use Rattle.command_answers.specs.Tellings.{MadeTo, Tells, telling_of};
ghost use Rattle.market_inputs.specs.Texts.{IsPool, IsLimited};
ghost use Rattle.number_bits.specs.Bits.{most_of};

use crate::anew::{is_made_anew, is_told_passed};
use crate::status::Status;
use crate::told::{Attempt, Outputs, Told, refused};
use cert_format::outcome_json;
use exact_fraction::{Exact, Frac, Passed};
use long_fraction::Frac1023;
use market_data::FactorPlaces;
use market_inputs::{InputStop, clear_market, pool_market};
use market_model::{Market, Memory, Outcome};
use market_tables::MarketTables;
use net_case::PostRating;
use number_bits::NumberBits;
use report_text::report;
use settled_replay::{SettledClear, settled_clear};
use std::alloc::Global;

/// What is printed of a market, and whether settling was refused.
pub(crate) fn cleared<N: Exact>(alloc: Global, market: &Market) -> Result<SettledClear<N>, Memory>
    ensures fits { IfOk result (λ cleared. FitsOutcome market.now cleared.outcome) }
    ensures right { IfOk result (λ cleared. IsRightOutcome N.bound market.now [] (outcome_at N.value cleared.outcome)) }
    ensures priced { IfOk result (λ cleared. IsSettledOutcome N.bound market.now (outcome_at N.value cleared.outcome)) }
    ensures first { IfOk result (λ cleared. cleared.is_passed ≡ false → HasFirstPrices market.now (outcome_at N.value cleared.outcome)) }
    ensures within { IfOk result (λ cleared. IsOutcomeWithin N.bound (outcome_at N.value cleared.outcome)) }
{
    settled_clear(alloc, market)
}

/// The status of what a market was cleared to.
pub(crate) fn clear_status<N: Exact>(outcome: &Outcome<N>) -> Status
    ensures status { result ≡ status_of (outcome_at N.value outcome.now) }
    ensures work { IsOfWork result }
{
    match outcome {
        Outcome::Cleared(_) => Status::Done,
        Outcome::Infeasible(_) => Status::Infeasible,
        Outcome::Range(_) => Status::Range,
    }
}

/// The report of two numbers that became too large together.
pub(crate) fn range_report<N: Exact>(
    alloc: Global,
    market: &Market,
    passed: Passed<N>,
) -> Result<Vec<u8>, Memory>
    ensures { IfOk result (λ bytes. bytes.items ≡ range_text (passed_at N.value passed)) }
{
    report(alloc, market, &Outcome::Range(passed))
}

/// The report of an outcome of a market, with its certificate.
fn outcome_told<N: Exact>(
    alloc: Global,
    market: &Market,
    outcome: &Outcome<N>,
) -> Result<Told, Memory>
    requires { FitsOutcome market.now outcome.now }
    ensures status { IfOk result (λ told. IsOfWork told.status) }
    ensures tells { IfOk result (λ told. TellsCertified N.bound market.now (outcome_at N.value outcome.now) (telling_of told)) }
{
    let text = report(alloc, market, outcome)?;
    let places = market.factor_places();
    let certificate = outcome_json(alloc, places, market.reserve().listed, outcome)?;
    Ok(Told {
        status: clear_status(outcome),
        text,
        outputs: Outputs::certified(certificate),
    })
}

/// What clearing a market comes to.
fn clear_outcome<N: Exact>(alloc: Global, market: &Market) -> Result<Attempt, Memory>
    ensures status { IfOk result (λ made. IsOfWork made.told.status) }
    ensures clears { IfOk result (λ made. ClearsTo N.bound market.now (telling_of made.told)) }
    ensures wider { (bound : ℕ) → N.bound ≤ bound → IfOk result (λ made. made.is_passed ≡ false → ClearsTo bound market.now (telling_of made.told)) }
{
    let cleared = cleared::<N>(alloc, market)?;
    let told = outcome_told(alloc, market, &cleared.outcome)?;
    let is_passed = is_told_passed(cleared.is_passed, told.status);
    Ok(Attempt { told, is_passed })
}

/// What clearing a market comes to by numbers of so many bits. It is cleared by numbers of 127 bits, and anew where one of these becomes too large
/// and wider ones are asked for.
fn clear_by(alloc: Global, market: &Market, bits: NumberBits) -> Result<Told, Memory>
    ensures status { IfOk result (λ told. IsOfWork told.status) }
    ensures clears { IfOk result (λ told. ClearsTo (most_of bits) market.now (telling_of told)) }
{
    let made = clear_outcome::<Frac>(alloc, market)?;
    if !is_made_anew(bits, made.is_passed) {
        return Ok(made.told);
    }
    let anew = clear_outcome::<Frac1023>(alloc, market)?;
    Ok(anew.told)
}

/// What a market comes to by numbers of so many bits, or why none was made.
fn market_told(
    alloc: Global,
    made: Result<Market, InputStop>,
    bits: NumberBits,
) -> Result<Told, Memory>
    requires { IfOk made IsMarket }
    ensures status { IfOk result (λ told. IsOfWork told.status) }
    ensures tells { IfOk result (λ told. MadeTo (TellsClear (most_of bits)) made (telling_of told)) }
{
    match made {
        Ok(market) => clear_by(alloc, &market, bits),
        Err(InputStop::Refused(refusal)) => refused(alloc, &refusal),
        Err(InputStop::Memory) => Err(Memory),
    }
}

/// What the whole bytes of a case and of offers come to, as if no branch had a limit.
pub fn pool_told(alloc: Global, case: &[u8], offers: &[u8]) -> Result<Told, Memory>
    ensures status { IfOk result (λ told. IsOfWork told.status) }
    ensures tells { IfOk result (λ told. Tells (IsPool case.now offers.now) (TellsClear (most_of NumberBits.Bits127)) (telling_of told)) }
{
    let market = pool_market(alloc, case, offers);
    market_told(alloc, market, NumberBits::Bits127)
}

/// What the whole bytes of the files of a market come to, by the rating that limits branches after an outage, and by numbers of so many bits.
pub fn clear_told(
    alloc: Global,
    bytes: &MarketTables<&[u8]>,
    rating: PostRating,
    places: FactorPlaces,
    bits: NumberBits,
) -> Result<Told, Memory>
    ensures status { IfOk result (λ told. IsOfWork told.status) }
    ensures tells { IfOk result (λ told. Tells (IsLimited rating places (tables_lent bytes.now)) (TellsClear (most_of bits)) (telling_of told)) }
{
    let market = clear_market(alloc, bytes, rating, places);
    market_told(alloc, market, bits)
}
