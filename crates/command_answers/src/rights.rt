//! Markets that are cleared, with the rights to what their limits earn.

ghost use Rattle.std.specs.Prelude.{◌≡◌, ◌≤◌, false, [], All, IfErr, IfOk, ℕ, length};
ghost use Rattle.fraction_theory.specs.Fraction.{Fraction};
ghost use Rattle.market_tables.specs.Tables.{tables_lent};
ghost use Rattle.market_inputs.specs.Stops.{IsToldAs};
ghost use Rattle.market_model.specs.Fitting.{FitsOutcome};
ghost use Rattle.market_model.specs.Market.{IsMarket};
ghost use Rattle.market_model.specs.Rights.{IsTransmissionRight};
ghost use Rattle.market_model.specs.Stops.{StopsBy};
ghost use Rattle.market_model.specs.Valued.{outcome_at, total_at};
ghost use Rattle.rights_test.specs.Fits.{IsFit, fit_at};
ghost use Rattle.rights_test.specs.Paid.{payments_at, payments_of};
ghost use Rattle.command_answers.specs.Inputs.{AreEntitled, rights_with};
ghost use Rattle.command_answers.specs.Rights.{EntitlesTo, IsRightsRefusal, TellsFit, TellsOutcome, TellsRights, fit_status};
ghost use Rattle.command_answers.specs.Status.{IsOfWork};
ghost use Rattle.command_answers.specs.Tellings.{Tells, telling_of, uncertified};
ghost use Rattle.number_bits.specs.Bits.{most_of};

use crate::anew::{is_made_anew, is_told_passed};
use crate::clearing::{clear_status, cleared, range_report};
use crate::rights_lines::rights_lines;
use crate::status::Status;
use crate::told::{Attempt, Told, refused, uncertified};
use exact_fraction::{Exact, Frac};
use line_text::Text;
use long_fraction::Frac1023;
use market_data::FactorPlaces;
use market_inputs::{InputStop, clear_market, read_rights};
use market_model::{Market, Memory, Outcome, Price, Stop, TransmissionRight};
use market_tables::MarketTables;
use net_case::PostRating;
use number_bits::NumberBits;
use report_text::report;
use rights_test::{Fit, Payments, Rights, fit, pay};
use std::alloc::Global;

/// A market, and the rights to what its limits earn.
#[derive(Drop)]
pub(crate) struct Entitled {
    pub market: Market,
    pub rights: Rights,
}

/// What the files of a market and of rights stand for.
fn rights_inputs(
    alloc: Global,
    bytes: &MarketTables<&[u8]>,
    rating: PostRating,
    places: FactorPlaces,
    rights: &[u8],
) -> Result<Entitled, InputStop>
    ensures told { IsToldAs (AreEntitled rating places (tables_lent bytes.now) rights.now) (rights_with result) }
    ensures kept { IfOk result (λ made. IsMarket made.market × All (IsTransmissionRight (length made.market.buses)) made.rights) }
{
    let market = clear_market(alloc, bytes, rating, places)?;
    let rights = read_rights(alloc, &market, rights)?;
    Ok(Entitled { market, rights })
}

/// The status of a fit.
fn fit_status<N: Exact>(fit: &Fit<N>) -> Status
    ensures status { result ≡ fit_status (fit_at N.value fit.now) }
    ensures work { IsOfWork result }
{
    match fit {
        Fit::Fits => Status::Done,
        Fit::Breaks { .. } => Status::Refuted,
    }
}

/// Whether rights fit, and what they are paid.
#[derive(Drop)]
struct Entitlement<N> {
    fit: Fit<N>,
    payments: Payments<N>,
}

/// What rights of a market come to at bus prices.
fn entitlement_of<N: Exact>(
    alloc: Global,
    market: &Market,
    rights: &[TransmissionRight],
    prices: &[Price<N>],
) -> Result<Entitlement<N>, Stop<N>>
    requires prices { length prices.now ≡ length market.now.buses }
    requires rights { All (IsTransmissionRight (length market.now.buses)) rights.now }
    ensures fit { IfOk result (λ made. IsFit market.now rights.now (fit_at N.value made.fit)) }
    ensures payments { IfOk result (λ made. payments_at N.value made.payments ≡ payments_of (total_at N.value prices.now) rights.now) }
    ensures stops { IfErr result (StopsBy N.value (IsRightsRefusal market.now rights.now (total_at N.value prices.now) N.bound)) }
{
    let fit = fit(alloc, market, rights)?;
    let payments = pay(alloc, rights, prices)?;
    Ok(Entitlement { fit, payments })
}

/// Puts what is told of rights behind the report of an answer with these bus prices, and gives the status of it.
fn put_fit<N: Exact>(
    alloc: Global,
    text: &mut Text,
    market: &Market,
    rights: &[TransmissionRight],
    prices: &[Price<N>],
) -> Result<Status, Memory>
    requires prices { length prices.now ≡ length market.now.buses }
    requires rights { All (IsTransmissionRight (length market.now.buses)) rights.now }
    ensures work { IfOk result IsOfWork }
    ensures tells { IfOk result (λ status. TellsFit N.bound market.now rights.now (total_at N.value prices.now) text.old (uncertified status text.new)) }
{
    match entitlement_of(alloc, market, rights, prices) {
        Ok(made) => {
            rights_lines(text, &made.fit, &made.payments)?;
            Ok(fit_status(&made.fit))
        }
        Err(Stop::Passed(passed)) => {
            let range = range_report(alloc, market, passed)?;
            text.word(range.as_slice())?;
            Ok(Status::Range)
        }
        Err(Stop::Memory) => Err(Memory),
    }
}

/// What is told of rights behind the report of an answer with these bus prices.
fn fit_told<N: Exact>(
    alloc: Global,
    market: &Market,
    rights: &[TransmissionRight],
    prices: &[Price<N>],
    reported: &[u8],
) -> Result<Told, Memory>
    requires prices { length prices.now ≡ length market.now.buses }
    requires rights { All (IsTransmissionRight (length market.now.buses)) rights.now }
    ensures status { IfOk result (λ told. IsOfWork told.status) }
    ensures tells { IfOk result (λ told. TellsFit N.bound market.now rights.now (total_at N.value prices.now) reported.now (telling_of told)) }
{
    let mut text = Text::new(alloc);
    text.word(reported)?;
    let status = put_fit(alloc, &mut text, market, rights, prices)?;
    Ok(uncertified(status, text.into_bytes()))
}

/// The report of an outcome of a market, with what is told of rights behind that of an answer.
fn outcome_told<N: Exact>(
    alloc: Global,
    market: &Market,
    rights: &[TransmissionRight],
    outcome: &Outcome<N>,
) -> Result<Told, Memory>
    requires fits { FitsOutcome market.now outcome.now }
    requires rights { All (IsTransmissionRight (length market.now.buses)) rights.now }
    ensures status { IfOk result (λ told. IsOfWork told.status) }
    ensures tells { IfOk result (λ told. TellsOutcome N.bound market.now rights.now (outcome_at N.value outcome.now) (telling_of told)) }
{
    let reported = report(alloc, market, outcome)?;
    match outcome {
        Outcome::Cleared(answer) => {
            let prices = answer.prices.slice();
            fit_told(alloc, market, rights, prices, reported.as_slice())
        }
        _ => Ok(uncertified(clear_status(outcome), reported)),
    }
}

/// What clearing a market with rights comes to.
fn rights_outcome<N: Exact>(
    alloc: Global,
    market: &Market,
    rights: &[TransmissionRight],
) -> Result<Attempt, Memory>
    requires { All (IsTransmissionRight (length market.now.buses)) rights.now }
    ensures status { IfOk result (λ made. IsOfWork made.told.status) }
    ensures entitles { IfOk result (λ made. EntitlesTo N.bound market.now rights.now (telling_of made.told)) }
    ensures wider { (bound : ℕ) → N.bound ≤ bound → IfOk result (λ made. made.is_passed ≡ false → EntitlesTo bound market.now rights.now (telling_of made.told)) }
{
    let cleared = cleared::<N>(alloc, market)?;
    let told = outcome_told(alloc, market, rights, &cleared.outcome)?;
    let is_passed = is_told_passed(cleared.is_passed, told.status);
    Ok(Attempt { told, is_passed })
}

/// What clearing a market with rights comes to by numbers of so many bits. It is made by numbers of 127 bits, and anew where one of these becomes
/// too large and wider ones are asked for.
fn rights_by(
    alloc: Global,
    market: &Market,
    rights: &[TransmissionRight],
    bits: NumberBits,
) -> Result<Told, Memory>
    requires { All (IsTransmissionRight (length market.now.buses)) rights.now }
    ensures status { IfOk result (λ told. IsOfWork told.status) }
    ensures entitles { IfOk result (λ told. EntitlesTo (most_of bits) market.now rights.now (telling_of told)) }
{
    let made = rights_outcome::<Frac>(alloc, market, rights)?;
    if !is_made_anew(bits, made.is_passed) {
        return Ok(made.told);
    }
    let anew = rights_outcome::<Frac1023>(alloc, market, rights)?;
    Ok(anew.told)
}

/// What the whole bytes of the files of a market and of a table of rights come to, by numbers of so many bits.
pub fn rights_told(
    alloc: Global,
    bytes: &MarketTables<&[u8]>,
    rating: PostRating,
    places: FactorPlaces,
    rights: &[u8],
    bits: NumberBits,
) -> Result<Told, Memory>
    ensures status { IfOk result (λ told. IsOfWork told.status) }
    ensures tells { IfOk result (λ told. Tells (AreEntitled rating places (tables_lent bytes.now) rights.now) (TellsRights (most_of bits)) (telling_of told)) }
{
    match rights_inputs(alloc, bytes, rating, places, rights) {
        Ok(made) => rights_by(alloc, &made.market, made.rights.slice(), bits),
        Err(InputStop::Refused(refusal)) => refused(alloc, &refusal),
        Err(InputStop::Memory) => Err(Memory),
    }
}
