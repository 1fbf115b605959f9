//! Certificates that are verified.

ghost use Rattle.std.specs.Prelude.{◌≡◌, All, IfOk, Option};
ghost use Rattle.cert_verify.specs.declared.verdicts.Reason.{Reason};
ghost use Rattle.cert_format.specs.Certificates.{RowsAreDistinct, cert_at};
ghost use Rattle.cert_verify.specs.Certificates.{first_reason};
ghost use Rattle.cert_verify.specs.Reasons.{verdict_of};
ghost use Rattle.edit_replay.specs.Replays.{edited_by};
ghost use Rattle.edit_table.specs.EditTable.{IsStep};
ghost use Rattle.market_tables.specs.Tables.{tables_lent};
ghost use Rattle.market_inputs.specs.Stops.{IsToldAs};
ghost use Rattle.market_model.specs.Market.{IsMarket};
ghost use Rattle.command_answers.specs.Inputs.{IsCertified, certificate_with};
ghost use Rattle.command_answers.specs.Status.{IsOfWork};
ghost use Rattle.command_answers.specs.Tellings.{Tells, telling_of};
ghost use Rattle.command_answers.specs.Verdicts.{verdict_line};
ghost use Rattle.command_answers.specs.Verifying.{TellsVerdict, VerifiesTo, verdict_status};
ghost use Rattle.number_bits.specs.Bits.{most_of};

use crate::clearing::range_report;
use crate::replaying::replay_inputs;
use crate::status::Status;
use crate::told::{Told, refused, uncertified};
use crate::verdicts::verdict_text;
use cert_format::Cert;
use cert_verify::{Verdict, VerifyStop, verify};
use edit_table::{Step, Steps};
use exact_fraction::{Exact, Frac};
use long_fraction::Frac1023;
use market_data::FactorPlaces;
use market_inputs::{InputStop, read_certificate};
use market_model::{Market, Memory};
use market_tables::MarketTables;
use net_case::PostRating;
use number_bits::NumberBits;
use offer_book::edit;
use std::alloc::Global;

/// A market, and a certificate that is to hold of it.
#[derive(Drop)]
pub(crate) struct Certified<N> {
    market: Market,
    certificate: Cert<N>,
}

/// The market after edits; those that are refused change nothing.
fn edited(market: Market, steps: &Steps) -> Market
    requires { All IsStep steps.now }
    ensures { result ≡ edited_by market steps.now }
{
    let mut market = market;
    for step in steps.slice() {
        if let Step::Edit(change) = step {
            let _judged = edit(&mut market, change);
        }
    }
    market
}

/// What the files of a verification stand for.
fn verify_inputs<N: Exact>(
    alloc: Global,
    bytes: &MarketTables<&[u8]>,
    rating: PostRating,
    places: FactorPlaces,
    edits: &[u8],
    certificate: &[u8],
) -> Result<Certified<N>, InputStop>
    ensures told { IsToldAs (IsCertified N.bound rating places (tables_lent bytes.now) edits.now certificate.now) (certificate_with N.value result) }
    ensures kept { IfOk result (λ made. IsMarket made.market) }
    ensures distinct { IfOk result (λ made. RowsAreDistinct (cert_at N.value made.certificate)) }
{
    let replayed = replay_inputs(alloc, bytes, rating, places, edits)?;
    let certificate = read_certificate(alloc, certificate)?;
    Ok(Certified {
        market: edited(replayed.market, &replayed.steps),
        certificate,
    })
}

/// The status of a verdict.
fn verdict_status(verdict: Verdict) -> Status
    ensures status { (reason : Option Reason) → verdict ≡ verdict_of reason → result ≡ verdict_status reason }
    ensures work { IsOfWork result }
{
    match verdict {
        Verdict::Yes => Status::Done,
        Verdict::No(_) => Status::Refuted,
    }
}

/// What verifying a certificate comes to.
fn verdict_told<N: Exact>(
    alloc: Global,
    market: &Market,
    certificate: &Cert<N>,
) -> Result<Told, Memory>
    requires { RowsAreDistinct (cert_at N.value certificate.now) }
    ensures status { IfOk result (λ told. IsOfWork told.status) }
    ensures verifies { IfOk result (λ told. VerifiesTo N.bound market.now (cert_at N.value certificate.now) (telling_of told)) }
{
    match verify(alloc, market, certificate) {
        Ok(verdict) => {
            let text = verdict_text(alloc, verdict)?;
            Ok(uncertified(verdict_status(verdict), text))
        }
        Err(VerifyStop::Range(passed)) => {
            let text = range_report(alloc, market, passed)?;
            Ok(uncertified(Status::Range, text))
        }
        Err(VerifyStop::Memory) => Err(Memory),
    }
}

/// What the whole bytes of the files of a market, of a table of edits and of a certificate come to by one type of numbers.
fn verify_by<N: Exact>(
    alloc: Global,
    bytes: &MarketTables<&[u8]>,
    rating: PostRating,
    places: FactorPlaces,
    edits: &[u8],
    certificate: &[u8],
) -> Result<Told, Memory>
    ensures status { IfOk result (λ told. IsOfWork told.status) }
    ensures tells { IfOk result (λ told. Tells (IsCertified N.bound rating places (tables_lent bytes.now) edits.now certificate.now) (TellsVerdict N.bound) (telling_of told)) }
{
    match verify_inputs::<N>(alloc, bytes, rating, places, edits, certificate) {
        Ok(made) => verdict_told(alloc, &made.market, &made.certificate),
        Err(InputStop::Refused(refusal)) => refused(alloc, &refusal),
        Err(InputStop::Memory) => Err(Memory),
    }
}

/// What the whole bytes of the files of a market, of a table of edits and of a certificate come to by numbers of so many bits. A certificate whose
/// numbers have more is at fault.
pub fn verify_told(
    alloc: Global,
    bytes: &MarketTables<&[u8]>,
    rating: PostRating,
    places: FactorPlaces,
    edits: &[u8],
    certificate: &[u8],
    bits: NumberBits,
) -> Result<Told, Memory>
    ensures status { IfOk result (λ told. IsOfWork told.status) }
    ensures tells { IfOk result (λ told. Tells (IsCertified (most_of bits) rating places (tables_lent bytes.now) edits.now certificate.now) (TellsVerdict (most_of bits)) (telling_of told)) }
{
    match bits {
        NumberBits::Bits127 => {
            verify_by::<Frac>(alloc, bytes, rating, places, edits, certificate)
        }
        NumberBits::Bits1023 => {
            verify_by::<Frac1023>(alloc, bytes, rating, places, edits, certificate)
        }
    }
}
