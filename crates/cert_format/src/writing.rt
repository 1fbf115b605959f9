//! The text of a certificate.

ghost use Rattle.std.specs.Prelude.{◌≡◌, ℕ, ◌≤◌, List, [], codes, Option, Some, IfOk, IfSome, IsOk, OnOk, Ok, All, map, option_map};
ghost use Rattle.fraction_theory.specs.Fraction.{Fraction};
ghost use Rattle.serde_json.specs.Data.{member, object, string};
ghost use Rattle.serde_json.specs.View.{members_view, view};
ghost use Rattle.market_model.specs.Valued.{dual_at, outcome_at};
ghost use Rattle.cert_format.specs.declared.certificate.Cert.{Cert};
ghost use Rattle.cert_format.specs.Certificates.{NamesFit, NumbersFit, RowFits, RowsAreDistinct, cert_against, cert_at, cert_of, cert_of_outcome};
ghost use Rattle.cert_format.specs.Grammar.{cert_read};
ghost use Rattle.cert_format.specs.Written.{cert_data, cert_text, certificate_of, ending, fraction_data, fractions_data, limit_data, limits_data, optimal_data, with_version};

use crate::Cert;
use crate::object::{Members, put_fraction, put_number};
use crate::writing_reserve::{answer_part, cleared_part, duals_part, farkas_part};
use exact_fraction::{Exact, MOST_TEXT};
use market_data::FactorPlaces;
use market_model::{Answer, Dual, Farkas, List, Memory, Outcome};
use serde_json::{Value, json, put};
use std::alloc::{AllocError, Global};
use std::str;

/// A fraction as the text `num/den`.
pub(crate) fn fraction_value<N: Exact>(alloc: Global, number: N) -> Result<Value, AllocError>
    ensures { IfOk result (λ v. view v ≡ fraction_data (N.value number)) }
{
    let mut buffer = [0u8; MOST_TEXT];
    let end = number.write_parts(&mut buffer);
    let text = str::from_utf8(&buffer[..end]).unwrap();
    json!(in alloc; text)
}

/// Puts the duals of a limit into an object that has no members.
fn put_limit<N: Exact>(
    alloc: Global,
    members: &mut Members,
    dual: &Dual<N>,
) -> Result<(), AllocError>
    requires { members.old.entries ≡ [] }
    ensures value { OnOk result (object (members_view members.new.entries) ≡ limit_data (dual_at N.value dual.now)) }
    ensures row { OnOk result (RowFits dual.now.row) }
{
    let row = dual.row;
    put_fraction(alloc, members, "up", dual.up)?;
    put_number(alloc, members, "outage", row.outage)?;
    put_fraction(alloc, members, "down", dual.down)?;
    put_number(alloc, members, "branch", row.branch)?;
    if row.unit != 0 {
        put_number(alloc, members, "unit", row.unit)?;
    }
    Ok(())
}

fn limit_value<N: Exact>(alloc: Global, dual: &Dual<N>) -> Result<Value, AllocError>
    ensures value { IfOk result (λ v. view v ≡ limit_data (dual_at N.value dual.now)) }
    ensures row { OnOk result (RowFits dual.now.row) }
{
    let mut members = Members::new(alloc);
    put_limit(alloc, &mut members, dual)?;
    Ok(Value::Object(members))
}

pub(crate) fn fractions_value<N: Exact>(
    alloc: Global,
    numbers: &List<N>,
) -> Result<Value, AllocError>
    ensures { IfOk result (λ v. view v ≡ fractions_data (map N.value numbers.now)) }
{
    let mut values = Vec::new(alloc);
    for number in numbers.slice() {
        values.push(fraction_value(alloc, *number)?)?;
    }
    Ok(Value::Array(values))
}

fn limits_value<N: Exact>(alloc: Global, limits: &List<Dual<N>>) -> Result<Value, AllocError>
    ensures value { IfOk result (λ v. view v ≡ limits_data (map (dual_at N.value) limits.now)) }
    ensures rows { OnOk result (All (λ d. RowFits d.row) limits.now) }
{
    let mut values = Vec::new(alloc);
    for dual in limits.slice() {
        values.push(limit_value(alloc, dual)?)?;
    }
    Ok(Value::Array(values))
}

/// Puts the members that both kinds have, into an object that has none.
fn put_common<N: Exact>(
    alloc: Global,
    members: &mut Members,
    kind: &str,
    energy: N,
    limits: &List<Dual<N>>,
    places: FactorPlaces,
    reserve: Option<Value>,
) -> Result<(), AllocError>
    requires { members.old.entries ≡ [] }
    ensures value { OnOk result (members_view members.new.entries
        ≡ member (codes "energy") (fraction_data (N.value energy)) (member (codes "kind") (string kind.now) (member (codes "limits") (limits_data (map (dual_at N.value) limits.now)) (ending places (option_map view reserve))))) }
    ensures rows { OnOk result (All (λ d. RowFits d.row) limits.now) }
{
    put_version(alloc, members, reserve)?;
    put_number(alloc, members, "places", u32::from(places.count()))?;
    put(members, alloc, "limits", limits_value(alloc, limits)?)?;
    put(members, alloc, "kind", Value::try_from_str(alloc, kind)?)?;
    put_fraction(alloc, members, "energy", energy)
}

/// Puts the part on reserve, where there is one, and the version.
fn put_version(
    alloc: Global,
    members: &mut Members,
    reserve: Option<Value>,
) -> Result<(), AllocError>
    requires { members.old.entries ≡ [] }
    ensures { OnOk result (members_view members.new.entries ≡ with_version (option_map view reserve)) }
{
    match reserve {
        None => put_number(alloc, members, "version", 2),
        Some(reserve) => {
            put(members, alloc, "reserve", reserve)?;
            put_number(alloc, members, "version", 3)
        }
    }
}

fn put_optimal<N: Exact>(
    alloc: Global,
    members: &mut Members,
    blocks: &List<N>,
    energy: N,
    limits: &List<Dual<N>>,
    places: FactorPlaces,
    reserve: Option<Value>,
) -> Result<(), AllocError>
    requires { members.old.entries ≡ [] }
    ensures value { OnOk result (object (members_view members.new.entries) ≡ optimal_data (map N.value blocks.now) (N.value energy) (map (dual_at N.value) limits.now) places (option_map view reserve)) }
    ensures rows { OnOk result (All (λ d. RowFits d.row) limits.now) }
{
    put_common(alloc, members, "optimal", energy, limits, places, reserve)?;
    put(members, alloc, "blocks", fractions_value(alloc, blocks)?)
}

/// Puts what a certificate tells into an object that has no members.
fn put_cert<N: Exact>(
    alloc: Global,
    members: &mut Members,
    cert: &Cert<N>,
) -> Result<(), AllocError>
    requires { members.old.entries ≡ [] }
    ensures value { OnOk result (object (members_view members.new.entries) ≡ cert_data (cert_at N.value cert.now)) }
    ensures names { OnOk result (NamesFit cert.now) }
{
    match cert {
        Cert::Optimal {
            blocks,
            energy,
            limits,
            places,
            reserve,
        } => {
            let part = cleared_part(alloc, reserve)?;
            put_optimal(alloc, members, blocks, *energy, limits, *places, part)
        }
        Cert::Farkas {
            energy,
            limits,
            places,
            reserve,
        } => {
            let part = duals_part(alloc, reserve)?;
            put_common(alloc, members, "farkas", *energy, limits, *places, part)
        }
    }
}

/// The text of an object.
fn text_of(alloc: Global, members: Members) -> Result<Vec<u8>, AllocError>
    ensures { (c : Cert Fraction) → object (members_view members.entries) ≡ cert_data c → IfOk result (λ bytes. bytes.items ≡ cert_text c) }
{
    Value::Object(members).to_vec(alloc)
}

fn cert_bytes<N: Exact>(alloc: Global, cert: &Cert<N>) -> Result<Vec<u8>, AllocError>
    ensures text { IfOk result (λ bytes. bytes.items ≡ cert_text (cert_at N.value cert.now)) }
    ensures names { OnOk result (NamesFit cert.now) }
{
    let mut members = Members::new(alloc);
    put_cert(alloc, &mut members, cert)?;
    text_of(alloc, members)
}

/// The text of a certificate, without a line end: of the third version where it has a part on reserve, and else of the second. Where no row
/// is named twice it is read back as the certificate, by the bound of its numbers and by each greater one.
pub fn to_json<N: Exact>(alloc: Global, cert: &Cert<N>) -> Result<Vec<u8>, Memory>
    ensures text { IfOk result (λ bytes. bytes.items ≡ cert_text (cert_at N.value cert.now)) }
    ensures reads_back { (most : ℕ) → N.bound ≤ most → RowsAreDistinct (cert_at N.value cert.now)
        → IfOk result (λ bytes. cert_read most bytes.items ≡ Ok (cert_at N.value cert.now)) }
{
    match cert_bytes(alloc, cert) {
        Ok(bytes) => Ok(bytes),
        Err(_) => Err(Memory),
    }
}

/// The text of the certificate of an answer.
fn answer_text<N: Exact>(
    alloc: Global,
    places: FactorPlaces,
    listed: bool,
    answer: &Answer<N>,
) -> Result<Vec<u8>, AllocError>
    ensures text { IfOk result (λ bytes. bytes.items ≡ cert_text (cert_at N.value (cert_of places listed answer.now))) }
    ensures names { OnOk result (NamesFit (cert_of places listed answer.now)) }
{
    let part = answer_part(alloc, listed, answer)?;
    let duals = &answer.duals;
    let blocks = &answer.dispatch;
    let mut members = Members::new(alloc);
    put_optimal(
        alloc,
        &mut members,
        blocks,
        duals.energy,
        &duals.limits,
        places,
        part,
    )?;
    text_of(alloc, members)
}

/// The text of the certificate of duals that show that no dispatch is feasible.
fn against_text<N: Exact>(
    alloc: Global,
    places: FactorPlaces,
    listed: bool,
    farkas: &Farkas<N>,
) -> Result<Vec<u8>, AllocError>
    ensures text { IfOk result (λ bytes. bytes.items ≡ cert_text (cert_at N.value (cert_against places listed farkas.now))) }
    ensures names { OnOk result (NamesFit (cert_against places listed farkas.now)) }
{
    let duals = &farkas.duals;
    let part = farkas_part(alloc, listed, duals)?;
    let mut members = Members::new(alloc);
    put_common(
        alloc,
        &mut members,
        "farkas",
        duals.energy,
        &duals.limits,
        places,
        part,
    )?;
    text_of(alloc, members)
}

/// A text that there is, where memory was not refused.
fn made(text: Result<Vec<u8>, AllocError>) -> Result<Option<Vec<u8>>, Memory>
    ensures text { (bytes : List ℕ) → IfOk text (λ v. v.items ≡ bytes) → IfOk result (λ o. option_map (λ v. v.items) o ≡ Some bytes) }
    ensures made { OnOk result (IsOk text) }
{
    match text {
        Ok(bytes) => Ok(Some(bytes)),
        Err(_) => Err(Memory),
    }
}

/// The text of the certificate of what a clear came to, where there is one. Factors of the market had so many places, and its reserve was
/// listed or not. Where the certificate names no row twice the text is read back as it, by the bound of its numbers and by each greater one.
pub fn outcome_json<N: Exact>(
    alloc: Global,
    places: FactorPlaces,
    listed: bool,
    outcome: &Outcome<N>,
) -> Result<Option<Vec<u8>>, Memory>
    ensures text { IfOk result (λ made. option_map (λ bytes. bytes.items) made ≡ certificate_of places listed (outcome_at N.value outcome.now)) }
    ensures fits { OnOk result (IfSome (cert_of_outcome places listed (outcome_at N.value outcome.now)) (NumbersFit N.bound)) }
    ensures reads_back { (most : ℕ) (c : Cert Fraction) → N.bound ≤ most → cert_of_outcome places listed (outcome_at N.value outcome.now) ≡ Some c → RowsAreDistinct c
        → IfOk result (λ made. option_map (λ bytes. cert_read most bytes.items) made ≡ Some (Ok c)) }
{
    match outcome {
        Outcome::Cleared(answer) => made(answer_text(alloc, places, listed, answer)),
        Outcome::Infeasible(farkas) => made(against_text(alloc, places, listed, farkas)),
        Outcome::Range(_) => Ok(None),
    }
}
