//! Reading a certificate.

ghost use Rattle.std.specs.List.{list_any};
ghost use Rattle.std.specs.Prelude.{◌≡◌, ◌++◌, ◌∷◌, [], not, if◌then◌else◌, Ok, Err, IfOk, map, option_and_then, option_map};
ghost use Rattle.serde_json.specs.Find.{get};
ghost use Rattle.serde_json.specs.View.{items_view, view};
ghost use Rattle.market_model.specs.Valued.{dual_at};
ghost use Rattle.cert_format.specs.declared.certificate.CertFault.TheVariants as fault;
ghost use Rattle.cert_format.specs.declared.certificate.Key.{Key};
ghost use Rattle.cert_format.specs.declared.certificate.Key.TheVariants as key;
ghost use Rattle.cert_format.specs.Certificates.{RowsAreDistinct, cert_at, name_of, same_triple};
ghost use Rattle.cert_format.specs.Grammar.{Gives, cert_in, cert_read, each, farkas_in, fraction_at, fraction_in, fractions_at, if_distinct, in_32, limit_in, limits_in, members_with, need, number_at, optimal_in, unit_member, unit_in};

use crate::forms::{Kind, Version, kind_in, member_count, places_in, version_in};
use crate::fractions::fraction;
use crate::members::{has_size, number_at};
use crate::reading_reserve::{cleared_reserve, reserve_duals};
use crate::{Cert, CertFault, Key};
use exact_fraction::{Exact, Frac};
use indexmap::IndexSet;
use market_model::{Dual, List, Memory, RowId};
use serde_json::Value;
use std::alloc::Global;

fn fraction_in<N: Exact>(value: &Value) -> Option<N>
    ensures { option_map N.value result ≡ fraction_in N.bound (view value.now) }
{
    fraction(value.as_str()?.as_bytes())
}

pub(crate) fn fraction_at<N: Exact>(value: &Value, name: &str) -> Option<N>
    ensures { option_map N.value result ≡ fraction_at N.bound name.now (view value.now) }
{
    fraction_in(value.get(name)?)
}

/// A row of the branch matrix, or of the gen matrix.
pub(crate) fn row_at(value: &Value, name: &str) -> Option<u32>
    ensures { result ≡ in_32 (number_at name.now (view value.now)) }
{
    match number_at(value, name) {
        Some(number) if number <= u64::from(u32::MAX) => Some(number as u32),
        _ => None,
    }
}

/// The row of the gen matrix of the unit that is lost, 0 where there is no such member.
fn unit_member(value: &Value) -> Option<u32>
    ensures { result ≡ unit_member (view value.now) }
{
    if value.get("unit").is_none() {
        return Some(0);
    }
    match row_at(value, "unit") {
        Some(unit) if unit != 0 => Some(unit),
        _ => None,
    }
}

/// The unit that is lost, in a text of any version: the first has no member for it, and names none.
fn unit_in(version: Version, value: &Value) -> Option<u32>
    ensures { result ≡ unit_in version (view value.now) }
{
    match version {
        Version::First => Some(0),
        Version::Second | Version::Third => unit_member(value),
    }
}

/// How many members the duals of a row have: that of the unit is there where it is not 0.
fn members_with(unit: u32) -> usize
    ensures { result ≡ members_with unit }
{
    if unit == 0 { 4 } else { 5 }
}

/// The duals of a row.
fn limit_in<N: Exact>(version: Version, value: &Value) -> Option<Dual<N>>
    ensures { option_map (dual_at N.value) result ≡ limit_in N.bound version (view value.now) }
{
    let branch = row_at(value, "branch")?;
    let outage = row_at(value, "outage")?;
    let unit = unit_in(version, value)?;
    let up = fraction_at(value, "up")?;
    let down = fraction_at(value, "down")?;
    if !has_size(value, members_with(unit)) {
        return None;
    }
    Some(Dual {
        row: RowId {
            branch,
            outage,
            unit,
        },
        up,
        down,
    })
}

/// Fractions that stand in a part of the text.
fn fractions_of<N: Exact>(alloc: Global, part: Key, values: &[Value]) -> Result<List<N>, CertFault>
    ensures { Gives (map N.value) result (need part (each (fraction_in N.bound) (items_view values.now)) Ok) }
{
    let mut numbers = List::new(alloc);
    for value in values {
        let Some(number) = fraction_in(value) else {
            return Err(CertFault::Key { key: part });
        };
        numbers.push(number)?;
    }
    Ok(numbers)
}

/// The same, of the member of that name.
pub(crate) fn fractions_at<N: Exact>(
    alloc: Global,
    part: Key,
    value: &Value,
    name: &str,
) -> Result<List<N>, CertFault>
    ensures { Gives (map N.value) result (need part (fractions_at N.bound name.now (view value.now)) Ok) }
{
    match value.get(name).and_then(Value::as_array) {
        Some(values) => fractions_of(alloc, part, values.as_slice()),
        None => Err(CertFault::Key { key: part }),
    }
}

/// Adds a row to those that were named, and tells whether it is new.
fn add_row(rows: &mut IndexSet<(u32, u32, u32)>, row: RowId) -> Result<bool, Memory>
    ensures is_new { IfOk result (λ is_new. is_new ≡ not (list_any (same_triple (name_of row)) rows.old.keys)) }
    ensures keys { IfOk result (λ is_new. rows.new.keys ≡ (if is_new then rows.old.keys ++ name_of row ∷ [] else rows.old.keys)) }
{
    match rows.insert((row.branch, row.outage, row.unit)) {
        Ok(is_new) => Ok(is_new),
        Err(_) => Err(Memory),
    }
}

/// Reads limits, of which no two are of one row, into a list that is empty. Beside it stand their rows.
fn read_limits<N: Exact>(
    version: Version,
    values: &[Value],
    rows: &mut IndexSet<(u32, u32, u32)>,
    limits: &mut List<Dual<N>>,
) -> Result<(), CertFault>
    requires rows { rows.old.keys ≡ [] }
    requires limits { limits.old ≡ [] }
    ensures { Gives (λ _. map (dual_at N.value) limits.new) result
        (need key.Limits (option_and_then if_distinct (each (limit_in N.bound version) (items_view values.now))) Ok) }
{
    for value in values {
        let Some(limit) = limit_in::<N>(version, value) else {
            return Err(CertFault::Key { key: Key::Limits });
        };
        let is_new = add_row(rows, limit.row)?;
        if !is_new {
            return Err(CertFault::Key { key: Key::Limits });
        }
        limits.push(limit)?;
    }
    Ok(())
}

fn limits_of<N: Exact>(
    alloc: Global,
    version: Version,
    values: &[Value],
) -> Result<List<Dual<N>>, CertFault>
    ensures { Gives (map (dual_at N.value)) result
        (need key.Limits (option_and_then if_distinct (each (limit_in N.bound version) (items_view values.now))) Ok) }
{
    let mut rows = IndexSet::new(alloc);
    let mut limits = List::new(alloc);
    read_limits(version, values, &mut rows, &mut limits)?;
    Ok(limits)
}

fn limits_in<N: Exact>(
    alloc: Global,
    version: Version,
    value: &Value,
) -> Result<List<Dual<N>>, CertFault>
    ensures { Gives (map (dual_at N.value)) result (need key.Limits (limits_in N.bound version (view value.now)) Ok) }
{
    match value.get("limits").and_then(Value::as_array) {
        Some(values) => limits_of(alloc, version, values.as_slice()),
        None => Err(CertFault::Key { key: Key::Limits }),
    }
}

/// The rest of an optimal certificate.
fn optimal_in<N: Exact>(
    alloc: Global,
    version: Version,
    energy: N,
    value: &Value,
) -> Result<Cert<N>, CertFault>
    ensures { Gives (cert_at N.value) result (optimal_in N.bound version (N.value energy) (view value.now)) }
{
    let blocks = fractions_at(alloc, Key::Blocks, value, "blocks")?;
    let limits = limits_in(alloc, version, value)?;
    let Some(places) = places_in(version, value) else {
        return Err(CertFault::Key { key: Key::Places });
    };
    let reserve = cleared_reserve(alloc, version, value)?;
    if !has_size(value, member_count(version, Kind::Optimal)) {
        return Err(CertFault::Key { key: Key::Extra });
    }
    Ok(Cert::Optimal {
        blocks,
        energy,
        limits,
        places,
        reserve,
    })
}

/// The rest of a certificate that no dispatch is feasible.
fn farkas_in<N: Exact>(
    alloc: Global,
    version: Version,
    energy: N,
    value: &Value,
) -> Result<Cert<N>, CertFault>
    ensures { Gives (cert_at N.value) result (farkas_in N.bound version (N.value energy) (view value.now)) }
{
    if value.get("blocks").is_some() {
        return Err(CertFault::Key { key: Key::Blocks });
    }
    let limits = limits_in(alloc, version, value)?;
    let Some(places) = places_in(version, value) else {
        return Err(CertFault::Key { key: Key::Places });
    };
    let reserve = reserve_duals(alloc, version, value)?;
    if !has_size(value, member_count(version, Kind::Farkas)) {
        return Err(CertFault::Key { key: Key::Extra });
    }
    Ok(Cert::Farkas {
        energy,
        limits,
        places,
        reserve,
    })
}

/// The certificate that a value stands for.
fn cert_in<N: Exact>(alloc: Global, value: &Value) -> Result<Cert<N>, CertFault>
    ensures { Gives (cert_at N.value) result (cert_in N.bound (view value.now)) }
{
    if !value.is_object() {
        return Err(CertFault::Key { key: Key::Json });
    }
    let Some(version) = version_in(value) else {
        return Err(CertFault::Key { key: Key::Version });
    };
    let Some(kind) = kind_in(value) else {
        return Err(CertFault::Key { key: Key::Kind });
    };
    let Some(energy) = fraction_at(value, "energy") else {
        return Err(CertFault::Key { key: Key::Energy });
    };
    match kind {
        Kind::Optimal => optimal_in(alloc, version, energy, value),
        Kind::Farkas => farkas_in(alloc, version, energy, value),
    }
}

/// Reads a certificate of any version, of numbers within the bound of a type, or tells the first part of the text that is not in the grammar.
pub fn read_json<N: Exact>(alloc: Global, bytes: &[u8]) -> Result<Cert<N>, CertFault>
    ensures read { IfOk result (λ cert. cert_read N.bound bytes.now ≡ Ok (cert_at N.value cert)) }
    ensures fault { (k : Key) → result ≡ Err (fault.Key k) → cert_read N.bound bytes.now ≡ Err k }
    ensures distinct { IfOk result (λ cert. RowsAreDistinct (cert_at N.value cert)) }
{
    match Value::from_slice(alloc, bytes) {
        Ok(value) => cert_in(alloc, &value),
        Err(error) => {
            if error.is_memory() {
                Err(CertFault::Memory)
            } else {
                Err(CertFault::Key { key: Key::Json })
            }
        }
    }
}

/// Reads a certificate of any version, of numbers of 127 bits.
pub fn from_json(alloc: Global, bytes: &[u8]) -> Result<Cert<Frac>, CertFault>
    ensures read { IfOk result (λ cert. cert_read ⟦<Frac as Exact>⟧.bound bytes.now ≡ Ok (cert_at ⟦<Frac as Exact>⟧.value cert)) }
    ensures fault { (k : Key) → result ≡ Err (fault.Key k) → cert_read ⟦<Frac as Exact>⟧.bound bytes.now ≡ Err k }
    ensures distinct { IfOk result (λ cert. RowsAreDistinct (cert_at ⟦<Frac as Exact>⟧.value cert)) }
{
    read_json(alloc, bytes)
}
