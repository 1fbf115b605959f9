//! Rows by the places of their lines.

ghost use Rattle.std.specs.Prelude.{◌≡◌, ◌≢◌, ◌<◌, ◌≤ℤ◌, pos, length, All, Contains, IfSome, MatchOption};
ghost use Rattle.limit_rows.specs.Naming.{IsCauseNamed};
ghost use Rattle.fraction_theory.specs.Fraction.{whole};
ghost use Rattle.market_data.specs.Participants.{IsDatum};
ghost use Rattle.market_model.specs.declared.limits.Row.{Row};
ghost use Rattle.market_model.specs.LimitRows.{causes, limit, row_id, rows, IsCauseOf};

use crate::causes::{has_row, outage_of, stated, unit_of};
use market_model::{Cause, Market, Row, RowId};

/// The limit of a row, in 10^-9 MW; 0 where its line has none.
pub fn limit_at(market: &Market, row: Row) -> i64
    requires { row.line < length market.now.lines }
    ensures datum { IsDatum result }
    ensures sign { pos 0 ≤ℤ result }
    ensures limit { whole result ≡ limit market.now row }
{
    stated(market.lines().at(row.line), row.cause).unwrap_or(0)
}

/// The name of a row.
pub fn name_at(market: &Market, row: Row) -> RowId
    requires line { row.line < length market.now.lines }
    requires lost { IsCauseOf market.now row.cause }
    ensures { result ≡ row_id market.now row }
{
    RowId {
        branch: market.lines().at(row.line).row,
        outage: outage_of(market, row.cause),
        unit: unit_of(market, row.cause),
    }
}

/// The outage of the branch of this row. Nothing where the market lists none such.
fn branch_outage(market: &Market, row: u32) -> Option<Cause>
    requires { row ≢ 0 }
    ensures { MatchOption result (All (λ cause. ¬ (IsCauseNamed market.now cause row 0)) (causes market.now)) (λ cause. Contains (causes market.now) cause × IsCauseNamed market.now cause row 0) }
{
    let outages = market.outages().slice();
    for (place, listed) in outages.iter().enumerate() {
        if *listed == row {
            return Some(Cause::Branch(*market.lost_lines().at(place)));
        }
    }
    None
}

/// The outage of the unit of this row. Nothing where the market lists none such.
fn unit_outage(market: &Market, row: u32) -> Option<Cause>
    requires { row ≢ 0 }
    ensures { MatchOption result (All (λ cause. ¬ (IsCauseNamed market.now cause 0 row)) (causes market.now)) (λ cause. Contains (causes market.now) cause × IsCauseNamed market.now cause 0 row) }
{
    for outage in 0..market.unit_outages().len() {
        let cause = Cause::UnitOutage(outage);
        if unit_of(market, cause) == row {
            return Some(cause);
        }
    }
    None
}

/// The cause whose rows have this outage and this unit in their names. Nothing where the market has none such.
fn cause_named(market: &Market, outage: u32, unit: u32) -> Option<Cause>
    ensures { MatchOption result (All (λ cause. ¬ (IsCauseNamed market.now cause outage unit)) (causes market.now)) (λ cause. Contains (causes market.now) cause × IsCauseNamed market.now cause outage unit) }
{
    match (outage, unit) {
        (0, 0) => Some(Cause::Base),
        (_, 0) => branch_outage(market, outage),
        (0, _) => unit_outage(market, unit),
        _ => None,
    }
}

/// The row of a name, where the market has one.
pub fn row_named(market: &Market, name: RowId) -> Option<Row>
    ensures { MatchOption result ((r : Row) → Contains (rows market.now) r → row_id market.now r ≢ name) (λ row. Contains (rows market.now) row × (row_id market.now row ≡ name)) }
{
    let cause = cause_named(market, name.outage, name.unit)?;
    let line = market.place_of_line(name.branch);
    if line < market.lines().len() && has_row(market, cause, line) {
        Some(Row { line, cause })
    } else {
        None
    }
}

/// The row of a name that the market has.
pub fn found_row(market: &Market, name: RowId) -> Row
    requires { (r : Row) × Contains (rows market.now) r × (row_id market.now r ≡ name) }
    ensures line { result.line < length market.now.lines }
    ensures lost { IsCauseOf market.now result.cause }
    ensures is { (r : Row) → Contains (rows market.now) r → row_id market.now r ≡ name → result ≡ r }
{
    let _lines = market.lines();
    match row_named(market, name) {
        Some(row) => row,
        None => unreachable!(),
    }
}
