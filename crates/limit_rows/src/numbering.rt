//! The rows of a market by place and by name.

ghost use Rattle.std.specs.Prelude.{◌≡◌, ◌<◌, length, map, Contains, IfSome, Some};
ghost use Rattle.std.specs.List.{position, slice_get};
ghost use Rattle.market_model.specs.declared.limits.Row.{Row};
ghost use Rattle.market_model.specs.LimitRows.{row_id, rows};
ghost use Rattle.limit_rows.specs.Naming.{has_name};
ghost use Rattle.limit_rows.specs.Walk.{rows_from};

use crate::causes::{cause_at, cause_count};
use crate::counting::{count_under, limit_counts};
use crate::places::{name_at, row_named};
use crate::walk::rows_behind;
use market_model::{Market, Row, RowId};

/// How many limit rows a market has.
pub fn count(market: &Market) -> usize
    ensures { result ≡ length (rows market.now) }
{
    let _lines = market.lines();
    let counts = limit_counts(market);
    let mut rows = 0;
    for place in 0..cause_count(market) {
        rows += count_under(market, counts, cause_at(market, place));
    }
    rows
}

/// The row at a place among those of the cause at a place and of the causes behind it.
fn row_from(market: &Market, cause: usize, place: usize) -> Row
    requires { place < length (rows_from market.now cause 0) }
    ensures { slice_get (rows_from market.now cause 0) place ≡ Some result }
{
    match rows_behind(market, cause).nth(place) {
        Some(row) => row,
        None => unreachable!(),
    }
}

/// The row at a place.
pub fn row_at(market: &Market, place: usize) -> Row
    requires { place < length (rows market.now) }
    ensures { slice_get (rows market.now) place ≡ Some result }
{
    let _lines = market.lines();
    let counts = limit_counts(market);
    let mut before = 0;
    for cause in 0..cause_count(market) {
        let behind = before + count_under(market, counts, cause_at(market, cause));
        if place < behind {
            return row_from(market, cause, place - before);
        }
        before = behind;
    }
    unreachable!()
}

/// The place of a row among those of the cause at a place and of the causes behind it.
fn place_from(market: &Market, cause: usize, row: Row) -> usize
    requires { Contains (rows_from market.now cause 0) row }
    ensures { slice_get (rows_from market.now cause 0) result ≡ Some row }
{
    match rows_behind(market, cause).position(|other| other == row) {
        Some(place) => place,
        None => unreachable!(),
    }
}

/// The place of a row.
pub fn place_of(market: &Market, row: Row) -> usize
    requires { Contains (rows market.now) row }
    ensures { slice_get (rows market.now) result ≡ Some row }
{
    let _lines = market.lines();
    let counts = limit_counts(market);
    let mut before = 0;
    for place in 0..cause_count(market) {
        let cause = cause_at(market, place);
        if cause == row.cause {
            return before + place_from(market, place, row);
        }
        before += count_under(market, counts, cause);
    }
    unreachable!()
}

/// The name of the row at a place.
pub fn id(market: &Market, place: usize) -> RowId
    requires { place < length (rows market.now) }
    ensures is { (r : Row) → slice_get (rows market.now) place ≡ Some r → result ≡ row_id market.now r }
    ensures position { position (has_name market.now result) (rows market.now) ≡ Some place }
{
    let _lines = market.lines();
    name_at(market, row_at(market, place))
}

/// The place of the row of a name, where there is one.
pub fn position(market: &Market, row: RowId) -> Option<usize>
    ensures is { result ≡ position (has_name market.now row) (rows market.now) }
    ensures id { IfSome result (λ place. slice_get (map (row_id market.now) (rows market.now)) place ≡ Some row) }
{
    let _lines = market.lines();
    match row_named(market, row) {
        Some(named) => Some(place_of(market, named)),
        None => None,
    }
}
