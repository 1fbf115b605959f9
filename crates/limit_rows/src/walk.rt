//! The rows of a market one by one.

ghost use Rattle.std.specs.Prelude.{◌≡◌, ◌<◌, ◌≤◌, ◌+◌, ◌*◌, length, Contains, IfSome};
ghost use Rattle.std.specs.Iterator.{YieldsFirst, item_count};
ghost use Rattle.market_data.specs.Scales.{most_lines, most_outages, most_units};
ghost use Rattle.market_model.specs.declared.limits.Row.{Row};
ghost use Rattle.market_model.specs.LimitRows.{rows, IsCauseOf};
ghost use Rattle.limit_rows.specs.Walk.{rows_from, IsNextLine};

use crate::causes::{cause_at, cause_count, has_row};
use market_model::{Cause, Market, Row};
use std::marker::Model;

/// The rows that are left, in the market's order.
#[derive(Drop)]
pub struct RowWalk<'a> {
    market: &'a Market,
    /// The place of the cause whose rows come next, and the line from which on they come.
    place: usize,
    line: usize,
}

impl<'a> Model for RowWalk<'a> {
    ghost use Rattle.std.specs.Prelude.{List};
    ghost use Rattle.market_model.specs.declared.limits.Row.{Row};
    ghost use Rattle.limit_rows.specs.Walk.{rows_from};

    ghost Value = { List Row };

    ghost view = { λ walk. rows_from walk.market.now walk.place walk.line };
}

/// The first line from a place on that has a limit under a cause.
fn next_line(market: &Market, cause: Cause, from: usize) -> Option<usize>
    ensures is { IsNextLine market.now cause from result }
    ensures within { IfSome result (λ line. line < length market.now.lines) }
    ensures few { length market.now.lines ≤ most_lines }
{
    for line in from..market.lines().len() {
        if has_row(market, cause, line) {
            return Some(line);
        }
    }
    None
}

impl<'a> Iterator for RowWalk<'a> {
    type Item = Row;

    ghost next_gives = { YieldsFirst (λ left. left) };

    ghost remaining = { item_count (λ left. left) };

    fn next(&mut self) -> Option<Row> {
        while self.place < cause_count(self.market) {
            let cause = cause_at(self.market, self.place);
            if let Some(line) = next_line(self.market, cause, self.line) {
                self.line = line + 1;
                return Some(Row { line, cause });
            }
            self.place += 1;
            self.line = 0;
        }
        None
    }
}

/// The rows of the cause at a place, and those of the causes behind it.
pub(crate) fn rows_behind(market: &Market, cause: usize) -> RowWalk<'_>
    ensures rows { result ≡ rows_from market.now cause 0 }
    ensures few { length (rows_from market.now cause 0) ≤ (most_outages + 1 + most_units) * most_lines }
{
    let _lines = market.lines();
    RowWalk {
        market,
        place: cause,
        line: 0,
    }
}

/// The rows of a market, in its order.
pub fn rows(market: &Market) -> RowWalk<'_>
    ensures rows { result ≡ rows market.now }
    ensures few { length (rows market.now) ≤ (most_outages + 1 + most_units) * most_lines }
    ensures stand { (r : Row) → Contains (rows market.now) r → (r.line < length market.now.lines) × IsCauseOf market.now r.cause }
{
    let _lines = market.lines();
    rows_behind(market, 0)
}
