//! Rows that are taken.

ghost use Rattle.std.specs.Prelude.{◌↔◌, IsTrue, Contains};
ghost use Rattle.market_model.specs.LimitRows.{rows};
ghost use Rattle.limit_screen.specs.Screening.{taken_rows};

use limit_rows::name_at;
use market_model::{Market, Row, RowId};

/// Rows that are taken, as they are or by their names.
#[derive(Clone, Copy)]
pub(crate) enum TakenRows<'a> {
    Rows(&'a [Row]),
    Names(&'a [RowId]),
}

/// Whether a row of the market is one of them.
pub(crate) fn is_taken(market: &Market, taken: TakenRows<'_>, row: Row) -> bool
    requires { Contains (rows market.now) row }
    ensures { IsTrue result ↔ Contains (taken_rows market.now taken.entry) row }
{
    let _lines = market.lines();
    match taken {
        TakenRows::Rows(rows) => rows.contains(&row),
        TakenRows::Names(names) => names.contains(&name_at(market, row)),
    }
}
