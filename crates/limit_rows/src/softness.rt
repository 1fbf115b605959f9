//! How far the limit of a row gives way, and at what price.

ghost use Rattle.std.specs.Prelude.{◌≡◌, ◌<◌, ◌≤ℤ◌, pos, length, IfOk, IfErr};
ghost use Rattle.fraction_theory.specs.Fraction.{whole};
ghost use Rattle.market_data.specs.Participants.{IsDatum};
ghost use Rattle.market_model.specs.LimitRows.{is_soft, limit, most_excess, most_flow, penalty};
ghost use Rattle.market_model.specs.Valued.{passed_at};
ghost use Rattle.limit_rows.specs.Refusals.{IsMostFlowRefusal};

use crate::causes::is_outage;
use crate::places::limit_at;
use exact_fraction::{Exact, Passed, exact_sum};
use market_model::{Market, Row, datum};

/// What a MW beyond the limit of a row costs, in 10^-6 per MWh; 0 where the limit is hard.
pub fn penalty_at(market: &Market, row: Row) -> i64
    requires { row.line < length market.now.lines }
    ensures datum { IsDatum result }
    ensures sign { pos 0 ≤ℤ result }
    ensures penalty { whole result ≡ penalty market.now row }
{
    let line = market.lines().at(row.line);
    if is_outage(row.cause) {
        line.post_price
    } else {
        line.base_price
    }
}

/// Whether the limit of a row gives way.
pub fn is_soft(market: &Market, row: Row) -> bool
    requires { row.line < length market.now.lines }
    ensures { result ≡ is_soft market.now row }
{
    let line = market.lines().at(row.line);
    if is_outage(row.cause) {
        line.post_price > 0
    } else {
        line.base_price > 0
    }
}

/// The most by which the flow of a row may exceed its limit, in 10^-9 MW.
pub fn most_excess_at(market: &Market, row: Row) -> i64
    requires { row.line < length market.now.lines }
    ensures datum { IsDatum result }
    ensures sign { pos 0 ≤ℤ result }
    ensures excess { whole result ≡ most_excess market.now row }
{
    let line = market.lines().at(row.line);
    if is_outage(row.cause) {
        line.post_excess
    } else {
        line.base_excess
    }
}

/// The greatest size that the flow of a row may have, in 10^-9 MW.
pub fn most_flow<N: Exact>(market: &Market, row: Row) -> Result<N, Passed<N>>
    requires { row.line < length market.now.lines }
    ensures most { IfOk result (λ most. N.value most ≡ most_flow market.now row) }
    ensures stops { IfErr result (λ passed. IsMostFlowRefusal market.now row N.bound (passed_at N.value passed)) }
{
    exact_sum(
        datum(limit_at(market, row)),
        datum(most_excess_at(market, row)),
    )
}
