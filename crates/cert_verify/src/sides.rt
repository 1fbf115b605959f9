//! Whether the prices of a row support its flow.

ghost use Rattle.std.specs.Prelude.{◌≡◌, ◌<◌, length, IfOk, IfErr};
ghost use Rattle.market_model.specs.LimitRows.{limit, most_flow};
ghost use Rattle.market_model.specs.Valued.{passed_at};
ghost use Rattle.limit_rows.specs.Refusals.{IsMostFlowRefusal};
ghost use Rattle.cert_verify.specs.Reasons.{breaks_row, breaks_side};

use crate::comparing::{differ, is_below};
use exact_fraction::{Exact, Passed};
use limit_rows::{limit_at, most_flow, penalty_at};
use market_model::{Market, Row, datum};

/// Whether a price of one side of a limit does not support the flow towards that side, which may be at most so much.
fn breaks_side<N: Exact>(market: &Market, row: Row, most: N, price: N, flow: N) -> bool
    requires line { row.line < length market.now.lines }
    requires most { N.value most ≡ most_flow market.now row }
    ensures { result ≡ breaks_side market.now row (N.value price) (N.value flow) }
{
    let limit: N = datum(limit_at(market, row));
    let penalty: N = datum(penalty_at(market, row));
    (is_below(datum(0), price) && is_below(flow, limit))
        || (is_below(limit, flow) && is_below(price, penalty))
        || (is_below(penalty, price) && differ(flow, most))
}

/// Whether one of the two prices of a row does not.
pub(crate) fn breaks_row<N: Exact>(
    market: &Market,
    row: Row,
    up: N,
    down: N,
    flow: N,
) -> Result<bool, Passed<N>>
    requires { row.line < length market.now.lines }
    ensures broken { IfOk result (λ broken. broken ≡ breaks_row market.now row (N.value up) (N.value down) (N.value flow)) }
    ensures stops { IfErr result (λ passed. IsMostFlowRefusal market.now row N.bound (passed_at N.value passed)) }
{
    let most = most_flow(market, row)?;
    Ok(breaks_side(market, row, most, up, flow) || breaks_side(market, row, most, down, flow.neg()))
}
