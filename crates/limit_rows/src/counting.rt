//! How many rows there are under each cause, told by how many lines have limits.

ghost use Rattle.std.specs.Prelude.{◌≡◌, length, is_some, if◌then◌else◌};
ghost use Rattle.limit_rows.specs.Counting.{AreLimitCounts};
ghost use Rattle.market_model.specs.LimitRows.{rows_of, IsCauseOf};

use market_model::{Cause, Market};

/// How many lines of a market have a limit in the base, and how many after outages.
#[derive(Clone, Copy, Debug)]
pub(crate) struct LimitCounts {
    base: usize,
    post: usize,
}

/// 1 where there is such a limit, else 0.
fn one_if(limit: Option<i64>) -> usize
    ensures { result ≡ (if is_some limit then 1 else 0) }
{
    usize::from(limit.is_some())
}

/// Both numbers, by one pass over the lines.
pub(crate) fn limit_counts(market: &Market) -> LimitCounts
    ensures { AreLimitCounts market.now result }
{
    let mut base = 0;
    let mut post = 0;
    for place in 0..market.lines().len() {
        let line = market.lines().at(place);
        base += one_if(line.base);
        post += one_if(line.post);
    }
    LimitCounts { base, post }
}

/// How many rows there are under a cause: a line that is lost has none.
pub(crate) fn count_under(market: &Market, counts: LimitCounts, cause: Cause) -> usize
    requires counts { AreLimitCounts market.now counts }
    requires cause { IsCauseOf market.now cause }
    ensures { result ≡ length (rows_of market.now cause) }
{
    match cause {
        Cause::Base => counts.base,
        Cause::Branch(lost) => counts.post - one_if(market.lines().at(lost).post),
        Cause::UnitOutage(_) => counts.post,
    }
}
