//! The report of what a clear came to.

ghost use Rattle.std.specs.Prelude.{◌≡◌, ◌++◌, IfOk};
ghost use Rattle.market_model.specs.Changes.{with_need};
ghost use Rattle.market_model.specs.Fitting.{FitsOutcome};
ghost use Rattle.report_text.specs.Reports.{bound_text, plain_energy_text, infeasible_text, op_text, range_text, report_text};
ghost use Rattle.market_model.specs.Valued.{farkas_at, passed_at, outcome_at};

use crate::answer::cleared;
use crate::limits::limit_lines;
use crate::reserve::{reserve_line, room_lines};
use exact_fraction::{Exact, Op, Passed};
use line_text::Text;
use market_model::{Farkas, MW_PLACES, Market, Memory, Outcome, Reserve};
use std::alloc::Global;

/// The bound that shows that no dispatch is feasible.
fn bound_line<N: Exact>(text: &mut Text, bound: N) -> Result<(), Memory>
    ensures { IfOk result (λ _. text.new ≡ text.old ++ bound_text (N.value bound)) }
{
    text.named(b"bound ", bound, MW_PLACES)?;
    text.word(b"\n")?;
    Ok(())
}

/// The price of energy, as a plain number.
fn energy_line<N: Exact>(text: &mut Text, energy: N) -> Result<(), Memory>
    ensures { IfOk result (λ _. text.new ≡ text.old ++ plain_energy_text (N.value energy)) }
{
    text.named(b"energy ", energy, 0)?;
    text.word(b"\n")?;
    Ok(())
}

/// The report of a market in which no dispatch is feasible.
fn infeasible<N: Exact>(
    alloc: Global,
    market: &Market,
    farkas: &Farkas<N>,
) -> Result<Vec<u8>, Memory>
    ensures { IfOk result (λ bytes. bytes.items ≡ infeasible_text market.now.reserve.listed (farkas_at N.value farkas.now)) }
{
    let mut text = Text::new(alloc);
    text.word(b"infeasible\n")?;
    bound_line(&mut text, farkas.bound)?;
    energy_line(&mut text, farkas.duals.energy)?;
    reserve_line(&mut text, market.reserve().listed, farkas.duals.reserve)?;
    limit_lines(&mut text, &farkas.duals.limits)?;
    room_lines(&mut text, &farkas.duals.rooms, 0)?;
    Ok(text.into_bytes())
}

fn op_word(op: Op) -> &'static [u8]
    ensures { result.now ≡ op_text op }
{
    match op {
        Op::Plus => b"plus ",
        Op::Minus => b"minus ",
        Op::Times => b"times ",
    }
}

/// The report of an operation whose outcome would pass the bound of its numbers.
pub fn range<N: Exact>(alloc: Global, passed: &Passed<N>) -> Result<Vec<u8>, Memory>
    ensures { IfOk result (λ bytes. bytes.items ≡ range_text (passed_at N.value passed.now)) }
{
    let mut text = Text::new(alloc);
    text.word(b"range ")?;
    text.word(op_word(passed.op))?;
    text.parts(passed.left)?;
    text.word(b" ")?;
    text.parts(passed.right)?;
    text.word(b"\n")?;
    Ok(text.into_bytes())
}

/// The report of what a clear came to of the market with this need of reserve, in 10^-9 MW, as an edit may have set it then.
pub fn report_with_need<N: Exact>(
    alloc: Global,
    market: &Market,
    need: i64,
    outcome: &Outcome<N>,
) -> Result<Vec<u8>, Memory>
    requires { FitsOutcome market.now outcome.now }
    ensures { IfOk result (λ bytes. bytes.items ≡ report_text (with_need market.now need) (outcome_at N.value outcome.now)) }
{
    match outcome {
        Outcome::Cleared(answer) => cleared(alloc, market, need, answer),
        Outcome::Infeasible(farkas) => infeasible(alloc, market, farkas),
        Outcome::Range(passed) => range(alloc, passed),
    }
}

/// How much reserve is needed, in 10^-9 MW.
fn need_of(reserve: &Reserve) -> i64
    ensures { result ≡ reserve.now.need }
{
    reserve.need
}

/// The report of what a clear of the market came to.
pub fn report<N: Exact>(
    alloc: Global,
    market: &Market,
    outcome: &Outcome<N>,
) -> Result<Vec<u8>, Memory>
    requires { FitsOutcome market.now outcome.now }
    ensures { IfOk result (λ bytes. bytes.items ≡ report_text market.now (outcome_at N.value outcome.now)) }
{
    report_with_need(alloc, market, need_of(market.reserve()), outcome)
}
