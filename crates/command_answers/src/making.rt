//! Rings that are made and cleared.

ghost use Rattle.std.specs.Prelude.{◌≡◌, ◌≤◌, ◌<◌, ◌^◌, ◌++◌, [], IfOk, decimal};
ghost use Rattle.case_maker.specs.Rings.{ring_of};
ghost use Rattle.market_model.specs.Valued.{answer_at, outcome_at};
ghost use Rattle.command_answers.specs.Bounds.{IsOutcomeWithin};
ghost use Rattle.command_answers.specs.Making.{MakesTo, counts, summary, title};
ghost use Rattle.command_answers.specs.Status.{IsOfWork};
ghost use Rattle.command_answers.specs.Tellings.{telling_of};
ghost use Rattle.market_model.specs.Fitting.{FitsOutcome};
ghost use Rattle.market_model.specs.Market.{IsMarket};
ghost use Rattle.market_system.specs.Outcomes.{IsRightOutcome};
ghost use Rattle.report_text.specs.Reports.{report_text};
ghost use Rattle.settled_answer.specs.Settled.{IsSettledOutcome};
ghost use Rattle.market_data.specs.Scales.{IsRingSize};
ghost use Rattle.number_bits.specs.Bits.{most_of};
ghost use Rattle.number_bits.specs.declared.NumberBits.TheVariants.{Bits127};

use crate::clearing::cleared;
use crate::status::Status;
use crate::told::{Told, uncertified};
use case_maker::ring;
use exact_fraction::{Exact, Frac};
use limit_rows::count;
use line_text::Text;
use market_model::{Answer, MONEY_PLACES, Market, Memory, Outcome};
use report_text::report;
use std::alloc::Global;

/// A ring, with the words that it is made by.
#[derive(Clone, Copy)]
struct Ring<'a> {
    buses: usize,
    seed: u64,
    market: &'a Market,
}

/// A word and a number behind it.
fn numbered(text: &mut Text, word: &[u8], number: usize) -> Result<(), Memory>
    ensures { IfOk result (λ _. text.new ≡ text.old ++ word.now ++ decimal number) }
{
    text.word(word)?;
    text.number(number)
}

/// The words that a ring is made by.
#[tactic(auto, using(std::proofs::Common::append_assoc), unfolding(crate::specs::Making::title))]
fn title(text: &mut Text, buses: usize, seed: u64) -> Result<(), Memory>
    ensures { IfOk result (λ _. text.new ≡ text.old ++ title buses seed) }
{
    numbered(text, b"ring ", buses)?;
    numbered(text, b" seed ", seed as usize)
}

/// How many buses, blocks and limits a market has.
#[tactic(auto, using(std::proofs::Common::append_assoc), unfolding(crate::specs::Making::counts))]
fn counts(text: &mut Text, market: &Market) -> Result<(), Memory>
    ensures { IfOk result (λ _. text.new ≡ text.old ++ counts market.now) }
{
    numbered(text, b" buses ", market.buses().len())?;
    numbered(text, b" blocks ", market.blocks().len())?;
    numbered(text, b" limits ", count(market))?;
    text.word(b"\n")
}

/// What an answer is worth, and what is left of what loads pay.
#[tactic(auto, using(std::proofs::Common::append_assoc), unfolding(crate::specs::Making::summary))]
fn summary<N: Exact>(text: &mut Text, answer: &Answer<N>) -> Result<(), Memory>
    ensures { IfOk result (λ _. text.new ≡ text.old ++ summary (answer_at N.value answer.now)) }
{
    text.named(b"cleared\nwelfare ", answer.welfare, MONEY_PLACES)?;
    text.named(b"\nsurplus ", answer.money.surplus, MONEY_PLACES)?;
    text.word(b"\n")
}

/// The words that a ring is made by, and its size.
#[tactic(auto, using(std::proofs::Common::append_assoc))]
fn size_line(text: &mut Text, ring: &Ring<'_>) -> Result<(), Memory>
    ensures { IfOk result (λ _. text.new ≡ text.old ++ title ring.now.buses ring.now.seed ++ counts ring.now.market.now) }
{
    title(text, ring.buses, ring.seed)?;
    counts(text, ring.market)
}

/// The size of a ring, with what it comes to behind.
#[tactic(auto, using(std::proofs::Common::append_assoc))]
fn cleared_text<N: Exact>(
    alloc: Global,
    ring: &Ring<'_>,
    answer: &Answer<N>,
) -> Result<Vec<u8>, Memory>
    ensures { IfOk result (λ bytes. bytes.items ≡ (title ring.now.buses ring.now.seed ++ counts ring.now.market.now) ++ summary (answer_at N.value answer.now)) }
{
    let mut text = Text::new(alloc);
    size_line(&mut text, ring)?;
    summary(&mut text, answer)?;
    Ok(text.into_bytes())
}

/// The size of a ring, with the report of what it comes to behind.
#[tactic(auto, using(std::proofs::Common::append_assoc))]
fn reported_text<N: Exact>(
    alloc: Global,
    ring: &Ring<'_>,
    outcome: &Outcome<N>,
) -> Result<Vec<u8>, Memory>
    requires { FitsOutcome ring.now.market.now outcome.now }
    ensures { IfOk result (λ bytes. bytes.items ≡ (title ring.now.buses ring.now.seed ++ counts ring.now.market.now) ++ report_text ring.now.market.now (outcome_at N.value outcome.now)) }
{
    let mut text = Text::new(alloc);
    size_line(&mut text, ring)?;
    let report = report(alloc, ring.market, outcome)?;
    text.word(report.as_slice())?;
    Ok(text.into_bytes())
}

/// What an outcome of a ring comes to; it is never infeasible.
fn outcome_told<N: Exact>(
    alloc: Global,
    ring: &Ring<'_>,
    outcome: &Outcome<N>,
) -> Result<Told, Memory>
    requires ring { ring.now.market.now ≡ ring_of ring.now.buses ring.now.seed }
    requires kept { IsMarket ring.now.market.now }
    requires fits { FitsOutcome ring.now.market.now outcome.now }
    requires right { IsRightOutcome N.bound ring.now.market.now [] (outcome_at N.value outcome.now) }
    requires priced { IsSettledOutcome N.bound ring.now.market.now (outcome_at N.value outcome.now) }
    requires within { IsOutcomeWithin N.bound (outcome_at N.value outcome.now) }
    ensures status { IfOk result (λ told. IsOfWork told.status) }
    ensures makes { IfOk result (λ told. MakesTo N.bound ring.now.buses ring.now.seed (telling_of told)) }
{
    match outcome {
        Outcome::Cleared(answer) => Ok(uncertified(
            Status::Done,
            cleared_text(alloc, ring, answer)?,
        )),
        Outcome::Infeasible(_) => unreachable!(),
        Outcome::Range(_) => Ok(uncertified(Status::Range, reported_text(alloc, ring, outcome)?)),
    }
}

/// What clearing a ring comes to.
fn ring_told<N: Exact>(alloc: Global, ring: &Ring<'_>) -> Result<Told, Memory>
    requires ring { ring.now.market.now ≡ ring_of ring.now.buses ring.now.seed }
    requires kept { IsMarket ring.now.market.now }
    ensures status { IfOk result (λ told. IsOfWork told.status) }
    ensures makes { IfOk result (λ told. MakesTo N.bound ring.now.buses ring.now.seed (telling_of told)) }
{
    let cleared = cleared::<N>(alloc, ring.market)?;
    outcome_told(alloc, ring, &cleared.outcome)
}

/// What the ring of a seed comes to, of 4, 8, 16, 32 or 64 buses.
pub fn make_told(alloc: Global, buses: usize, seed: u64) -> Result<Told, Memory>
    requires size { IsRingSize buses }
    requires small { seed ≤ 4294967295 }
    ensures status { IfOk result (λ told. IsOfWork told.status) }
    ensures makes { IfOk result (λ told. MakesTo (most_of Bits127) buses seed (telling_of told)) }
{
    let market = ring(alloc, buses, seed)?;
    ring_told::<Frac>(
        alloc,
        &Ring {
            buses,
            seed,
            market: &market,
        },
    )
}
