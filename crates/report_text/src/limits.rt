//! The lines of limits.

ghost use Rattle.std.specs.Prelude.{◌≡◌, ◌++◌, length, map, IfOk};
ghost use Rattle.std.specs.List.{flat_map};
ghost use Rattle.exact_fraction.specs.Written.{number_text};
ghost use Rattle.report_text.specs.Reports.{loss_text, outage_text, over_text, row_text, rent_text, lines_of_limits, limit_text};
ghost use Rattle.market_model.specs.Valued.{dual_at, rent_at, answer_at};

use exact_fraction::{Exact, Sign};
use line_text::Text;
use market_model::{
    Answer, Dual, List, MONEY_PLACES, MW_PLACES, Memory, PRICE_PLACES, Rent, RowId,
};

/// A row of the branch matrix, or of the gen matrix.
pub fn row_number(text: &mut Text, row: u32) -> Result<(), Memory>
    ensures { IfOk result (λ _. text.new ≡ text.old ++ number_text row) }
{
    text.number(row as usize)
}

/// What is lost, behind this word; nothing where nothing is.
fn loss_words(text: &mut Text, word: &[u8], row: u32) -> Result<(), Memory>
    ensures { IfOk result (λ _. text.new ≡ text.old ++ loss_text word.now row) }
{
    if row == 0 {
        return Ok(());
    }
    text.word(word)?;
    row_number(text, row)
}

/// Whether a limit is of the base, or after the loss of which branch or unit it is.
fn outage_words(text: &mut Text, outage: u32, unit: u32) -> Result<(), Memory>
    ensures { IfOk result (λ _. text.new ≡ text.old ++ outage_text outage unit) }
{
    if outage == 0 && unit == 0 {
        return text.word(b" base");
    }
    loss_words(text, b" after ", outage)?;
    loss_words(text, b" lost ", unit)
}

/// The name of a limit, with the word `limit` before it.
pub fn row_words(text: &mut Text, row: RowId) -> Result<(), Memory>
    ensures { IfOk result (λ _. text.new ≡ text.old ++ row_text row) }
{
    text.word(b"limit ")?;
    row_number(text, row.branch)?;
    outage_words(text, row.outage, row.unit)
}

/// By how much a flow exceeds its limit; nothing where it does not.
fn over_words<N: Exact>(text: &mut Text, over: N) -> Result<(), Memory>
    ensures { IfOk result (λ _. text.new ≡ text.old ++ over_text (N.value over)) }
{
    match over.sign() {
        Sign::Above => text.named(b" over ", over, MW_PLACES),
        Sign::Below | Sign::Zero => Ok(()),
    }
}

/// The flow of a limit, by how much it exceeds it, its duals and what it earns.
fn rent_line<N: Exact>(text: &mut Text, dual: &Dual<N>, rent: &Rent<N>) -> Result<(), Memory>
    ensures { IfOk result (λ _. text.new ≡ text.old
        ++ rent_text (dual_at N.value dual.now) (rent_at N.value rent.now)) }
{
    row_words(text, dual.row)?;
    text.named(b" flow ", rent.flow, MW_PLACES)?;
    over_words(text, rent.over)?;
    text.named(b" up ", dual.up, PRICE_PLACES)?;
    text.named(b" down ", dual.down, PRICE_PLACES)?;
    text.named(b" rent ", rent.rent, MONEY_PLACES)?;
    text.word(b"\n")
}

/// The lines of the limits of an answer.
pub fn rent_lines<N: Exact>(text: &mut Text, answer: &Answer<N>) -> Result<(), Memory>
    requires { length answer.now.money.rents ≡ length answer.now.duals.limits }
    ensures { IfOk result (λ _. text.new ≡ text.old ++ lines_of_limits (answer_at N.value answer.now)) }
{
    for (place, dual) in answer.duals.limits.slice().iter().enumerate() {
        rent_line(text, dual, answer.money.rents.at(place))?;
    }
    Ok(())
}

/// The duals of a limit, as plain numbers.
fn limit_line<N: Exact>(text: &mut Text, dual: &Dual<N>) -> Result<(), Memory>
    ensures { IfOk result (λ _. text.new ≡ text.old ++ limit_text (dual_at N.value dual.now)) }
{
    row_words(text, dual.row)?;
    text.named(b" up ", dual.up, 0)?;
    text.named(b" down ", dual.down, 0)?;
    text.word(b"\n")
}

/// The lines of the limits of duals that show that no dispatch is feasible.
pub fn limit_lines<N: Exact>(text: &mut Text, limits: &List<Dual<N>>) -> Result<(), Memory>
    ensures { IfOk result (λ _. text.new ≡ text.old ++ flat_map limit_text (map (dual_at N.value) limits.now)) }
{
    for dual in limits.slice() {
        limit_line(text, dual)?;
    }
    Ok(())
}
