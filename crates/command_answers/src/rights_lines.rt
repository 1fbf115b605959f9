//! The lines that tell of transmission rights.

ghost use Rattle.std.specs.Prelude.{◌≡◌, ◌++◌, IfOk, map};
ghost use Rattle.rights_test.specs.Fits.{fit_at};
ghost use Rattle.rights_test.specs.Paid.{payments_at};
ghost use Rattle.command_answers.specs.RightsLines.{fit_text, lines_of_payments, payment_text, rights_lines, total_text};

use exact_fraction::Exact;
use line_text::Text;
use market_model::{MONEY_PLACES, MW_PLACES, Memory};
use report_text::row_words;
use rights_test::{Fit, Payments};

/// Whether rights fit, or the first limit that they break and their flow there.
#[tactic(auto, using(std::proofs::Common::append_assoc), unfolding(crate::specs::RightsLines::fit_text))]
fn fit_line<N: Exact>(text: &mut Text, fit: &Fit<N>) -> Result<(), Memory>
    ensures { IfOk result (λ _. text.new ≡ text.old ++ fit_text (fit_at N.value fit.now)) }
{
    match fit {
        Fit::Fits => text.word(b"rights fit\n"),
        Fit::Breaks { row, flow } => {
            text.word(b"rights break ")?;
            row_words(text, *row)?;
            text.named(b" flow ", *flow, MW_PLACES)?;
            text.word(b"\n")
        }
    }
}

/// What the right of this number is paid.
#[tactic(auto, using(std::proofs::Common::append_assoc), unfolding(crate::specs::RightsLines::payment_text))]
fn payment_line<N: Exact>(text: &mut Text, number: usize, paid: N) -> Result<(), Memory>
    ensures { IfOk result (λ _. text.new ≡ text.old ++ payment_text number (N.value paid)) }
{
    text.word(b"right ")?;
    text.number(number)?;
    text.named(b" pays ", paid, MONEY_PLACES)?;
    text.word(b"\n")
}

/// What each right is paid.
fn payment_lines<N: Exact>(text: &mut Text, each: &[N]) -> Result<(), Memory>
    ensures { IfOk result (λ _. text.new ≡ text.old ++ lines_of_payments (map N.value each.now)) }
{
    for (place, paid) in each.iter().enumerate() {
        payment_line(text, place + 1, *paid)?;
    }
    Ok(())
}

/// What all rights are paid.
#[tactic(auto, using(std::proofs::Common::append_assoc), unfolding(crate::specs::RightsLines::total_text))]
fn total_line<N: Exact>(text: &mut Text, total: N) -> Result<(), Memory>
    ensures { IfOk result (λ _. text.new ≡ text.old ++ total_text (N.value total)) }
{
    text.named(b"rights pay ", total, MONEY_PLACES)?;
    text.word(b"\n")
}

/// Whether rights fit and what they are paid.
#[tactic(auto, using(std::proofs::Common::append_assoc))]
pub(crate) fn rights_lines<N: Exact>(
    text: &mut Text,
    fit: &Fit<N>,
    payments: &Payments<N>,
) -> Result<(), Memory>
    ensures { IfOk result (λ _. text.new ≡ text.old ++ rights_lines (fit_at N.value fit.now) (payments_at N.value payments.now)) }
{
    fit_line(text, fit)?;
    payment_lines(text, payments.each.slice())?;
    total_line(text, payments.total)
}
