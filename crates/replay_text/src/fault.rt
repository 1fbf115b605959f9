//! Why an edit is refused.

ghost use Rattle.std.specs.Prelude.{◌≡◌, ◌≤◌, ◌++◌, IfOk};
ghost use Rattle.line_text.specs.Decimals.{decimal_text};
ghost use Rattle.replay_text.specs.ReplayTexts.{fault_text};

use line_text::Text;
use market_model::{MW_PLACES, Memory, PRICE_PLACES};
use offer_book::EditFault;

/// A word, and a number of units behind it, of which `10^places` are a whole.
#[tactic(auto, using(std::proofs::Common::append_assoc))]
fn amount_words(text: &mut Text, word: &[u8], number: i128, places: u8) -> Result<(), Memory>
    requires { places ≤ 25 }
    ensures { IfOk result (λ _. text.new ≡ text.old ++ (word.now ++ decimal_text places number)) }
{
    text.word(word)?;
    text.decimal(number, places)?;
    Ok(())
}

/// Why an edit is refused, by its name, with the other price or with the MW above the room.
pub fn fault_words(text: &mut Text, fault: EditFault) -> Result<(), Memory>
    ensures { IfOk result (λ _. text.new ≡ text.old ++ fault_text fault) }
{
    match fault {
        EditFault::NoBlock => text.word(b"NoBlock"),
        EditFault::NoBus => text.word(b"NoBus"),
        EditFault::NoLimit => text.word(b"NoLimit"),
        EditFault::NoReserve => text.word(b"NoReserve"),
        EditFault::Negative => text.word(b"Negative"),
        EditFault::OutOfOrder { other } => {
            amount_words(text, b"OutOfOrder ", i128::from(other), PRICE_PLACES)
        }
        EditFault::OverCapacity { over } => amount_words(text, b"OverCapacity ", over, MW_PLACES),
    }
}
