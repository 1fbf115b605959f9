//! The line that tells whether a certificate holds.

ghost use Rattle.std.specs.Prelude.{◌≡◌, ◌++◌, IfOk, Option, decimal};
ghost use Rattle.cert_verify.specs.Reasons.{verdict_of};
ghost use Rattle.cert_verify.specs.declared.verdicts.Reason.{Reason};
ghost use Rattle.command_answers.specs.Verdicts.{reason_words, room_words, row_words, unit_words, verdict_line};

use cert_verify::{Reason, Verdict};
use line_text::Text;
use market_model::{Memory, RowId};
use std::alloc::Global;

/// The unit that is lost; nothing where none is.
fn unit_words(text: &mut Text, unit: u32) -> Result<(), Memory>
    ensures { IfOk result (λ _. text.new ≡ text.old ++ unit_words unit) }
{
    if unit == 0 {
        return Ok(());
    }
    text.word(b" unit ")?;
    text.number(unit as usize)
}

/// A reason by its name, and the limit that it is of.
#[tactic(auto, using(std::proofs::Common::append_assoc), unfolding(crate::specs::Verdicts::row_words))]
fn at_row(text: &mut Text, name: &[u8], row: RowId) -> Result<(), Memory>
    ensures { IfOk result (λ _. text.new ≡ text.old ++ name.now ++ row_words row) }
{
    text.word(name)?;
    text.word(b" branch ")?;
    text.number(row.branch as usize)?;
    text.word(b" outage ")?;
    text.number(row.outage as usize)?;
    unit_words(text, row.unit)
}

/// A reason by its name, and the unit whose room it is of.
#[tactic(auto, using(std::proofs::Common::append_assoc))]
fn at_room(text: &mut Text, name: &[u8], unit: u32) -> Result<(), Memory>
    ensures { IfOk result (λ _. text.new ≡ text.old ++ (name.now ++ room_words unit)) }
{
    text.word(name)?;
    text.word(b" unit ")?;
    text.number(unit as usize)
}

/// A reason by its name, and the block or the offer that it is of.
fn at_place(text: &mut Text, name: &[u8], place: usize) -> Result<(), Memory>
    ensures { IfOk result (λ _. text.new ≡ text.old ++ name.now ++ decimal place) }
{
    text.word(name)?;
    text.number(place)
}

#[tactic(auto, using(std::proofs::Common::append_assoc), unfolding(crate::specs::Verdicts::reason_words))]
fn write_reason(text: &mut Text, reason: Reason) -> Result<(), Memory>
    ensures { IfOk result (λ _. text.new ≡ text.old ++ reason_words reason) }
{
    match reason {
        Reason::Places => text.word(b"Places"),
        Reason::Count => text.word(b"Count"),
        Reason::NoRow { row } => at_row(text, b"NoRow", row),
        Reason::NoUnit { unit } => at_room(text, b"NoUnit", unit),
        Reason::Sign { row } => at_row(text, b"Sign", row),
        Reason::NeedSign => text.word(b"NeedSign"),
        Reason::RoomSign { unit } => at_room(text, b"RoomSign", unit),
        Reason::Block { n } => at_place(text, b"Block ", n),
        Reason::Reserve { n } => at_place(text, b"Reserve ", n),
        Reason::Balance => text.word(b"Balance"),
        Reason::Need => text.word(b"Need"),
        Reason::Limit { row } => at_row(text, b"Limit", row),
        Reason::Room { unit } => at_room(text, b"Room", unit),
        Reason::Slack { row } => at_row(text, b"Slack", row),
        Reason::NeedSlack => text.word(b"NeedSlack"),
        Reason::RoomSlack { unit } => at_room(text, b"RoomSlack", unit),
        Reason::Support { n } => at_place(text, b"Support ", n),
        Reason::ReserveSupport { n } => at_place(text, b"ReserveSupport ", n),
        Reason::Bound => text.word(b"Bound"),
    }
}

/// `yes`, or `no` with the reason.
#[tactic(auto, using(std::proofs::Common::append_assoc), unfolding(crate::specs::Verdicts::verdict_line))]
pub(crate) fn verdict_text(alloc: Global, verdict: Verdict) -> Result<Vec<u8>, Memory>
    ensures { (reason : Option Reason) → verdict ≡ verdict_of reason → IfOk result (λ bytes. bytes.items ≡ verdict_line reason) }
{
    let mut text = Text::new(alloc);
    match verdict {
        Verdict::Yes => text.word(b"yes\n")?,
        Verdict::No(reason) => {
            text.word(b"no ")?;
            write_reason(&mut text, reason)?;
            text.word(b"\n")?;
        }
    }
    Ok(text.into_bytes())
}
