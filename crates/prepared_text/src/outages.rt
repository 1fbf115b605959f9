//! Writing tables of outages.

ghost use Rattle.std.specs.Prelude.{◌≡◌, ◌++◌, IfOk};
ghost use Rattle.std.specs.List.{flat_map};
ghost use Rattle.prepared_text.specs.OutageText.{outage_line, outage_text};

use crate::begun::begun;
use factor_tables::OUTAGE_HEADER;
use line_text::Text;
use plain_list::{List, Memory};
use std::alloc::Global;

/// The line of an outage.
#[tactic(auto, using(std::proofs::Common::append_assoc))]
fn put_outage(text: &mut Text, row: u32) -> Result<(), Memory>
    ensures { IfOk result (λ _. text.new ≡ text.old ++ outage_line row) }
{
    text.number(row as usize)?;
    text.word(b"\n")
}

/// The lines of outages.
fn put_outages(text: &mut Text, rows: &[u32]) -> Result<(), Memory>
    ensures { IfOk result (λ _. text.new ≡ text.old ++ flat_map outage_line rows.now) }
{
    for row in rows {
        put_outage(text, *row)?;
    }
    Ok(())
}

/// The text of a table of outages: the header, then a line for each row of a branch. Lines end with a line feed.
#[tactic(auto, unfolding(crate::specs::OutageText::outage_text))]
pub fn outages_text(alloc: Global, rows: &List<u32>) -> Result<Vec<u8>, Memory>
    ensures { IfOk result (λ text. text.items ≡ outage_text rows.now) }
{
    let mut text = begun(alloc, OUTAGE_HEADER)?;
    put_outages(&mut text, rows.slice())?;
    Ok(text.into_bytes())
}
