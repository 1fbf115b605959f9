//! Writing tables of factors.

ghost use Rattle.std.specs.Prelude.{◌≡◌, ◌<◌, ◌++◌, length, map, slice_get, IfOk, IfSome, Some};
ghost use Rattle.std.specs.List.{flat_map};
ghost use Rattle.factor_tables.specs.Factors.{listed_entry};
ghost use Rattle.factor_tables.specs.Tables.{header_of};
ghost use Rattle.factor_tables.specs.declared.by_pair.Column.TheVariants as column;
ghost use Rattle.factor_text.specs.Texts.{record_line, factor_table_text};

use csv_table::header_line;
use factor_tables::{FactorTable, LOSS_HEADER, ListedFactor, Loss, SHIFT_HEADER, Shift, TableKind};
use line_text::Text;
use market_data::FACTOR_PLACES;
use plain_list::Memory;
use std::alloc::Global;

/// The line of a record.
#[tactic(auto, using(std::proofs::Common::append_assoc), unfolding(crate::specs::Texts::record_line))]
fn put_record(text: &mut Text, listed: ListedFactor) -> Result<(), Memory>
    ensures { IfOk result (λ _. text.new ≡ text.old ++ record_line (listed_entry listed)) }
{
    text.number(listed.branch as usize)?;
    text.word(b",")?;
    text.number(listed.of as usize)?;
    text.word(b",")?;
    text.decimal(listed.factor as i128, FACTOR_PLACES)?;
    text.word(b"\n")
}

/// The lines of a table's records.
fn put_records<K: TableKind>(text: &mut Text, table: &FactorTable<K>) -> Result<(), Memory>
    ensures { IfOk result (λ _. text.new ≡ text.old ++ flat_map record_line table.now.entries) }
{
    for place in 0..table.len() {
        if let Some(listed) = table.record(place) {
            put_record(text, listed)?;
        }
    }
    Ok(())
}

/// The text of a table under a header.
#[tactic(auto, unfolding(crate::specs::Texts::factor_table_text))]
fn table_text<K: TableKind>(
    alloc: Global,
    header: &[&str],
    table: &FactorTable<K>,
) -> Result<Vec<u8>, Memory>
    requires { map (λ name. name.now) header.now ≡ header_of K.column }
    ensures { IfOk result (λ text. text.items ≡ factor_table_text K.column table.now.entries) }
{
    let Ok(line) = header_line(alloc, header) else {
        return Err(Memory);
    };
    let mut text = Text::new(alloc);
    text.word(line.as_slice())?;
    put_records(&mut text, table)?;
    Ok(text.into_bytes())
}

/// The text of a shift table: the header, then a line for each record in the table's order, with its branch's row, its bus's number and
/// its factor as a decimal without zeros at its end. Lines end with a line feed.
pub fn shift_text(alloc: Global, shift: &Shift) -> Result<Vec<u8>, Memory>
    ensures { IfOk result (λ text. text.items ≡ factor_table_text column.Bus shift.now.entries) }
{
    table_text(alloc, SHIFT_HEADER, shift)
}

/// The text of an outage table, likewise, where the second number is the row of the outage's branch.
pub fn loss_text(alloc: Global, loss: &Loss) -> Result<Vec<u8>, Memory>
    ensures { IfOk result (λ text. text.items ≡ factor_table_text column.Outage loss.now.entries) }
{
    table_text(alloc, LOSS_HEADER, loss)
}
