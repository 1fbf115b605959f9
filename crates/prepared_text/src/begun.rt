//! Texts that begin with the header of a table.

ghost use Rattle.std.specs.Prelude.{◌≡◌, map, IfOk};
ghost use Rattle.csv_table.specs.Table.{header_line};

use csv_table::header_line;
use line_text::Text;
use plain_list::Memory;
use std::alloc::Global;

/// A text that has the header of a table and no records as yet.
pub(crate) fn begun(alloc: Global, header: &[&str]) -> Result<Text, Memory>
    ensures { IfOk result (λ text. text ≡ header_line (map (λ name. name.now) header.now)) }
{
    let Ok(line) = header_line(alloc, header) else {
        return Err(Memory);
    };
    let mut text = Text::new(alloc);
    text.word(line.as_slice())?;
    Ok(text)
}
