//! Laws of the grammar, each the contract of a function that does nothing.

ghost use Rattle.std.specs.Prelude.{◌≡◌, ℕ, List, Option, Ok};
ghost use Rattle.csv_table.specs.Table.{table_of, frame_of};
ghost use Rattle.record_reading.specs.Records.{Record};
ghost use Rattle.table_grammar.specs.TableTexts.{IsTableText, IsTable};
ghost use Rattle.table_grammar.specs.Worked.{WorkedTexts};

/// The records that are read of a text are derived from it.
pub fn read_records_are_derived()
    ensures { (bytes : List ℕ) (records : List Record) → table_of bytes ≡ records → IsTableText bytes records }
{}

/// The records that are derived from a text are those that are read.
pub fn derived_records_are_read()
    ensures { (bytes : List ℕ) (records : List Record) → IsTableText bytes records → table_of bytes ≡ records }
{}

/// Two derivations of one text give the same records.
pub fn one_reading()
    ensures { (bytes : List ℕ) (records others : List Record) → IsTableText bytes records → IsTableText bytes others → records ≡ others }
{}

/// What is read as a table under a header is one by the grammar, with the same records.
pub fn read_tables_are_derived()
    ensures { (header : Record) (most : Option ℕ) (bytes : List ℕ) (records : List Record) → frame_of header most (table_of bytes) ≡ Ok records → IsTable header most bytes records }
{}

/// A table under a header by the grammar is read as that.
pub fn derived_tables_are_read()
    ensures { (header : Record) (most : Option ℕ) (bytes : List ℕ) (records : List Record) → IsTable header most bytes records → frame_of header most (table_of bytes) ≡ Ok records }
{}

/// Worked texts have their records.
pub fn worked_texts()
    ensures { WorkedTexts }
{}
