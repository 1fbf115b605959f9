//! Laws of the definitions, each the contract of a function that does nothing.

ghost use Rattle.factor_text.specs.Laws.{MadeTablesAreReadBack, TablesAreReadBack, TablesAreShort};

/// The text of a table that obeys the rules of a network is read over this network as the same table.
pub fn tables_are_read_back()
    ensures { TablesAreReadBack }
{}

/// The text of a table that is made of records of live branches and buses, or of live branches alone, is read as the same table.
pub fn made_tables_are_read_back()
    ensures { MadeTablesAreReadBack }
{}

/// The text of a table that obeys the rules of a network has at most 32 bytes for the header and for each record.
pub fn tables_are_short()
    ensures { TablesAreShort }
{}
