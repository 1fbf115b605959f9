//! Laws of tables that are made, each the contract of a function that does nothing.

ghost use Rattle.factor_laws.specs.Laws.{LossTablesAreExplained, LossTablesAreReadBack, LossTablesAreShort, ShiftTablesAreExplained, ShiftTablesAreReadBack, ShiftTablesAreShort};

/// The text of a shift table that is made of a network is read over it as the same table.
pub fn shift_tables_are_read_back()
    ensures { ShiftTablesAreReadBack }
{}

/// So is that of an outage table.
pub fn loss_tables_are_read_back()
    ensures { LossTablesAreReadBack }
{}

/// The text of a shift table that is made has at most 32 bytes for the header and for each pair of a live branch and a live bus.
pub fn shift_tables_are_short()
    ensures { ShiftTablesAreShort }
{}

/// That of an outage table has at most 32 for the header and for each pair of a live branch and a listed outage.
pub fn loss_tables_are_short()
    ensures { LossTablesAreShort }
{}

/// Rounding explains all that a shift table that is made misses at buses and round loops.
pub fn shift_tables_are_explained()
    ensures { ShiftTablesAreExplained }
{}

/// So it does for an outage table.
pub fn loss_tables_are_explained()
    ensures { LossTablesAreExplained }
{}
