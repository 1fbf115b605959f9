//! The grammar of a table by productions: which records a text gives.
//!
//! `specs` has the productions, each beside its sentence of `docs/FORMATS.md`: `Cells` and `TableTexts`, with `IsTableText` as the whole
//! text and `IsTable` as a table under its header, and `Worked` with worked texts. They know nothing of a reader or of its states. The
//! laws say that `csv_table`'s records of a text are exactly those that they derive.
#![tactic(auto)]

pub mod laws;
