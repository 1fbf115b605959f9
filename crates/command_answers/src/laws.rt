//! Laws of what commands come to, each the contract of a function that does nothing.

ghost use Rattle.command_answers.specs.FactorLaws.{LawOfCheckedTables, LawOfMadeTables};
ghost use Rattle.command_answers.specs.Laws.{LawOfListedReserve, LawOfTheReplay, LawOfTheRightsTelling, LawOfTheRightsText, LawOfTheRoundTrip, LawOfTheSameFiles, LawOfWiderClears, LawOfWiderReplays, LawOfWiderRights, LawOfYes};

/// The market that files stand for is of energy alone exactly where their table of reserves has no records.
pub fn no_records_no_reserve()
    ensures { LawOfListedReserve }
{}

/// What a clear, a replay or a clear with rights comes to by numbers within a bound, where none became too large, is right by a greater
/// bound too.
pub fn narrow_answers_stand()
    ensures clears { LawOfWiderClears }
    ensures replays { LawOfWiderReplays }
    ensures rights { LawOfWiderRights }
{}

/// What a clear of a market writes is read back as the certificate of what it came to, which is true of the market: the verdict on it is yes.
pub fn certificates_come_back()
    ensures { LawOfTheRoundTrip }
{}

/// So is what a replay writes, as that of its last clear, which is true of the market as the steps before that have edited it.
pub fn replayed_certificates_come_back()
    ensures { LawOfTheReplay }
{}

/// Verifying such a certificate says yes, or that numbers are too large.
pub fn certificates_that_come_back_hold()
    ensures { LawOfYes }
{}

/// Where what a clear of files comes to as its certificate is verified with the same files and without edits, yes is said, or that numbers
/// are too large.
pub fn the_same_files_say_yes()
    ensures { LawOfTheSameFiles }
{}

/// What is printed of a market and of rights has one reading: two of these texts that are equal tell of one answer, one fit and one list of
/// payments, or of the same two numbers that became too large, behind that answer or alone, or of the same duals that no dispatch is feasible.
pub fn rights_text_has_one_reading()
    ensures { LawOfTheRightsText }
{}

/// Two runs over one market, with whatever rights, that print one text came to the same outcome and status.
pub fn rights_text_tells_the_outcome()
    ensures { LawOfTheRightsTelling }
{}

/// The tables of factors that there are to write are read over the network of their case as those that were made.
pub fn made_tables_come_back()
    ensures { LawOfMadeTables }
{}

/// A check of tables that are made tells that all is within rounding.
pub fn made_tables_are_within_rounding()
    ensures { LawOfCheckedTables }
{}
