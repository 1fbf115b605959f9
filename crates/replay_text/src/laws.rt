//! Laws of the text, each the contract of a function that does nothing.

ghost use Rattle.replay_text.specs.ReplayTextLaws.{LawOfReports, ReplaysApart, ReplaysReadApart};

/// A report tells of its market only the need of reserve and what no edit changes.
pub fn report_is_of_the_frame()
    ensures { LawOfReports }
{}

/// Outcomes that fit the same steps of one market, right or not, are the same where they have one text.
pub fn replay_reads_apart()
    ensures { ReplaysReadApart }
{}

/// Two replays of the same steps of one market that have one text came to the same.
pub fn replay_has_one_reading()
    ensures { ReplaysApart }
{}
