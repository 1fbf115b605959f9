//! Laws of the text, each the contract of a function that does nothing.
ghost use Rattle.report_text.specs.ReportLaws.{LawOfEnergyAlone, ReportsApart, RightReportsApart};

/// Two outcomes that fit a market and have one report are one.
pub fn report_has_one_reading()
    ensures { ReportsApart }
{}

/// Two outcomes of a market with one report are one, where their answers and duals are right.
pub fn right_report_has_one_reading()
    ensures { RightReportsApart }
{}

/// The report of a right outcome of a market of energy alone has no line of reserve.
pub fn energy_alone_has_no_reserve()
    ensures { LawOfEnergyAlone }
{}
