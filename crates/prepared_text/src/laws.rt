//! Laws of the definitions, each the contract of a function that does nothing.

ghost use Rattle.prepared_text.specs.OfferLaws.{LawOfOffersRead, LawOfUnitRows};
ghost use Rattle.prepared_text.specs.OutageLaws.{LawOfChosenRead, LawOfOutagesRead};
ghost use Rattle.prepared_text.specs.PenaltyLaws.{LawOfPenaltiesRead, LawOfSoftLimits};

/// The text of blocks that obey the rules of a table of offers is read as the same blocks.
pub fn offers_are_read_back()
    ensures { LawOfOffersRead }
{}

/// The unit list of a network has distinct gen rows.
pub fn units_have_gen_rows()
    ensures { LawOfUnitRows }
{}

/// The text of rows is read as the same rows.
pub fn outages_are_read_back()
    ensures { LawOfOutagesRead }
{}

/// The text of the outages that are chosen is read, and listed, as exactly these.
pub fn chosen_outages_are_listed()
    ensures { LawOfChosenRead }
{}

/// The text of penalties of a network is read as one for each limit of each live branch.
pub fn penalties_are_read_back()
    ensures { LawOfPenaltiesRead }
{}

/// Each limit that a live branch has gives way.
pub fn limits_give_way()
    ensures { LawOfSoftLimits }
{}
