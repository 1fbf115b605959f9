//! Laws of the definitions.

ghost use Rattle.outage_choice.specs.Choices.{LawOfChosenOutages, LawOfLostBranches};

/// The branches that are chosen may be listed as outages.
pub fn choices_are_outages()
    ensures { LawOfChosenOutages }
{}

/// A branch may be listed as an outage exactly where its loss parts no buses that were joined.
pub fn outages_part_no_bus()
    ensures { LawOfLostBranches }
{}
