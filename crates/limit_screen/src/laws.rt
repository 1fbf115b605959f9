//! Laws of the definitions, each the contract of a function that does nothing.

ghost use Rattle.limit_screen.specs.Flows.{LawOfRowFlows};

/// Of the flows of a dispatch, those of rows are the flows of rows at that dispatch.
pub fn flows_are_those_of_rows()
    ensures { LawOfRowFlows }
{}
