//! Laws of replays, each the contract of a function that does nothing.

ghost use Rattle.edit_replay.specs.ReplayLaws.{LawOfClearsInReplays, LawOfEditsInReplays};

/// Each clear of a replay is right for the market as the steps before it have edited it, starting from the limits and rooms that these
/// steps reached; what it takes behind them is passed by best dispatches. Where no working pair of that market, over limits reached from
/// there, passes the bound of the numbers, it decides whether anything is feasible.
pub fn replays_decide()
    ensures { LawOfClearsInReplays }
{}

/// What the edits of a replay come to is determined by the market and the steps.
pub fn edits_have_one_outcome()
    ensures { LawOfEditsInReplays }
{}
