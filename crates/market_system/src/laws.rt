//! Laws of the definitions, each the contract of a function that does nothing.
ghost use Rattle.market_system.specs.Completeness.{LawOfCompleteness, LawOfTheNumbers};
ghost use Rattle.market_system.specs.FrameLaw.{LawOfTheFrame};
ghost use Rattle.market_system.specs.ModestMarkets.{LawOfModestMarkets};
ghost use Rattle.market_system.specs.PairLaw.{LawOfThePairs};
ghost use Rattle.market_system.specs.SolvedLaws.{LawOfTheSystem, LawOfThePoints, LawOfTheSolved, LawOfTheAnswer, LawOfTheStuck, LawOfGrowth};

/// A market over some of its limits and rooms is a linear system, in whatever order they are listed.
pub fn market_is_system()
    ensures { LawOfTheSystem }
{}

/// Its rows are of the market's frame alone, which no edit changes.
pub fn rows_are_of_the_frame()
    ensures { LawOfTheFrame }
{}

/// The points of this system are the dispatches that are feasible for these limits and rooms, and a point is worth at most
/// the welfare of its dispatch.
pub fn points_are_dispatches()
    ensures { LawOfThePoints }
{}

/// Where the system is solved, the dispatch is best for these limits and rooms, and the duals support it
/// over these and over all other limits that it keeps.
pub fn solved_is_supported()
    ensures { LawOfTheSolved }
{}

/// A feasible dispatch with proper duals that support it makes a right answer.
pub fn supported_is_right()
    ensures { LawOfTheAnswer }
{}

/// Where a variable is stuck beyond a bound, its duals show that no dispatch of the market is
/// feasible, over all limits.
pub fn stuck_is_infeasible()
    ensures { LawOfTheStuck }
{}

/// Limits that are taken one by one, each because a best dispatch breaks it.
pub fn taken_limits_grow()
    ensures { LawOfGrowth }
{}

/// What is refused, in the dictionary and outside it, is a working pair of the market over the limits in hand.
pub fn refusals_are_pairs()
    ensures { LawOfThePairs }
{}

/// Where no working pair of a market passes the bound of a type of numbers, a right outcome with
/// these is cleared where a dispatch is feasible, and infeasible where none is.
pub fn no_pair_no_range()
    ensures { LawOfCompleteness }
{}

/// Where no number that a clear may have to write down is too large, no working pair passes.
pub fn no_number_no_pair()
    ensures { LawOfTheNumbers }
{}

/// In a market of energy alone without lines, with no number above ten million MW or a thousand million per MWh, no number that a clear may have to
/// write down is above 127 bits: numbers never become too large.
pub fn modest_markets_fit()
    ensures { LawOfModestMarkets }
{}
