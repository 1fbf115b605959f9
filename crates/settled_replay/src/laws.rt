//! Laws of printed replays, each the contract of a function that does nothing.

ghost use Rattle.settled_replay.specs.Laws.{LawOfOneReport, LawOfPrintedClears, LawOfRightReplies};

use edit_replay::laws::replays_decide;
use one_dispatch::laws::one_goes_first;
use settled_answer::laws::one_set_of_prices;

/// Each clear of a printed replay is what is to be printed of a clear of the market as the steps before it have edited it. So it is right for
/// that market, and decides whether anything is feasible where the clear does.
pub fn printed_clears()
    ensures { LawOfPrintedClears }
{
    replays_decide();
}

/// What is printed of each step of a replay is right for the market as the steps before it have edited it, and an answer is settled.
pub fn right_replies()
    ensures { LawOfRightReplies }
{}

/// Two answers that are printed of one market with first prices are the same in all that they say, whatever was cleared before and whichever
/// numbers were used.
pub fn one_report()
    ensures { LawOfOneReport }
{
    one_goes_first();
    one_set_of_prices();
}
