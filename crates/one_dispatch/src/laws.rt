//! What is known of the dispatch that goes first.
ghost use Rattle.one_dispatch.specs.Laws.{LawOfAllLimits, LawOfOneDispatch, LawOfThePoint};

/// There is at most one.
pub fn one_goes_first()
    ensures { LawOfOneDispatch }
{}

/// Of a market's system over some of its limits and rooms the dispatch of a point that goes first is the one that goes first for these.
pub fn first_points_are_first_dispatches()
    ensures { LawOfThePoint }
{}

/// Where it keeps all other limits and rooms of the market too, it is the one that goes first for all.
pub fn first_of_some_is_first_of_all()
    ensures { LawOfAllLimits }
{}
