//! Laws of clears, each the contract of a function that does nothing.

ghost use Rattle.clear_loop.specs.Laws.{LawOfClears, LawOfTheStart};

/// Edits change no frame, so what is kept stays a start for the edited market.
pub fn start_is_of_the_frame()
    ensures { LawOfTheStart }
{}

/// Where no working pair of a market over the limits that a clear may take passes the bound of a type of numbers, a clear with these
/// is cleared where a dispatch is feasible, and infeasible where none is.
pub fn clears_decide()
    ensures { LawOfClears }
{}
