//! Laws of the definitions, each the contract of a function that does nothing.
ghost use Rattle.market_model.specs.Laws.{LawOfTheOptimum, LawOfTheSurplus, LawOfTheRights, LawOfTheReserve, LawOfItsSign, LawOfNoLimits, LawOfTheFlows, LawOfInfeasibility};

/// A feasible dispatch that duals support has the greatest welfare of all feasible ones.
pub fn supported_is_best()
    ensures { LawOfTheOptimum }
{}

/// Where duals support a feasible dispatch, what loads pay beyond what units are paid for energy is
/// what the limits earn.
pub fn surplus_is_rents()
    ensures { LawOfTheSurplus }
{}

/// Where besides the offset of each row with a price is within its limits, that is not negative.
pub fn surplus_is_not_negative()
    ensures { LawOfItsSign }
{}

/// Where a dispatch balances and no branch has a limit, loads pay what units are paid.
pub fn balance_leaves_nothing()
    ensures { LawOfNoLimits }
{}

/// The flow of a row by branch is the one that its own offset and factors give.
pub fn flows_agree()
    ensures { LawOfTheFlows }
{}

/// Rights that limits could carry together are paid at most what is left.
pub fn rights_are_covered()
    ensures { LawOfTheRights }
{}

/// Reserve is paid its price for what is needed.
pub fn reserve_is_paid_for_the_need()
    ensures { LawOfTheReserve }
{}

/// Where duals show that no dispatch is feasible, none is.
pub fn farkas_leaves_nothing()
    ensures { LawOfInfeasibility }
{}
