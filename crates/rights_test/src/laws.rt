//! Laws of the definitions, each the contract of a function that does nothing.

ghost use Rattle.rights_test.specs.RightsLaws.{LawOfTheFit, LawOfOneFit, LawOfCoveredPayments};

use market_model::laws::rights_are_covered;

/// Rights fit exactly where they are feasible together.
pub fn fits_where_feasible()
    ensures { LawOfTheFit }
{}

/// Rights have one fit.
pub fn fit_is_one()
    ensures { LawOfOneFit }
{}

/// Rights that fit are paid at most the surplus.
pub fn payments_are_covered()
    ensures { LawOfCoveredPayments }
{
    rights_are_covered();
}
