//! Laws of the definitions, each the contract of a function that does nothing.

ghost use Rattle.cert_verify.specs.Laws.{LawOfFarkasDuals, LawOfNothingFeasible, LawOfRightAnswers, LawOfTheBest, LawOfTheVerdict};

/// The verdict on a certificate is yes exactly where what it says of the market is true.
pub fn yes_where_it_holds()
    ensures { LawOfTheVerdict }
{}

/// The dispatch of an optimal certificate that holds is feasible, and no feasible one is worth more.
pub fn yes_is_best()
    ensures { LawOfTheBest }
{}

/// Where a certificate of the other kind holds, no dispatch is feasible.
pub fn yes_leaves_nothing()
    ensures { LawOfNothingFeasible }
{}

/// The verdict on the certificate of a right answer is yes.
pub fn right_answers_hold()
    ensures { LawOfRightAnswers }
{}

/// The verdict on the certificate of duals that show a market infeasible is yes.
pub fn farkas_duals_hold()
    ensures { LawOfFarkasDuals }
{}
