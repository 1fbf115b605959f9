//! What is known of a system without columns that have to be 0.
ghost use Rattle.fewer_columns.specs.Laws.{LawOfFewerPoints, LawOfTheFewer, LawOfTheFirstOfFewer};

/// It is a system.
pub fn fewer_columns_are_a_system()
    ensures { LawOfTheFewer }
{}

/// It has the points of the whole one.
pub fn points_stay()
    ensures { LawOfFewerPoints }
{}

/// Its first best point is, with 0 for what is left out, that of the whole one.
pub fn first_points_of_fewer_are_first()
    ensures { LawOfTheFirstOfFewer }
{}
