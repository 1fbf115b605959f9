//! What is known of the points that go first.
ghost use Rattle.optimal_face.specs.Laws.{LawOfTheFace, LawOfTheFirst, LawOfTheNext, LawOfThePairs, LawOfTheReturn, LawOfTheSettled, LawOfTheStill};

/// Two points that go first have the same of each name of the order.
pub fn first_points_agree()
    ensures { LawOfTheFirst }
{}

/// The best points are those where each variable whose reduced price in a solved state is not 0 stays where it stands.
pub fn best_points_are_a_face()
    ensures { LawOfTheFace }
{}

/// Of the points that go first those that have the most of one column more are a face again.
pub fn next_points_are_a_face()
    ensures { LawOfTheNext }
{}

/// A column that can't move goes with all points that go first.
pub fn still_columns_go_with_all()
    ensures { LawOfTheStill }
{}

/// Where nothing can move there is one point, which goes first by whatever names stand behind.
pub fn settled_points_go_first()
    ensures { LawOfTheSettled }
{}

/// A state that is reached from a solved one without moving what has a price is solved, by the same reduced prices.
pub fn prices_come_back()
    ensures { LawOfTheReturn }
{}

/// A working pair of a face is one of the system.
pub fn pairs_of_a_face_are_pairs()
    ensures { LawOfThePairs }
{}
