//! Laws of the definitions, each the contract of a function that does nothing.

ghost use Rattle.settlement.specs.Laws.{LawOfRightMoney};

/// A settlement at the prices of its duals is what a right answer says of units, loads, rents and surplus.
pub fn money_is_right()
    ensures { LawOfRightMoney }
{}
