//! Laws of the definitions, each the contract of a function that does nothing.

ghost use Rattle.limit_rows.specs.NamesApart.{LawOfTheNames};

/// No two limit rows of a market have one name.
pub fn names_apart()
    ensures { LawOfTheNames }
{}
