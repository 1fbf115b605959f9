//! Laws of the search for first prices, each the contract of a function that does nothing.

ghost use Rattle.price_search.specs.Laws.{LawOfSearchNumbers};

/// Where no number that the way from a dispatch to its first prices may have to write down is too large, no operation is refused on it.
pub fn no_number_no_refusal()
    ensures { LawOfSearchNumbers }
{}
