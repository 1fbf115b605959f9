//! Laws of settled answers, each the contract of a function that does nothing.

ghost use Rattle.settled_answer.specs.Laws.{LawOfAllPriceNumbers, LawOfFirstPrices, LawOfFittingPrices, LawOfOneSet, LawOfPriceNumbers};

/// Right answers of a market with the same dispatch and its first prices are the same in all that they say.
pub fn one_set_of_prices()
    ensures { LawOfOneSet }
{}

/// Where no operation is refused on the way to first prices, whichever choice of basic variables a clear ends with, an answer that is settled has them.
pub fn prices_are_first()
    ensures { LawOfFirstPrices }
{}

/// Where no number that the way from an answer to the settled one may have to write down is too large, no operation is refused on it.
pub fn no_number_no_refusal()
    ensures { LawOfPriceNumbers }
{}

/// An answer that is settled has the first prices where that holds of it.
pub fn fitting_prices_are_first()
    ensures { LawOfFittingPrices }
{}

/// Where that holds of each answer with which a clear may end, no operation is refused on the way from any of them.
pub fn no_price_passes()
    ensures { LawOfAllPriceNumbers }
{}
