//! Laws of edits and of tables of offers, each the contract of a function that does nothing.

ghost use Rattle.offer_book.specs.EditLaws.{LawOfEditedCurves, LawOfEditedFrames, LawOfEditedMarkets, LawOfOfferCurves, LawOfTheEditedFrame, LawOfOfferTables};

/// An edit, accepted or refused, keeps the frame of a market.
pub fn edit_keeps_the_frame()
    ensures { LawOfTheEditedFrame }
{}

/// A market is one after any edits to numbers of at most 63 bits.
pub fn edited_is_a_market()
    ensures { LawOfEditedMarkets }
{}

/// A market has the frame that it had, after any edits.
pub fn edited_has_the_frame()
    ensures { LawOfEditedFrames }
{}

/// A table of offers makes an offer curve of each unit on each side, where no unit's room is below 0. A unit without offers has the
/// empty curve.
pub fn table_makes_offer_curves()
    ensures { LawOfOfferTables }
{}

/// An edit of a market, accepted or refused, keeps offer curves.
pub fn edit_keeps_offer_curves()
    ensures { LawOfOfferCurves }
{}

/// The units of a market have offer curves after any edits to numbers of at most 63 bits.
pub fn edited_has_offer_curves()
    ensures { LawOfEditedCurves }
{}
