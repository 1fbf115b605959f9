//! Laws of the definitions.

ghost use Rattle.unit_offers.specs.OfferLaws.{LawOfNetworkUnits, LawOfUnitOffers};

/// The live units of a network have the ranges of which offers are made.
pub fn network_units()
    ensures { LawOfNetworkUnits }
{}

/// The offers are blocks of a market, within the room of their units, with prices in order; and each unit's blocks of a side offer all its
/// room there.
pub fn offer_blocks()
    ensures { LawOfUnitOffers }
{}
