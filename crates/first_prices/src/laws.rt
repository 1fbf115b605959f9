//! What is known of the first best points of the system of prices.
ghost use Rattle.first_prices.specs.Laws.{LawOfCaps, LawOfFirstDuals, LawOfFirstPoints};

/// Caps by duals that support the dispatch lose nothing: others of at most their sum support it at some price of energy within the caps.
pub fn caps_lose_nothing()
    ensures { LawOfCaps }
{}

/// For caps that lose nothing, the duals of the first best point are those that none go before.
pub fn first_points_have_first_prices()
    ensures { LawOfFirstPoints }
{}

/// With the price of energy that blocks tell they are the first duals.
pub fn first_points_tell_the_first_duals()
    ensures { LawOfFirstDuals }
{}
