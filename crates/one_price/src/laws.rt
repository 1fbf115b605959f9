//! What is known of the first of the prices that support a dispatch.
ghost use Rattle.one_price.specs.Laws.{LawOfEnergyBetween, LawOfMargins, LawOfOnePrice, LawOfOtherPrices};

/// Proper duals with the same prices but energy's are the same but for that.
pub fn prices_tell_the_duals()
    ensures { LawOfOtherPrices }
{}

/// There is at most one set of first prices.
pub fn first_prices_are_one()
    ensures { LawOfOnePrice }
{}

/// Between two prices that energy may have it may have each.
pub fn energy_costs_between()
    ensures { LawOfEnergyBetween }
{}

/// The price that energy is to have, by what a MW of each block is worth beyond its price.
pub fn blocks_tell_the_energy_price()
    ensures { LawOfMargins }
{}
