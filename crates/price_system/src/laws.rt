//! What is known of the system of prices that support a dispatch.
ghost use Rattle.price_system.specs.Laws.{LawOfBestPoints, LawOfDuals, LawOfPoints, LawOfTheOrder, LawOfTheSum, LawOfTheSystem};

/// It is a system.
pub fn prices_are_a_system()
    ensures { LawOfTheSystem }
{}

/// The duals of its points support the dispatch.
pub fn points_support()
    ensures { LawOfPoints }
{}

/// Proper duals that support the dispatch are of such points, where their prices are within the caps.
pub fn supporting_duals_are_points()
    ensures { LawOfDuals }
{}

/// What a point is worth is the opposite of the sum of its prices without energy's.
pub fn worth_is_the_sum()
    ensures { LawOfTheSum }
{}

/// So the best points are those of the least sum, and their duals are proper.
pub fn best_points_have_least_prices()
    ensures { LawOfBestPoints }
{}

/// The order of its columns is that in which prices are made least.
pub fn columns_are_in_order()
    ensures { LawOfTheOrder }
{}
