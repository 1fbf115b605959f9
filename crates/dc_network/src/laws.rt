//! Laws of the definitions, each the contract of a function that does nothing.
ghost use Rattle.dc_network.specs.Laws.{LawOfTheNetwork, LawOfExactFactors, LawOfOneFactor};
ghost use Rattle.dc_network.specs.Rounding.{LawOfRounding};

/// The live branches of a case, with reactances above 0, are a connected network of the DC model, with a listed outage too.
pub fn network_is_connected()
    ensures { LawOfTheNetwork }
{}

/// Exact factors are those whose residuals are all 0.
pub fn exact_factors()
    ensures { LawOfExactFactors }
{}

/// Each branch has one exact factor, of a size of at most 1.
pub fn one_factor()
    ensures { LawOfOneFactor }
{}

/// Exact factors that are rounded have residuals within what rounding explains.
pub fn rounded_factors()
    ensures { LawOfRounding }
{}
