//! Laws of the definitions, each the contract of a function that does nothing.
ghost use Rattle.case_maker.specs.Kirchhoff.{LawOfTheFactors};
ghost use Rattle.case_maker.specs.Laws.{LawOfServing, LawOfTheCounts};

/// Each bus can serve itself, so every ring has a feasible dispatch.
pub fn serves_itself()
    ensures { LawOfServing }
{}

/// A ring of n buses has n units, 2n blocks, n branches and n * n limits.
pub fn counts_by_size()
    ensures { LawOfTheCounts }
{}

/// The factors are those of a ring of branches that are all alike, with the first bus as the reference.
pub fn obeys_kirchhoff()
    ensures { LawOfTheFactors }
{}
