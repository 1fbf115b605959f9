//! Laws of the definitions, each the contract of a function that does nothing.
ghost use Rattle.network_theory.specs.Laws.{LawOfTheLeastAngle, LawOfTheGreatestAngle, LawOfOneSolution, LawOfSolutions, LawOfTransfers, LawOfRest, LawOfTheTransfer, LawOfTheFactors, LawOfTheGuess, LawOfGuessedBounds, LawOfBalance, LawOfReciprocity, LawOfTheOutage, LawOfTheDetour, LawOfTheBridge, LawOfTheOutageFactors};

/// In a connected network where no bus but the reference has an injection below 0, no angle is below that of the reference.
pub fn least_angle()
    ensures { LawOfTheLeastAngle }
{}

/// Where none but the reference has an injection above 0, no angle is above that of the reference.
pub fn greatest_angle()
    ensures { LawOfTheGreatestAngle }
{}

/// Angles are fixed by the angle at the reference and the injections at all other buses.
pub fn one_solution()
    ensures { LawOfOneSolution }
{}

/// A connected network has a solution for any injections of the buses other than the reference.
pub fn solutions_exist()
    ensures { LawOfSolutions }
{}

/// A connected network has a transfer between any two buses.
pub fn transfers_exist()
    ensures { LawOfTransfers }
{}

/// Without injections all angles are that of the reference.
pub fn no_injections()
    ensures { LawOfRest }
{}

/// The angles of a transfer are greatest at its source and least at its sink.
pub fn transfer_falls()
    ensures { LawOfTheTransfer }
{}

/// The factors of a transfer have a size of at most 1.
pub fn factors_within_one()
    ensures { LawOfTheFactors }
{}

/// Flows at guessed angles are off by no more than the injections of all buses but one are in sum.
pub fn guess_within_injections()
    ensures { LawOfTheGuess }
{}

/// Where only bounds on the flows at the guess are known, each flow is within them widened by the errors of all buses but one.
pub fn bounds_within_errors()
    ensures { LawOfGuessedBounds }
{}

/// All injections sum to 0.
pub fn injections_balance()
    ensures { LawOfBalance }
{}

/// Two solutions of one network are reciprocal.
pub fn solutions_are_reciprocal()
    ensures { LawOfReciprocity }
{}

/// After an outage the angles are those before it and a number of times those of the transfer between the ends of the lost branch.
pub fn outage_moves_angles()
    ensures { LawOfTheOutage }
{}

/// A branch whose ends stay joined without it carries less than 1 of the transfer between them.
pub fn detour_carries()
    ensures { LawOfTheDetour }
{}

/// One that carries less than 1 is no bridge, and a bridge carries all of the transfer between its ends.
pub fn bridge_carries_all()
    ensures { LawOfTheBridge }
{}

/// After an outage each other branch carries besides its outage factor times what the lost one carried.
pub fn outage_factors()
    ensures { LawOfTheOutageFactors }
{}
