//! What residuals say of flows.

ghost use Rattle.factor_residuals.specs.Injections.{LawOfInjections};

/// The greatest bus residual of shift factors bounds by how much the flows of any injection that sums to 0 miss it at a bus.
pub fn injections_are_met()
    ensures { LawOfInjections }
{}
