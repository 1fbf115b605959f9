//! Laws of costs, each the contract of a function that does nothing.
ghost use Rattle.cost_steps.specs.Costs.{LawOfMeanSlopes};

/// The slope of a part is the mean slope of the cost there: that of a quadratic cost between two outputs, and that of a segment between
/// its points.
pub fn mean_slopes()
    ensures { LawOfMeanSlopes }
{}
