//! Laws of the definitions, each the contract of a function that does nothing.

ghost use Rattle.step_laws.specs.Laws.{LawOfEqualWidths, LawOfMeanSlopesOfParts, LawOfOneCost, LawOfPartsOnSegments, LawOfTiling};

use cost_steps::laws::mean_slopes;

/// A cost has one value at each output.
pub fn one_cost_at_each_output()
    ensures { LawOfOneCost }
{
    mean_slopes();
}

/// The slope of a part is the mean slope of the cost from one end of the part to the other.
pub fn mean_slopes_of_parts()
    ensures { LawOfMeanSlopesOfParts }
{
    mean_slopes();
}

/// Each part of a cost of segments lies on one of them.
pub fn parts_lie_on_segments()
    ensures { LawOfPartsOnSegments }
{}

/// The parts follow one another from one end of the range to the other.
pub fn parts_tile_the_range()
    ensures { LawOfTiling }
{}

/// The parts of a quadratic cost are of one width, but for the last.
pub fn equal_widths()
    ensures { LawOfEqualWidths }
{}
