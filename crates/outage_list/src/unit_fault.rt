//! Why outages of units are not listed.

ghost use Rattle.std.specs.Prelude.{◌≡◌};

use plain_list::Memory;
use record_reading::FrameFault;
use thiserror::Error;

/// Why the table of outages of units is refused. A line is a record's place, where the header's is 1.
#[derive(Clone, Copy, Debug, PartialEq, Eq, Error)]
pub enum UnitOutageFault {
    #[error("{0}")]
    Frame(FrameFault),
    #[error("no gen row of a number in line {line}")]
    NoUnit { line: usize },
    #[error("a unit of line {line} is out of service")]
    DeadUnit { line: usize },
    /// A unit picks up its own output.
    #[error("line {line} has one unit twice")]
    SameUnit { line: usize },
    /// A share that is not above 0.
    #[error("line {line} has no share")]
    Share { line: usize },
    #[error("line {line} repeats an earlier one")]
    Twice { line: usize },
    /// The shares of what is picked up of a unit's output are not all of it. The unit is a gen row, the sum in 10^-6.
    #[error("the shares of unit {unit} sum to {sum}")]
    ShareSum { unit: u32, sum: i64 },
    #[error("memory was refused")]
    Memory,
}

impl From<FrameFault> for UnitOutageFault {
    ghost use Rattle.outage_list.specs.declared.unit_fault.UnitOutageFault.TheVariants as unit_fault;

    ghost from_gives = { λ frame fault. fault ≡ unit_fault.Frame frame };

    fn from(fault: FrameFault) -> UnitOutageFault {
        UnitOutageFault::Frame(fault)
    }
}

impl From<Memory> for UnitOutageFault {
    ghost use Rattle.outage_list.specs.declared.unit_fault.UnitOutageFault.TheVariants as unit_fault;

    ghost from_gives = { λ _ fault. fault ≡ unit_fault.Memory };

    fn from(_refused: Memory) -> UnitOutageFault {
        UnitOutageFault::Memory
    }
}
