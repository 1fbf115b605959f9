//! What is told of transmission rights.

ghost use Rattle.std.specs.Prelude.{◌≡◌};

use market_model::{List, Memory, RowId, TransmissionRight};
use record_reading::FrameFault;
use thiserror::Error;

/// Rights in the order of their records.
pub type Rights = List<TransmissionRight>;

/// Why a table of rights is refused. A line is a record's place, where the header's is 1.
#[derive(Clone, Copy, Debug, PartialEq, Eq, Error)]
pub enum RightsFault {
    #[error("{0}")]
    Frame(FrameFault),
    #[error("no live bus of a number in line {line}")]
    NoBus { line: usize },
    #[error("a quantity below 0 in line {line}")]
    Negative { line: usize },
    #[error("memory was refused")]
    Memory,
}

impl From<FrameFault> for RightsFault {
    ghost use Rattle.rights_test.specs.declared.right_parts.RightsFault.TheVariants as rights_fault;

    ghost from_gives = { λ frame fault. fault ≡ rights_fault.Frame frame };

    fn from(fault: FrameFault) -> RightsFault {
        RightsFault::Frame(fault)
    }
}

impl From<Memory> for RightsFault {
    ghost use Rattle.rights_test.specs.declared.right_parts.RightsFault.TheVariants as rights_fault;

    ghost from_gives = { λ _ fault. fault ≡ rights_fault.Memory };

    fn from(_refused: Memory) -> RightsFault {
        RightsFault::Memory
    }
}

/// Whether limits could carry rights together.
#[derive(Clone, Copy, Debug)]
pub enum Fit<N> {
    Fits,
    /// The first limit in the market's order that is broken, and the flow there, in 10^-9 MW.
    Breaks { row: RowId, flow: N },
}

/// What rights are paid, in 10^-15.
#[derive(Drop, Debug)]
pub struct Payments<N> {
    /// What each right is paid, in their order. It is below 0 where the price falls along the right.
    pub each: List<N>,
    /// What they are paid together.
    pub total: N,
}
