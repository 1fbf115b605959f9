//! Why a table is refused.

ghost use Rattle.std.specs.Prelude.{◌≡◌};

use plain_list::Memory;
use record_reading::FrameFault;
use thiserror::Error;

/// Why a table is refused. A line is a record's place, where the header's is 1.
#[derive(Clone, Copy, Debug, PartialEq, Eq, Error)]
pub enum TableFault {
    #[error("{0}")]
    Frame(FrameFault),
    #[error("no branch row of a number in line {line}")]
    NoBranch { line: usize },
    #[error("no bus row of the number in line {line}")]
    NoBus { line: usize },
    /// A branch out of service has a factor or an offset that is not 0.
    #[error("a branch of line {line} is out of service")]
    DeadBranch { line: usize },
    /// A bus out of service has a factor that is not 0.
    #[error("the bus of line {line} is out of service")]
    DeadBus { line: usize },
    #[error("line {line} repeats an earlier one")]
    Twice { line: usize },
    /// The word for a limit's kind is neither `base` nor `post`.
    #[error("no kind of limit in line {line}")]
    Kind { line: usize },
    /// No live branch of that row has such a limit.
    #[error("no limit of that branch and kind in line {line}")]
    NoLimit { line: usize },
    /// A price that is not above 0, or an excess below 0.
    #[error("line {line} has no penalty")]
    Penalty { line: usize },
    /// A live branch whose phase shift angle is not 0 has no record.
    #[error("branch {branch} shifts phases and has no offset")]
    NoOffset { branch: u32 },
    #[error("memory was refused")]
    Memory,
}

impl From<FrameFault> for TableFault {
    ghost use Rattle.factor_tables.specs.declared.table_fault.TableFault.TheVariants as table_fault;

    ghost from_gives = { λ frame fault. fault ≡ table_fault.Frame frame };

    fn from(fault: FrameFault) -> TableFault {
        TableFault::Frame(fault)
    }
}

impl From<Memory> for TableFault {
    ghost use Rattle.factor_tables.specs.declared.table_fault.TableFault.TheVariants as table_fault;

    ghost from_gives = { λ _ fault. fault ≡ table_fault.Memory };

    fn from(_refused: Memory) -> TableFault {
        TableFault::Memory
    }
}
