//! What every reader of records shares: records as lists of cells, steps of which the first fault is told, and the faults of a table
//! as a whole and of a cell.
#![tactic(auto)]

ghost use Rattle.std.specs.Prelude.{◌≡◌, ◌++◌, MatchResult};
ghost use Rattle.record_reading.specs.Gathering.{listed};

use plain_list::{List, Memory};
use scaled_decimal::DecimalFault;
use thiserror::Error;

/// Why a cell has no number that is wanted there.
#[derive(Clone, Copy, Debug, PartialEq, Eq)]
pub enum Why {
    Decimal(DecimalFault),
    /// The number is outside the bounds of its column.
    Bounds,
}

/// What is wrong with a table, whatever it is of: with it as a whole, or with a cell. Of a table as a whole, where several of these
/// hold, the first of `Width`, `Header` and `TooMany` is told. A text with no record is told as `Header`.
#[derive(Clone, Copy, Debug, PartialEq, Eq, Error)]
pub enum FrameFault {
    /// The header's cells are not the wanted names, in this order and byte for byte.
    #[error("another header")]
    Header,
    /// A record has more or fewer cells than the header. Its line is the place of the first such record among the records: the
    /// header's is 1, and neither an empty line nor a line end within quotes counts.
    #[error("another width in line {line}")]
    Width { line: usize },
    /// There are more records under the header than are allowed. The count is that of all of them.
    #[error("{count} records")]
    TooMany { count: usize },
    /// A cell has no number that is wanted there. Its column is counted from 1.
    #[error("line {line}, column {col}: {why:?}")]
    Cell { line: usize, col: usize, why: Why },
}

/// Adds an item at the end, where there is one.
pub fn push_some<T: Drop>(list: &mut List<T>, item: Option<T>) -> Result<(), Memory>
    ensures { MatchResult result (λ _. list.new ≡ list.old ++ listed item) (λ _. list.new ≡ list.old) }
{
    match item {
        Some(item) => list.push(item),
        None => Ok(()),
    }
}
