//! What a row of `gencost` says of a unit's cost.
//! Source: MATPOWER User's Manual, the generator cost data of a case.
#![tactic(auto)]

ghost use Rattle.std.specs.Prelude.{◌≡◌, ◌≤◌, length, MatchResult};
ghost use Rattle.cost_reading.specs.CostRows.{IsCostOf, IsCostFault, row_at};

mod cells;
mod points;
mod polynomials;
#[cfg(test)]
mod tests;

use case_text::RawCosts;
use cells::{MODEL, number};
use cost_steps::Cost;
use plain_list::Memory;
use points::segments;
use polynomials::polynomial;
use record_reading::Why;
use std::alloc::Global;
use thiserror::Error;

/// Why a row says no cost. A column is counted from 1.
#[derive(Clone, Copy, Debug, PartialEq, Eq, Error)]
pub enum RowFault {
    /// A cell that is read has no number that is wanted there.
    #[error("column {col}: {why:?}")]
    Cell { col: usize, why: Why },
    /// MODEL is neither 1 nor 2.
    #[error("another model")]
    Model,
    /// NCOST is below 1, or below 2 where it counts points, or more than the row has cells for.
    #[error("another number of parameters")]
    Count,
    /// A coefficient of the third degree or of a higher one is not 0.
    #[error("another degree")]
    Degree,
}

/// Why a row gives no cost that steps are made of.
#[derive(Clone, Copy, Debug, PartialEq, Eq, Error)]
pub enum CostFault {
    #[error("{fault}")]
    Row { fault: RowFault },
    /// The output of a point is not above that of the one before.
    #[error("outputs that do not rise")]
    Outputs,
    /// A slope is below the one before, or a quadratic cost bends down.
    #[error("slopes that fall")]
    Slopes,
    #[error("memory was refused")]
    Memory,
}

impl From<Memory> for CostFault {
    ghost use Rattle.cost_reading.specs.declared.CostFault.TheVariants as cost_fault;

    ghost from_gives = { λ _ fault. fault ≡ cost_fault.Memory };

    fn from(_refused: Memory) -> CostFault {
        CostFault::Memory
    }
}

impl From<RowFault> for CostFault {
    ghost use Rattle.cost_reading.specs.declared.CostFault.TheVariants as cost_fault;

    ghost from_gives = { λ fault told. told ≡ cost_fault.Row fault };

    fn from(fault: RowFault) -> CostFault {
        CostFault::Row { fault }
    }
}

/// Reads the cost that a row says, the first row being 1. `Memory` may come at any row.
pub fn cost_of_row(alloc: Global, costs: &RawCosts<'_>, row: usize) -> Result<Cost, CostFault>
    requires { (1 ≤ row) × (row ≤ length costs.now) }
    ensures { MatchResult result (IsCostOf (row_at costs.now row)) (IsCostFault (row_at costs.now row)) }
{
    match number(costs, row, MODEL, 0)? {
        1 => segments(alloc, costs, row),
        2 => polynomial(costs, row),
        _ => Err(CostFault::Row {
            fault: RowFault::Model,
        }),
    }
}
