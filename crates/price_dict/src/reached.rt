//! What a dispatch reaches.

ghost use Rattle.std.specs.Prelude.{◌≡◌, IfOk};
ghost use Rattle.price_dict.specs.Reached.{columns_of};

use market_model::Row;
use plain_list::{List, Memory};
use price_system::Variable;
use std::alloc::Global;

/// The rows whose flow is at its limit or beyond, and the places of the units that use up their rooms, in the market's order.
#[derive(Clone, Copy)]
pub struct Reached<'a> {
    pub rows: &'a [Row],
    pub units: &'a [usize],
}

/// The columns of a dictionary where this is reached: the prices of energy and of reserve, then those of these limits, and of these rooms.
pub(crate) fn columns_of(alloc: Global, reached: Reached<'_>) -> Result<List<Variable>, Memory>
    ensures { IfOk result (λ columns. columns ≡ columns_of reached.entry) }
{
    let mut columns = List::new(alloc);
    columns.push(Variable::Energy)?;
    columns.push(Variable::Reserve)?;
    for row in reached.rows {
        columns.push(Variable::Up(*row))?;
        columns.push(Variable::Down(*row))?;
    }
    for unit in reached.units {
        columns.push(Variable::Room(*unit))?;
    }
    Ok(columns)
}
