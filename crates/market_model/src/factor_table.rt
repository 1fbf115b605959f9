//! Factors by line, and by bus or lost line.

ghost use Rattle.std.specs.Prelude.{◌≡◌, ◌≤◌, ◌*◌, length, IfOk};
ghost use Rattle.market_data.specs.Scales.{most_lines, most_outages};
ghost use Rattle.market_model.specs.Factors.{factor_in, IsTable};
ghost use Rattle.market_model.specs.LostLines.{factor_after, IsOutageIndex};
ghost use Rattle.market_model.specs.Market.{AreTableFactors};

use crate::Factor;
use plain_list::Memory;
use std::alloc::Global;

/// The factors in a table row by row, with a row for each line and 0 where a pair has none.
pub(crate) fn table_of(
    alloc: Global,
    factors: &[Factor],
    lines: usize,
    others: usize,
) -> Result<Vec<i64>, Memory>
    requires factors { AreTableFactors lines others factors.now }
    requires lines { lines ≤ most_lines }
    requires others { others ≤ most_lines }
    ensures { IfOk result (λ table. IsTable lines others (factor_in factors.now) table.items) }
{
    let mut table = match vec![in alloc; 0i64; lines * others] {
        Ok(table) => table,
        Err(_) => return Err(Memory),
    };
    for factor in factors {
        table[factor.line * others + factor.of] = factor.value;
    }
    Ok(table)
}

/// The factors for lost lines in a table row by row, with a row of all lines for each of these.
pub(crate) fn loss_table(
    alloc: Global,
    factors: &[Factor],
    lines: usize,
    lost: &[usize],
    index: &[Option<usize>],
) -> Result<Vec<i64>, Memory>
    requires factors { AreTableFactors lines lines factors.now }
    requires lines { lines ≤ most_lines }
    requires lost { length lost.now ≤ most_outages }
    requires index { IsOutageIndex lines lost.now index.now }
    ensures { IfOk result (λ table. IsTable (length lost.now) lines (factor_after factors.now lost.now) table.items) }
{
    let mut table = match vec![in alloc; 0i64; lost.len() * lines] {
        Ok(table) => table,
        Err(_) => return Err(Memory),
    };
    for factor in factors {
        if let Some(outage) = index[factor.of] {
            table[outage * lines + factor.line] = factor.value;
        }
    }
    Ok(table)
}

/// The factor of a pair among those that are listed; 0 where it has none.
pub(crate) fn listed_factor(factors: &[Factor], line: usize, of: usize) -> i64
    ensures { result ≡ factor_in factors.now line of }
{
    for factor in factors {
        if factor.line == line && factor.of == of {
            return factor.value;
        }
    }
    0
}
