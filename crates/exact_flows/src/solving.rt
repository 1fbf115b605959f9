//! The angles are exchanged for what is put in at their buses, one after the other.
ghost use Rattle.std.specs.Prelude.{◌≡◌, ◌+◌, ◌<◌, ◌≤◌, ℕ, IfErr, IfOk, length};
ghost use Rattle.exact_flows.specs.Building.{IsExchanged};
ghost use Rattle.exact_flows.specs.FlowSystems.{IsFlowPassed, IsFlowStop};
ghost use Rattle.exact_flows.specs.Lines.{line_network};
ghost use Rattle.market_data.specs.Scales.{most_buses, most_lines};
ghost use Rattle.network_theory.specs.Networks.{IsConnected, IsTheoryNetwork};

use crate::building::built;
use crate::line::Line;
use crate::stop::FlowStop;
use exact_fraction::{Exact, Passed};
use linear_dict::Dict;
use std::alloc::Global;

/// Exchanges the angle at a column place for what is put in at its bus. Its entry there is never 0: else angles that are not all equal would
/// lose nothing on any branch. After an error the dictionary is of no use.
fn exchange<N: Exact>(
    buses: usize,
    reference: usize,
    lines: &[Line<N>],
    dict: &mut Dict<N>,
    column: usize,
) -> Result<(), Passed<N>>
    requires reference { reference < buses }
    requires few { (buses ≤ most_buses) × (length lines.now ≤ most_lines) }
    requires network { IsTheoryNetwork (line_network N.value buses lines.now) }
    requires connected { IsConnected (line_network N.value buses lines.now) reference }
    requires column { column + 1 < buses }
    requires exchanged { IsExchanged (line_network N.value buses lines.now) reference column dict.old }
    ensures exchanged { IfOk result (λ _. IsExchanged (line_network N.value buses lines.now) reference (column + 1) dict.new) }
    ensures pair { IfErr result (IsFlowPassed N.value N.bound (line_network N.value buses lines.now) reference) }
{
    dict.pivot(lines.len() + column, column)
}

/// The dictionary whose columns are what is put in at the buses other than the reference.
pub(crate) fn solved<N: Exact>(
    alloc: Global,
    buses: usize,
    reference: usize,
    lines: &[Line<N>],
) -> Result<Dict<N>, FlowStop<N>>
    requires reference { reference < buses }
    requires few { (buses ≤ most_buses) × (length lines.now ≤ most_lines) }
    requires some { 0 < length lines.now }
    requires network { IsTheoryNetwork (line_network N.value buses lines.now) }
    requires connected { IsConnected (line_network N.value buses lines.now) reference }
    ensures solved { IfOk result (λ dict. (count : ℕ) → count + 1 ≡ buses → IsExchanged (line_network N.value buses lines.now) reference count dict) }
    ensures pair { IfErr result (IsFlowStop N.value N.bound (line_network N.value buses lines.now) reference) }
{
    let mut dict = built(alloc, buses, reference, lines)?;
    for column in 0..buses - 1 {
        exchange(buses, reference, lines, &mut dict, column)?;
    }
    Ok(dict)
}
