//! The dictionary of a network: the angles are its columns, and what branches carry and what is put in at buses are its rows.
ghost use Rattle.std.specs.Prelude.{◌≡◌, ◌+◌, ◌<◌, ◌≤◌, IfErr, IfOk, length};
ghost use Rattle.exact_flows.specs.Building.{IsBuilt, IsExchanged};
ghost use Rattle.exact_flows.specs.FlowSystems.{IsFlowStop};
ghost use Rattle.exact_flows.specs.Lines.{line_network};
ghost use Rattle.market_data.specs.Scales.{most_buses, most_lines};

use crate::coefficients::coefficients;
use crate::line::Line;
use crate::rows::{Row, angle_names, row_at_place, row_name};
use crate::stop::FlowStop;
use exact_fraction::Exact;
use linear_dict::{AddStop, Dict};
use std::alloc::Global;

/// The dictionary with what the first branch carries as its row.
fn started<N: Exact>(
    alloc: Global,
    buses: usize,
    reference: usize,
    lines: &[Line<N>],
) -> Result<Dict<N>, FlowStop<N>>
    requires reference { reference < buses }
    requires few { buses ≤ most_buses }
    requires some { 0 < length lines.now }
    ensures built { IfOk result (IsBuilt (line_network N.value buses lines.now) reference 1) }
    ensures pair { IfErr result (IsFlowStop N.value N.bound (line_network N.value buses lines.now) reference) }
{
    let angles = angle_names(alloc, buses, reference)?;
    let row = Row::Flow(0);
    let numbers = coefficients(alloc, lines, buses, reference, row)?;
    let name = row_name(buses, row);
    Ok(Dict::start(alloc, angles.slice(), name, numbers.slice())?)
}

/// Puts in the row at the next place. After an error the dictionary is of no use.
fn put_row<N: Exact>(
    alloc: Global,
    buses: usize,
    reference: usize,
    lines: &[Line<N>],
    dict: &mut Dict<N>,
    place: usize,
) -> Result<(), FlowStop<N>>
    requires reference { reference < buses }
    requires few { (buses ≤ most_buses) × (length lines.now ≤ most_lines) }
    requires place { place + 1 < length lines.now + buses }
    requires built { IsBuilt (line_network N.value buses lines.now) reference place dict.old }
    ensures built { IfOk result (λ _. IsBuilt (line_network N.value buses lines.now) reference (place + 1) dict.new) }
    ensures pair { IfErr result (IsFlowStop N.value N.bound (line_network N.value buses lines.now) reference) }
{
    let row = row_at_place(lines.len(), reference, place);
    let numbers = coefficients(alloc, lines, buses, reference, row)?;
    let name = row_name(buses, row);
    match dict.add_row(name, numbers.slice()) {
        Ok(()) => Ok(()),
        Err(AddStop::Passed(passed)) => Err(FlowStop::Passed(passed)),
        Err(AddStop::Memory) => Err(FlowStop::Memory),
    }
}

/// The dictionary of all rows.
pub(crate) fn built<N: Exact>(
    alloc: Global,
    buses: usize,
    reference: usize,
    lines: &[Line<N>],
) -> Result<Dict<N>, FlowStop<N>>
    requires reference { reference < buses }
    requires few { (buses ≤ most_buses) × (length lines.now ≤ most_lines) }
    requires some { 0 < length lines.now }
    ensures built { IfOk result (IsExchanged (line_network N.value buses lines.now) reference 0) }
    ensures pair { IfErr result (IsFlowStop N.value N.bound (line_network N.value buses lines.now) reference) }
{
    let mut dict = started(alloc, buses, reference, lines)?;
    for place in 1..lines.len() + buses - 1 {
        put_row(alloc, buses, reference, lines, &mut dict, place)?;
    }
    Ok(dict)
}
