//! The flows of a network, read off its solved dictionary.
ghost use Rattle.std.specs.Prelude.{◌≡◌, ◌+◌, ◌<◌, ◌≤◌, ℕ, IfErr, IfOk, length};
ghost use Rattle.exact_flows.specs.Building.{IsExchanged};
ghost use Rattle.exact_flows.specs.FlowSystems.{IsFlowStop};
ghost use Rattle.exact_flows.specs.Lines.{AreFlows, line_network};
ghost use Rattle.market_data.specs.Scales.{most_buses, most_lines};
ghost use Rattle.network_theory.specs.Carrying.{IsCarried};
ghost use Rattle.network_theory.specs.Networks.{Branch, IsConnected, IsTheoryNetwork, StandsAt};

use crate::line::Line;
use crate::rows::column_of;
use crate::solving::solved;
use crate::stop::FlowStop;
use exact_fraction::Exact;
use linear_dict::Dict;
use plain_list::List;
use std::alloc::Global;

/// What a branch carries of 1 that goes from a bus to the reference, by the solved dictionary.
fn carried<N: Exact>(
    buses: usize,
    reference: usize,
    lines: &[Line<N>],
    dict: &Dict<N>,
    branch: usize,
    bus: usize,
) -> N
    requires network { IsTheoryNetwork (line_network N.value buses lines.now) }
    requires connected { IsConnected (line_network N.value buses lines.now) reference }
    requires reference { reference < buses }
    requires branch { branch < length lines.now }
    requires bus { bus < buses }
    requires solved { (count : ℕ) → count + 1 ≡ buses → IsExchanged (line_network N.value buses lines.now) reference count dict.now }
    ensures { let n = line_network N.value buses lines.now in (b : Branch) → StandsAt n branch b → IsCarried n reference bus reference b (N.value result) }
{
    if bus == reference {
        N::of_parts(0, 1)
    } else {
        dict.entry(branch, column_of(reference, bus))
    }
}

/// By branch and by bus, branch by branch: what a branch carries of 1 that is put in at the bus and taken out at the reference, exact.
/// Where a number on the way passes the bound of its type, the two numbers are told of which it is made. They are the network's own, and no
/// price or bound comes in: the first terms of a sum of susceptances that makes a coefficient and its next term, or two numbers that an
/// exchange of two variables in a system of the rows of the network, of some or of all, may have to add or to multiply.
pub fn exact_flows<N: Exact>(
    alloc: Global,
    buses: usize,
    reference: usize,
    lines: &[Line<N>],
) -> Result<List<N>, FlowStop<N>>
    requires reference { reference < buses }
    requires few { (buses ≤ most_buses) × (length lines.now ≤ most_lines) }
    requires network { IsTheoryNetwork (line_network N.value buses lines.now) }
    requires connected { IsConnected (line_network N.value buses lines.now) reference }
    ensures flows { IfOk result (AreFlows N.value (line_network N.value buses lines.now) reference) }
    ensures pair { IfErr result (IsFlowStop N.value N.bound (line_network N.value buses lines.now) reference) }
{
    let mut flows = List::new(alloc);
    if lines.is_empty() {
        return Ok(flows);
    }
    let dict = solved(alloc, buses, reference, lines)?;
    for place in 0..lines.len() * buses {
        let flow = carried(buses, reference, lines, &dict, place / buses, place % buses);
        flows.push(flow)?;
    }
    Ok(flows)
}
