//! Whole numbers that are near what a look at all limits goes by.

ghost use Rattle.std.specs.Prelude.{◌≡◌, ◌+◌, length, map, IfOk};
ghost use Rattle.limit_screen.specs.Bounds.{AreFloors, AreWholeParts};
ghost use Rattle.limit_screen.specs.Flows.{carried_at};

use crate::flowing::carried_flows;
use exact_fraction::Exact;
use market_model::{Market, Memory};
use std::alloc::Global;

/// Whole numbers that are near what the network carries. Some may be missing.
#[derive(Drop)]
pub struct WholeParts {
    /// The whole parts of what each line carries, and then of what each lost unit puts out, in 10^-9 MW.
    pub(crate) carried: Vec<Option<i64>>,
}

/// The whole parts of numbers, where 64 bits hold them.
fn floors<N: Exact>(alloc: Global, numbers: &[N]) -> Result<Vec<Option<i64>>, Memory>
    ensures { IfOk result (λ parts. AreFloors (map N.value numbers.now) parts.items) }
{
    let mut parts = Vec::new(alloc);
    for number in numbers {
        match parts.push(number.floor()) {
            Ok(()) => {}
            Err(_) => return Err(Memory),
        }
    }
    Ok(parts)
}

/// The whole parts of what the network carries, where 64 bits hold them.
pub fn whole_parts<N: Exact>(
    alloc: Global,
    market: &Market,
    flows: &[N],
) -> Result<WholeParts, Memory>
    requires { length flows.now ≡ length market.now.buses + length market.now.lines + length market.now.unit_outages }
    ensures { IfOk result (AreWholeParts market.now (carried_at market.now (map N.value flows.now))) }
{
    Ok(WholeParts {
        carried: floors(alloc, carried_flows(market, flows))?,
    })
}
