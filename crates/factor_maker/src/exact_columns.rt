//! Columns by exact fractions.

ghost use Rattle.std.specs.Prelude.{◌≡◌, ◌<◌, ◌≤◌, ◌*◌, pos, length, All, IfErr, IfOk};
ghost use Rattle.std.specs.List.{AllZip};
ghost use Rattle.fraction_theory.specs.Fraction.{whole};
ghost use Rattle.fraction_theory.specs.Order.{◌≤ℚ◌};
ghost use Rattle.fraction_theory.specs.Signs.{abs_ℚ};
ghost use Rattle.exact_fraction.specs.Nearest.{IsNearest};
ghost use Rattle.market_data.specs.Scales.{most_buses, most_lines, place_count};
ghost use Rattle.factor_maker.specs.ExactLists.{AreDifferences, AreEntries, IsRefusedDifference};
ghost use Rattle.factor_maker.specs.Stops.{OnPassed};

use crate::numbers::FactorNumber;
use crate::stops::MakeStop;
use exact_fraction::Exact;
use market_data::FactorPlaces;
use plain_list::{List, Memory};
use std::alloc::Global;

/// What branches, of which there are so many, carry from a bus to the reference.
pub(crate) fn flows_from<N: Exact>(
    alloc: Global,
    flows: &[N],
    branches: usize,
    buses: usize,
    bus: usize,
) -> Result<List<N>, Memory>
    requires count { length flows.now ≡ branches * buses }
    requires few { (branches ≤ most_lines) × (buses ≤ most_buses) }
    requires bus { bus < buses }
    ensures { IfOk result (λ list. (length list ≡ branches) × AreEntries flows.now buses bus list) }
{
    let mut list = List::new(alloc);
    for branch in 0..branches {
        list.push(flows[branch * buses + bus])?;
    }
    Ok(list)
}

/// What branches carry from one bus to another, by what they carry from each of the two to the reference.
pub(crate) fn differences<N: Exact>(
    alloc: Global,
    from_source: &[N],
    from_sink: &[N],
) -> Result<List<N>, MakeStop<N>>
    requires count { length from_source.now ≡ length from_sink.now }
    ensures are { IfOk result (AreDifferences N.value from_source.now from_sink.now) }
    ensures stop { IfErr result (λ stop. OnPassed stop (IsRefusedDifference N.value N.bound from_source.now from_sink.now)) }
{
    let mut list = List::new(alloc);
    for place in 0..from_source.len() {
        list.push(from_source[place].minus(from_sink[place])?)?;
    }
    Ok(list)
}

/// The nearest units of exact factors.
pub(crate) fn rounded<N: FactorNumber>(
    alloc: Global,
    factors: &[N],
    places: FactorPlaces,
) -> Result<List<i64>, Memory>
    requires sizes { All (λ factor. abs_ℚ (N.value factor) ≤ℚ whole (pos 1)) factors.now }
    ensures { IfOk result (AllZip (λ factor units. IsNearest (place_count places) (N.value factor) units) factors.now) }
{
    let mut units = List::new(alloc);
    for place in 0..factors.len() {
        units.push(factors[place].units(places))?;
    }
    Ok(units)
}
