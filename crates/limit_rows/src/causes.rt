//! Causes of limits, and which lines have one under a cause.

ghost use Rattle.std.specs.Prelude.{◌≡◌, ◌≤◌, ◌<◌, ◌+◌, length, Some};
ghost use Rattle.std.specs.List.{slice_get};
ghost use Rattle.market_data.specs.Scales.{most_outages, most_units};
ghost use Rattle.market_model.specs.LimitRows.{bears, causes, is_outage, lost_unit, outage_of, stated, unit_of, IsCauseOf};

use market_model::{Cause, Line, Market};

/// How many causes of limits a market has: the base, and each outage of a branch or of a unit.
pub(crate) fn cause_count(market: &Market) -> usize
    ensures count { result ≡ length (causes market.now) }
    ensures few { result ≤ most_outages + 1 + most_units }
{
    market.outages().len() + 1 + market.unit_outages().len()
}

/// The cause at a place: the base first, then the outages as they are listed, those of branches before those of units.
pub(crate) fn cause_at(market: &Market, place: usize) -> Cause
    requires { place < length (causes market.now) }
    ensures is { slice_get (causes market.now) place ≡ Some result }
    ensures lost { IsCauseOf market.now result }
{
    let lost = market.lost_lines();
    if place == 0 {
        Cause::Base
    } else if place <= lost.len() {
        Cause::Branch(*lost.at(place - 1))
    } else {
        Cause::UnitOutage(place - 1 - lost.len())
    }
}

/// The branch row of the lost line of a cause; 0 where none is lost.
pub(crate) fn outage_of(market: &Market, cause: Cause) -> u32
    requires { IsCauseOf market.now cause }
    ensures { result ≡ outage_of market.now cause }
{
    match cause {
        Cause::Base => 0,
        Cause::Branch(lost) => market.lines().at(lost).row,
        Cause::UnitOutage(_) => 0,
    }
}

/// The unit that an outage loses, by the place of the outage among those of units.
pub fn lost_unit(market: &Market, outage: usize) -> usize
    requires { outage < length market.now.unit_outages }
    ensures is { result ≡ lost_unit market.now outage }
    ensures inside { result < length market.now.units }
{
    *market.unit_outages().at(outage)
}

/// The gen row of the lost unit of a cause; 0 where none is lost.
pub(crate) fn unit_of(market: &Market, cause: Cause) -> u32
    requires { IsCauseOf market.now cause }
    ensures { result ≡ unit_of market.now cause }
{
    match cause {
        Cause::Base | Cause::Branch(_) => 0,
        Cause::UnitOutage(outage) => market.units().at(lost_unit(market, outage)).row,
    }
}

/// Whether a cause is an outage.
pub(crate) fn is_outage(cause: Cause) -> bool
    ensures { result ≡ is_outage cause }
{
    match cause {
        Cause::Base => false,
        Cause::Branch(_) | Cause::UnitOutage(_) => true,
    }
}

/// The limit that a line states for a cause, in 10^-9 MW, where it states one.
pub(crate) fn stated(line: &Line, cause: Cause) -> Option<i64>
    ensures { result ≡ stated line.now cause }
{
    line.limit(is_outage(cause))
}

/// Whether the line at a place has a limit under a cause.
pub(crate) fn has_row(market: &Market, cause: Cause, place: usize) -> bool
    requires { place < length market.now.lines }
    ensures { result ≡ bears market.now cause place }
{
    let has_limit = stated(market.lines().at(place), cause).is_some();
    match cause {
        Cause::Base | Cause::UnitOutage(_) => has_limit,
        Cause::Branch(lost) => place != lost && has_limit,
    }
}
