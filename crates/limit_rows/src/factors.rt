//! The factors of limit rows.

ghost use Rattle.std.specs.Prelude.{◌≡◌, ◌+◌, ◌<◌, ◌≤◌, ◌^◌, unsigned_abs, true, false, if◌then◌else◌, Contains, IfOk, IfErr, MatchOption, length};
ghost use Rattle.fraction_theory.specs.Fraction.{over, ◌+ℚ◌, ◌-ℚ◌, ◌*ℚ◌};
ghost use Rattle.exact_fraction.specs.declared.Op.TheVariants.{Minus};
ghost use Rattle.fraction_theory.specs.Sums.{term_value};
ghost use Rattle.market_data.specs.Scales.{share_one, factor_one, most_factor};
ghost use Rattle.market_model.specs.Factors.{factor_in};
ghost use Rattle.market_model.specs.declared.limits.Row.{Row};
ghost use Rattle.market_model.specs.LimitRows.{factor_terms, loses_unit, lost_unit, pickup_factor, pickup_terms, row_factor, row_id, rows, share_value, shift_factor, taker_factor, taker_term, taker_terms, unit_factor, IsCauseOf};
ghost use Rattle.market_model.specs.Dispatch.{unit_at, zero};
ghost use Rattle.market_model.specs.Market.{IsPickup};
ghost use Rattle.market_model.specs.declared.limits.Cause.TheVariants.{UnitOutage};
ghost use Rattle.market_model.specs.NamedSums.{IsRefusal, IsRefusedIn, IsShareRefusal};
ghost use Rattle.market_model.specs.SumTables.{FactorSum, IsRefusedAmong};
ghost use Rattle.market_model.specs.Valued.{passed_at};

use crate::causes::lost_unit;
use crate::flowing::with_share;
use crate::places::found_row;
use exact_fraction::{Exact, Passed, exact_difference};
use market_data::{FACTOR_ONE, SHARE_ONE};
use market_model::{Cause, Market, Pickup, Row, RowId};

/// The shift factor of a line for a bus, in 10^-9, with its size.
pub fn shift_of(market: &Market, line: usize, bus: usize) -> i64
    requires line { line < length market.now.lines }
    requires bus { bus < length market.now.buses }
    ensures size { unsigned_abs result ≤ most_factor }
    ensures is { result ≡ factor_in market.now.shift line bus }
{
    let _lines = market.lines();
    market.shift(line, bus)
}

/// The loss factor of a line for a lost line, in 10^-9, with its size.
pub fn loss_of(market: &Market, line: usize, lost: usize) -> i64
    requires line { line < length market.now.lines }
    requires lost { lost < length market.now.lines }
    ensures size { unsigned_abs result ≤ most_factor }
    ensures is { result ≡ factor_in market.now.loss line lost }
{
    let _lines = market.lines();
    market.loss(line, lost)
}

/// A factor of a market as a number.
fn as_number<N: Exact>(factor: i64) -> N
    requires { unsigned_abs factor ≤ most_factor }
    ensures { N.value result ≡ over factor factor_one }
{
    N::of_parts(factor, FACTOR_ONE)
}

/// How much of what the bus at a place puts in counts for the flow of a row: the shift factor of its line, and after an outage what goes
/// over to it of the lost line's. Numbers of 127 bits refuse none.
pub fn row_factor<N: Exact>(market: &Market, row: Row, bus: usize) -> Result<N, Passed<N>>
    requires line { row.line < length market.now.lines }
    requires lost { IsCauseOf market.now row.cause }
    requires bus { bus < length market.now.buses }
    ensures factor { IfOk result (λ factor. N.value factor ≡ row_factor market.now row bus) }
    ensures stops { IfErr result (λ passed. IsRefusedIn (factor_terms market.now row bus) N.bound (passed_at N.value passed)) }
    ensures wide { 2 ^ 127 ≤ N.bound + 1 → IfErr result (λ _. ⊥) }
{
    let own = as_number(shift_of(market, row.line, bus));
    match row.cause {
        Cause::Branch(lost) => with_share(
            own,
            loss_of(market, row.line, lost),
            as_number(shift_of(market, lost, bus)),
        ),
        Cause::Base | Cause::UnitOutage(_) => Ok(own),
    }
}

/// The shift factor of a line for the bus of a unit.
fn shift_for_unit<N: Exact>(market: &Market, line: usize, unit: usize) -> N
    requires line { line < length market.now.lines }
    requires unit { unit < length market.now.units }
    ensures { N.value result ≡ shift_factor market.now line (unit_at market.now unit).bus }
{
    as_number(shift_of(market, line, market.units().at(unit).bus))
}

/// A sum less a number.
fn less<N: Exact>(sum: N, number: N) -> Result<N, Passed<N>>
    ensures left { IfOk result (λ left. N.value left ≡ N.value sum -ℚ N.value number) }
    ensures stops { IfErr result (λ passed. IsRefusal Minus (N.value sum) (N.value number) N.bound (passed_at N.value passed)) }
{
    exact_difference(sum, number)
}

/// A sum plus a product.
pub(crate) fn with_product<N: Exact>(sum: N, factor: N, number: N) -> Result<N, Passed<N>>
    ensures sum { IfOk result (λ more. N.value more ≡ N.value sum +ℚ N.value factor *ℚ N.value number) }
    ensures stops { IfErr result (λ passed. IsShareRefusal (N.value sum) (N.value factor) (N.value number) N.bound (passed_at N.value passed)) }
{
    sum.plus_product(factor, number)
}

/// A sum with what the share of a taker counts for a line, where that belongs to it.
fn with_taker<N: Exact>(
    market: &Market,
    line: usize,
    pickup: &Pickup,
    belongs: bool,
    sum: N,
) -> Result<N, Passed<N>>
    requires line { line < length market.now.lines }
    requires pickup { IsPickup (length market.now.unit_outages) (length market.now.units) pickup.now }
    ensures sum { IfOk result (λ more. N.value more ≡ N.value sum +ℚ (if belongs then term_value (taker_term market.now line pickup.now) else zero)) }
    ensures belongs { IfErr result (λ _. belongs ≡ true) }
    ensures stops { IfErr result (λ passed. IsShareRefusal (N.value sum) (share_value pickup.now) (shift_factor market.now line (unit_at market.now pickup.now.taker).bus) N.bound (passed_at N.value passed)) }
{
    if belongs {
        let share = N::of_parts(pickup.share, SHARE_ONE);
        with_product(sum, share, shift_for_unit(market, line, pickup.taker))
    } else {
        Ok(sum)
    }
}

/// How much of a lost unit's output flows on a line where its takers put it in: each its share. The outage is told by its place among
/// those of units. Numbers of 127 bits refuse none.
pub fn taker_factor<N: Exact>(market: &Market, line: usize, outage: usize) -> Result<N, Passed<N>>
    requires line { line < length market.now.lines }
    requires outage { outage < length market.now.unit_outages }
    ensures factor { IfOk result (λ factor. N.value factor ≡ taker_factor market.now line outage) }
    ensures stops { IfErr result (λ passed. IsRefusedIn (taker_terms market.now line outage) N.bound (passed_at N.value passed)) }
    ensures wide { 2 ^ 127 ≤ N.bound + 1 → IfErr result (λ _. ⊥) }
{
    let mut sum: N = as_number(0);
    for pickup in market.pickups().slice() {
        sum = with_taker(market, line, pickup, pickup.outage == outage, sum)?;
    }
    Ok(sum)
}

/// How much of a lost unit's output the flow of a line takes on when others pick it up: what it is where they put it in, less what it was
/// at its own bus. Numbers of 127 bits refuse none.
pub fn pickup_factor<N: Exact>(market: &Market, line: usize, outage: usize) -> Result<N, Passed<N>>
    requires line { line < length market.now.lines }
    requires outage { outage < length market.now.unit_outages }
    ensures factor { IfOk result (λ factor. N.value factor ≡ pickup_factor market.now line outage) }
    ensures stops { IfErr result (λ passed. IsRefusedIn (pickup_terms market.now line outage) N.bound (passed_at N.value passed)) }
    ensures wide { 2 ^ 127 ≤ N.bound + 1 → IfErr result (λ _. ⊥) }
{
    let _lines = market.lines();
    let taken: N = taker_factor(market, line, outage)?;
    less(
        taken,
        shift_for_unit(market, line, lost_unit(market, outage)),
    )
}

/// The outage under which a cause loses a unit, by its place among those of units. Nothing where it does not.
fn outage_losing(market: &Market, cause: Cause, unit: usize) -> Option<usize>
    requires { IsCauseOf market.now cause }
    ensures { MatchOption result (loses_unit market.now unit cause ≡ false) (λ outage. (cause ≡ UnitOutage outage) × (outage < length market.now.unit_outages) × (lost_unit market.now outage ≡ unit)) }
{
    match cause {
        Cause::Base | Cause::Branch(_) => None,
        Cause::UnitOutage(outage) => {
            if lost_unit(market, outage) == unit {
                Some(outage)
            } else {
                None
            }
        }
    }
}

/// How much of what the unit at a place puts out counts for the flow of a row: the factor of its bus, and after its own loss that of its
/// takers. Numbers of 127 bits refuse none.
pub fn unit_factor<N: Exact>(market: &Market, row: Row, unit: usize) -> Result<N, Passed<N>>
    requires line { row.line < length market.now.lines }
    requires lost { IsCauseOf market.now row.cause }
    requires unit { unit < length market.now.units }
    ensures factor { IfOk result (λ factor. N.value factor ≡ unit_factor market.now row unit) }
    ensures stops { IfErr result (λ passed. IsRefusedAmong (FactorSum market.now row) N.bound (passed_at N.value passed)) }
    ensures wide { 2 ^ 127 ≤ N.bound + 1 → IfErr result (λ _. ⊥) }
{
    match outage_losing(market, row.cause, unit) {
        Some(outage) => taker_factor(market, row.line, outage),
        None => row_factor(market, row, market.units().at(unit).bus),
    }
}

/// The factor of a bus by the name of the row.
pub fn coefficient<N: Exact>(market: &Market, row: RowId, bus: usize) -> Result<N, Passed<N>>
    requires row { (r : Row) × Contains (rows market.now) r × (row_id market.now r ≡ row) }
    requires bus { bus < length market.now.buses }
    ensures factor { (r : Row) → Contains (rows market.now) r → row_id market.now r ≡ row → IfOk result (λ factor. N.value factor ≡ row_factor market.now r bus) }
    ensures stops { (r : Row) → Contains (rows market.now) r → row_id market.now r ≡ row → IfErr result (λ passed. IsRefusedIn (factor_terms market.now r bus) N.bound (passed_at N.value passed)) }
    ensures wide { 2 ^ 127 ≤ N.bound + 1 → IfErr result (λ _. ⊥) }
{
    row_factor(market, found_row(market, row), bus)
}
