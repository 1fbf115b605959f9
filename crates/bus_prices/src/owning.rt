//! The own price of each unit: that of its bus, less what the limits after its loss take.

ghost use Rattle.std.specs.Prelude.{◌≡◌, ◌⊎◌, ◌<◌, ℕ, true, length, map, IfOk, IfErr};
ghost use Rattle.fraction_theory.specs.Fraction.{Fraction, ◌+ℚ◌};
ghost use Rattle.market_model.specs.Dispatch.{places, unit_at};
ghost use Rattle.market_model.specs.LimitRows.{loses_unit, row_pickup, IsCauseOf};
ghost use Rattle.market_model.specs.NamedSums.{IsShareRefusal};
ghost use Rattle.market_model.specs.Optimality.{own_price, ProperDuals};
ghost use Rattle.market_model.specs.Stops.{StopsBy};
ghost use Rattle.market_model.specs.SumTables.{IsRefusedAmong, PickupSum, IsRefusedInOwnPrices};
ghost use Rattle.market_model.specs.Valued.{duals_at, passed_at, total_at};
ghost use Rattle.bus_prices.specs.PriceParts.{added_to_own};

use crate::pricing::opposite_net_price;
use exact_fraction::{Exact, Passed};
use limit_rows::{found_row, lost_unit, pickup_factor};
use market_model::{Cause, Duals, Market, Price, Row, Stop, zeros};
use std::alloc::Global;

/// Puts at each unit the price of its bus, where limits take nothing yet.
fn put_bus_prices<N: Exact>(market: &Market, prices: &[Price<N>], out: &mut [N])
    requires prices { length prices.now ≡ length market.now.buses }
    requires out { length out.old ≡ length market.now.units }
    ensures count { length out.new ≡ length out.old }
    ensures prices { map N.value out.new ≡ map (λ unit. total_at N.value prices.now (unit_at market.now unit).bus) (places (length market.now.units)) }
{
    let _units = market.units();
    for (unit, place) in out.iter_mut().enumerate() {
        *place = prices[market.units().at(unit).bus].total;
    }
}

/// Adds to the own price of the unit that a row's cause loses what the row adds there: a price by the row's pickup factor. A row after no
/// loss of a unit adds nothing.
fn add_pickup<N: Exact>(market: &Market, row: Row, price: N, out: &mut [N]) -> Result<(), Passed<N>>
    requires line { row.line < length market.now.lines }
    requires lost { IsCauseOf market.now row.cause }
    requires out { length out.old ≡ length market.now.units }
    ensures count { length out.new ≡ length out.old }
    ensures own { (before : ℕ → Fraction) → map N.value out.old ≡ map before (places (length market.now.units))
        → IfOk result (λ _. map N.value out.new ≡ map (λ unit. before unit +ℚ added_to_own market.now row (N.value price) unit) (places (length market.now.units))) }
    ensures stops { (before : ℕ → Fraction) → map N.value out.old ≡ map before (places (length market.now.units))
        → IfErr result (λ passed. ((unit : ℕ) × (unit < length market.now.units) × (loses_unit market.now unit row.cause ≡ true) × IsShareRefusal (before unit) (N.value price) (row_pickup market.now row.line row.cause) N.bound (passed_at N.value passed))
        ⊎ IsRefusedAmong (PickupSum market.now row) N.bound (passed_at N.value passed)) }
{
    let Cause::UnitOutage(outage) = row.cause else {
        return Ok(());
    };
    let unit = lost_unit(market, outage);
    let factor = pickup_factor(market, row.line, outage)?;
    out[unit] = out[unit].plus_product(price, factor)?;
    Ok(())
}

/// Puts at each live unit its own price, in 10^-6 per MWh, where buses have these prices, one for each bus: what it is paid for a MW. It is
/// the price of its bus, less what the limits with duals take after its loss. The duals are as an answer has them; the prices may be any.
/// It takes no memory: an operation in one of these sums, or in the pickup factor of a row that the duals name, may be refused as too
/// large, and then the places are left as they are by then.
pub fn own<N: Exact>(
    market: &Market,
    duals: &Duals<N>,
    prices: &[Price<N>],
    out: &mut [N],
) -> Result<(), Passed<N>>
    requires duals { ProperDuals market.now (duals_at N.value duals.now) }
    requires prices { length prices.now ≡ length market.now.buses }
    requires out { length out.old ≡ length market.now.units }
    ensures count { length out.new ≡ length out.old }
    ensures own { IfOk result (λ _. map N.value out.new ≡ map (own_price market.now (duals_at N.value duals.now) (total_at N.value prices.now)) (places (length market.now.units))) }
    ensures stops { IfErr result (λ passed. IsRefusedInOwnPrices market.now (duals_at N.value duals.now) (total_at N.value prices.now) N.bound (passed_at N.value passed)) }
{
    let _lines = market.lines();
    put_bus_prices(market, prices, out);
    for dual in duals.limits.slice() {
        if dual.row.unit != 0 {
            let row = found_row(market, dual.row);
            add_pickup(market, row, opposite_net_price(dual), out)?;
        }
    }
    Ok(())
}

/// What `own` puts, in a vector of its own.
pub fn own_prices<N: Exact>(
    alloc: Global,
    market: &Market,
    duals: &Duals<N>,
    prices: &[Price<N>],
) -> Result<Vec<N>, Stop<N>>
    requires duals { ProperDuals market.now (duals_at N.value duals.now) }
    requires prices { length prices.now ≡ length market.now.buses }
    ensures own { IfOk result (λ own. map N.value own.items ≡ map (own_price market.now (duals_at N.value duals.now) (total_at N.value prices.now)) (places (length market.now.units))) }
    ensures stops { IfErr result (StopsBy N.value (IsRefusedInOwnPrices market.now (duals_at N.value duals.now) (total_at N.value prices.now) N.bound)) }
{
    let mut by_unit = zeros(alloc, market.units().len())?;
    own(market, duals, prices, &mut by_unit)?;
    Ok(by_unit)
}
