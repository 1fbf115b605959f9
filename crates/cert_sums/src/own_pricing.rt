//! The own price of a unit: what the rows after its loss take from the price at its bus.

ghost use Rattle.std.specs.Prelude.{◌≡◌, ◌<◌, ℕ, length, IfOk, IfErr};
ghost use Rattle.fraction_theory.specs.Fraction.{Fraction};
ghost use Rattle.market_model.specs.declared.answered.Duals.{Duals};
ghost use Rattle.market_model.specs.Dispatch.{unit_at};
ghost use Rattle.market_model.specs.LimitRows.{loses_unit, row_pickup, IsCauseOf};
ghost use Rattle.market_model.specs.Optimality.{own_price};
ghost use Rattle.market_model.specs.SumTables.{IsRefusedAmong, OwnPriceSum, PickupSum};
ghost use Rattle.market_model.specs.Valued.{passed_at};
ghost use Rattle.cert_sums.specs.Named.{AreNamed};
ghost use Rattle.cert_sums.specs.Refusals.{IsPriceRefusal};

use crate::NamedRow;
use crate::pricing::less_net_price;
use exact_fraction::{Exact, Passed};
use limit_rows::{lost_unit, pickup_factor};
use market_model::{Cause, Market, Row, datum};

/// Whether a cause loses the unit at a place.
fn loses_unit(market: &Market, cause: Cause, unit: usize) -> bool
    requires { IsCauseOf market.now cause }
    ensures { result ≡ loses_unit market.now unit cause }
{
    match cause {
        Cause::Base | Cause::Branch(_) => false,
        Cause::UnitOutage(outage) => lost_unit(market, outage) == unit,
    }
}

/// The pickup factor of a row; 0 where no unit is lost.
fn row_pickup<N: Exact>(market: &Market, row: Row) -> Result<N, Passed<N>>
    requires line { row.line < length market.now.lines }
    requires lost { IsCauseOf market.now row.cause }
    ensures factor { IfOk result (λ factor. N.value factor ≡ row_pickup market.now row.line row.cause) }
    ensures stops { IfErr result (λ passed. IsRefusedAmong (PickupSum market.now row) N.bound (passed_at N.value passed)) }
{
    match row.cause {
        Cause::Base | Cause::Branch(_) => Ok(datum(0)),
        Cause::UnitOutage(outage) => pickup_factor(market, row.line, outage),
    }
}

/// The own price of the unit at a place, where its bus has this price: less what the named rows after its loss take, each by its pickup
/// factor.
pub(crate) fn own_price<N: Exact>(
    market: &Market,
    at_bus: N,
    named: &[NamedRow<N>],
    unit: usize,
) -> Result<N, Passed<N>>
    requires named { (d : Duals Fraction) × AreNamed N.value market.now d named.now }
    requires unit { unit < length market.now.units }
    ensures price { (d : Duals Fraction) (price : ℕ → Fraction) → AreNamed N.value market.now d named.now → N.value at_bus ≡ price (unit_at market.now unit).bus → IfOk result (λ own. N.value own ≡ own_price market.now d price unit) }
    ensures stops { (d : Duals Fraction) (price : ℕ → Fraction) → AreNamed N.value market.now d named.now → N.value at_bus ≡ price (unit_at market.now unit).bus → IfErr result (λ passed. IsPriceRefusal market.now d (OwnPriceSum market.now d price) N.bound (passed_at N.value passed)) }
{
    let _lines = market.lines();
    let mut sum = at_bus;
    for entry in named {
        if loses_unit(market, entry.row.cause, unit) {
            let factor = row_pickup(market, entry.row)?;
            sum = less_net_price(sum, entry.up, entry.down, factor)?;
        }
    }
    Ok(sum)
}
