//! Prices of buses and of units, of duals whose signs are not known.

ghost use Rattle.std.specs.Prelude.{◌≡◌, ◌⊎◌, ◌<◌, length, IfOk, IfErr};
ghost use Rattle.fraction_theory.specs.Fraction.{Fraction, neg_ℚ, ◌+ℚ◌, ◌-ℚ◌, ◌*ℚ◌};
ghost use Rattle.market_model.specs.declared.answered.Duals.{Duals};
ghost use Rattle.market_model.specs.NamedSums.{IsRefusedIn};
ghost use Rattle.market_model.specs.Optimality.{bus_price, congestion, congestion_terms, named_rows, unit_price};
ghost use Rattle.market_model.specs.SumTables.{BusPriceSum, IsFactorRefusal};
ghost use Rattle.market_model.specs.Valued.{passed_at};
ghost use Rattle.cert_sums.specs.Named.{AreNamed};
ghost use Rattle.cert_sums.specs.Refusals.{IsNetShadowPriceRefusal, IsPriceRefusal, IsPricesRefusal, IsUnitPriceRefusal};

use crate::own_pricing::own_price;
use exact_fraction::{Exact, Passed, Sign, exact_difference, exact_sum};
use limit_rows::row_factor;
use market_model::{Market, Row, datum};

/// A row of the market with the two prices that a certificate gives it.
#[derive(Clone, Copy, Debug)]
pub struct NamedRow<N> {
    pub row: Row,
    /// The price of its upper side: in 10^-6 per MWh, or a plain number where the duals show that nothing is feasible.
    pub up: N,
    /// The price of its lower side.
    pub down: N,
}

/// A sum less what the prices of a row take by its factor. A factor of 0 takes nothing.
pub(crate) fn less_net_price<N: Exact>(sum: N, up: N, down: N, factor: N) -> Result<N, Passed<N>>
    ensures sum { IfOk result (λ more. N.value more ≡ N.value sum +ℚ neg_ℚ (N.value up -ℚ N.value down) *ℚ N.value factor) }
    ensures stops { IfErr result (λ passed. IsNetShadowPriceRefusal (N.value sum) (N.value up) (N.value down) (N.value factor) N.bound (passed_at N.value passed)) }
{
    if factor.sign() == Sign::Zero {
        return Ok(sum);
    }
    let net_price = exact_difference(up, down)?;
    sum.plus_product(net_price.neg(), factor)
}

/// What the rows add to the price at a bus.
fn congestion_at<N: Exact>(
    market: &Market,
    named: &[NamedRow<N>],
    bus: usize,
) -> Result<N, Passed<N>>
    requires named { (d : Duals Fraction) × AreNamed N.value market.now d named.now }
    requires bus { bus < length market.now.buses }
    ensures sum { (d : Duals Fraction) → AreNamed N.value market.now d named.now → IfOk result (λ sum. N.value sum ≡ congestion market.now d bus) }
    ensures stops { (d : Duals Fraction) → AreNamed N.value market.now d named.now → IfErr result (λ passed. IsRefusedIn (congestion_terms market.now d bus) N.bound (passed_at N.value passed) ⊎ IsPricesRefusal market.now d N.bound (passed_at N.value passed) ⊎ IsFactorRefusal market.now (named_rows market.now d) N.bound (passed_at N.value passed)) }
{
    let _lines = market.lines();
    let mut sum: N = datum(0);
    for entry in named {
        let factor = row_factor(market, entry.row, bus)?;
        sum = less_net_price(sum, entry.up, entry.down, factor)?;
    }
    Ok(sum)
}

/// The price at a bus: that of energy, less what the rows take that have prices.
fn bus_price<N: Exact>(
    market: &Market,
    energy: N,
    named: &[NamedRow<N>],
    bus: usize,
) -> Result<N, Passed<N>>
    requires named { (d : Duals Fraction) × AreNamed N.value market.now d named.now }
    requires bus { bus < length market.now.buses }
    ensures price { (d : Duals Fraction) → N.value energy ≡ d.energy → AreNamed N.value market.now d named.now → IfOk result (λ price. N.value price ≡ bus_price market.now d bus) }
    ensures stops { (d : Duals Fraction) → N.value energy ≡ d.energy → AreNamed N.value market.now d named.now → IfErr result (λ passed. IsPriceRefusal market.now d (BusPriceSum market.now d bus) N.bound (passed_at N.value passed)) }
{
    let congestion = congestion_at(market, named, bus)?;
    exact_sum(energy, congestion)
}

/// The price of the unit at a place, in 10^-6 per MWh: that of its bus, less what the rows after its loss take by their pickup factors. The
/// rows are those that some duals name, as the market has them in order; prices may have any sign.
pub fn unit_price<N: Exact>(
    market: &Market,
    energy: N,
    named: &[NamedRow<N>],
    unit: usize,
) -> Result<N, Passed<N>>
    requires named { (d : Duals Fraction) × AreNamed N.value market.now d named.now }
    requires unit { unit < length market.now.units }
    ensures price { (d : Duals Fraction) → N.value energy ≡ d.energy → AreNamed N.value market.now d named.now → IfOk result (λ price. N.value price ≡ unit_price market.now d unit) }
    ensures stops { (d : Duals Fraction) → N.value energy ≡ d.energy → AreNamed N.value market.now d named.now → IfErr result (λ passed. IsUnitPriceRefusal market.now d N.bound (passed_at N.value passed)) }
{
    let at_bus = bus_price(market, energy, named, market.units().at(unit).bus)?;
    own_price(market, at_bus, named, unit)
}
