//! The price at each bus, in its two parts.

ghost use Rattle.std.specs.Prelude.{◌≡◌, ◌⊎◌, ◌<◌, ℕ, length, map, IfOk, IfErr};
ghost use Rattle.fraction_theory.specs.Fraction.{Fraction, neg_ℚ, ◌+ℚ◌, ◌-ℚ◌, ◌*ℚ◌};
ghost use Rattle.exact_fraction.specs.declared.Op.TheVariants.{Plus};
ghost use Rattle.market_model.specs.Dispatch.{places, zero};
ghost use Rattle.market_model.specs.LimitRows.{row_factor, IsCauseOf};
ghost use Rattle.market_model.specs.NamedSums.{IsRefusal, IsShareRefusal};
ghost use Rattle.market_model.specs.Optimality.{IsOneSided, ProperDuals};
ghost use Rattle.market_model.specs.RightAnswers.{price_of_parts, prices_made};
ghost use Rattle.market_model.specs.SumTables.{IsRefusedInBusPrices, BusFactorSum, IsRefusedAmong};
ghost use Rattle.market_model.specs.Valued.{dual_at, duals_at, passed_at, price_at};
ghost use Rattle.bus_prices.specs.PriceParts.{HaveParts};

use exact_fraction::{Exact, Passed, Sign, exact_sum};
use limit_rows::{found_row, row_factor};
use market_model::{Dual, Duals, Market, Price, Row, datum};

/// The opposite of what a MW on the flow of a dual's row costs: the price of its lower side, or less that of its upper one.
pub(crate) fn opposite_net_price<N: Exact>(dual: &Dual<N>) -> N
    requires { IsOneSided (dual_at N.value dual.now) }
    ensures { N.value result ≡ neg_ℚ (N.value dual.now.up -ℚ N.value dual.now.down) }
{
    match dual.down.sign() {
        Sign::Zero => dual.up.neg(),
        Sign::Below | Sign::Above => dual.down,
    }
}

/// Puts the price of energy at each bus, where limits add nothing yet.
fn put_energy<N: Exact>(energy: N, out: &mut [Price<N>])
    ensures { HaveParts N.value (N.value energy) (λ bus. zero) out.new }
{
    let none: N = datum(0);
    for place in out.iter_mut() {
        *place = Price {
            energy,
            congestion: none,
            total: energy,
        };
    }
}

/// Adds at each bus what a row adds there: a price by the row's factor.
fn add_row<N: Exact>(
    market: &Market,
    row: Row,
    price: N,
    out: &mut [Price<N>],
) -> Result<(), Passed<N>>
    requires line { row.line < length market.now.lines }
    requires lost { IsCauseOf market.now row.cause }
    requires out { length out.old ≡ length market.now.buses }
    ensures parts { (energy : Fraction) (before : ℕ → Fraction) → HaveParts N.value energy before out.old → IfOk result (λ _. HaveParts N.value energy (λ bus. before bus +ℚ N.value price *ℚ row_factor market.now row bus) out.new) }
    ensures stops { (energy : Fraction) (before : ℕ → Fraction) → HaveParts N.value energy before out.old → IfErr result (λ passed. ((bus : ℕ) × (bus < length market.now.buses) × IsShareRefusal (before bus) (N.value price) (row_factor market.now row bus) N.bound (passed_at N.value passed))
        ⊎ IsRefusedAmong (BusFactorSum market.now row) N.bound (passed_at N.value passed)) }
{
    for (bus, place) in out.iter_mut().enumerate() {
        let congestion = place
            .congestion
            .plus_product(price, row_factor(market, row, bus)?)?;
        *place = Price {
            energy: place.energy,
            congestion,
            total: place.total,
        };
    }
    Ok(())
}

/// Puts at each bus the price that its two parts make.
fn put_totals<N: Exact>(out: &mut [Price<N>]) -> Result<(), Passed<N>>
    ensures prices { (energy : Fraction) (congestion : ℕ → Fraction) → HaveParts N.value energy congestion out.old → IfOk result (λ _. map (price_at N.value) out.new ≡ map (λ bus. price_of_parts energy (congestion bus)) (places (length out.old))) }
    ensures stops { (energy : Fraction) (congestion : ℕ → Fraction) → HaveParts N.value energy congestion out.old → IfErr result (λ passed. (bus : ℕ) × (bus < length out.old) × IsRefusal Plus energy (congestion bus) N.bound (passed_at N.value passed)) }
{
    for place in out.iter_mut() {
        let total = exact_sum(place.energy, place.congestion)?;
        *place = Price {
            energy: place.energy,
            congestion: place.congestion,
            total,
        };
    }
    Ok(())
}

/// The price at each bus, in 10^-6 per MWh: that of energy, and what the limits with duals add to it. The duals are as an answer has
/// them: they name rows of the market in its order, and of each row one price is 0.
pub fn prices<N: Exact>(
    market: &Market,
    duals: &Duals<N>,
    out: &mut [Price<N>],
) -> Result<(), Passed<N>>
    requires duals { ProperDuals market.now (duals_at N.value duals.now) }
    requires out { length out.old ≡ length market.now.buses }
    ensures count { length out.new ≡ length out.old }
    ensures prices { IfOk result (λ _. map (price_at N.value) out.new ≡ prices_made market.now (duals_at N.value duals.now)) }
    ensures stops { IfErr result (λ passed. IsRefusedInBusPrices market.now (duals_at N.value duals.now) N.bound (passed_at N.value passed)) }
{
    let _lines = market.lines();
    put_energy(duals.energy, out);
    for dual in duals.limits.slice() {
        let row = found_row(market, dual.row);
        add_row(market, row, opposite_net_price(dual), out)?;
    }
    put_totals(out)
}
