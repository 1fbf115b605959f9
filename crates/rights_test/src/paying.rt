//! What rights are paid.

ghost use Rattle.std.specs.Prelude.{◌≡◌, ◌⊎◌, length, All, IfOk, IfErr};
ghost use Rattle.fraction_theory.specs.Fraction.{whole, ◌-ℚ◌};
ghost use Rattle.fraction_theory.specs.Sums.{term_value};
ghost use Rattle.exact_fraction.specs.declared.Op.TheVariants.{Minus, Times};
ghost use Rattle.market_model.specs.NamedSums.{IsRefusal};
ghost use Rattle.market_model.specs.Rights.{IsTransmissionRight, right_term};
ghost use Rattle.market_model.specs.Stops.{StopsBy};
ghost use Rattle.market_model.specs.Valued.{passed_at, total_at};
ghost use Rattle.rights_test.specs.Paid.{payments_at, payments_of, IsPayRefusal};

use crate::injecting::mw_of;
use crate::right_parts::Payments;
use exact_fraction::{Exact, Passed, exact_difference, exact_sum};
use market_model::{List, Price, Stop, TransmissionRight, datum};
use std::alloc::Global;

/// What a right is paid: its MW times the price where it ends, less that where it begins.
fn payment<N: Exact>(right: &TransmissionRight, prices: &[Price<N>]) -> Result<N, Passed<N>>
    requires { IsTransmissionRight (length prices.now) right.now }
    ensures paid { IfOk result (λ paid. N.value paid ≡ term_value (right_term (total_at N.value prices.now) right.now)) }
    ensures stops { IfErr result (λ passed. IsRefusal Minus (total_at N.value prices.now right.now.to) (total_at N.value prices.now right.now.from) N.bound (passed_at N.value passed)
        ⊎ IsRefusal Times (whole right.now.mw) (total_at N.value prices.now right.now.to -ℚ total_at N.value prices.now right.now.from) N.bound (passed_at N.value passed)) }
{
    let more = exact_difference(prices[right.to].total, prices[right.from].total)?;
    let mw: N = mw_of(right);
    let paid = mw.times(more)?;
    Ok(paid)
}

/// What each right is paid at bus prices, one for each bus, and all together, in 10^-15.
pub fn pay<N: Exact>(
    alloc: Global,
    rights: &[TransmissionRight],
    prices: &[Price<N>],
) -> Result<Payments<N>, Stop<N>>
    requires { All (IsTransmissionRight (length prices.now)) rights.now }
    ensures payments { IfOk result (λ payments. payments_at N.value payments ≡ payments_of (total_at N.value prices.now) rights.now) }
    ensures stops { IfErr result (StopsBy N.value (IsPayRefusal (total_at N.value prices.now) rights.now N.bound)) }
{
    let mut each = List::new(alloc);
    let mut total: N = datum(0);
    for right in rights {
        let paid = payment(right, prices)?;
        total = exact_sum(total, paid)?;
        each.push(paid)?;
    }
    Ok(Payments { each, total })
}
