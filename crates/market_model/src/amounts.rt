//! Data as exact numbers, and sums of those that count.

ghost use Rattle.std.specs.Prelude.{◌≡◌, true, map, replicate, vec_len, IfOk, IfErr, if◌then◌else◌};
ghost use Rattle.fraction_theory.specs.Fraction.{whole, ◌+ℚ◌};
ghost use Rattle.exact_fraction.specs.declared.Op.TheVariants.{Plus};
ghost use Rattle.market_data.specs.Participants.{IsDatum};
ghost use Rattle.market_model.specs.Dispatch.{zero};
ghost use Rattle.market_model.specs.NamedSums.{IsRefusal};
ghost use Rattle.market_model.specs.Valued.{passed_at};

use exact_fraction::{Exact, Passed, exact_sum};
use plain_list::Memory;
use std::alloc::Global;

/// A datum as a number of its units.
pub fn datum<N: Exact>(number: i64) -> N
    requires { IsDatum number }
    ensures { N.value result ≡ whole number }
{
    N::of_parts(number, 1)
}

/// So many zeros.
pub fn zeros<N: Exact>(alloc: Global, count: usize) -> Result<Vec<N>, Memory>
    ensures count { IfOk result (λ zeros. vec_len zeros ≡ count) }
    ensures zeros { IfOk result (λ zeros. map N.value zeros.items ≡ replicate count zero) }
{
    let zero: N = datum(0);
    let mut zeros = Vec::new(alloc);
    for _ in 0..count {
        match zeros.push(zero) {
            Ok(()) => {}
            Err(_) => return Err(Memory),
        }
    }
    Ok(zeros)
}

/// A sum with one number more, where that counts.
pub fn with_part<N: Exact>(sum: N, part: N, counts: bool) -> Result<N, Passed<N>>
    ensures sum { IfOk result (λ more. N.value more ≡ N.value sum +ℚ (if counts then N.value part else zero)) }
    ensures counts { IfErr result (λ _. counts ≡ true) }
    ensures stops { IfErr result (λ passed. IsRefusal Plus (N.value sum) (N.value part) N.bound (passed_at N.value passed)) }
{
    if counts {
        exact_sum(sum, part)
    } else {
        Ok(sum)
    }
}
