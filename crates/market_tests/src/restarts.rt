//! A system of two columns and a row, posed again at other bounds.

ghost use Rattle.std.specs.Prelude.{◌≡◌, All, [], ◌∷◌, length, vec_len, IfSome};
ghost use Rattle.fraction_theory.specs.Order.{◌≤ℚ◌};

use dual_restart::Warm;
use exact_fraction::{Exact, Frac, Frac63};
use linear_dict::Dict;
use simplex_core::{Bounds, Run};
use std::alloc::Global;
use std::cmp::Ordering;
use std::test::Fail;

/// From the one to the other, or the first alone where they are turned.
fn between<N: Exact>(low: i32, high: i32) -> Bounds<N>
    ensures { N.value result.low ≤ℚ N.value result.high }
{
    let low = N::of_parts(i64::from(low), 1);
    let high = N::of_parts(i64::from(high), 1);
    match low.order(high) {
        Ordering::Greater => Bounds { low, high: low },
        Ordering::Less | Ordering::Equal => Bounds { low, high },
    }
}

/// Prices of two columns.
fn two_prices<N: Exact>(alloc: Global) -> Option<Vec<N>>
    ensures { IfSome result (λ prices. vec_len prices ≡ 2) }
{
    let mut prices = Vec::new(alloc);
    prices.push(N::of_parts(-10, 1)).ok()?;
    prices.push(N::of_parts(-30, 1)).ok()?;
    Some(prices)
}

/// Bounds of two columns, and of a row that is to be this.
fn bounds_to<N: Exact>(alloc: Global, sum: i32) -> Option<Vec<Bounds<N>>>
    ensures count { IfSome result (λ bounds. vec_len bounds ≡ 3) }
    ensures ordered { IfSome result (λ bounds. All (λ b. N.value b.low ≤ℚ N.value b.high) bounds.items) }
{
    let mut bounds = Vec::new(alloc);
    bounds.push(between(0, 100)).ok()?;
    bounds.push(between(0, 100)).ok()?;
    bounds.push(between(sum, sum)).ok()?;
    Some(bounds)
}

/// Whether columns 1 and 2 from 0 to 100 can sum up to so much. What was run is kept.
fn sums_up<N: Exact>(alloc: Global, warm: &mut Warm<N>, sum: i32) -> Option<bool>
    requires { IfSome warm.old (λ d. (d.columns ≡ 1 ∷ 2 ∷ []) × (length d.rows ≡ 1)) }
    ensures { IfSome warm.new (λ d. (d.columns ≡ 1 ∷ 2 ∷ []) × (length d.rows ≡ 1)) }
{
    let start = std::mem::replace(warm, Warm::new());
    if !start.is_kept() {
        return None;
    }
    let prices = two_prices(alloc)?;
    let bounds = bounds_to(alloc, sum)?;
    match start.repose(&prices, &bounds) {
        Ok(posed) => match posed.run() {
            Run::Solved(solved) => {
                warm.keep(solved.into_dict());
                Some(true)
            }
            Run::Empty { dict, .. } => {
                warm.keep(dict);
                Some(false)
            }
            Run::Passed(_) => None,
        },
        Err(_) => None,
    }
}

/// Whether 60, 250 and 200 in turn have their answers from one dictionary, and none comes where it is dropped.
fn starts_again<N: Exact>(alloc: Global) -> bool {
    let one: N = N::of_parts(1, 1);
    let ones = match vec![in alloc; one; 2] {
        Ok(ones) => ones,
        Err(_) => return false,
    };
    let mut warm = Warm::new();
    match Dict::start(alloc, &[1, 2], 3, &ones) {
        Ok(dict) => warm.keep(dict),
        Err(_) => return false,
    }
    let first = sums_up(alloc, &mut warm, 60);
    let second = sums_up(alloc, &mut warm, 250);
    let third = sums_up(alloc, &mut warm, 200);
    warm.drop_start();
    let last = sums_up(alloc, &mut warm, 60);
    first == Some(true) && second == Some(false) && third == Some(true) && last.is_none()
}

#[test]
fn runs_start_again(rt: HostRuntime) -> Result<(), Fail> {
    assert!(rt; starts_again::<Frac>(rt.alloc()));
    assert!(rt; starts_again::<Frac63>(rt.alloc()));
    Ok(())
}
