//! The flow of a line where most buses put in whole numbers: what these add is summed up in whole numbers.

ghost use Rattle.std.specs.Prelude.{◌≡◌, ◌<◌, ◌^◌, length, map, IfSome};
ghost use Rattle.fraction_theory.specs.Fraction.{over, whole, ◌+ℚ◌};
ghost use Rattle.market_data.specs.Scales.{factor_one};
ghost use Rattle.market_data.specs.Participants.{IsDatum};
ghost use Rattle.market_model.specs.LimitRows.{line_flow};
ghost use Rattle.market_model.specs.PutIn.{put_in};
ghost use Rattle.limit_rows.specs.Wholes.{AreWholes, IsWhole};

use crate::factors::shift_of;
use crate::flowing::{offset_of, with_share};
use exact_fraction::Exact;
use market_data::FACTOR_ONE;
use market_model::Market;
use std::cmp::Ordering;

/// A whole number as an exact one. Nothing where 63 bits do not hold its size.
fn exact_whole<N: Exact>(number: i64) -> Option<N>
    ensures value { IfSome result (λ n. N.value n ≡ whole number) }
    ensures small { IfSome result (λ _. IsDatum number) }
{
    if number == i64::MIN {
        None
    } else {
        Some(N::of_parts(number, 1))
    }
}

/// The whole number that a number is. Nothing where it is none, or 63 bits do not hold its size.
fn whole_of<N: Exact>(number: N) -> Option<i64>
    ensures { IfSome result (IsWhole (N.value number)) }
{
    let below = number.floor()?;
    let same: N = exact_whole(below)?;
    match number.order(same) {
        Ordering::Equal => Some(below),
        Ordering::Less | Ordering::Greater => None,
    }
}

/// Puts in the whole number that each number is, and nothing for those that are none.
pub(crate) fn put_wholes<N: Exact>(numbers: &[N], out: &mut [Option<i64>])
    requires { length out.old ≡ length numbers.now }
    ensures count { length out.new ≡ length out.old }
    ensures wholes { AreWholes (put_in (map N.value numbers.now)) out.new }
{
    for (place, whole) in out.iter_mut().enumerate() {
        *whole = whole_of(numbers[place]);
    }
}

/// A flow and so many parts of 10^-9 besides. Nothing where a number on the way is too large.
fn with_parts<N: Exact>(flow: N, parts: i128) -> Option<N>
    ensures { IfSome result (λ more. N.value more ≡ N.value flow +ℚ over parts factor_one) }
{
    let one = i128::from(FACTOR_ONE);
    let quotient: N = exact_whole(i64::try_from(parts / one).ok()?)?;
    let rest = N::of_parts((parts % one) as i64, FACTOR_ONE);
    flow.plus(quotient).ok()?.plus(rest).ok()
}

/// The flow of a line where buses put in so much, in 10^-9 MW, by those that are whole numbers and what others put in. Nothing where a
/// number on the way is too large.
pub(crate) fn flow_by_wholes<N: Exact>(
    market: &Market,
    line: usize,
    injections: &[N],
    wholes: &[Option<i64>],
) -> Option<N>
    requires line { line < length market.now.lines }
    requires injections { length injections.now ≡ length market.now.buses }
    requires count { length wholes.now ≡ length market.now.buses }
    requires wholes { AreWholes (put_in (map N.value injections.now)) wholes.now }
    ensures { IfSome result (λ mw. N.value mw ≡ line_flow market.now (put_in (map N.value injections.now)) line) }
{
    let _buses = market.buses();
    let mut flow: N = offset_of(market, line);
    let mut parts: i128 = 0;
    for (bus, mw) in injections.iter().enumerate() {
        let share = shift_of(market, line, bus);
        match wholes[bus] {
            Some(whole) => parts += i128::from(share) * i128::from(whole),
            None => flow = with_share(flow, share, *mw).ok()?,
        }
    }
    with_parts(flow, parts)
}
