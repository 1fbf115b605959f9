//! What units use of their rooms, all of them in one pass over the blocks and one over the offers of reserve.

ghost use Rattle.std.specs.Prelude.{◌≡◌, ◌==◌, ◌<◌, ℕ, Bool, true, None, List, length, map, replicate, IfOk, IfErr, if◌then◌else◌};
ghost use Rattle.fraction_theory.specs.Fraction.{Fraction, ◌+ℚ◌};
ghost use Rattle.fraction_theory.specs.Sums.{total};
ghost use Rattle.exact_fraction.specs.declared.Op.TheVariants.{Plus};
ghost use Rattle.market_model.specs.Dispatch.{block_term, blocks_of, dispatch_with, zero};
ghost use Rattle.market_model.specs.NamedSums.{IsRefusal};
ghost use Rattle.market_model.specs.Reserves.{offers_reserve, room_used};
ghost use Rattle.market_model.specs.Stops.{StopsBy};
ghost use Rattle.market_model.specs.SumTables.{IsRefusedAmong, RoomSum};
ghost use Rattle.market_model.specs.Valued.{passed_at};
ghost use Rattle.limit_screen.specs.Rooms.{AreRoomsUsed, HaveSums};

use exact_fraction::{Exact, Passed, exact_sum};
use market_model::{Market, Memory, Stop, by_side, datum};
use std::alloc::Global;

/// Nothing for each of so many units.
fn none_used<N: Exact>(alloc: Global, count: usize) -> Result<Vec<Option<N>>, Memory>
    ensures { IfOk result (λ used. used.items ≡ replicate count None) }
{
    let mut used = Vec::new(alloc);
    for _ in 0..count {
        match used.push(None) {
            Ok(()) => {}
            Err(_) => return Err(Memory),
        }
    }
    Ok(used)
}

/// Puts 0 at each unit that offers reserve. Nothing stands at the others.
fn put_offering<N: Exact>(market: &Market, used: &mut [Option<N>])
    requires { used.old ≡ replicate (length market.now.units) None }
    ensures count { length used.new ≡ length used.old }
    ensures sums { HaveSums N.value (offers_reserve market.now) (λ unit. zero) (length market.now.units) used.new }
{
    for offer in market.reserve().offers.slice() {
        used[offer.unit] = Some(datum(0));
    }
}

/// Adds so much to what a unit uses. Where nothing stands at it, it stays so.
fn add_use<N: Exact>(used: &mut [Option<N>], unit: usize, mw: N) -> Result<(), Passed<N>>
    requires { unit < length used.old }
    ensures count { length used.new ≡ length used.old }
    ensures sums { (counts : ℕ → Bool) (sum : ℕ → Fraction) (units : ℕ) → HaveSums N.value counts sum units used.old
        → IfOk result (λ _. HaveSums N.value counts (λ u. sum u +ℚ (if unit == u then N.value mw else zero)) units used.new) }
    ensures stops { (counts : ℕ → Bool) (sum : ℕ → Fraction) (units : ℕ) → HaveSums N.value counts sum units used.old
        → IfErr result (λ passed. (counts unit ≡ true) × IsRefusal Plus (sum unit) (N.value mw) N.bound (passed_at N.value passed)) }
{
    let so_far = used[unit];
    match so_far {
        Some(sum) => {
            used[unit] = Some(exact_sum(sum, mw)?);
            Ok(())
        }
        None => Ok(()),
    }
}

/// Adds what the blocks of each unit raise its output by.
fn add_blocks<N: Exact>(
    market: &Market,
    dispatch: &[N],
    used: &mut [Option<N>],
) -> Result<(), Passed<N>>
    requires dispatch { length dispatch.now ≡ length market.now.blocks }
    requires count { length used.old ≡ length market.now.units }
    requires sums { HaveSums N.value (offers_reserve market.now) (λ unit. zero) (length market.now.units) used.old }
    ensures count { length used.new ≡ length used.old }
    ensures sums { (reserve : List Fraction) → let x = dispatch_with (map N.value dispatch.now) reserve in
        IfOk result (λ _. HaveSums N.value (offers_reserve market.now) (λ unit. total (map (block_term market.now x) (blocks_of market.now unit))) (length market.now.units) used.new) }
    ensures stops { (reserve : List Fraction) → IfErr result (λ passed. IsRefusedAmong (RoomSum market.now (dispatch_with (map N.value dispatch.now) reserve)) N.bound (passed_at N.value passed)) }
{
    for (at, block) in market.blocks().slice().iter().enumerate() {
        add_use(used, block.unit, by_side(block.side, dispatch[at]))?;
    }
    Ok(())
}

/// Adds the reserve of each unit.
fn add_reserve<N: Exact>(
    market: &Market,
    reserve: &[N],
    used: &mut [Option<N>],
) -> Result<(), Passed<N>>
    requires reserve { length reserve.now ≡ length market.now.reserve.offers }
    requires count { length used.old ≡ length market.now.units }
    ensures count { length used.new ≡ length used.old }
    ensures sums { (blocks : List Fraction) → let x = dispatch_with blocks (map N.value reserve.now) in
        HaveSums N.value (offers_reserve market.now) (λ unit. total (map (block_term market.now x) (blocks_of market.now unit))) (length market.now.units) used.old
        → IfOk result (λ _. HaveSums N.value (offers_reserve market.now) (room_used market.now x) (length market.now.units) used.new) }
    ensures stops { (blocks : List Fraction) → let x = dispatch_with blocks (map N.value reserve.now) in
        HaveSums N.value (offers_reserve market.now) (λ unit. total (map (block_term market.now x) (blocks_of market.now unit))) (length market.now.units) used.old
        → IfErr result (λ passed. IsRefusedAmong (RoomSum market.now x) N.bound (passed_at N.value passed)) }
{
    for (at, offer) in market.reserve().offers.slice().iter().enumerate() {
        add_use(used, offer.unit, reserve[at])?;
    }
    Ok(())
}

/// Puts at each unit that offers reserve what it uses of its room. Nothing stands at the others.
fn put_uses<N: Exact>(
    market: &Market,
    dispatch: &[N],
    reserve: &[N],
    used: &mut [Option<N>],
) -> Result<(), Passed<N>>
    requires dispatch { length dispatch.now ≡ length market.now.blocks }
    requires reserve { length reserve.now ≡ length market.now.reserve.offers }
    requires none { used.old ≡ replicate (length market.now.units) None }
    ensures count { length used.new ≡ length used.old }
    ensures used { let x = dispatch_with (map N.value dispatch.now) (map N.value reserve.now) in IfOk result (λ _. AreRoomsUsed N.value market.now x used.new) }
    ensures stops { let x = dispatch_with (map N.value dispatch.now) (map N.value reserve.now) in IfErr result (λ passed. IsRefusedAmong (RoomSum market.now x) N.bound (passed_at N.value passed)) }
{
    put_offering(market, used);
    add_blocks(market, dispatch, used)?;
    add_reserve(market, reserve, used)
}

/// What each unit that offers reserve uses of its room, in 10^-9 MW, and nothing for each other unit.
pub(crate) fn rooms_used<N: Exact>(
    alloc: Global,
    market: &Market,
    dispatch: &[N],
    reserve: &[N],
) -> Result<Vec<Option<N>>, Stop<N>>
    requires dispatch { length dispatch.now ≡ length market.now.blocks }
    requires reserve { length reserve.now ≡ length market.now.reserve.offers }
    ensures used { let x = dispatch_with (map N.value dispatch.now) (map N.value reserve.now) in IfOk result (λ used. AreRoomsUsed N.value market.now x used.items) }
    ensures stops { let x = dispatch_with (map N.value dispatch.now) (map N.value reserve.now) in IfErr result (StopsBy N.value (IsRefusedAmong (RoomSum market.now x) N.bound)) }
{
    let mut used = none_used(alloc, market.units().len())?;
    put_uses(market, dispatch, reserve, &mut used)?;
    Ok(used)
}
