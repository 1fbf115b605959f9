//! What blocks put into the network and what it carries then, whatever reserve is accepted beside, and what may be wrong with these.

ghost use Rattle.std.specs.Prelude.{◌≡◌, ◌+◌, ◌∷◌, [], List, length, map, vec_len, IfOk, IfErr};
ghost use Rattle.fraction_theory.specs.Fraction.{Fraction};
ghost use Rattle.market_model.specs.Dispatch.{Dispatch, dispatch_with};
ghost use Rattle.market_model.specs.PutIn.{AreCarried, AreInjections};
ghost use Rattle.market_model.specs.Stops.{StopsBy};
ghost use Rattle.market_model.specs.SumTables.{BalanceSum, IsRefusedAmong};
ghost use Rattle.market_model.specs.Valued.{dual_at, passed_at};
ghost use Rattle.cert_format.specs.Certificates.{NamesNoRowTwice};
ghost use Rattle.cert_verify.specs.Reasons.{balance_reason, first_of, slack_reason, unpriced_reason};
ghost use Rattle.cert_verify.specs.Stops.{IsLimitPair};

use crate::Reason;
use crate::comparing::differ;
use crate::duals::slack_price;
use crate::unpriced::unpriced_row;
use cert_sums::{carried_flows, injections};
use exact_fraction::{Exact, Passed};
use market_model::{Dual, Market, Stop, balance, datum};
use std::alloc::Global;

/// What each bus puts in.
pub(crate) fn put_in<N: Exact>(
    alloc: Global,
    market: &Market,
    blocks: &[N],
) -> Result<Vec<N>, Stop<N>>
    requires { length blocks.now ≡ length market.now.blocks }
    ensures count { IfOk result (λ mws. vec_len mws ≡ length market.now.buses) }
    ensures injections { (reserve : List Fraction) → IfOk result (λ mws. AreInjections market.now (dispatch_with (map N.value blocks.now) reserve) (map N.value mws.items)) }
    ensures stops { (reserve : List Fraction) → IfErr result (StopsBy N.value (IsRefusedAmong (BalanceSum market.now (dispatch_with (map N.value blocks.now) reserve)) N.bound)) }
{
    injections(alloc, market, blocks)
}

/// Whether what all buses put in is not 0.
pub(crate) fn wrong_balance<N: Exact>(
    market: &Market,
    by_bus: &[N],
) -> Result<Option<Reason>, Passed<N>>
    ensures first { (x : Dispatch) → AreInjections market.now x (map N.value by_bus.now) → IfOk result (λ first. first ≡ balance_reason market.now x) }
    ensures stops { (x : Dispatch) → AreInjections market.now x (map N.value by_bus.now) → IfErr result (λ passed. IsRefusedAmong (BalanceSum market.now x) N.bound (passed_at N.value passed)) }
{
    let sum = balance(market, by_bus)?;
    if differ(sum, datum(0)) {
        Ok(Some(Reason::Balance))
    } else {
        Ok(None)
    }
}

/// What the network carries, of what each bus puts in.
pub(crate) fn carried_by<N: Exact>(
    alloc: Global,
    market: &Market,
    blocks: &[N],
    by_bus: &[N],
) -> Result<Vec<N>, Stop<N>>
    requires blocks { length blocks.now ≡ length market.now.blocks }
    requires by_bus { length by_bus.now ≡ length market.now.buses }
    ensures count { IfOk result (λ carried. vec_len carried ≡ length market.now.lines + length market.now.unit_outages) }
    ensures carried { (reserve : List Fraction) → AreInjections market.now (dispatch_with (map N.value blocks.now) reserve) (map N.value by_bus.now) → IfOk result (λ carried. AreCarried market.now (dispatch_with (map N.value blocks.now) reserve) (map N.value carried.items)) }
    ensures stops { (reserve : List Fraction) → AreInjections market.now (dispatch_with (map N.value blocks.now) reserve) (map N.value by_bus.now) → IfErr result (StopsBy N.value (IsLimitPair market.now (dispatch_with (map N.value blocks.now) reserve) N.bound)) }
{
    carried_flows(alloc, market, blocks, by_bus)
}

/// What may be wrong with the prices of rows, at what is carried: first those that duals name, then the others.
pub(crate) fn wrong_price<N: Exact>(
    alloc: Global,
    market: &Market,
    carried: &[N],
    limits: &[Dual<N>],
) -> Result<Option<Reason>, Stop<N>>
    requires carried { length carried.now ≡ length market.now.lines + length market.now.unit_outages }
    requires distinct { NamesNoRowTwice (map (dual_at N.value) limits.now) }
    ensures first { (x : Dispatch) → AreCarried market.now x (map N.value carried.now) → IfOk result (λ first. first ≡ first_of (slack_reason market.now x (map (dual_at N.value) limits.now) ∷ unpriced_reason market.now x (map (dual_at N.value) limits.now) ∷ [])) }
    ensures stops { (x : Dispatch) → AreCarried market.now x (map N.value carried.now) → IfErr result (StopsBy N.value (IsLimitPair market.now x N.bound)) }
{
    if let Some(reason) = slack_price(market, carried, limits)? {
        return Ok(Some(reason));
    }
    unpriced_row(alloc, market, carried, limits)
}
