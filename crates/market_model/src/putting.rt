//! What buses put into the network at a dispatch, and what units put out.

ghost use Rattle.std.specs.Prelude.{◌≡◌, ◌<◌, ◌++◌, length, map, IfOk, IfErr};
ghost use Rattle.fraction_theory.specs.Fraction.{whole, ◌-ℚ◌};
ghost use Rattle.fraction_theory.specs.Sums.{total};
ghost use Rattle.market_data.specs.Participants.{IsBus, IsDatum};
ghost use Rattle.market_model.specs.Dispatch.{Dispatch, balance, balance_terms, unit_at, units_at, blocks_at, fixed_term, block_term, injection, injection_terms, output as output_of, output_terms};
ghost use Rattle.market_model.specs.NamedSums.{IsRefusedIn};
ghost use Rattle.market_model.specs.PutIn.{dispatch_of, AreInjections, IsDemandRefusal};
ghost use Rattle.market_model.specs.SumTables.{IsRefusedAmong, InjectionSum};
ghost use Rattle.market_model.specs.Valued.{passed_at};

use crate::amounts::{datum, with_part};
use crate::blocks::by_side;
use crate::{Bus, Market, Unit};
use exact_fraction::{Exact, Passed, exact_difference, exact_sum};

/// The fixed part of a unit as a number.
#[tactic(auto, using(market_data::proofs::Data::datum_read))]
fn fixed_of<N: Exact>(unit: &Unit) -> N
    requires { IsDatum unit.now.fixed }
    ensures { N.value result ≡ whole unit.now.fixed }
{
    datum(unit.fixed)
}

/// What the fixed parts of the units at a bus come to.
fn fixed_at<N: Exact>(market: &Market, bus: usize) -> Result<N, Passed<N>>
    ensures sum { IfOk result (λ mw. N.value mw ≡ total (map (fixed_term market.now) (units_at market.now bus))) }
    ensures stops { IfErr result (λ passed. IsRefusedIn (map (fixed_term market.now) (units_at market.now bus)) N.bound (passed_at N.value passed)) }
{
    let mut mw: N = datum(0);
    for (at, unit) in market.units().slice().iter().enumerate() {
        mw = with_part(mw, fixed_of(unit), unit.bus == bus)?;
    }
    Ok(mw)
}

/// The same with what the blocks of these units raise it by.
fn raised_at<N: Exact>(
    market: &Market,
    bus: usize,
    fixed: N,
    dispatch: &[N],
) -> Result<N, Passed<N>>
    requires dispatch { length dispatch.now ≡ length market.now.blocks }
    requires fixed { N.value fixed ≡ total (map (fixed_term market.now) (units_at market.now bus)) }
    ensures sum { IfOk result (λ mw. N.value mw ≡ total (map (fixed_term market.now) (units_at market.now bus) ++ map (block_term market.now (dispatch_of N.value dispatch.now)) (blocks_at market.now bus))) }
    ensures stops { IfErr result (λ passed. IsRefusedIn (map (fixed_term market.now) (units_at market.now bus) ++ map (block_term market.now (dispatch_of N.value dispatch.now)) (blocks_at market.now bus)) N.bound (passed_at N.value passed)) }
{
    let mut mw = fixed;
    for (at, block) in market.blocks().slice().iter().enumerate() {
        let belongs = market.units().at(block.unit).bus == bus;
        mw = with_part(mw, by_side(block.side, dispatch[at]), belongs)?;
    }
    Ok(mw)
}

/// What is left of a sum, less the load of a bus and its shunt.
#[tactic(auto, using(market_data::proofs::Data::datum_read))]
fn less_demand<N: Exact>(sum: N, bus: &Bus) -> Result<N, Passed<N>>
    requires { IsBus bus.now }
    ensures left { IfOk result (λ left. N.value left ≡ (N.value sum -ℚ whole bus.now.pd) -ℚ whole bus.now.gs) }
    ensures stops { IfErr result (λ passed. IsDemandRefusal (N.value sum) bus.now N.bound (passed_at N.value passed)) }
{
    let unloaded = exact_difference(sum, datum(bus.pd))?;
    exact_difference(unloaded, datum(bus.gs))
}

/// What a bus puts in.
fn injection<N: Exact>(market: &Market, bus: usize, dispatch: &[N]) -> Result<N, Passed<N>>
    requires bus { bus < length market.now.buses }
    requires dispatch { length dispatch.now ≡ length market.now.blocks }
    ensures sum { IfOk result (λ mw. N.value mw ≡ injection market.now (dispatch_of N.value dispatch.now) bus) }
    ensures stops { IfErr result (λ passed. IsRefusedIn (injection_terms market.now (dispatch_of N.value dispatch.now) bus) N.bound (passed_at N.value passed)) }
{
    let fixed = fixed_at(market, bus)?;
    let raised = raised_at(market, bus, fixed, dispatch)?;
    less_demand(raised, &market.buses().slice()[bus])
}

/// What each bus puts into the network at a dispatch, in 10^-9 MW.
pub fn injections<N: Exact>(market: &Market, dispatch: &[N], out: &mut [N]) -> Result<(), Passed<N>>
    requires dispatch { length dispatch.now ≡ length market.now.blocks }
    requires out { length out.old ≡ length market.now.buses }
    ensures count { length out.new ≡ length out.old }
    ensures injections { IfOk result (λ _. AreInjections market.now (dispatch_of N.value dispatch.now) (map N.value out.new)) }
    ensures stops { IfErr result (λ passed. IsRefusedAmong (InjectionSum market.now (dispatch_of N.value dispatch.now)) N.bound (passed_at N.value passed)) }
{
    for (bus, mw) in out.iter_mut().enumerate() {
        *mw = injection(market, bus, dispatch)?;
    }
    Ok(())
}

/// What all buses put in, of what each puts in, in 10^-9 MW.
pub fn balance<N: Exact>(market: &Market, injections: &[N]) -> Result<N, Passed<N>>
    ensures sum { (x : Dispatch) → AreInjections market.now x (map N.value injections.now) → IfOk result (λ sum. N.value sum ≡ balance market.now x) }
    ensures stops { (x : Dispatch) → AreInjections market.now x (map N.value injections.now) → IfErr result (λ passed. IsRefusedIn (balance_terms market.now x) N.bound (passed_at N.value passed)) }
{
    let mut sum: N = datum(0);
    for mw in injections {
        sum = exact_sum(sum, *mw)?;
    }
    Ok(sum)
}

/// A unit's fixed part.
fn fixed_part<N: Exact>(market: &Market, unit: usize) -> N
    requires { unit < length market.now.units }
    ensures { N.value result ≡ whole (unit_at market.now unit).fixed }
{
    datum(market.units().slice()[unit].fixed)
}

/// What a unit puts out at a dispatch, in 10^-9 MW: its fixed part, plus what its sell blocks sell, less what its buy blocks buy.
pub fn output<N: Exact>(market: &Market, unit: usize, dispatch: &[N]) -> Result<N, Passed<N>>
    requires unit { unit < length market.now.units }
    requires dispatch { length dispatch.now ≡ length market.now.blocks }
    ensures output { IfOk result (λ mw. N.value mw ≡ output_of market.now (dispatch_of N.value dispatch.now) unit) }
    ensures stops { IfErr result (λ passed. IsRefusedIn (output_terms market.now (dispatch_of N.value dispatch.now) unit) N.bound (passed_at N.value passed)) }
{
    let mut mw: N = fixed_part(market, unit);
    for (at, block) in market.blocks().slice().iter().enumerate() {
        mw = with_part(mw, by_side(block.side, dispatch[at]), block.unit == unit)?;
    }
    Ok(mw)
}
