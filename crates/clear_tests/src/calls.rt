//! Calls that a clear does not make in this form: the prices of duals, the worst limit by its name, and a settlement that makes its
//! flows. In the market bus prices are 10, 30 and 40, and the rent is all of the surplus.

ghost use Rattle.std.specs.Prelude.{◌≤ℤ◌, pos, IfOk};
ghost use Rattle.clear_loop.specs.Keeping.{FitsFrame};
ghost use Rattle.market_model.specs.Fitting.{FitsMarket};
ghost use Rattle.market_model.specs.RightAnswers.{IsRight};
ghost use Rattle.market_model.specs.Valued.{answer_at};

use crate::worked::{are, are_prices, has_taken, is_answer, limit, limited, soft};
use bus_prices::prices;
use clear_loop::{ClearFault, Clearer};
use exact_fraction::{Exact, Frac, Frac63};
use limit_screen::{flows, worst};
use market_data::{MW_ONE, PRICE_ONE};
use market_model::{Answer, Load, Market, Money, Price, Rent, RowId, UnitPay, zeros};
use offer_book::edit;
use settlement::settle;
use std::alloc::Global;
use std::fmt::Debug;
use std::test::Fail;

/// One of money, as a product of MW and a price.
const MONEY_ONE: i64 = MW_ONE * PRICE_ONE;

/// The limit of branch 2 in the base.
const IN_THE_BASE: RowId = RowId {
    branch: 2,
    outage: 0,
    unit: 0,
};

/// A name that no limit of the market has.
const OF_NO_ROW: RowId = RowId {
    branch: 4,
    outage: 0,
    unit: 0,
};

/// Whether units are paid 500 and 300 for 50 and 10 MW.
fn are_paid<N: Exact>(units: &[UnitPay<N>]) -> bool {
    match units {
        [first, second] => {
            are(&[first.mw, second.mw], &[50, 10], MW_ONE)
                && are(&[first.paid, second.paid], &[500, 300], MONEY_ONE)
        }
        _ => false,
    }
}

/// Whether the load at the third bus pays 2400 for 60 MW.
fn are_billed<N: Exact>(loads: &[Load<N>]) -> bool {
    match loads {
        [one, two, three] => {
            are(&[one.mw, two.mw, three.mw], &[0, 0, 60], MW_ONE)
                && are(&[one.pays, two.pays, three.pays], &[0, 0, 2400], MONEY_ONE)
        }
        _ => false,
    }
}

/// Whether a limit earns 1600 by 40 MW, which is all of the surplus.
fn are_earned<N: Exact>(rents: &[Rent<N>], surplus: N) -> bool {
    match rents {
        [rent] => {
            are(&[rent.flow, rent.over], &[40, 0], MW_ONE)
                && are(&[rent.rent, surplus], &[1600, 1600], MONEY_ONE)
        }
        _ => false,
    }
}

/// Whether a settlement is that.
fn is_settled<N: Exact>(money: &Money<N>) -> bool {
    are_paid(money.units.slice())
        && are_billed(money.loads.slice())
        && are_earned(money.rents.slice(), money.surplus)
}

/// The answer of a market.
fn answer_of<N: Exact>(alloc: Global, market: &Market) -> Result<Answer<N>, ClearFault<N>>
    ensures fits { IfOk result (FitsMarket market.now) }
    ensures right { IfOk result (λ answer. IsRight market.now (answer_at N.value answer)) }
{
    let mut clearer: Clearer<N> = Clearer::new(market);
    clearer.clear(alloc, market)
}

/// The prices of the duals of the market's answer.
fn is_priced<N: Exact + Debug>(
    alloc: Global,
    market: &Market,
    answer: &Answer<N>,
) -> Result<bool, Fail>
    requires fits { FitsMarket market.now answer.now }
    requires right { IsRight market.now (answer_at N.value answer.now) }
{
    let none = N::of_parts(0, 1);
    let unpriced = Price {
        energy: none,
        congestion: none,
        total: none,
    };
    let mut out = vec![in alloc; unpriced; market.buses().len()]?;
    prices(market, &answer.duals, &mut out)?;
    Ok(are_prices(&out, &[0, 20, 30], &[10, 30, 40]))
}

/// The settlement of the market's answer.
fn is_settled_anew<N: Exact + Debug>(
    alloc: Global,
    market: &Market,
    answer: &Answer<N>,
) -> Result<bool, Fail>
    requires fits { FitsMarket market.now answer.now }
    requires right { IsRight market.now (answer_at N.value answer.now) }
{
    let dispatch = answer.dispatch.slice();
    let money = settle(
        alloc,
        market,
        dispatch,
        answer.reserve.slice(),
        answer.prices.slice(),
        &answer.duals,
    )?;
    Ok(is_settled(&money))
}

/// Whether the answer of a market is priced and settled so.
fn are_priced_and_settled<N: Exact + Debug>(
    alloc: Global,
    market: &Market,
) -> Result<(bool, bool), Fail> {
    let answer: Answer<N> = answer_of(alloc, market)?;
    let priced = is_priced(alloc, market, &answer)?;
    let settled = is_settled_anew(alloc, market, &answer)?;
    Ok((priced, settled))
}

fn prices_and_money<N: Exact + Debug>(alloc: Global) -> Result<(bool, bool), Fail> {
    let market = limited(alloc)?;
    are_priced_and_settled::<N>(alloc, &market)
}

/// The worst limit by its name, where some are taken and the two blocks have these MW accepted.
fn worst_at<N: Exact + Debug>(
    alloc: Global,
    market: &Market,
    taken: &[RowId],
    first: N,
    second: N,
) -> Result<Option<RowId>, Fail> {
    let mut dispatch = zeros(alloc, market.blocks().len())?;
    if dispatch.len() != 2 {
        return Ok(None);
    }
    dispatch[0] = first;
    dispatch[1] = second;
    let places = market.buses().len() + market.lines().len() + market.unit_outages().len();
    let mut by_place: Vec<N> = zeros(alloc, places)?;
    flows(market, &dispatch, &mut by_place)?;
    Ok(worst(market, &by_place, taken)?)
}

/// With 60 MW of the first unit branch 2 carries 45, and with 50 it carries 40. That a name is taken that no limit has changes nothing.
fn are_worst<N: Exact + Debug>(alloc: Global, market: &Market) -> Result<bool, Fail> {
    let none = N::of_parts(0, 1);
    let ten = N::of_parts(10 * MW_ONE, 1);
    let broken = worst_at(alloc, market, &[], N::of_parts(60 * MW_ONE, 1), none)?;
    let stranger = worst_at(
        alloc,
        market,
        &[OF_NO_ROW],
        N::of_parts(60 * MW_ONE, 1),
        none,
    )?;
    let held = worst_at(alloc, market, &[], N::of_parts(50 * MW_ONE, 1), ten)?;
    Ok(broken == Some(IN_THE_BASE) && stranger == broken && held == None)
}

fn worst_limits<N: Exact + Debug>(alloc: Global) -> Result<bool, Fail> {
    let market = limited(alloc)?;
    are_worst::<N>(alloc, &market)
}

/// The worst limit at 60 MW of the first unit, where branch 2 carries 45 and its limit of 40 in the base gives way: where that limit is
/// taken, and where it is not.
fn worst_where_soft<N: Exact + Debug>(
    alloc: Global,
    market: &Market,
) -> Result<(Option<RowId>, Option<RowId>), Fail> {
    let all = N::of_parts(60 * MW_ONE, 1);
    let none = N::of_parts(0, 1);
    let taken = worst_at(alloc, market, &[IN_THE_BASE], all, none)?;
    let untaken = worst_at(alloc, market, &[], all, none)?;
    Ok((taken, untaken))
}

/// The same where the limit may be exceeded by so much.
fn worst_soft<N: Exact + Debug>(
    alloc: Global,
    excess: i64,
) -> Result<(Option<RowId>, Option<RowId>), Fail>
    requires { pos 0 ≤ℤ excess }
{
    let market = soft(alloc, PRICE_ONE, excess)?;
    worst_where_soft::<N>(alloc, &market)
}

/// An excess of 5 is enough where the limit is taken, and one of 4 is not; where it is not taken neither counts.
fn worst_by_excess<N: Exact + Debug>(alloc: Global) -> Result<bool, Fail> {
    let enough = worst_soft::<N>(alloc, 5 * MW_ONE)?;
    let less = worst_soft::<N>(alloc, 4 * MW_ONE)?;
    Ok(enough == (None, Some(IN_THE_BASE)) && less == (Some(IN_THE_BASE), Some(IN_THE_BASE)))
}

/// Whether the limit of 45 after the outage is taken alone.
fn takes_alone<N: Exact + Debug>(
    alloc: Global,
    market: &Market,
    clearer: &mut Clearer<N>,
) -> Result<bool, Fail>
    requires { FitsFrame market.now clearer.old }
{
    let answer = clearer.clear(alloc, market)?;
    Ok(has_taken(clearer, 1) && is_answer(&answer, &[45, 15], &[0, 20, 20], &[10, 30, 30]))
}

/// Both limits are passed, and that after the outage by more.
fn takes_later<N: Exact + Debug>(alloc: Global, market: &mut Market) -> Result<bool, Fail> {
    edit(market, &limit(true, 45 * MW_ONE))?;
    let mut clearer: Clearer<N> = Clearer::new(market);
    takes_alone(alloc, market, &mut clearer)
}

fn takes_the_worst<N: Exact + Debug>(alloc: Global) -> Result<bool, Fail> {
    let mut market = limited(alloc)?;
    takes_later::<N>(alloc, &mut market)
}

#[test]
fn prices_of_duals_and_a_settlement(rt: HostRuntime) -> Result<(), Fail> {
    assert_eq!(rt; prices_and_money::<Frac>(rt.alloc())?, (true, true));
    assert_eq!(rt; prices_and_money::<Frac63>(rt.alloc())?, (true, true));
    Ok(())
}

#[test]
fn the_worst_limit_where_one_gives_way(rt: HostRuntime) -> Result<(), Fail> {
    assert!(rt; worst_by_excess::<Frac>(rt.alloc())?);
    assert!(rt; worst_by_excess::<Frac63>(rt.alloc())?);
    Ok(())
}

#[test]
fn the_worst_limit_by_name_and_alone(rt: HostRuntime) -> Result<(), Fail> {
    assert!(rt; worst_limits::<Frac>(rt.alloc())?);
    assert!(rt; worst_limits::<Frac63>(rt.alloc())?);
    assert!(rt; takes_the_worst::<Frac>(rt.alloc())?);
    assert!(rt; takes_the_worst::<Frac63>(rt.alloc())?);
    Ok(())
}
