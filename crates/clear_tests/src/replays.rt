//! Clears between edits of the market with the limit of 40, at both types, where it is hard and where it gives way.

ghost use Rattle.std.specs.Prelude.{◌≡◌, All, IfOk};
ghost use Rattle.offer_book.specs.Edits.{number_of};
ghost use Rattle.edit_table.specs.EditTable.{IsStep};

use crate::worked::{has_taken, is_answer, limit, limited, soft};
use edit_replay::{Session, StepFault, StepOutcome, Steps, steps};
use exact_fraction::{Exact, Frac, Frac63, Op, Passed};
use market_data::{MW_ONE, PRICE_ONE};
use market_model::{Memory, Outcome, Side};
use offer_book::{Edit, EditFault};
use std::alloc::Global;
use std::test::Fail;

/// A new price of the second unit's block.
fn price(price: i64) -> Edit
    ensures { number_of result ≡ price }
{
    Edit::Price {
        unit: 2,
        side: Side::Sell,
        block: 1,
        price,
    }
}

/// Whether a clear comes to these MW of the blocks and these prices.
fn clears<N: Exact>(
    session: &mut Session<N>,
    alloc: Global,
    mw: &[i32],
    congestion: &[i32],
    totals: &[i32],
) -> Result<bool, Memory> {
    match session.clear(alloc)? {
        Outcome::Cleared(answer) => Ok(is_answer(&answer, mw, congestion, totals)),
        _ => Ok(false),
    }
}

/// The same, with the limit of branch 2 in the base alone taken.
fn clears_to<N: Exact>(
    session: &mut Session<N>,
    alloc: Global,
    mw: &[i32],
    congestion: &[i32],
    totals: &[i32],
) -> Result<bool, Memory> {
    let cleared = clears(session, alloc, mw, congestion, totals)?;
    Ok(cleared && has_taken(session.clearer(), 0))
}

/// A clear, one after another price, and one after a limit that nothing reaches. Each starts from the limit that the first one took.
fn is_warm<N: Exact>(session: &mut Session<N>, alloc: Global) -> Result<bool, Memory> {
    let first = clears_to(session, alloc, &[50, 10], &[0, 20, 30], &[10, 30, 40])?;
    let cheaper = session.edit(&price(20 * PRICE_ONE)).is_ok();
    let second = clears_to(session, alloc, &[50, 10], &[0, 10, 15], &[10, 20, 25])?;
    let wider = session.edit(&limit(false, 50 * MW_ONE)).is_ok();
    let third = clears_to(session, alloc, &[60, 0], &[0, 0, 0], &[10, 10, 10])?;
    Ok(first && cheaper && second && wider && third && session.market().blocks().len() == 2)
}

fn starts_warm<N: Exact>(alloc: Global) -> Result<bool, Memory> {
    let mut session: Session<N> = Session::new(limited(alloc)?);
    is_warm(&mut session, alloc)
}

/// A first clear where the limit is 50: unit 1 makes all, with a flow of 45, and no limit is taken.
fn is_slack<N: Exact>(session: &mut Session<N>, alloc: Global) -> Result<bool, Memory> {
    let wide = session.edit(&limit(false, 50 * MW_ONE)).is_ok();
    let cleared = clears(session, alloc, &[60, 0], &[0, 0, 0], &[10, 10, 10])?;
    Ok(wide && cleared && session.clearer().taken() == 0)
}

/// A clear where the limit is 44: it is exceeded by 1, as 24 for a MW of flow is less than the 40 that unit 2 costs more for one. Prices
/// are 10, and half and three quarters of 24 above it.
fn is_exceeded<N: Exact>(session: &mut Session<N>, alloc: Global) -> Result<bool, Memory> {
    let edited = session.edit(&limit(false, 44 * MW_ONE)).is_ok();
    let cleared = clears_to(session, alloc, &[60, 0], &[0, 12, 18], &[10, 22, 28])?;
    Ok(edited && cleared)
}

/// A clear where it is 40: the flow is 43, so unit 2 makes 4, and prices go by the 40 that a MW of flow is worth.
fn is_used_up<N: Exact>(session: &mut Session<N>, alloc: Global) -> Result<bool, Memory> {
    let edited = session.edit(&limit(false, 40 * MW_ONE)).is_ok();
    let cleared = clears_to(session, alloc, &[56, 4], &[0, 20, 30], &[10, 30, 40])?;
    Ok(edited && cleared)
}

/// The limit is tightened from one that nothing reaches until its excess is used up, and widened again. From the second clear on it is in
/// hand, and at last too, where the first clear took nothing.
fn gives_way<N: Exact>(session: &mut Session<N>, alloc: Global) -> Result<bool, Memory> {
    let slack = is_slack(session, alloc)?;
    let exceeded = is_exceeded(session, alloc)?;
    let used_up = is_used_up(session, alloc)?;
    let again = is_exceeded(session, alloc)?;
    let wide = session.edit(&limit(false, 50 * MW_ONE)).is_ok();
    let back = clears_to(session, alloc, &[60, 0], &[0, 0, 0], &[10, 10, 10])?;
    Ok(slack && exceeded && used_up && again && wide && back)
}

/// A limit that gives way by 3 MW at 24.
fn tightens<N: Exact>(alloc: Global) -> Result<bool, Memory> {
    let mut session: Session<N> = Session::new(soft(alloc, 24 * PRICE_ONE, 3 * MW_ONE)?);
    gives_way(&mut session, alloc)
}

/// An edit of a block that is not there and a clear, and then a limit that no dispatch keeps and one of 40, each with a clear.
fn few_steps(alloc: Global) -> Result<Steps, StepFault>
    ensures { IfOk result (All IsStep) }
{
    steps(
        alloc,
        b"op,target,side,block,value\nprice,2,sell,2,20\nclear,,,,\nlimit,2,base,,10\nclear,,,,\nlimit,2,base,,40\nclear,,,,\n",
    )
}

/// What the steps come to, in a session that has cleared nothing.
fn replays_few<N: Exact>(
    session: &mut Session<N>,
    alloc: Global,
    steps: &Steps,
) -> Result<bool, Memory>
    requires { All IsStep steps.now }
{
    let outcomes = session.replay(alloc, steps)?;
    match outcomes.slice() {
        [
            StepOutcome::Refused(EditFault::NoBlock),
            StepOutcome::Clear(Outcome::Cleared(first)),
            StepOutcome::Accepted,
            StepOutcome::Clear(Outcome::Infeasible(_)),
            StepOutcome::Accepted,
            StepOutcome::Clear(Outcome::Cleared(last)),
        ] => Ok(
            has_taken(session.clearer(), 0)
                && is_answer(first, &[50, 10], &[0, 20, 30], &[10, 30, 40])
                && is_answer(last, &[50, 10], &[0, 20, 30], &[10, 30, 40]),
        ),
        _ => Ok(false),
    }
}

/// The same in a session of the market.
fn replays_anew<N: Exact>(alloc: Global, steps: &Steps) -> Result<bool, Memory>
    requires { All IsStep steps.now }
{
    let mut session: Session<N> = Session::new(limited(alloc)?);
    replays_few(&mut session, alloc, steps)
}

fn replays<N: Exact>(alloc: Global) -> Result<bool, Fail> {
    let steps = few_steps(alloc)?;
    Ok(replays_anew::<N>(alloc, &steps)?)
}

/// A price of all that 63 bits hold, which nothing is paid by; then prices at which what the first unit is paid is more than they hold; the
/// first price again; and a load at which what both units are paid together is more.
fn dear_steps(alloc: Global) -> Result<Steps, StepFault>
    ensures { IfOk result (All IsStep) }
{
    steps(
        alloc,
        b"op,target,side,block,value\nlimit,2,base,,1000\nprice,2,sell,1,9000000000000\nclear,,,,\nprice,2,sell,1,300\nprice,1,sell,1,200\nclear,,,,\nprice,1,sell,1,10\nclear,,,,\nprice,2,sell,1,200\nprice,1,sell,1,60\ndemand,3,,,110\nclear,,,,\n",
    )
}

/// Whether a clear makes 60 MW for 10.
fn is_free(outcome: &StepOutcome<Frac63>) -> bool {
    match outcome {
        StepOutcome::Clear(Outcome::Cleared(answer)) => {
            is_answer(answer, &[60, 0], &[0, 0, 0], &[10, 10, 10])
        }
        _ => false,
    }
}

/// Whether a clear ended with this operation of two numbers.
fn is_range(outcome: &StepOutcome<Frac63>, left: Frac63, right: Frac63, op: Op) -> bool {
    match outcome {
        StepOutcome::Clear(Outcome::Range(passed)) => *passed == Passed { left, right, op },
        _ => false,
    }
}

/// Whether the clears of twelve steps come to this.
fn are_dear(told: &[StepOutcome<Frac63>]) -> bool {
    let paid = Frac63::of_parts(-200_000_000, 1);
    let made = Frac63::of_parts(60_000_000_000, 1);
    let first = Frac63::of_parts(-6_000_000_000_000_000_000, 1);
    let second = Frac63::of_parts(-4_000_000_000_000_000_000, 1);
    told.len() == 12
        && is_free(&told[2])
        && is_range(&told[5], paid, made, Op::Times)
        && is_free(&told[7])
        && is_range(&told[11], first, second, Op::Plus)
}

/// What these steps come to.
fn replays_dear(session: &mut Session<Frac63>, alloc: Global, steps: &Steps) -> Result<bool, Memory>
    requires { All IsStep steps.now }
{
    let outcomes = session.replay(alloc, steps)?;
    Ok(are_dear(outcomes.slice()) && session.clearer().taken() == 0)
}

/// The same in a session of the market.
fn replays_dear_anew(alloc: Global, steps: &Steps) -> Result<bool, Memory>
    requires { All IsStep steps.now }
{
    let mut session: Session<Frac63> = Session::new(limited(alloc)?);
    replays_dear(&mut session, alloc, steps)
}

fn passes_63_bits(alloc: Global) -> Result<bool, Fail> {
    let steps = dear_steps(alloc)?;
    Ok(replays_dear_anew(alloc, &steps)?)
}

/// With unit 2 at 2000 a MW of flow is worth 3980, so 5 MW beyond the limit at 3000 are cheaper: 15,000, where 63 bits hold 9,223.
fn is_penalty_too_large(session: &mut Session<Frac63>, alloc: Global) -> Result<bool, Memory> {
    let dear = session.edit(&price(2000 * PRICE_ONE)).is_ok();
    let outcome = StepOutcome::Clear(session.clear(alloc)?);
    let penalty = Frac63::of_parts(-3_000_000_000, 1);
    let excess = Frac63::of_parts(5_000_000_000, 1);
    Ok(dear && is_range(&outcome, penalty, excess, Op::Times) && session.clearer().taken() == 0)
}

fn a_penalty_passes_63_bits(alloc: Global) -> Result<bool, Memory> {
    let market = soft(alloc, 3000 * PRICE_ONE, 10 * MW_ONE)?;
    let mut session: Session<Frac63> = Session::new(market);
    is_penalty_too_large(&mut session, alloc)
}

#[test]
fn clears_between_edits(rt: HostRuntime) -> Result<(), Fail> {
    assert!(rt; starts_warm::<Frac>(rt.alloc())?);
    assert!(rt; starts_warm::<Frac63>(rt.alloc())?);
    Ok(())
}

#[test]
fn a_limit_that_gives_way_between_edits(rt: HostRuntime) -> Result<(), Fail> {
    assert!(rt; tightens::<Frac>(rt.alloc())?);
    assert!(rt; tightens::<Frac63>(rt.alloc())?);
    Ok(())
}

#[test]
fn refused_and_infeasible(rt: HostRuntime) -> Result<(), Fail> {
    assert!(rt; replays::<Frac>(rt.alloc())?);
    assert!(rt; replays::<Frac63>(rt.alloc())?);
    Ok(())
}

#[test]
fn numbers_too_large(rt: HostRuntime) -> Result<(), Fail> {
    assert!(rt; passes_63_bits(rt.alloc())?);
    assert!(rt; a_penalty_passes_63_bits(rt.alloc())?);
    Ok(())
}
