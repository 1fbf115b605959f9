//! The price of energy by blocks, where all other prices are as they are.

ghost use Rattle.std.specs.Prelude.{◌≡◌, ◌≢◌, ◌+◌, ◌<◌, Some, IfErr, IfOk, MatchBool, None, length, map};
ghost use Rattle.fraction_theory.specs.Fraction.{Fraction};
ghost use Rattle.linear_dict.specs.Dictionaries.{IsDictionary};
ghost use Rattle.market_model.specs.declared.answered.Duals.{Duals};
ghost use Rattle.market_model.specs.declared.participants.Parts.{Parts};
ghost use Rattle.market_model.specs.Dispatch.{Dispatch, accepted as accepted_of, block_at, quantity};
ghost use Rattle.market_model.specs.Valued.{passed_at};
ghost use Rattle.one_price.specs.Margins.{IsEnergyByMargins, margin as margin_of};
ghost use Rattle.price_search.specs.Energy.{AreAccepted, Holds, IsEnergyRefusal, IsHolding, IsMarginRefusal, IsNearest, IsNearestRefusal, ShowsWorths};

use exact_fraction::{Exact, Passed, exact_difference};
use linear_dict::Dict;
use market_model::{Market, Side, block_price, block_quantity, datum};
use std::cmp::Ordering;

/// How a block holds the price of energy: a MW may not be worth less than the block's price, or not more.
#[derive(Clone, Copy, Debug)]
pub(crate) enum Hold {
    Up,
    Down,
}

/// Whether two numbers are not the same.
fn differ<N: Exact>(left: N, right: N) -> bool
    ensures { MatchBool result (N.value left ≢ N.value right) (N.value left ≡ N.value right) }
{
    match left.order(right) {
        Ordering::Equal => false,
        Ordering::Less | Ordering::Greater => true,
    }
}

/// Whether a block holds the price of energy so, where of its quantity so much is accepted.
fn holds<N: Exact>(hold: Hold, side: Side, accepted: N, quantity: N) -> bool
    ensures { MatchBool result (Holds hold side (N.value accepted) (N.value quantity)) (¬ (Holds hold side (N.value accepted) (N.value quantity))) }
{
    match hold {
        Hold::Up => match side {
            Side::Sell => differ(accepted, datum(0)),
            Side::Buy => differ(accepted, quantity),
        },
        Hold::Down => match side {
            Side::Sell => differ(accepted, quantity),
            Side::Buy => differ(accepted, datum(0)),
        },
    }
}

/// The nearer of two margins: of blocks that hold the price up the lesser one, and of those that hold it down the greater one.
fn nearer<N: Exact>(hold: Hold, nearest: Option<N>, place: usize, margin: N) -> N
    ensures { (m : Parts) (x : Dispatch) (d : Duals Fraction) → IsNearest N.value hold m x d place nearest → IsHolding hold m x place → N.value margin ≡ margin_of m d place
        → IsNearest N.value hold m x d (place + 1) (Some result) }
{
    let found = match nearest {
        Some(found) => found,
        None => return margin,
    };
    match hold {
        Hold::Up => match margin.order(found) {
            Ordering::Less => margin,
            Ordering::Equal | Ordering::Greater => found,
        },
        Hold::Down => match margin.order(found) {
            Ordering::Greater => margin,
            Ordering::Less | Ordering::Equal => found,
        },
    }
}

/// What a MW of the unit of a block is worth beyond the block's price, by the dictionary that shows what MW are worth.
fn margin<N: Exact>(market: &Market, dict: &Dict<N>, place: usize) -> Result<N, Passed<N>>
    requires place { place < length market.now.blocks }
    requires shows { (d : Duals Fraction) × ShowsWorths market.now d dict.now }
    ensures margin { (d : Duals Fraction) → ShowsWorths market.now d dict.now → IfOk result (λ margin. N.value margin ≡ margin_of market.now d place) }
    ensures stops { (d : Duals Fraction) → ShowsWorths market.now d dict.now → IfErr result (λ passed. IsMarginRefusal market.now d place N.bound (passed_at N.value passed)) }
{
    let block = market.blocks().at(place);
    let note = dict.note(dict.row_name(place + 1));
    exact_difference(note.value, block_price(block))
}

/// The nearest margin of the blocks that hold the price of energy so; nothing where none does.
fn nearest<N: Exact>(
    market: &Market,
    accepted: &[N],
    dict: &Dict<N>,
    hold: Hold,
) -> Result<Option<N>, Passed<N>>
    requires accepted { length accepted.now ≡ length market.now.blocks }
    requires shows { (d : Duals Fraction) × ShowsWorths market.now d dict.now }
    ensures nearest { (x : Dispatch) (d : Duals Fraction) → AreAccepted N.value market.now accepted.now x → ShowsWorths market.now d dict.now
        → IfOk result (IsNearest N.value hold market.now x d (length market.now.blocks)) }
    ensures stops { (x : Dispatch) (d : Duals Fraction) → AreAccepted N.value market.now accepted.now x → ShowsWorths market.now d dict.now
        → IfErr result (λ passed. IsNearestRefusal hold market.now x d N.bound (passed_at N.value passed)) }
{
    let mut nearest = None;
    for place in 0..market.blocks().len() {
        let block = market.blocks().at(place);
        if holds(hold, block.side, accepted[place], block_quantity(block)) {
            let margin = margin(market, dict, place)?;
            nearest = Some(nearer(hold, nearest, place, margin));
        }
    }
    Ok(nearest)
}

/// The price that energy is to have, where the dictionary shows what MW are worth at this one: as low as the blocks that hold it up leave it;
/// where there are none, as high as those leave it that hold it down; else 0.
pub(crate) fn energy_price<N: Exact>(
    market: &Market,
    accepted: &[N],
    dict: &Dict<N>,
    energy: N,
) -> Result<N, Passed<N>>
    requires accepted { length accepted.now ≡ length market.now.blocks }
    requires shows { (d : Duals Fraction) × ShowsWorths market.now d dict.now }
    ensures price { (x : Dispatch) (d : Duals Fraction) → AreAccepted N.value market.now accepted.now x → ShowsWorths market.now d dict.now → N.value energy ≡ d.energy
        → IfOk result (λ price. IsEnergyByMargins market.now x d (N.value price)) }
    ensures stops { (x : Dispatch) (d : Duals Fraction) → AreAccepted N.value market.now accepted.now x → ShowsWorths market.now d dict.now → N.value energy ≡ d.energy
        → IfErr result (λ passed. IsEnergyRefusal market.now x d N.bound (passed_at N.value passed)) }
{
    if let Some(margin) = nearest(market, accepted, dict, Hold::Up)? {
        return exact_difference(energy, margin);
    }
    match nearest(market, accepted, dict, Hold::Down)? {
        Some(margin) => exact_difference(energy, margin),
        None => Ok(datum(0)),
    }
}
