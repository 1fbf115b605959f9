//! The prices and bounds of offers of reserve, of its need and of rooms.

ghost use Rattle.std.specs.Prelude.{◌≡◌, ◌<◌, [], ◌∷◌, ◌++◌, length, map, Contains, IfOk, IfErr};
ghost use Rattle.fraction_theory.specs.Fraction.{whole};
ghost use Rattle.market_model.specs.NamedSums.{IsRefusedIn};
ghost use Rattle.market_model.specs.Reserves.{reserve_units};
ghost use Rattle.market_model.specs.Valued.{passed_at};
ghost use Rattle.market_system.specs.declared.variables.Variable.TheVariants as variable;
ghost use Rattle.market_model.specs.Dispatch.{unit_at};
ghost use Rattle.market_system.specs.MarketSystem.{reserve_offered, objective_price, offer_columns, low, high, offered_terms};
ghost use Rattle.market_dict.specs.PricesAndBounds.{AreBounds};

use exact_fraction::{Exact, Passed, exact_sum};
use market_model::{Market, datum, need_quantity, offer_quantity, offer_value, room_quantity};
use plain_list::{List, Memory};
use simplex_core::Bounds;
use std::cmp::Ordering;

/// Adds what a MW of each offer is worth: the opposite of its price.
pub(crate) fn push_offer_prices<N: Exact>(
    market: &Market,
    prices: &mut List<N>,
) -> Result<(), Memory>
    ensures { IfOk result (λ _. map N.value prices.new ≡ map N.value prices.old ++ map (objective_price market.now) (offer_columns market.now)) }
{
    for offer in market.reserve().offers.slice() {
        prices.push(offer_value(offer))?;
    }
    Ok(())
}

/// Adds what each offer may have accepted.
pub(crate) fn push_offer_bounds<N: Exact>(
    market: &Market,
    bounds: &mut List<Bounds<N>>,
) -> Result<(), Memory>
    ensures lows { IfOk result (λ _. map (λ (b : Bounds N). N.value b.low) bounds.new ≡ map (λ (b : Bounds N). N.value b.low) bounds.old ++ map (low market.now) (offer_columns market.now)) }
    ensures highs { IfOk result (λ _. map (λ (b : Bounds N). N.value b.high) bounds.new ≡ map (λ (b : Bounds N). N.value b.high) bounds.old ++ map (high market.now) (offer_columns market.now)) }
{
    let low: N = datum(0);
    for offer in market.reserve().offers.slice() {
        let high = offer_quantity(offer);
        bounds.push(Bounds { low, high })?;
    }
    Ok(())
}

/// The reserve that may be accepted in all.
fn offered<N: Exact>(market: &Market) -> Result<N, Passed<N>>
    ensures offered { IfOk result (λ mw. N.value mw ≡ reserve_offered market.now) }
    ensures stops { IfErr result (λ passed. IsRefusedIn (offered_terms market.now) N.bound (passed_at N.value passed)) }
{
    let mut mw: N = datum(0);
    for offer in market.reserve().offers.slice() {
        mw = exact_sum(mw, offer_quantity(offer))?;
    }
    Ok(mw)
}

/// The bounds of the need: at least that is to be accepted, and at most what is offered, or the need where that is more.
pub(crate) fn need_bounds<N: Exact>(market: &Market) -> Result<Bounds<N>, Passed<N>>
    ensures bounds { IfOk result (λ bounds. AreBounds N.value market.now (variable.Need ∷ []) (bounds ∷ [])) }
    ensures stops { IfErr result (λ passed. IsRefusedIn (offered_terms market.now) N.bound (passed_at N.value passed)) }
{
    let need: N = need_quantity(market.reserve());
    let offered = offered(market)?;
    let high = match offered.order(need) {
        Ordering::Less => need,
        Ordering::Equal => offered,
        Ordering::Greater => offered,
    };
    Ok(Bounds { low: need, high })
}

/// By how much a unit may lower its fixed part in all, in 10^-9 MW.
#[tactic(auto, using(market_data::proofs::Data::datum_read))]
fn room_down<N: Exact>(market: &Market, unit: usize) -> N
    requires { unit < length market.now.units }
    ensures { N.value result ≡ whole (unit_at market.now unit).down }
{
    datum(market.units().at(unit).down)
}

/// The bounds of what a unit uses of its room: by how much it may lower its fixed part, and raise it.
pub(crate) fn room_bounds<N: Exact>(market: &Market, unit: usize) -> Bounds<N>
    requires { Contains (reserve_units market.now) unit }
    ensures { AreBounds N.value market.now (variable.Room unit ∷ []) (result ∷ []) }
{
    let _lines = market.lines();
    let down: N = room_down(market, unit);
    Bounds {
        low: down.neg(),
        high: room_quantity(market, unit),
    }
}
