//! What is needed and offered of reserve, what is accepted of it, and what units have and use of their rooms, as numbers.

ghost use Rattle.std.specs.Prelude.{◌≡◌, ◌<◌, ℤ, pos, ◌≤ℤ◌, List, true, length, map, IfOk, IfErr};
ghost use Rattle.fraction_theory.specs.Fraction.{Fraction, whole, neg_ℚ};
ghost use Rattle.fraction_theory.specs.Sums.{total};
ghost use Rattle.market_data.specs.Participants.{IsDatum};
ghost use Rattle.market_model.specs.Dispatch.{block_term, blocks_of, dispatch_with};
ghost use Rattle.market_model.specs.NamedSums.{IsRefusedIn};
ghost use Rattle.market_model.specs.PutIn.{dispatch_of};
ghost use Rattle.market_model.specs.Reserves.{offers_among, offers_reserve as offers_reserve_of, reserve as reserve_of, reserve_terms, room, room_terms, room_used as room_used_of};
ghost use Rattle.market_model.specs.Valued.{passed_at};

use crate::amounts::{datum, with_part};
use crate::blocks::by_side;
use crate::{Market, Parts, Reserve, ReserveOffer};
use exact_fraction::{Exact, Passed, exact_sum};

/// How much reserve is needed, in 10^-9 MW.
#[tactic(auto, using(market_data::proofs::Data::datum_read))]
pub fn need_quantity<N: Exact>(reserve: &Reserve) -> N
    requires { pos 0 ≤ℤ reserve.now.need }
    ensures { N.value result ≡ whole reserve.now.need }
{
    datum(reserve.need)
}

/// All that an offer of reserve has, in 10^-9 MW.
#[tactic(auto, using(market_data::proofs::Data::datum_read))]
pub fn offer_quantity<N: Exact>(offer: &ReserveOffer) -> N
    requires { pos 0 ≤ℤ offer.now.quantity }
    ensures { N.value result ≡ whole offer.now.quantity }
{
    datum(offer.quantity)
}

/// Its price, in 10^-6 per MWh.
#[tactic(auto, using(market_data::proofs::Data::datum_read))]
pub fn offer_price<N: Exact>(offer: &ReserveOffer) -> N
    requires { IsDatum offer.now.price }
    ensures { N.value result ≡ whole offer.now.price }
{
    datum(offer.price)
}

/// What accepting a MW of it is worth, in 10^-6 per MWh: the opposite of its price.
pub fn offer_value<N: Exact>(offer: &ReserveOffer) -> N
    requires { IsDatum offer.now.price }
    ensures { N.value result ≡ neg_ℚ (whole offer.now.price) }
{
    let price: N = offer_price(offer);
    price.neg()
}

/// The room of the unit at a place, in 10^-9 MW: by how much it may raise its fixed part in all.
#[tactic(auto, using(market_data::proofs::Data::datum_read))]
pub fn room_quantity<N: Exact>(market: &Market, unit: usize) -> N
    requires { unit < length market.now.units }
    ensures room { N.value result ≡ room market.now unit }
    ensures least { (mw : ℤ) × (pos 0 ≤ℤ mw) × (N.value result ≡ whole mw) }
{
    datum(market.units().at(unit).up)
}

/// Whether one of these offers is of a unit.
pub fn is_offered(offers: &[ReserveOffer], unit: usize) -> bool
    ensures { result ≡ offers_among offers.now unit }
{
    for offer in offers {
        if offer.unit == unit {
            return true;
        }
    }
    false
}

/// Whether the unit at a place offers reserve.
pub fn offers_reserve(market: &Market, unit: usize) -> bool
    ensures { result ≡ offers_reserve_of market.now unit }
{
    is_offered(market.reserve().offers.slice(), unit)
}

/// The reserve that is accepted in all, of what is accepted of each offer, in 10^-9 MW.
pub fn reserve_in_all<N: Exact>(reserve: &[N]) -> Result<N, Passed<N>>
    ensures sum { (m : Parts) (blocks : List Fraction) → length reserve.now ≡ length m.reserve.offers → IfOk result (λ sum. N.value sum ≡ reserve_of m (dispatch_with blocks (map N.value reserve.now))) }
    ensures stops { (m : Parts) (blocks : List Fraction) → length reserve.now ≡ length m.reserve.offers → IfErr result (λ passed. IsRefusedIn (reserve_terms m (dispatch_with blocks (map N.value reserve.now))) N.bound (passed_at N.value passed)) }
{
    let mut sum: N = datum(0);
    for mw in reserve {
        sum = exact_sum(sum, *mw)?;
    }
    Ok(sum)
}

/// By how much the blocks of a unit raise its output, whatever reserve is accepted beside.
fn raised<N: Exact>(market: &Market, unit: usize, dispatch: &[N]) -> Result<N, Passed<N>>
    requires { length dispatch.now ≡ length market.now.blocks }
    ensures sum { IfOk result (λ mw. N.value mw ≡ total (map (block_term market.now (dispatch_of N.value dispatch.now)) (blocks_of market.now unit))) }
    ensures stops { (reserve : List Fraction) → IfErr result (λ passed. IsRefusedIn (room_terms market.now (dispatch_with (map N.value dispatch.now) reserve) unit) N.bound (passed_at N.value passed)) }
{
    let mut mw: N = datum(0);
    for (at, block) in market.blocks().slice().iter().enumerate() {
        mw = with_part(mw, by_side(block.side, dispatch[at]), block.unit == unit)?;
    }
    Ok(mw)
}

/// What a unit uses of its room, in 10^-9 MW: what it sells, less what it buys, and its reserve.
pub fn room_used<N: Exact>(
    market: &Market,
    unit: usize,
    dispatch: &[N],
    reserve: &[N],
) -> Result<N, Passed<N>>
    requires dispatch { length dispatch.now ≡ length market.now.blocks }
    requires reserve { length reserve.now ≡ length market.now.reserve.offers }
    ensures used { let x = dispatch_with (map N.value dispatch.now) (map N.value reserve.now) in IfOk result (λ used. N.value used ≡ room_used_of market.now x unit) }
    ensures stops { let x = dispatch_with (map N.value dispatch.now) (map N.value reserve.now) in IfErr result (λ passed. IsRefusedIn (room_terms market.now x unit) N.bound (passed_at N.value passed)) }
{
    let mut mw = raised(market, unit, dispatch)?;
    for (at, offer) in market.reserve().offers.slice().iter().enumerate() {
        mw = with_part(mw, reserve[at], offer.unit == unit)?;
    }
    Ok(mw)
}
