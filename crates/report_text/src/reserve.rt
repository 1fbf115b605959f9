//! The lines of reserve.

ghost use Rattle.std.specs.Prelude.{◌≡◌, ◌≤◌, ◌++◌, codes, map, IfOk};
ghost use Rattle.line_text.specs.Decimals.{decimal_text};
ghost use Rattle.market_data.specs.Scales.{mw_places};
ghost use Rattle.market_model.specs.Fitting.{FitsMarket};
ghost use Rattle.market_model.specs.Valued.{answer_at, reserve_pay_at, room_dual_at};
ghost use Rattle.fraction_theory.specs.declared.Sign.TheVariants.{Above};
ghost use Rattle.report_text.specs.Reports.{need_text, plain_reserve_text, room_text_by, room_text, offer_text};
ghost use Rattle.report_text.specs.Reports.{lines_of_rooms, lines_of_offers};

use crate::limits::row_number;
use exact_fraction::{Exact, Sign};
use line_text::Text;
use market_model::{
    Answer, List, MONEY_PLACES, MW_PLACES, Market, Memory, PRICE_PLACES, ReservePay, RoomDual,
};

/// How much reserve is needed.
#[tactic(auto, using(std::proofs::Common::append_assoc))]
fn need_words(text: &mut Text, need: i64) -> Result<(), Memory>
    ensures { IfOk result (λ _. text.new ≡ text.old ++ codes " need " ++ decimal_text mw_places need) }
{
    text.word(b" need ")?;
    text.decimal(i128::from(need), MW_PLACES)
}

/// The price of reserve and how much is needed, where reserve is listed.
pub fn need_line<N: Exact>(text: &mut Text, listed: bool, need: i64, price: N) -> Result<(), Memory>
    ensures { IfOk result (λ _. text.new ≡ text.old ++ need_text listed need (N.value price)) }
{
    if !listed {
        return Ok(());
    }
    text.named(b"reserve price ", price, PRICE_PLACES)?;
    need_words(text, need)?;
    text.word(b"\n")
}

/// The price of reserve as a plain number, where reserve is listed.
pub fn reserve_line<N: Exact>(text: &mut Text, listed: bool, price: N) -> Result<(), Memory>
    ensures { IfOk result (λ _. text.new ≡ text.old ++ plain_reserve_text listed (N.value price)) }
{
    if !listed {
        return Ok(());
    }
    text.named(b"reserve dual ", price, 0)?;
    text.word(b"\n")
}

/// The price of a room that has one, of so many places.
fn priced_line<N: Exact>(text: &mut Text, room: &RoomDual<N>, places: u8) -> Result<(), Memory>
    requires { places ≤ 15 }
    ensures { IfOk result (λ _. text.new ≡ text.old ++ room_text_by Above places (room_dual_at N.value room.now)) }
{
    text.word(b"room ")?;
    row_number(text, room.unit)?;
    text.named(b" dual ", room.price, places)?;
    text.word(b"\n")
}

/// The price of a room, of so many places; nothing where it is not above 0.
fn room_line<N: Exact>(text: &mut Text, room: &RoomDual<N>, places: u8) -> Result<(), Memory>
    requires { places ≤ 15 }
    ensures { IfOk result (λ _. text.new ≡ text.old ++ room_text places (room_dual_at N.value room.now)) }
{
    match room.price.sign() {
        Sign::Above => priced_line(text, room, places),
        Sign::Below | Sign::Zero => Ok(()),
    }
}

/// The lines of the rooms with a price, of so many places.
pub fn room_lines<N: Exact>(
    text: &mut Text,
    rooms: &List<RoomDual<N>>,
    places: u8,
) -> Result<(), Memory>
    requires { places ≤ 15 }
    ensures { IfOk result (λ _. text.new ≡ text.old ++ lines_of_rooms places (map (room_dual_at N.value) rooms.now)) }
{
    for room in rooms.slice() {
        room_line(text, room, places)?;
    }
    Ok(())
}

/// The accepted reserve of an offer and what it is paid.
fn offer_line<N: Exact>(text: &mut Text, row: u32, pay: &ReservePay<N>) -> Result<(), Memory>
    ensures { IfOk result (λ _. text.new ≡ text.old ++ offer_text row (reserve_pay_at N.value pay.now)) }
{
    text.word(b"reserve ")?;
    text.number(row as usize)?;
    text.named(b" mw ", pay.mw, MW_PLACES)?;
    text.named(b" paid ", pay.paid, MONEY_PLACES)?;
    text.word(b"\n")
}

/// The lines of the offers of reserve.
pub fn offer_lines<N: Exact>(
    text: &mut Text,
    market: &Market,
    answer: &Answer<N>,
) -> Result<(), Memory>
    requires { FitsMarket market.now answer.now }
    ensures { IfOk result (λ _. text.new ≡ text.old ++ lines_of_offers market.now (answer_at N.value answer.now)) }
{
    let units = market.units().slice();
    for (place, offer) in market.reserve().offers.slice().iter().enumerate() {
        let row = units[offer.unit].row;
        offer_line(text, row, answer.money.reserve.at(place))?;
    }
    Ok(())
}
