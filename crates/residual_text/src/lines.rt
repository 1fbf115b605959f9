//! The lines of residuals.

ghost use Rattle.std.specs.Prelude.{◌≡◌, ◌≤◌, ◌++◌, codes, decimal, IfOk};
ghost use Rattle.line_text.specs.Decimals.{decimal_text};
ghost use Rattle.residual_text.specs.ResidualLines.{place_text, most_line, over_line, residual_lines, residuals_text};

use factor_residuals::{Residual, Spot};
use line_text::Text;
use market_data::{FACTOR_PLACES, SCALED_REACTANCE_PLACES};
use plain_list::Memory;
use std::alloc::Global;

/// Decimal places of a reactance times a ratio, times a factor.
const LOOP_PLACES: u8 = SCALED_REACTANCE_PLACES + FACTOR_PLACES;

/// The bus or the loop of a residual, and the bus or the outage of its column.
#[tactic(auto, using(std::proofs::Common::append_assoc), unfolding(crate::specs::ResidualLines::place_text))]
fn put_place(text: &mut Text, spot: &Spot) -> Result<(), Memory>
    ensures { IfOk result (λ _. text.new ≡ text.old ++ place_text spot.now) }
{
    text.word(b" at ")?;
    text.number(spot.at as usize)?;
    text.word(b" for ")?;
    text.number(spot.of as usize)?;
    text.word(b"\n")
}

#[tactic(auto, using(std::proofs::Common::append_assoc), unfolding(crate::specs::ResidualLines::most_line))]
fn put_most(text: &mut Text, kind: &[u8], places: u8, spot: &Spot) -> Result<(), Memory>
    requires { places ≤ 27 }
    ensures { IfOk result (λ _. text.new ≡ text.old ++ most_line kind.now places spot.now) }
{
    text.word(kind)?;
    text.word(b" most ")?;
    text.decimal(spot.value, places)?;
    put_place(text, spot)
}

#[tactic(auto, using(std::proofs::Common::append_assoc), unfolding(crate::specs::ResidualLines::over_line))]
fn put_over(text: &mut Text, kind: &[u8], places: u8, over: Option<Spot>) -> Result<(), Memory>
    requires { places ≤ 27 }
    ensures { IfOk result (λ _. text.new ≡ text.old ++ over_line kind.now places over) }
{
    text.word(kind)?;
    match over {
        None => text.word(b" within\n"),
        Some(spot) => {
            text.word(b" over ")?;
            text.decimal(spot.value, places)?;
            text.word(b" bound ")?;
            text.decimal(spot.bound, places + 1)?;
            put_place(text, &spot)
        }
    }
}

#[tactic(auto, using(std::proofs::Common::append_assoc), unfolding(crate::specs::ResidualLines::residual_lines))]
fn put_residual(text: &mut Text, kind: &[u8], places: u8, residual: &Residual) -> Result<(), Memory>
    requires { places ≤ 27 }
    ensures { IfOk result (λ _. text.new ≡ text.old ++ residual_lines kind.now places residual.now) }
{
    match residual.most {
        None => {
            text.word(kind)?;
            text.word(b" none\n")
        }
        Some(most) => {
            put_most(text, kind, places, &most)?;
            put_over(text, kind, places, residual.over)
        }
    }
}

/// The residuals of shift factors at the buses and round the loops, then those of outage factors: of each the greatest, and the first
/// that rounding does not explain.
#[tactic(auto, using(std::proofs::Common::append_assoc), unfolding(crate::specs::ResidualLines::residuals_text))]
pub fn residuals_text(
    alloc: Global,
    bus: &Residual,
    round: &Residual,
    outage_bus: &Residual,
    outage_round: &Residual,
) -> Result<Vec<u8>, Memory>
    ensures { IfOk result (λ bytes. bytes.items ≡ residuals_text bus.now round.now outage_bus.now outage_round.now) }
{
    let mut text = Text::new(alloc);
    put_residual(&mut text, b"bus", FACTOR_PLACES, bus)?;
    put_residual(&mut text, b"loop", LOOP_PLACES, round)?;
    put_residual(&mut text, b"outage bus", FACTOR_PLACES, outage_bus)?;
    put_residual(&mut text, b"outage loop", LOOP_PLACES, outage_round)?;
    Ok(text.into_bytes())
}
