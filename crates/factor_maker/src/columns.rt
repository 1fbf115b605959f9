//! Columns by guesses: the nearest units of what each branch carries, where bounds tell them all.

ghost use Rattle.std.specs.Prelude.{◌≡◌, ◌<◌, ◌≤◌, ℕ, length, map, IfOk, IfSome, Some, Option};
ghost use Rattle.market_data.specs.Scales.{place_count};
ghost use Rattle.factor_maker.specs.Columns.{AreTold};

use flow_guess::Guesser;
use market_data::FactorPlaces;
use net_case::{Network, Reactances};
use plain_list::{List, Memory};
use std::alloc::Global;

/// The numbers, where all are told.
fn all_told(alloc: Global, guess: &[Option<i64>]) -> Result<Option<List<i64>>, Memory>
    ensures { IfOk result (λ told. IfSome told (λ units. guess.now ≡ map Some units)) }
{
    let mut units = List::new(alloc);
    for number in guess {
        match number {
            Some(number) => units.push(*number)?,
            None => return Ok(None),
        }
    }
    Ok(Some(units))
}

/// The column of what goes from one bus to another, where a guess tells all of it.
pub(crate) fn guessed_column(
    alloc: Global,
    guesser: &Guesser,
    source: usize,
    sink: usize,
    places: FactorPlaces,
) -> Result<Option<List<i64>>, Memory>
    ensures { IfOk result (λ told. IfSome told (AreTold guesser.now source sink (place_count places))) }
{
    let guess = guesser.carried(alloc, source, sink, places.count())?;
    all_told(alloc, guess.slice())
}
