//! What links carry, told where a guess is close enough.

ghost use Rattle.std.specs.Prelude.{◌≡◌, ℕ, ℤ, pos, ◌^◌, ◌*ℤ◌, ◌<ℤ◌, length, All, Some, IfOk, IfSome};
ghost use Rattle.fraction_theory.specs.Fraction.{Fraction};
ghost use Rattle.exact_fraction.specs.Nearest.{IsNearest};
ghost use Rattle.flow_guess.specs.Links.{link_branch, link_network};
ghost use Rattle.flow_guess.specs.Guesses.{IsGuessOf};
ghost use Rattle.flow_guess.specs.Told.{AreNearest, IsWithin};

use crate::bounds::{Guess, Range, Transfer, all_errors, flow_at};
use crate::links::Link;
use crate::nearest::nearest;
use plain_list::{List, Memory};
use std::alloc::Global;

/// The nearest number of units of what a link carries, where it is known by how many parts the guess is off at most.
fn told(guess: &Guess, link: &Link, error: Option<i128>, part: i128) -> Option<i64>
    requires guess { IsGuessOf guess.now link.now }
    requires part { pos 0 <ℤ part }
    ensures { (places : ℕ) (q : Fraction) → ((e : ℤ) → error ≡ Some e → IsWithin guess.now (link_branch link.now) part places q e) → IfSome result (IsNearest places q) }
{
    let error = error?;
    let flow = flow_at(guess, link)?;
    let least = flow.least.checked_sub(error)?;
    let most = flow.most.checked_add(error)?;
    nearest(&Range { least, most }, part)
}

/// By link, the nearest number of units of what it carries of what goes through; a unit is so many parts.
pub(crate) fn all_told(
    alloc: Global,
    links: &[Link],
    guess: &Guess,
    reference: usize,
    transfer: &Transfer,
    part: i128,
) -> Result<List<Option<i64>>, Memory>
    requires guess { All (IsGuessOf guess.now) links.now }
    requires part { pos 0 <ℤ part }
    ensures count { IfOk result (λ told. length told ≡ length links.now) }
    ensures nearest { IfOk result (λ told. (places : ℕ) → transfer.now.parts ≡ part *ℤ pos (10 ^ places)
        → AreNearest (link_network (length guess.now.angles.items) links.now) reference transfer.now.source transfer.now.sink places links.now told) }
{
    let error = all_errors(links, guess, reference, transfer);
    let mut all = List::new(alloc);
    for link in links {
        all.push(told(guess, link, error, part))?;
    }
    Ok(all)
}
