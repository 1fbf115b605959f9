//! Guesses that are made better until they are as good as whole numbers can be.

ghost use Rattle.std.specs.Prelude.{◌≡◌, pos, ◌<ℤ◌, int_rem, length, All, IfOk};
ghost use Rattle.flow_guess.specs.Links.{IsLink};
ghost use Rattle.flow_guess.specs.Guesses.{IsGuessOf};

use crate::bounds::{Guess, Transfer, flow_at};
use crate::elimination::{Elimination, angle_of_bus, angles_of};
use crate::floats::{size, to_float, to_whole};
use crate::links::Link;
use plain_list::Memory;
use std::alloc::Global;

/// How often a guess is made better at most; each time it has some ten digits more.
const ROUNDS: usize = 8;

fn zeros(alloc: Global, count: usize) -> Result<Vec<i128>, Memory>
    ensures { IfOk result (λ zeros. length zeros.items ≡ count) }
{
    match vec![in alloc; 0i128; count] {
        Ok(zeros) => Ok(zeros),
        Err(_) => Err(Memory),
    }
}

fn add(numbers: &mut Vec<i128>, place: usize, n: i128)
    ensures { length numbers.new.items ≡ length numbers.old.items }
{
    if place < numbers.len() {
        numbers[place] = numbers[place].wrapping_add(n);
    }
}

/// What each bus misses of what is to be put in there, in parts.
fn misses(
    alloc: Global,
    links: &[Link],
    guess: &Guess,
    transfer: &Transfer,
) -> Result<Vec<i128>, Memory>
    requires { All (IsGuessOf guess.now) links.now }
{
    let mut misses = zeros(alloc, guess.angles.len())?;
    add(&mut misses, transfer.source, transfer.parts);
    add(&mut misses, transfer.sink, transfer.parts.wrapping_neg());
    for link in links {
        if let Some(flow) = flow_at(guess, link) {
            add(&mut misses, link.from, flow.least.wrapping_neg());
            add(&mut misses, link.to, flow.least);
        }
    }
    Ok(misses)
}

/// What all buses but the reference miss.
fn size_of(misses: &[i128], reference: usize) -> f64 {
    let mut sum = 0.0;
    for (bus, miss) in misses.iter().enumerate() {
        if bus != reference {
            sum += size(to_float(*miss));
        }
    }
    sum
}

/// A guess with the angles besides that put in what is missed.
fn better(
    alloc: Global,
    guess: &Guess,
    elimination: &Elimination,
    misses: &[i128],
) -> Result<Guess, Memory>
    ensures scale { IfOk result (λ better. better.scale ≡ guess.now.scale) }
    ensures count { IfOk result (λ better. length better.angles.items ≡ length guess.now.angles.items) }
{
    let mut injections = Vec::new(alloc);
    for miss in misses {
        match injections.push(to_float(*miss)) {
            Ok(()) => {}
            Err(_) => return Err(Memory),
        }
    }
    let steps = angles_of(alloc, elimination, &injections)?;
    let mut angles = zeros(alloc, guess.angles.len())?;
    for bus in 0..angles.len() {
        let step = to_whole(angle_of_bus(elimination, &steps, bus));
        angles[bus] = guess.angles[bus].wrapping_add(step);
    }
    Ok(Guess {
        scale: guess.scale,
        angles,
    })
}

/// A guess of the angles for a transfer.
pub(crate) fn guess_of(
    alloc: Global,
    buses: usize,
    reference: usize,
    links: &[Link],
    scale: i128,
    elimination: &Elimination,
    transfer: &Transfer,
) -> Result<Guess, Memory>
    requires links { All (IsLink buses) links.now }
    requires above { pos 0 <ℤ scale }
    requires divides { All (λ link. int_rem link.reactance scale ≡ pos 0) links.now }
    ensures { IfOk result (λ guess. (guess.scale ≡ scale) × (length guess.angles.items ≡ buses)) }
{
    let mut guess = Guess {
        scale,
        angles: zeros(alloc, buses)?,
    };
    let mut missed = misses(alloc, links, &guess, transfer)?;
    for _ in 0..ROUNDS {
        let next = better(alloc, &guess, elimination, &missed)?;
        let next_missed = misses(alloc, links, &next, transfer)?;
        if size_of(&next_missed, reference) >= size_of(&missed, reference) {
            return Ok(guess);
        }
        guess = next;
        missed = next_missed;
    }
    Ok(guess)
}
