//! Within what bounds flows are, by guessed angles and what these miss.
//!
//! A part is a small share of the 1 that goes from bus to bus. Angles are whole numbers in a unit of which one, over a link of as much
//! reactance as the scale, drives one part.

ghost use Rattle.std.specs.Prelude.{◌≡◌, ◌==◌, pos, ◌+ℤ◌, ◌-ℤ◌, ◌<ℤ◌, ◌<◌, length, All, IfSome, if◌then◌else◌};
ghost use Rattle.std.specs.Int.{int_div_euclid};
ghost use Rattle.fraction_theory.specs.Fraction.{whole, ◌+ℚ◌, ◌-ℚ◌, ◌*ℚ◌};
ghost use Rattle.fraction_theory.specs.Signs.{abs_ℚ};
ghost use Rattle.fraction_theory.specs.Sums.{sum_by};
ghost use Rattle.network_theory.specs.Networks.{net_outflow, others};
ghost use Rattle.network_theory.specs.Carrying.{one_at};
ghost use Rattle.flow_guess.specs.Links.{link_branch, link_network};
ghost use Rattle.flow_guess.specs.Guesses.{IsFlow, IsGuessOf, angle_of, reach, low_flow, high_flow, link_out, error_at, wanted_at};

use crate::links::Link;

/// Whole numbers that something is between.
#[derive(Clone, Copy, Debug)]
pub(crate) struct Range {
    pub least: i128,
    pub most: i128,
}

/// Angles by the places of the buses.
#[derive(Drop, Debug)]
pub(crate) struct Guess {
    /// A divisor of all reactances.
    pub scale: i128,
    pub angles: Vec<i128>,
}

/// The reactance of a link by the scale.
fn reach_of(guess: &Guess, link: &Link) -> i128
    requires { IsGuessOf guess.now link.now }
    ensures above { pos 0 <ℤ result }
    ensures is { result ≡ reach guess.now (link_branch link.now) }
{
    link.reactance / guess.scale
}

/// The greatest whole number that is not above a quotient.
fn floor(a: i128, d: i128) -> i128
    requires { pos 0 <ℤ d }
    ensures { result ≡ int_div_euclid a d }
{
    a.div_euclid(d)
}

/// The angle at a place.
fn angle_at(guess: &Guess, place: usize) -> i128
    requires { place < length guess.now.angles.items }
    ensures { result ≡ angle_of guess.now place }
{
    guess.angles[place]
}

/// What a link carries at the angles, in parts.
pub(crate) fn flow_at(guess: &Guess, link: &Link) -> Option<Range>
    requires { IsGuessOf guess.now link.now }
    ensures { IfSome result (IsFlow guess.now (link_branch link.now)) }
{
    let reach = reach_of(guess, link);
    let from = angle_at(guess, link.from);
    let to = angle_at(guess, link.to);
    let fall = from.checked_sub(to)?;
    let rise = to.checked_sub(from)?;
    let most = floor(rise, reach).checked_neg()?;
    Some(Range {
        least: floor(fall, reach),
        most,
    })
}

/// The same where an end of the link is at the bus, and else nothing.
fn flow_by(guess: &Guess, link: &Link, end: usize, bus: usize) -> Option<Range>
    requires { IsGuessOf guess.now link.now }
    ensures least { IfSome result (λ flow. whole flow.least ≡ (if end == bus then low_flow guess.now (link_branch link.now) else whole (pos 0))) }
    ensures most { IfSome result (λ flow. whole flow.most ≡ (if end == bus then high_flow guess.now (link_branch link.now) else whole (pos 0))) }
{
    if end == bus {
        flow_at(guess, link)
    } else {
        Some(Range { least: 0, most: 0 })
    }
}

/// With what leaves besides by one range and enters by another.
fn plus(range: Range, leaves: Range, enters: Range) -> Option<Range>
    ensures least { IfSome result (λ out. out.least ≡ range.least +ℤ leaves.least -ℤ enters.most) }
    ensures most { IfSome result (λ out. out.most ≡ range.most +ℤ leaves.most -ℤ enters.least) }
{
    let least = range
        .least
        .checked_add(leaves.least)?
        .checked_sub(enters.most)?;
    let most = range
        .most
        .checked_add(leaves.most)?
        .checked_sub(enters.least)?;
    Some(Range { least, most })
}

/// With what leaves the bus besides over a link.
fn with_link(range: Range, guess: &Guess, link: &Link, bus: usize) -> Option<Range>
    requires { IsGuessOf guess.now link.now }
    ensures least { IfSome result (λ out. whole out.least ≡ whole range.least +ℚ link_out bus (low_flow guess.now) (high_flow guess.now) (link_branch link.now)) }
    ensures most { IfSome result (λ out. whole out.most ≡ whole range.most +ℚ link_out bus (high_flow guess.now) (low_flow guess.now) (link_branch link.now)) }
{
    if link.from != bus && link.to != bus {
        return Some(range);
    }
    let leaves = flow_by(guess, link, link.from, bus)?;
    let enters = flow_by(guess, link, link.to, bus)?;
    plus(range, leaves, enters)
}

/// What leaves a bus at the angles, in parts.
fn outflow(links: &[Link], guess: &Guess, bus: usize) -> Option<Range>
    requires { All (IsGuessOf guess.now) links.now }
    ensures least { IfSome result (λ out. whole out.least ≡ net_outflow (link_network (length guess.now.angles.items) links.now) (low_flow guess.now) (high_flow guess.now) bus) }
    ensures most { IfSome result (λ out. whole out.most ≡ net_outflow (link_network (length guess.now.angles.items) links.now) (high_flow guess.now) (low_flow guess.now) bus) }
{
    let mut range = Range { least: 0, most: 0 };
    for link in links {
        range = with_link(range, guess, link, bus)?;
    }
    Some(range)
}

/// Where so many parts go in, and where they come out.
#[derive(Clone, Copy, Debug)]
pub(crate) struct Transfer {
    pub source: usize,
    pub sink: usize,
    pub parts: i128,
}

/// The parts at one place, and nothing elsewhere.
fn parts_at(transfer: &Transfer, place: usize, bus: usize) -> i128
    ensures { whole result ≡ whole transfer.now.parts *ℚ one_at place bus }
{
    if place == bus { transfer.parts } else { 0 }
}

/// What is to be put in at a bus, in parts.
fn wanted(transfer: &Transfer, bus: usize) -> Option<i128>
    ensures { IfSome result (λ parts. whole parts ≡ wanted_at transfer.now bus) }
{
    let goes_in = parts_at(transfer, transfer.source, bus);
    let comes_out = parts_at(transfer, transfer.sink, bus);
    goes_in.checked_sub(comes_out)
}

/// The size of a difference.
fn apart(a: i128, b: i128) -> Option<i128>
    ensures { IfSome result (λ size. whole size ≡ abs_ℚ (whole a -ℚ whole b)) }
{
    a.checked_sub(b)?.checked_abs()
}

/// How far off a bus can be at the angles, in parts; nothing for the reference, which takes what the others leave.
fn error(
    links: &[Link],
    guess: &Guess,
    reference: usize,
    transfer: &Transfer,
    bus: usize,
) -> Option<i128>
    requires { All (IsGuessOf guess.now) links.now }
    ensures { IfSome result (λ parts. whole parts ≡ (if bus == reference then whole (pos 0) else error_at (link_network (length guess.now.angles.items) links.now) guess.now transfer.now bus)) }
{
    if bus == reference {
        return Some(0);
    }
    let out = outflow(links, guess, bus)?;
    let put_in = wanted(transfer, bus)?;
    apart(put_in, out.least)?.checked_add(apart(out.most, put_in)?)
}

/// How far off all buses but the reference can be in sum.
pub(crate) fn all_errors(
    links: &[Link],
    guess: &Guess,
    reference: usize,
    transfer: &Transfer,
) -> Option<i128>
    requires { All (IsGuessOf guess.now) links.now }
    ensures { IfSome result (λ parts. whole parts ≡ sum_by (error_at (link_network (length guess.now.angles.items) links.now) guess.now transfer.now) (others (link_network (length guess.now.angles.items) links.now) reference)) }
{
    let mut sum: i128 = 0;
    for bus in 0..guess.angles.len() {
        sum = sum.checked_add(error(links, guess, reference, transfer, bus)?)?;
    }
    Some(sum)
}
