//! What is told of a case and of what was made of it.

ghost use Rattle.std.specs.Prelude.{◌≡◌, ◌++◌, ◌≤◌, ◌≤ℤ◌, codes, decimal, length, pos, IfOk};
ghost use Rattle.std.specs.List.{filter, flat_map};
ghost use Rattle.market_data.specs.Participants.{IsDatum};
ghost use Rattle.market_data.specs.Scales.{most_lines};
ghost use Rattle.preparation.specs.Lines.{each_post_line, has_range, limited, limited_line, limiting_line, must_run, must_run_line, must_run_of, offers_line, no_steps_line, outages_line, penalties_line, post_count, post_line, post_lines, prepared_text, radial_line, rating_letter, ratings_lines, rounded_words, share_text, soft_line, steps_lines};

use crate::parts::{Prepared, Wanted};
use case_text::RawCase;
use factor_tables::Softness;
use line_text::Text;
use market_data::{MW_PLACES, Unit, UnitList};
use net_case::{Branches, NetBranch, NetFault, Network, PostRating, network};
use outage_choice::OutageChoice;
use plain_list::Memory;
use std::alloc::Global;
use unit_offers::UnitOffers;

/// A word, a number and another word.
#[tactic(auto, using(std::proofs::Common::append_assoc))]
fn put_counted(text: &mut Text, word: &[u8], number: usize, unit: &[u8]) -> Result<(), Memory>
    ensures { IfOk result (λ _. text.new ≡ text.old ++ (word.now ++ decimal number ++ unit.now)) }
{
    text.word(word)?;
    text.number(number)?;
    text.word(unit)
}

/// Whether a unit's output may be changed at all.
fn has_range(unit: &Unit) -> bool
    ensures { result ≡ has_range unit.now }
{
    unit.up > 0 || unit.down > 0
}

/// How many units have a range.
fn ranged_count(units: &[Unit]) -> usize
    ensures { result ≡ length (filter has_range units.now) }
{
    units.iter().filter(|unit| has_range(unit)).count()
}

/// How many prices were rounded, where some were.
#[tactic(auto, using(std::proofs::Common::append_assoc), unfolding(crate::specs::Lines::rounded_words))]
fn put_rounded(text: &mut Text, rounded: usize) -> Result<(), Memory>
    ensures { IfOk result (λ _. text.new ≡ text.old ++ rounded_words rounded) }
{
    if rounded == 0 {
        return Ok(());
    }
    put_counted(text, b" rounded ", rounded, b"")
}

/// A line for a unit that has no steps.
fn put_no_step(text: &mut Text, unit: &Unit) -> Result<(), Memory>
    ensures { IfOk result (λ _. text.new ≡ text.old ++ no_steps_line unit.now) }
{
    if has_range(unit) {
        return Ok(());
    }
    put_counted(text, b"no-steps ", unit.row as usize, b"\n")
}

/// A line for each of them.
fn put_no_steps(text: &mut Text, units: &[Unit]) -> Result<(), Memory>
    ensures { IfOk result (λ _. text.new ≡ text.old ++ flat_map no_steps_line units.now) }
{
    for unit in units {
        put_no_step(text, unit)?;
    }
    Ok(())
}

/// How many steps there are, of how many units, and the units that have none.
fn put_steps(text: &mut Text, units: &[Unit], offers: &UnitOffers) -> Result<(), Memory>
    ensures { IfOk result (λ _. text.new ≡ text.old ++ steps_lines units.now offers.now) }
{
    put_counted(text, b"offers ", offers.blocks.len(), b" steps of ")?;
    put_counted(text, b"", ranged_count(units), b" units")?;
    put_rounded(text, offers.rounded)?;
    text.word(b"\n")?;
    put_no_steps(text, units)
}

/// The same where offers are wanted.
#[tactic(auto, unfolding(crate::specs::Lines::offers_line))]
fn put_offers(text: &mut Text, units: &UnitList, offers: &Option<UnitOffers>) -> Result<(), Memory>
    ensures { IfOk result (λ _. text.new ≡ text.old ++ offers_line units.now offers.now) }
{
    match offers {
        Some(offers) => put_steps(text, units.units.slice(), offers),
        None => Ok(()),
    }
}

/// A line for each radial branch.
fn put_radial(text: &mut Text, rows: &[u32]) -> Result<(), Memory>
    ensures { IfOk result (λ _. text.new ≡ text.old ++ flat_map radial_line rows.now) }
{
    for row in rows {
        put_counted(text, b"radial ", *row as usize, b"\n")?;
    }
    Ok(())
}

/// How many outages are listed, and the branches that are not.
#[tactic(auto, using(std::proofs::Common::append_assoc), unfolding(crate::specs::Lines::outages_line))]
fn put_outages(text: &mut Text, outages: &Option<OutageChoice>) -> Result<(), Memory>
    ensures { IfOk result (λ _. text.new ≡ text.old ++ outages_line outages.now) }
{
    let Some(choice) = outages else {
        return Ok(());
    };
    put_counted(text, b"outages ", choice.listed.len(), b" listed ")?;
    put_counted(text, b"", choice.radial.len(), b" radial\n")?;
    put_radial(text, choice.radial.slice())
}

/// How many branches have a limit in the base, or after an outage.
fn limited_count(branches: &[NetBranch], post: bool) -> usize
    ensures { result ≡ limited post branches.now }
{
    if post {
        branches
            .iter()
            .filter(|branch| branch.post.is_some())
            .count()
    } else {
        branches
            .iter()
            .filter(|branch| branch.base.is_some())
            .count()
    }
}

/// How many limits have a penalty.
#[tactic(auto, using(std::proofs::Common::append_assoc))]
fn put_soft(text: &mut Text, branches: &[NetBranch]) -> Result<(), Memory>
    requires { length branches.now ≤ most_lines }
    ensures { IfOk result (λ _. text.new ≡ text.old ++ soft_line branches.now) }
{
    let count = limited_count(branches, false) + limited_count(branches, true);
    put_counted(text, b"penalties ", count, b" limits\n")
}

/// The same where penalties are wanted.
#[tactic(auto, unfolding(crate::specs::Lines::penalties_line))]
fn put_penalties(
    text: &mut Text,
    softness: Option<Softness>,
    network: &Network,
) -> Result<(), Memory>
    ensures { IfOk result (λ _. text.new ≡ text.old ++ penalties_line softness network.now) }
{
    match softness {
        Some(_) => put_soft(text, network.branches().slice()),
        None => Ok(()),
    }
}

fn letter(rating: PostRating) -> &'static [u8]
    ensures { result.now ≡ rating_letter rating }
{
    match rating {
        PostRating::A => b"a",
        PostRating::B => b"b",
        PostRating::C => b"c",
    }
}

/// How many branches a rating would limit after an outage.
fn post_count(alloc: Global, raw: &RawCase<'_>, rating: PostRating) -> Result<usize, Memory>
    ensures { IfOk result (λ count. count ≡ post_count rating raw.now) }
{
    match network(alloc, raw, Branches::Read(rating)) {
        Ok(network) => Ok(limited_count(network.branches().slice(), true)),
        Err(NetFault::Memory) => Err(Memory),
        Err(_) => Ok(0),
    }
}

/// How many branches of so many a rating would limit, where it would some.
#[tactic(auto, using(std::proofs::Common::append_assoc))]
fn put_limiting(
    text: &mut Text,
    rating: PostRating,
    count: usize,
    total: usize,
) -> Result<(), Memory>
    ensures { IfOk result (λ _. text.new ≡ text.old ++ limiting_line rating count total) }
{
    if count == 0 {
        return Ok(());
    }
    text.word(b"post-rating ")?;
    text.word(letter(rating))?;
    text.word(b" ")?;
    put_share(text, count, total)
}

/// So many of so many, and the end of the line.
#[tactic(auto, using(std::proofs::Common::append_assoc))]
fn put_share(text: &mut Text, count: usize, total: usize) -> Result<(), Memory>
    ensures { IfOk result (λ _. text.new ≡ text.old ++ share_text count total) }
{
    text.number(count)?;
    put_counted(text, b" of ", total, b"\n")
}

/// A rating that would limit branches after an outage, of so many in all.
fn put_post(
    alloc: Global,
    text: &mut Text,
    raw: &RawCase<'_>,
    total: usize,
    rating: PostRating,
) -> Result<(), Memory>
    ensures { IfOk result (λ _. text.new ≡ text.old ++ post_line raw.now total rating) }
{
    let count = post_count(alloc, raw, rating)?;
    put_limiting(text, rating, count, total)
}

/// Those that would.
#[tactic(auto, using(std::proofs::Common::append_assoc))]
fn put_each_post(
    alloc: Global,
    text: &mut Text,
    raw: &RawCase<'_>,
    total: usize,
) -> Result<(), Memory>
    ensures { IfOk result (λ _. text.new ≡ text.old ++ each_post_line raw.now total) }
{
    put_post(alloc, text, raw, total, PostRating::A)?;
    put_post(alloc, text, raw, total, PostRating::B)?;
    put_post(alloc, text, raw, total, PostRating::C)
}

/// The same where the rating that is asked for limits no branch.
fn put_posts(
    alloc: Global,
    text: &mut Text,
    raw: &RawCase<'_>,
    branches: &[NetBranch],
) -> Result<(), Memory>
    ensures { IfOk result (λ _. text.new ≡ text.old ++ post_lines raw.now branches.now) }
{
    if limited_count(branches, true) != 0 {
        return Ok(());
    }
    put_each_post(alloc, text, raw, branches.len())
}

/// How many branches have limits.
#[tactic(auto, using(std::proofs::Common::append_assoc))]
fn put_limited(text: &mut Text, branches: &[NetBranch]) -> Result<(), Memory>
    ensures { IfOk result (λ _. text.new ≡ text.old ++ limited_line branches.now) }
{
    let total = branches.len();
    put_counted(
        text,
        b"ratings base ",
        limited_count(branches, false),
        b" of ",
    )?;
    text.number(total)?;
    text.word(b" post ")?;
    put_share(text, limited_count(branches, true), total)
}

/// The same, and the ratings that would limit some where none have one after an outage.
#[tactic(auto, using(std::proofs::Common::append_assoc))]
fn put_ratings(
    alloc: Global,
    text: &mut Text,
    raw: &RawCase<'_>,
    branches: &[NetBranch],
) -> Result<(), Memory>
    ensures { IfOk result (λ _. text.new ≡ text.old ++ ratings_lines raw.now branches.now) }
{
    put_limited(text, branches)?;
    put_posts(alloc, text, raw, branches)
}

/// What a unit puts out though none of its blocks is accepted, in 10^-9 MW.
fn must_run_of(unit: &Unit) -> i64
    ensures is { result ≡ must_run_of unit.now }
    ensures least { pos 0 ≤ℤ result }
    ensures datum { IsDatum result }
{
    if unit.fixed > 0 { unit.fixed } else { 0 }
}

/// The same of all units.
fn must_run(units: &[Unit]) -> i128
    ensures { result ≡ must_run units.now }
{
    let mut sum = 0;
    for unit in units {
        sum += i128::from(must_run_of(unit));
    }
    sum
}

/// The same in MW.
#[tactic(auto, using(std::proofs::Common::append_assoc))]
fn put_must_run(text: &mut Text, units: &[Unit]) -> Result<(), Memory>
    ensures { IfOk result (λ _. text.new ≡ text.old ++ must_run_line units.now) }
{
    text.word(b"must-run ")?;
    text.decimal(must_run(units), MW_PLACES)?;
    text.word(b"\n")
}

/// All that is told.
#[tactic(auto, using(std::proofs::Common::append_assoc), unfolding(crate::specs::Lines::prepared_text))]
pub(crate) fn prepared_text(
    alloc: Global,
    wanted: &Wanted,
    prepared: &Prepared<'_>,
) -> Result<Vec<u8>, Memory>
    ensures { IfOk result (λ text. text.items ≡ prepared_text wanted.now prepared.now) }
{
    let mut text = Text::new(alloc);
    let network = &prepared.inputs.network;
    put_offers(&mut text, &prepared.units, &prepared.offers)?;
    put_outages(&mut text, &prepared.outages)?;
    put_penalties(&mut text, wanted.softness, network)?;
    put_ratings(
        alloc,
        &mut text,
        &prepared.inputs.raw,
        network.branches().slice(),
    )?;
    put_must_run(&mut text, prepared.units.units.slice())?;
    Ok(text.into_bytes())
}
