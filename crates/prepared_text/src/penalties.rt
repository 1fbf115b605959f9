//! Writing tables of penalties.

ghost use Rattle.std.specs.Prelude.{◌≡◌, ◌++◌, codes, IfOk};
ghost use Rattle.std.specs.List.{flat_map};
ghost use Rattle.line_text.specs.Decimals.{decimal_text};
ghost use Rattle.market_data.specs.Scales.{mw_places, price_places};
ghost use Rattle.prepared_text.specs.PenaltyText.{branch_lines, limit_word, penalty_line, penalty_text};

use crate::begun::begun;
use factor_tables::{PENALTY_HEADER, Softness};
use line_text::Text;
use market_data::{MW_PLACES, PRICE_PLACES};
use net_case::{NetBranch, Network};
use plain_list::Memory;
use std::alloc::Global;

/// The word of a limit.
fn put_limit(text: &mut Text, post: bool) -> Result<(), Memory>
    ensures { IfOk result (λ _. text.new ≡ text.old ++ limit_word post) }
{
    text.word(if post { b"post" } else { b"base" })
}

/// A price and the excess that it is for.
#[tactic(auto, using(std::proofs::Common::append_assoc))]
fn put_softness(text: &mut Text, softness: Softness) -> Result<(), Memory>
    ensures { IfOk result (λ _. text.new ≡ text.old ++ decimal_text price_places softness.price ++ codes "," ++ decimal_text mw_places softness.most_excess) }
{
    text.decimal(softness.price as i128, PRICE_PLACES)?;
    text.word(b",")?;
    text.decimal(softness.most_excess as i128, MW_PLACES)
}

/// The line of a limit with its penalty.
#[tactic(auto, using(std::proofs::Common::append_assoc))]
fn put_penalty(text: &mut Text, row: u32, post: bool, softness: Softness) -> Result<(), Memory>
    ensures { IfOk result (λ _. text.new ≡ text.old ++ penalty_line ((row, post), softness)) }
{
    text.number(row as usize)?;
    text.word(b",")?;
    put_limit(text, post)?;
    text.word(b",")?;
    put_softness(text, softness)?;
    text.word(b"\n")
}

/// The lines of the limits that a branch has.
fn put_branch(text: &mut Text, branch: &NetBranch, softness: Softness) -> Result<(), Memory>
    ensures { IfOk result (λ _. text.new ≡ text.old ++ branch_lines softness branch.now) }
{
    if branch.base.is_some() {
        put_penalty(text, branch.row, false, softness)?;
    }
    if branch.post.is_some() {
        put_penalty(text, branch.row, true, softness)?;
    }
    Ok(())
}

/// The lines of the limits of branches.
fn put_branches(text: &mut Text, branches: &[NetBranch], softness: Softness) -> Result<(), Memory>
    ensures { IfOk result (λ _. text.new ≡ text.old ++ flat_map (branch_lines softness) branches.now) }
{
    for branch in branches {
        put_branch(text, branch, softness)?;
    }
    Ok(())
}

/// The text of a table of penalties by which each limit of each live branch gives way: the header, then for each branch in order a line
/// for its limit in the base and one for that after an outage, where it has them, with the branch's row, the price (in 10^-6 per MWh) and
/// the most excess (in 10^-9 MW), both as decimals without zeros at their end. Lines end with a line feed.
#[tactic(auto, unfolding(crate::specs::PenaltyText::penalty_text))]
pub fn penalties_text(
    alloc: Global,
    network: &Network,
    price: i64,
    excess: i64,
) -> Result<Vec<u8>, Memory>
    ensures { IfOk result (λ text. text.items ≡ penalty_text network.now (record { price = price; most_excess = excess })) }
{
    let softness = Softness {
        price,
        most_excess: excess,
    };
    let mut text = begun(alloc, PENALTY_HEADER)?;
    put_branches(&mut text, network.branches().slice(), softness)?;
    Ok(text.into_bytes())
}
