//! The lines of a network, and their factors.

ghost use Rattle.std.specs.Prelude.{◌≡◌, ℕ, ◌++◌, All, IfOk, map};
ghost use Rattle.factor_tables.specs.Factors.{factor_at};
ghost use Rattle.market_model.specs.Lines.{IsPenalty};
ghost use Rattle.refusal_text.specs.declared.refusals.Input.TheVariants as input;
ghost use Rattle.refusal_text.specs.declared.refusals.Refusal.TheVariants as refusal;
ghost use Rattle.market_inputs.specs.Clearing.{AreLinesOf, AreListedLines, ArePricedLines, AreSmall, IsTabled, factors_of_line, line_of, softness_for, named_factors, unless_0};
ghost use Rattle.market_inputs.specs.Files.{sized};
ghost use Rattle.market_inputs.specs.Stops.{IsToldAs};

use crate::stops::InputStop;
use crate::tables::{offset_table, penalty_table};
use factor_tables::{ByBus, ByOutage, FactorTable, Offsets, Penalties, Softness, TableKind};
use market_model::{Bus, Factor, Line, List, Memory};
use net_case::{NetBranch, Network};
use std::alloc::Global;

/// The penalty of a branch's limit, after an outage or in the base; one of nothing where it has no record.
#[tactic(auto, using(crate::proofs::MarketLemmas::penalty_is))]
fn softness_for(penalties: &Penalties, row: u32, post: bool) -> Softness
    ensures penalty { IsPenalty result.price result.most_excess }
    ensures is { result ≡ softness_for penalties.now row post }
{
    penalties.softness(row, post).unwrap_or(Softness {
        price: 0,
        most_excess: 0,
    })
}

/// A live branch as a line.
fn line_of(branch: &NetBranch, offsets: &Offsets, penalties: &Penalties) -> Line
    ensures tabled { IsTabled result }
    ensures is { result ≡ line_of offsets.now penalties.now branch.now }
{
    let base = softness_for(penalties, branch.row, false);
    let post = softness_for(penalties, branch.row, true);
    Line {
        row: branch.row,
        base: branch.base,
        post: branch.post,
        base_price: base.price,
        base_excess: base.most_excess,
        post_price: post.price,
        post_excess: post.most_excess,
        offset: offsets.offset(branch.row).unwrap_or(0),
    }
}

/// The lines of live branches.
fn lines_of(
    alloc: Global,
    branches: &[NetBranch],
    offsets: &Offsets,
    penalties: &Penalties,
) -> Result<List<Line>, Memory>
    ensures tabled { IfOk result (All IsTabled) }
    ensures are { IfOk result (λ lines. lines ≡ map (line_of offsets.now penalties.now) branches.now) }
{
    let mut lines = List::new(alloc);
    for branch in branches {
        lines.push(line_of(branch, offsets, penalties))?;
    }
    Ok(lines)
}

/// The lines of a network with these offsets, and with the penalties of a table.
fn priced_lines(
    alloc: Global,
    network: &Network,
    offsets: &Offsets,
    bytes: &[u8],
) -> Result<List<Line>, InputStop>
    ensures told { IsToldAs (ArePricedLines network.now offsets.now (sized (refusal.TooLong input.Penalties) bytes.now)) result }
    ensures kept { IfOk result (AreLinesOf network.now) }
{
    let penalties = penalty_table(alloc, network, bytes)?;
    Ok(lines_of(alloc, network.branches().slice(), offsets, &penalties)?)
}

/// The lines of a network with the offsets and the penalties of two tables. The offsets are read first.
pub(crate) fn line_list(
    alloc: Global,
    network: &Network,
    offsets: &[u8],
    penalties: &[u8],
) -> Result<List<Line>, InputStop>
    ensures told { IsToldAs (AreListedLines network.now (sized (refusal.TooLong input.Offsets) offsets.now) (sized (refusal.TooLong input.Penalties) penalties.now)) result }
    ensures kept { IfOk result (AreLinesOf network.now) }
{
    let offsets = offset_table(alloc, network, offsets)?;
    priced_lines(alloc, network, &offsets, penalties)
}

/// Adds a factor that is not 0.
fn push_factor(factors: &mut List<Factor>, factor: Factor) -> Result<(), Memory>
    ensures { IfOk result (λ _. factors.new ≡ factors.old ++ unless_0 factor) }
{
    if factor.value == 0 {
        return Ok(());
    }
    factors.push(factor)
}

/// What a column of a table of factors is of.
pub(crate) trait Named {
    /// The kind of the tables that have such columns.
    type Column: TableKind;

    ghost name: { Self → ℕ };

    /// The number of a bus, or the row of a branch.
    fn name(&self) -> u32
        ensures { result ≡ name self.now };
}

impl Named for Bus {
    type Column = ByBus;

    ghost name = { λ bus. bus.number };

    fn name(&self) -> u32 {
        self.number
    }
}

impl Named for NetBranch {
    type Column = ByOutage;

    ghost name = { λ branch. branch.row };

    fn name(&self) -> u32 {
        self.row
    }
}

/// Adds the factors of a line in the columns of these. The records are looked for from a place on, and that behind the last one found
/// is the answer.
fn push_factors<T: Named>(
    factors: &mut List<Factor>,
    line: usize,
    row: u32,
    others: &[T],
    table: &FactorTable<T::Column>,
    place: usize,
) -> Result<usize, Memory>
    requires { AreSmall factors.old }
    ensures small { IfOk result (λ _. AreSmall factors.new) }
    ensures are { IfOk result (λ _. factors.new ≡ factors.old ++ factors_of_line (λ other. factor_at table.now.entries (row, T.name other)) line others.now) }
{
    let mut place = place;
    for (of, other) in others.iter().enumerate() {
        let (value, behind) = table.factor_near(place, row, other.name());
        place = behind;
        push_factor(factors, Factor { line, of, value })?;
    }
    Ok(place)
}

/// The factors of live branches in the columns of these.
pub(crate) fn factors_of<T: Named>(
    alloc: Global,
    branches: &[NetBranch],
    others: &[T],
    table: &FactorTable<T::Column>,
) -> Result<List<Factor>, Memory>
    ensures small { IfOk result AreSmall }
    ensures are { IfOk result (λ factors. factors ≡ named_factors T.name table.now.entries branches.now others.now) }
{
    let mut factors = List::new(alloc);
    let mut place = 0;
    for (line, branch) in branches.iter().enumerate() {
        place = push_factors(&mut factors, line, branch.row, others, table, place)?;
    }
    Ok(factors)
}
