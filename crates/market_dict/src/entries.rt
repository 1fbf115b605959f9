//! What blocks, offers of reserve, and the columns of soft limits, count in the rows of a dictionary.

ghost use Rattle.std.specs.Prelude.{◌≡◌, ◌<◌, ◌≤◌, ◌+◌, List, [], ◌∷◌, ◌++◌, length, map, replicate, Contains, IfOk, IfErr};
ghost use Rattle.market_model.specs.Dispatch.{places, signed_by_side};
ghost use Rattle.market_model.specs.LimitRows.{rows, unit_factor};
ghost use Rattle.market_model.specs.Stops.{StopsBy};
ghost use Rattle.market_model.specs.SumTables.{FactorSum, IsRefusedAmong};
ghost use Rattle.market_model.specs.Valued.{passed_at};
ghost use Rattle.market_model.specs.declared.limits.Row.{Row};
ghost use Rattle.market_system.specs.declared.variables.Variable.TheVariants as variable;
ghost use Rattle.market_system.specs.MarketSystem.{block_sign, block_coefficient, at_unit, coefficient, limit_coefficient, room_coefficient, block_columns, excess_columns, offer_columns};
ghost use Rattle.market_dict.specs.Takings.{columns_put, limits_of};
ghost use Rattle.market_dict.specs.declared.taking.Taking.{Taking};
ghost use Rattle.market_dict.specs.declared.taking.Taking.TheVariants as taking;

use exact_fraction::{Exact, Passed};
use limit_rows::{is_soft, unit_factor};
use market_model::{Block, Market, Row, Stop, by_side, datum};
use plain_list::{List, Memory};
use std::alloc::Global;

/// Adds what so many columns count in a row where they count alike.
fn push_alike<N: Exact>(entries: &mut List<N>, columns: usize, entry: N) -> Result<(), Memory>
    ensures { IfOk result (λ _. map N.value entries.new ≡ map N.value entries.old ++ replicate columns (N.value entry)) }
{
    for _ in 0..columns {
        entries.push(entry)?;
    }
    Ok(())
}

/// By how much a MW of each block raises the balance.
fn block_signs<N: Exact>(alloc: Global, market: &Market) -> Result<List<N>, Memory>
    ensures { IfOk result (λ entries. map N.value entries ≡ map (block_sign market.now) (places (length market.now.blocks))) }
{
    let one: N = datum(1);
    let mut entries = List::new(alloc);
    for block in market.blocks().slice() {
        entries.push(by_side(block.side, one))?;
    }
    Ok(entries)
}

/// By how much a MW of each column at the start raises the balance. Offers of reserve raise it by nothing.
pub(crate) fn balance_entries<N: Exact>(alloc: Global, market: &Market) -> Result<List<N>, Memory>
    ensures { IfOk result (λ entries. map N.value entries ≡ map (coefficient market.now variable.Balance) (columns_put market.now [])) }
{
    let mut entries = block_signs(alloc, market)?;
    push_alike(&mut entries, market.reserve().offers.len(), datum(0))?;
    Ok(entries)
}

/// By how much a MW of each column at the start raises the reserve: offers by as much, and blocks by nothing.
pub(crate) fn need_entries<N: Exact>(alloc: Global, market: &Market) -> Result<List<N>, Memory>
    ensures { IfOk result (λ entries. map N.value entries ≡ map (coefficient market.now variable.Need) (columns_put market.now [])) }
{
    let mut entries = List::new(alloc);
    push_alike(&mut entries, market.blocks().len(), datum(0))?;
    push_alike(&mut entries, market.reserve().offers.len(), datum(1))?;
    Ok(entries)
}

/// By how much a MW of a block raises the flow of a limit.
fn row_entry<N: Exact>(market: &Market, row: Row, block: &Block) -> Result<N, Passed<N>>
    requires row { Contains (rows market.now) row }
    requires unit { block.now.unit < length market.now.units }
    ensures entry { IfOk result (λ entry. N.value entry ≡ signed_by_side block.now.side (unit_factor market.now row block.now.unit)) }
    ensures stops { IfErr result (λ passed. IsRefusedAmong (FactorSum market.now row) N.bound (passed_at N.value passed)) }
{
    let _lines = market.lines();
    Ok(by_side(block.side, unit_factor(market, row, block.unit)?))
}

/// By how much a MW of each block raises the flow of a limit.
fn block_entries<N: Exact>(alloc: Global, market: &Market, row: Row) -> Result<List<N>, Stop<N>>
    requires row { Contains (rows market.now) row }
    ensures entries { IfOk result (λ entries. map N.value entries ≡ map (block_coefficient market.now row) (places (length market.now.blocks))) }
    ensures stops { IfErr result (StopsBy N.value (IsRefusedAmong (FactorSum market.now row) N.bound)) }
{
    let mut entries = List::new(alloc);
    for block in market.blocks().slice() {
        entries.push(row_entry(market, row, block)?)?;
    }
    Ok(entries)
}

/// Adds what a limit's own two columns count in it, where it is soft.
fn push_own<N: Exact>(market: &Market, entries: &mut List<N>, row: Row) -> Result<(), Memory>
    requires row { Contains (rows market.now) row }
    ensures { IfOk result (λ _. map N.value entries.new ≡ map N.value entries.old ++ map (limit_coefficient market.now row) (excess_columns market.now (row ∷ []))) }
{
    let _lines = market.lines();
    if !is_soft(market, row) {
        return Ok(());
    }
    let one: N = datum(1);
    entries.push(one.neg())?;
    entries.push(one)?;
    Ok(())
}

/// By how much a MW of each column raises a limit that is taken as the next one, where there are so many columns before its own.
pub(crate) fn row_entries<N: Exact>(
    alloc: Global,
    market: &Market,
    row: Row,
    columns: usize,
) -> Result<List<N>, Stop<N>>
    requires row { Contains (rows market.now) row }
    requires columns { length market.now.blocks ≤ columns }
    ensures entries { (ts : List Taking) → ¬ (Contains (limits_of ts) row) → columns ≡ length (columns_put market.now ts)
        → IfOk result (λ entries. map N.value entries ≡ map (coefficient market.now (variable.Limit row)) (columns_put market.now (ts ++ taking.Limit row ∷ []))) }
    ensures stops { IfErr result (StopsBy N.value (IsRefusedAmong (FactorSum market.now row) N.bound)) }
{
    let _lines = market.lines();
    let mut entries = block_entries(alloc, market, row)?;
    push_alike(&mut entries, columns - market.blocks().len(), datum(0))?;
    push_own(market, &mut entries, row)?;
    Ok(entries)
}

/// A number where one unit is another, and else 0.
fn at_unit<N: Exact>(unit: usize, other: usize, number: N) -> N
    ensures { N.value result ≡ at_unit unit other (N.value number) }
{
    if other == unit { number } else { datum(0) }
}

/// Adds by how much a MW of each block raises what a unit uses of its room.
fn push_block_uses<N: Exact>(
    market: &Market,
    entries: &mut List<N>,
    unit: usize,
) -> Result<(), Memory>
    ensures { IfOk result (λ _. map N.value entries.new ≡ map N.value entries.old ++ map (room_coefficient market.now unit) (block_columns market.now)) }
{
    let one: N = datum(1);
    for block in market.blocks().slice() {
        entries.push(at_unit(unit, block.unit, by_side(block.side, one)))?;
    }
    Ok(())
}

/// Adds the same of each offer of reserve.
fn push_offer_uses<N: Exact>(
    market: &Market,
    entries: &mut List<N>,
    unit: usize,
) -> Result<(), Memory>
    ensures { IfOk result (λ _. map N.value entries.new ≡ map N.value entries.old ++ map (room_coefficient market.now unit) (offer_columns market.now)) }
{
    let one: N = datum(1);
    for offer in market.reserve().offers.slice() {
        entries.push(at_unit(unit, offer.unit, one))?;
    }
    Ok(())
}

/// By how much a MW of each column raises what a unit uses of its room, where there are so many columns.
pub(crate) fn room_entries<N: Exact>(
    alloc: Global,
    market: &Market,
    unit: usize,
    columns: usize,
) -> Result<List<N>, Memory>
    requires columns { length market.now.blocks + length market.now.reserve.offers ≤ columns }
    ensures { (ts : List Taking) → columns ≡ length (columns_put market.now ts)
        → IfOk result (λ entries. map N.value entries ≡ map (coefficient market.now (variable.Room unit)) (columns_put market.now ts)) }
{
    let mut entries = List::new(alloc);
    push_block_uses(market, &mut entries, unit)?;
    push_offer_uses(market, &mut entries, unit)?;
    let first = market.blocks().len() + market.reserve().offers.len();
    push_alike(&mut entries, columns - first, datum(0))?;
    Ok(entries)
}
