//! The rows that duals name, in the market's order.

ghost use Rattle.std.specs.Prelude.{◌≡◌, ◌<◌, List, [], ◌∷◌, ◌++◌, length, map, IfOk, None};
ghost use Rattle.std.specs.Map.{lookup};
ghost use Rattle.fraction_theory.specs.Fraction.{Fraction};
ghost use Rattle.market_model.specs.declared.answered.RoomDual.{RoomDual};
ghost use Rattle.market_model.specs.Valued.{dual_at, duals_with};
ghost use Rattle.market_model.specs.LimitRows.{IsCauseOf};
ghost use Rattle.cert_format.specs.Certificates.{NamesNoRowTwice, name_of, same_triple};
ghost use Rattle.cert_sums.specs.Named.{AreNamed};
ghost use Rattle.cert_verify.specs.Naming.{IsNamedAt, entry_of};

use cert_sums::NamedRow;
use exact_fraction::Exact;
use indexmap::IndexMap;
use limit_rows::{name_at, rows};
use market_model::{Dual, List, Market, Memory, Row, RowId};
use std::alloc::Global;

/// Adds a dual under a name that none has yet.
fn add<N: Exact>(
    duals: &mut IndexMap<(u32, u32, u32), Dual<N>>,
    name: (u32, u32, u32),
    dual: Dual<N>,
) -> Result<(), Memory>
    requires { lookup (same_triple name) duals.old.entries ≡ None }
    ensures { IfOk result (λ _. duals.new.entries ≡ duals.old.entries ++ (name, dual) ∷ []) }
{
    if duals.insert(name, dual).is_err() {
        return Err(Memory);
    }
    Ok(())
}

/// The dual of a row, by its name.
fn dual_of<N: Exact>(duals: &IndexMap<(u32, u32, u32), Dual<N>>, row: RowId) -> Option<Dual<N>>
    ensures { result ≡ lookup (same_triple (name_of row)) duals.now.entries }
{
    duals.get(&(row.branch, row.outage, row.unit)).copied()
}

/// Duals by the names of their rows.
pub(crate) fn by_name<N: Exact>(
    alloc: Global,
    limits: &[Dual<N>],
) -> Result<IndexMap<(u32, u32, u32), Dual<N>>, Memory>
    requires { NamesNoRowTwice (map (dual_at N.value) limits.now) }
    ensures { IfOk result (λ duals. duals.entries ≡ map entry_of limits.now) }
{
    let mut duals = IndexMap::new(alloc);
    for dual in limits {
        let row = dual.row;
        add(&mut duals, (row.branch, row.outage, row.unit), *dual)?;
    }
    Ok(duals)
}

/// A row with its two prices, where duals name it.
pub(crate) fn named_at<N: Exact>(
    market: &Market,
    duals: &IndexMap<(u32, u32, u32), Dual<N>>,
    row: Row,
) -> Option<NamedRow<N>>
    requires line { row.line < length market.now.lines }
    requires lost { IsCauseOf market.now row.cause }
    ensures { (ds : List (Dual N)) (energy reserve_price : Fraction) (rooms : List (RoomDual Fraction)) → duals.now.entries ≡ map entry_of ds → IsNamedAt N.value market.now (duals_with energy (map (dual_at N.value) ds) reserve_price rooms) row result }
{
    match dual_of(duals, name_at(market, row)) {
        Some(dual) => Some(NamedRow {
            row,
            up: dual.up,
            down: dual.down,
        }),
        None => None,
    }
}

/// The rows of the market that duals name, in its order, each with its two prices.
pub(crate) fn named_rows<N: Exact>(
    alloc: Global,
    market: &Market,
    limits: &[Dual<N>],
) -> Result<List<NamedRow<N>>, Memory>
    requires { NamesNoRowTwice (map (dual_at N.value) limits.now) }
    ensures { IfOk result (λ named. (energy reserve_price : Fraction) (rooms : List (RoomDual Fraction)) → AreNamed N.value market.now (duals_with energy (map (dual_at N.value) limits.now) reserve_price rooms) named) }
{
    let duals = by_name(alloc, limits)?;
    let mut named = List::new(alloc);
    for row in rows(market) {
        if let Some(entry) = named_at(market, &duals, row) {
            named.push(entry)?;
        }
    }
    Ok(named)
}
