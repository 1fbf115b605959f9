//! What a clear has in hand between two rounds: the limits and rooms taken, a start over them, and prices and bounds.

ghost use Rattle.std.specs.Prelude.{◌≡◌, List, [], ◌∷◌, ◌++◌, Contains, IfOk, IfErr, Some, false};
ghost use Rattle.market_model.specs.Dispatch.{Dispatch};
ghost use Rattle.market_model.specs.LimitRows.{rows};
ghost use Rattle.market_model.specs.Optimality.{BestFor};
ghost use Rattle.market_system.specs.Growth.{Growth};
ghost use Rattle.market_dict.specs.Holding.{HoldsMarket};
ghost use Rattle.market_dict.specs.PricesAndBounds.{ArePricesAndBounds};
ghost use Rattle.market_dict.specs.Takings.{IsTaking, limits_of, taken_of};
ghost use Rattle.market_dict.specs.declared.taking.Taking.{Taking};
ghost use Rattle.market_dict.specs.declared.taking.Taking.TheVariants as taking;
ghost use Rattle.clear_loop.specs.Growing.{IsNew, IsPassedTaking};
ghost use Rattle.clear_loop.specs.Keeping.{AreListed};
ghost use Rattle.clear_loop.specs.Rounds.{IsInHand, StopsInRange};
ghost use Rattle.clear_loop.specs.Starts.{taken_in};

use dual_restart::Warm;
use exact_fraction::Exact;
use limit_rows::name_at;
use linear_dict::Dict;
use market_dict::{PricesAndBounds, Taking, take_bounds, take_limit, take_room};
use market_model::{Market, Row, RowId, Stop};
use plain_list::{List, Memory};
use std::alloc::Global;

/// What is taken, in the order in which it was, and the limits among it in the same order.
#[derive(Drop)]
pub(crate) struct TakenInOrder {
    pub takings: List<Taking>,
    pub rows: List<Row>,
    pub names: List<RowId>,
}

/// What a round begins with.
#[derive(Drop)]
pub(crate) struct Hand<N: Exact> {
    pub warm: Warm<N>,
    pub posing: PricesAndBounds<N>,
    pub taken: TakenInOrder,
}

/// What is taken, or nothing.
pub(crate) fn taken_or_none(alloc: Global, taken: Option<TakenInOrder>) -> TakenInOrder
    ensures { result ≡ taken_in taken }
{
    match taken {
        Some(taken) => taken,
        None => TakenInOrder {
            takings: List::new(alloc),
            rows: List::new(alloc),
            names: List::new(alloc),
        },
    }
}

/// A start of a dictionary.
pub(crate) fn started<N: Exact>(dict: Dict<N>) -> Warm<N>
    requires { dict.spent ≡ false }
    ensures { result ≡ Some dict }
{
    let mut warm = Warm::new();
    warm.keep(dict);
    warm
}

/// Puts a limit behind what is taken.
fn put_limit(market: &Market, taken: &mut TakenInOrder, row: Row) -> Result<(), Memory>
    requires row { Contains (rows market.now) row }
    requires listed { AreListed market.now taken.old }
    ensures takings { IfOk result (λ _. taken.new.takings ≡ taken.old.takings ++ taking.Limit row ∷ []) }
    ensures listed { IfOk result (λ _. AreListed market.now taken.new) }
{
    let _lines = market.lines();
    let name = name_at(market, row);
    taken.takings.push(Taking::Limit(row))?;
    taken.rows.push(row)?;
    taken.names.push(name)
}

/// Puts a limit or a room behind what is taken.
fn put(market: &Market, taken: &mut TakenInOrder, taking: Taking) -> Result<(), Memory>
    requires taking { IsTaking market.now taking }
    requires listed { AreListed market.now taken.old }
    ensures takings { IfOk result (λ _. taken.new.takings ≡ taken.old.takings ++ taking ∷ []) }
    ensures listed { IfOk result (λ _. AreListed market.now taken.new) }
{
    match taking {
        Taking::Limit(row) => put_limit(market, taken, row),
        Taking::Room(_) => taken.takings.push(taking),
    }
}

/// Puts a limit or a room into a dictionary as the last row. After an error the dictionary is of no use.
fn take<N: Exact>(
    alloc: Global,
    market: &Market,
    dict: &mut Dict<N>,
    taking: Taking,
) -> Result<(), Stop<N>>
    requires taking { IsTaking market.now taking }
    requires holds { (ts : List Taking) × HoldsMarket market.now ts dict.old × IsNew ts taking }
    ensures taken { (ts : List Taking) → HoldsMarket market.now ts dict.old → IfOk result (λ _. HoldsMarket market.now (ts ++ taking ∷ []) dict.new) }
    ensures stops { (ts : List Taking) → HoldsMarket market.now ts dict.old → Growth market.now (limits_of ts) (limits_of (ts ++ taking ∷ [])) → IfErr result (StopsInRange N.value N.bound market.now (limits_of ts)) }
{
    let _lines = market.lines();
    match taking {
        Taking::Limit(row) => take_limit(alloc, market, dict, row),
        Taking::Room(unit) => take_room(alloc, market, dict, unit),
    }
}

/// What is in hand with one limit or room more, which is not among those in hand, and which a best dispatch for them passes.
pub(crate) fn with_taking<N: Exact>(
    alloc: Global,
    market: &Market,
    dict: Dict<N>,
    posing: PricesAndBounds<N>,
    taken: TakenInOrder,
    taking: Taking,
) -> Result<Hand<N>, Stop<N>>
    requires holds { HoldsMarket market.now taken.takings dict }
    requires posing { ArePricesAndBounds N.value market.now taken.takings posing }
    requires listed { AreListed market.now taken }
    requires taking { IsTaking market.now taking }
    requires new { IsNew taken.takings taking }
    requires passed { (x : Dispatch) × BestFor market.now (taken_of taken.takings) x × IsPassedTaking market.now x taking }
    ensures hand { IfOk result (IsInHand N.value market.now) }
    ensures takings { IfOk result (λ hand. hand.taken.takings ≡ taken.takings ++ taking ∷ []) }
    ensures stops { IfErr result (StopsInRange N.value N.bound market.now (limits_of taken.takings)) }
{
    let _lines = market.lines();
    let mut dict = dict;
    let mut posing = posing;
    let mut taken = taken;
    take(alloc, market, &mut dict, taking)?;
    take_bounds(market, &mut posing, taking)?;
    put(market, &mut taken, taking)?;
    Ok(Hand {
        warm: started(dict),
        posing,
        taken,
    })
}
