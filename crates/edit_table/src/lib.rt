//! The table of edits and clears of a market.
#![tactic(auto)]

ghost use Rattle.std.specs.Prelude.{◌≡◌, ◌≢◌, ◌+◌, ◌<◌, ◌≤◌, ◌^◌, length, get_or, [], Ok, Err, IfOk};
ghost use Rattle.record_reading.specs.Gathering.{read_records};
ghost use Rattle.edit_table.specs.EditTable.{AreSteps, IsStep, form_in, is_bare, is_plain, most_steps, numbers_in, post_in, side_in, step_in, steps_of_table};
ghost use Rattle.edit_table.specs.declared.Form.TheVariants as form;
ghost use Rattle.offer_book.specs.Reserving.{is_empty};

use csv_table::{Table, read_table};
use market_model::{List, MW_PLACES, Memory, PRICE_PLACES, Side};
use offer_book::Edit;
use record_reading::FrameFault;
use std::alloc::Global;
use thiserror::Error;

/// The most records of the table.
const MOST_STEPS: usize = 10_000;

/// The header of the table of edits.
pub const EDIT_HEADER: &[&str] = &["op", "target", "side", "block", "value"];

// The columns.
const OP: usize = 0;

const TARGET: usize = 1;

const SIDE: usize = 2;

const BLOCK: usize = 3;

const VALUE: usize = 4;

/// What is done to a market.
#[derive(Clone, Copy, Debug, PartialEq, Eq)]
pub enum Step {
    /// One of its numbers is changed. Its target and its block may name nothing that a market has.
    Edit(Edit),
    /// It is cleared as it is then.
    Clear,
}

/// Steps in the order in which they are done.
pub type Steps = List<Step>;

/// Why a table of edits is refused. A line is a record's place, where the header's is 1.
#[derive(Clone, Copy, Debug, PartialEq, Eq, Error)]
pub enum StepFault {
    #[error("{0}")]
    Frame(FrameFault),
    /// A word that says nothing here, or a cell that is to be empty and is not.
    #[error("the words of line {line} say no step")]
    Word { line: usize },
    #[error("memory was refused")]
    Memory,
}

impl From<FrameFault> for StepFault {
    ghost use Rattle.edit_table.specs.declared.StepFault.TheVariants as step_fault;

    ghost from_gives = { λ frame fault. fault ≡ step_fault.Frame frame };

    fn from(fault: FrameFault) -> StepFault {
        StepFault::Frame(fault)
    }
}

impl From<Memory> for StepFault {
    ghost use Rattle.edit_table.specs.declared.StepFault.TheVariants as step_fault;

    ghost from_gives = { λ _ fault. fault ≡ step_fault.Memory };

    fn from(_refused: Memory) -> StepFault {
        StepFault::Memory
    }
}

/// What a record is, as its words say.
#[derive(Clone, Copy, Debug)]
enum Form {
    Price(Side),
    Quantity(Side),
    Demand,
    Limit { post: bool },
    Need,
    Clear,
}

/// The side of an offer that a record names.
#[tactic(auto, unfolding(crate::specs::EditTable::side_in))]
fn side_of(table: &Table, place: usize) -> Option<Side>
    requires { place < length table.now }
    ensures { result ≡ side_in (get_or table.now place []) }
{
    let side = table.cell(place, SIDE);
    if side == b"sell".as_slice() {
        Some(Side::Sell)
    } else if side == b"buy".as_slice() {
        Some(Side::Buy)
    } else {
        None
    }
}

/// Whether the limit that a record names is the one after an outage.
#[tactic(auto, unfolding(crate::specs::EditTable::post_in))]
fn post_of(table: &Table, place: usize) -> Option<bool>
    requires { place < length table.now }
    ensures { result ≡ post_in (get_or table.now place []) }
{
    let side = table.cell(place, SIDE);
    if side == b"base".as_slice() {
        Some(false)
    } else if side == b"post".as_slice() {
        Some(true)
    } else {
        None
    }
}

/// Whether a cell is empty.
fn is_empty(table: &Table, place: usize, col: usize) -> bool
    requires { place < length table.now }
    ensures { result ≡ is_empty (get_or table.now place []) col }
{
    table.cell(place, col).is_empty()
}

/// Whether a record has its first word alone.
fn is_bare(table: &Table, place: usize) -> bool
    requires { place < length table.now }
    ensures { result ≡ is_bare (get_or table.now place []) }
{
    is_plain(table, place) && is_empty(table, place, VALUE)
}

/// Whether a record has its first word and its number alone.
fn is_plain(table: &Table, place: usize) -> bool
    requires { place < length table.now }
    ensures { result ≡ is_plain (get_or table.now place []) }
{
    is_empty(table, place, TARGET) && is_empty(table, place, SIDE) && is_empty(table, place, BLOCK)
}

/// What a record is, as its words say: the first cell names it, and those that it has no use for are empty.
#[tactic(auto, unfolding(crate::specs::EditTable::form_in))]
fn form_of(table: &Table, place: usize) -> Option<Form>
    requires { place < length table.now }
    ensures { result ≡ form_in (get_or table.now place []) }
{
    let op = table.cell(place, OP);
    if op == b"price".as_slice() {
        let side = side_of(table, place)?;
        Some(Form::Price(side))
    } else if op == b"quantity".as_slice() {
        let side = side_of(table, place)?;
        Some(Form::Quantity(side))
    } else if op == b"demand".as_slice()
        && is_empty(table, place, SIDE)
        && is_empty(table, place, BLOCK)
    {
        Some(Form::Demand)
    } else if op == b"limit".as_slice() && is_empty(table, place, BLOCK) {
        let post = post_of(table, place)?;
        Some(Form::Limit { post })
    } else if op == b"need".as_slice() && is_plain(table, place) {
        Some(Form::Need)
    } else if op == b"clear".as_slice() && is_bare(table, place) {
        Some(Form::Clear)
    } else {
        None
    }
}

/// The step of a new price of a block.
#[tactic(auto, unfolding(crate::specs::EditTable::numbers_in))]
fn price_step(table: &Table, place: usize, side: Side) -> Result<Step, StepFault>
    requires { (place < length table.now) × (place + 2 < 2 ^ 64) }
    ensures kept { IfOk result IsStep }
    ensures is { result ≡ numbers_in (place + 2) (get_or table.now place []) (form.Price side) }
{
    let unit = table.number(place, TARGET, 0)?;
    let block = table.number(place, BLOCK, 0)?;
    let price = table.number(place, VALUE, PRICE_PLACES)?;
    Ok(Step::Edit(Edit::Price {
        unit,
        side,
        block,
        price,
    }))
}

/// The step of a new quantity of a block.
#[tactic(auto, unfolding(crate::specs::EditTable::numbers_in))]
fn quantity_step(table: &Table, place: usize, side: Side) -> Result<Step, StepFault>
    requires { (place < length table.now) × (place + 2 < 2 ^ 64) }
    ensures kept { IfOk result IsStep }
    ensures is { result ≡ numbers_in (place + 2) (get_or table.now place []) (form.Quantity side) }
{
    let unit = table.number(place, TARGET, 0)?;
    let block = table.number(place, BLOCK, 0)?;
    let mw = table.number(place, VALUE, MW_PLACES)?;
    Ok(Step::Edit(Edit::Quantity {
        unit,
        side,
        block,
        mw,
    }))
}

/// The step of a new load of a bus.
#[tactic(auto, unfolding(crate::specs::EditTable::numbers_in))]
fn demand_step(table: &Table, place: usize) -> Result<Step, StepFault>
    requires { (place < length table.now) × (place + 2 < 2 ^ 64) }
    ensures kept { IfOk result IsStep }
    ensures is { result ≡ numbers_in (place + 2) (get_or table.now place []) form.Demand }
{
    let bus = table.number(place, TARGET, 0)?;
    let mw = table.number(place, VALUE, MW_PLACES)?;
    Ok(Step::Edit(Edit::Demand { bus, mw }))
}

/// The step of a new limit of a branch.
#[tactic(auto, unfolding(crate::specs::EditTable::numbers_in))]
fn limit_step(table: &Table, place: usize, post: bool) -> Result<Step, StepFault>
    requires { (place < length table.now) × (place + 2 < 2 ^ 64) }
    ensures kept { IfOk result IsStep }
    ensures is { result ≡ numbers_in (place + 2) (get_or table.now place []) (form.Limit post) }
{
    let branch = table.number(place, TARGET, 0)?;
    let mw = table.number(place, VALUE, MW_PLACES)?;
    Ok(Step::Edit(Edit::Limit { branch, post, mw }))
}

/// The step of a new need of reserve.
#[tactic(auto, unfolding(crate::specs::EditTable::numbers_in))]
fn need_step(table: &Table, place: usize) -> Result<Step, StepFault>
    requires { (place < length table.now) × (place + 2 < 2 ^ 64) }
    ensures kept { IfOk result IsStep }
    ensures is { result ≡ numbers_in (place + 2) (get_or table.now place []) form.Need }
{
    let mw = table.number(place, VALUE, MW_PLACES)?;
    Ok(Step::Edit(Edit::Need { mw }))
}

/// The step of a record: its words first, then its numbers from left to right.
#[tactic(auto, unfolding(crate::specs::EditTable::numbers_in, crate::specs::EditTable::step_in))]
fn step_of(table: &Table, place: usize) -> Result<Step, StepFault>
    requires { (place < length table.now) × (place + 2 < 2 ^ 64) }
    ensures kept { IfOk result IsStep }
    ensures is { result ≡ step_in (place + 2) (get_or table.now place []) }
{
    match form_of(table, place) {
        Some(Form::Price(side)) => price_step(table, place, side),
        Some(Form::Quantity(side)) => quantity_step(table, place, side),
        Some(Form::Demand) => demand_step(table, place),
        Some(Form::Limit { post }) => limit_step(table, place, post),
        Some(Form::Need) => need_step(table, place),
        Some(Form::Clear) => Ok(Step::Clear),
        None => Err(StepFault::Word { line: place + 2 }),
    }
}

/// The steps of a table's records.
fn steps_of(alloc: Global, table: &Table) -> Result<Steps, StepFault>
    requires { length table.now ≤ most_steps }
    ensures kept { IfOk result AreSteps }
    ensures is { result ≢ Err StepFault.Memory → result ≡ read_records (λ _. step_in) [] 2 table.now }
{
    let mut steps = List::new(alloc);
    for place in 0..table.len() {
        let step = step_of(table, place)?;
        steps.push(step)?;
    }
    Ok(steps)
}

/// Reads a table of edits and clears. Prices are in 10^-6 per MWh, quantities, loads, limits and needs in 10^-9 MW. Whether a step can be
/// done is asked when it is.
pub fn steps(alloc: Global, bytes: &[u8]) -> Result<Steps, StepFault>
    ensures kept { IfOk result AreSteps }
    ensures is { result ≢ Err StepFault.Memory → result ≡ steps_of_table bytes.now }
{
    let table = read_table(alloc, bytes, EDIT_HEADER, Some(MOST_STEPS))??;
    steps_of(alloc, &table)
}
