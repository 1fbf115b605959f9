//! Why a file is refused, and the line that says so.

ghost use Rattle.std.specs.Prelude.{◌≡◌, ◌++◌, codes, decimal, IfOk};
ghost use Rattle.line_text.specs.Decimals.{decimal_text};
ghost use Rattle.refusal_text.specs.Refusals.{field_name, why_name, case_words, net_words, frame_words, table_words, side_text, outage_words, unit_outage_words, lack_words, factor_words, costs_words, row_cost_words, cost_words, unoffered_words, offer_words, reserve_words, rights_words, step_words, key_name, input_name, file_name, fault_words, refusal_words, refusal_line};
ghost use Rattle.market_data.specs.Scales.{share_places};

use case_text::{CaseFault, CostsFault, Field};
use cert_format::Key;
use cost_reading::{CostFault, RowFault};
use edit_table::StepFault;
use factor_tables::{TableFault, Uncovered};
use line_text::Text;
use market_data::SHARE_PLACES;
use net_case::NetFault;
use offer_book::{OfferFault, ReserveFault};
use outage_list::{OutageFault, UnitOutageFault};
use plain_list::{List, Memory};
use record_reading::{FrameFault, Why};
use rights_test::RightsFault;
use scaled_decimal::DecimalFault;
use std::alloc::Global;
use unit_offers::OfferStop;

/// A file that the words may name.
#[derive(Clone, Copy, PartialEq, Eq, Debug)]
pub enum Input {
    Case,
    /// The table of shift factors.
    Ptdf,
    /// The table of outage factors.
    Lodf,
    /// The table of listed outages.
    Contingencies,
    /// The table of outages of units.
    UnitOutages,
    Offers,
    /// The table of reserves.
    Reserves,
    /// The table of offsets.
    Offsets,
    /// The table of penalties.
    Penalties,
    /// The table of transmission rights.
    Rights,
    /// The table of edits and clears.
    Edits,
    /// What shows that a clear came to what it did.
    Certificate,
}

/// Why no tables of factors are made of a case.
#[derive(Clone, Copy, PartialEq, Eq, Debug)]
pub enum FactorFault {
    /// A table would have so many factors, which are too many.
    TooMany { count: usize },
    /// The reactance of the branch of this row, with its ratio, is not above 0.
    NotPositive { branch: u32 },
}

/// Why a file stands for nothing that the program may work on.
#[derive(Debug, Drop)]
pub enum Refusal {
    TooLong(Input),
    /// The text of the case is not as its form asks.
    Case(CaseFault),
    /// The rows of the case are no network.
    Network(NetFault),
    /// The number of the first bus that no live branches join to the first one.
    Split { bus: u32 },
    /// A table of numbers by branch.
    Table(Input, TableFault),
    /// The outages that are asked for.
    Outages(OutageFault),
    /// The outages of units.
    UnitOutages(UnitOutageFault),
    /// What the two tables of factors lack together.
    Uncovered(Uncovered),
    /// What is against making tables of factors.
    Factors(FactorFault),
    /// The costs of the units can't be read.
    Costs(CostsFault),
    /// The case sets no costs of its units.
    NoCosts,
    /// What is against making offers of costs.
    Unoffered(OfferStop),
    Offers(OfferFault),
    /// What units offer of spinning reserve, and the need.
    Reserves(ReserveFault),
    Rights(RightsFault),
    Edits(StepFault),
    /// The first part of a certificate that is at fault.
    Certificate(Key),
}

fn field_word(field: Field) -> &'static [u8]
    ensures { result.now ≡ field_name field }
{
    match field {
        Field::Version => b"version",
        Field::BaseMva => b"baseMVA",
        Field::Bus => b"bus",
        Field::Gen => b"gen",
        Field::Branch => b"branch",
    }
}

fn why_word(why: Why) -> &'static [u8]
    ensures { result.now ≡ why_name why }
{
    match why {
        Why::Decimal(DecimalFault::BadNumber) => b"BadNumber",
        Why::Decimal(DecimalFault::NotFinite) => b"NotFinite",
        Why::Decimal(DecimalFault::TooFine) => b"TooFine",
        Why::Decimal(DecimalFault::OutOfRange) => b"OutOfRange",
        Why::Bounds => b"Bounds",
    }
}

/// A word and a number behind it.
fn numbered(text: &mut Text, word: &[u8], number: usize) -> Result<(), Memory>
    ensures { IfOk result (λ _. text.new ≡ text.old ++ word.now ++ decimal number) }
{
    text.word(word)?;
    text.number(number)
}

/// A fault's name, and the line that it is in.
fn at_line(text: &mut Text, name: &[u8], line: usize) -> Result<(), Memory>
    ensures { IfOk result (λ _. text.new ≡ text.old ++ name.now ++ codes " line " ++ decimal line) }
{
    text.word(name)?;
    numbered(text, b" line ", line)
}

/// A fault's name, and the field that it is of.
fn named(text: &mut Text, name: &[u8], field: Field) -> Result<(), Memory>
    ensures { IfOk result (λ _. text.new ≡ text.old ++ name.now ++ field_name field) }
{
    text.word(name)?;
    text.word(field_word(field))
}

/// A matrix, and how many rows, or which, behind a word.
fn write_rows(
    text: &mut Text,
    name: &[u8],
    field: Field,
    word: &[u8],
    number: usize,
) -> Result<(), Memory>
    ensures { IfOk result (λ _. text.new ≡ text.old ++ name.now ++ field_name field ++ word.now ++ decimal number) }
{
    text.word(name)?;
    text.word(field_word(field))?;
    numbered(text, word, number)
}

#[tactic(auto, using(std::proofs::Common::append_assoc), unfolding(crate::specs::Refusals::case_words))]
fn write_case_fault(text: &mut Text, fault: CaseFault) -> Result<(), Memory>
    ensures { IfOk result (λ _. text.new ≡ text.old ++ case_words fault) }
{
    match fault {
        CaseFault::Code { line } => numbered(text, b"Code line ", line),
        CaseFault::BadToken { at } => numbered(text, b"BadToken at ", at),
        CaseFault::VersionOne => text.word(b"VersionOne"),
        CaseFault::Twice { field } => named(text, b"Twice ", field),
        CaseFault::Ragged { field, row } => write_rows(text, b"Ragged ", field, b" row ", row),
        CaseFault::Narrow { field } => named(text, b"Narrow ", field),
        CaseFault::NoVersion => text.word(b"NoVersion"),
        CaseFault::Missing { field } => named(text, b"Missing ", field),
        CaseFault::Memory => Ok(()),
    }
}

/// A cell's row and column, and why it is at fault.
fn write_place(text: &mut Text, row: usize, col: usize, why: Why) -> Result<(), Memory>
    ensures { IfOk result (λ _. text.new ≡ text.old ++ decimal row ++ codes " col " ++ decimal col ++ codes " " ++ why_name why) }
{
    text.number(row)?;
    numbered(text, b" col ", col)?;
    text.word(b" ")?;
    text.word(why_word(why))
}

#[tactic(auto, using(std::proofs::Common::append_assoc), unfolding(crate::specs::Refusals::net_words))]
fn write_net_fault(text: &mut Text, fault: NetFault) -> Result<(), Memory>
    ensures { IfOk result (λ _. text.new ≡ text.old ++ net_words fault) }
{
    match fault {
        NetFault::TooMany { field, count } => write_rows(
            text,
            b"TooMany ",
            field,
            b" count ",
            count,
        ),
        NetFault::Cell {
            field,
            row,
            col,
            why,
        } => {
            text.word(b"Cell ")?;
            text.word(field_word(field))?;
            text.word(b" row ")?;
            write_place(text, row, col, why)
        }
        NetFault::BusTwice { row } => numbered(text, b"BusTwice row ", row),
        NetFault::NoBus { field, row } => write_rows(text, b"NoBus ", field, b" row ", row),
        NetFault::SameEnds { row } => numbered(text, b"SameEnds row ", row),
        NetFault::NoReference => text.word(b"NoReference"),
        NetFault::MinAboveMax { unit } => {
            text.word(b"MinAboveMax ")?;
            numbered(text, b"unit ", unit as usize)
        }
        NetFault::Memory => Ok(()),
    }
}

/// What every table may have wrong.
#[tactic(auto, using(std::proofs::Common::append_assoc), unfolding(crate::specs::Refusals::frame_words))]
fn write_frame_fault(text: &mut Text, fault: FrameFault) -> Result<(), Memory>
    ensures { IfOk result (λ _. text.new ≡ text.old ++ frame_words fault) }
{
    match fault {
        FrameFault::Header => text.word(b"Header"),
        FrameFault::Width { line } => at_line(text, b"Width", line),
        FrameFault::TooMany { count } => numbered(text, b"TooMany count ", count),
        FrameFault::Cell { line, col, why } => {
            text.word(b"Cell line ")?;
            write_place(text, line, col, why)
        }
    }
}

#[tactic(auto, using(std::proofs::Common::append_assoc), unfolding(crate::specs::Refusals::offer_words))]
fn write_offer_fault(text: &mut Text, fault: OfferFault) -> Result<(), Memory>
    ensures { IfOk result (λ _. text.new ≡ text.old ++ offer_words fault) }
{
    match fault {
        OfferFault::Frame(fault) => write_frame_fault(text, fault),
        OfferFault::Side { line } => at_line(text, b"Side", line),
        OfferFault::NoUnit { line } => at_line(text, b"NoUnit", line),
        OfferFault::Negative { line } => at_line(text, b"Negative", line),
        OfferFault::OutOfOrder { line } => at_line(text, b"OutOfOrder", line),
        OfferFault::OverCapacity { line } => at_line(text, b"OverCapacity", line),
        OfferFault::Memory => Ok(()),
    }
}

#[tactic(auto, using(std::proofs::Common::append_assoc), unfolding(crate::specs::Refusals::reserve_words))]
fn write_reserve_fault(text: &mut Text, fault: ReserveFault) -> Result<(), Memory>
    ensures { IfOk result (λ _. text.new ≡ text.old ++ reserve_words fault) }
{
    match fault {
        ReserveFault::Frame(fault) => write_frame_fault(text, fault),
        ReserveFault::Word { line } => at_line(text, b"Word", line),
        ReserveFault::NoUnit { line } => at_line(text, b"NoUnit", line),
        ReserveFault::Negative { line } => at_line(text, b"Negative", line),
        ReserveFault::Twice { line } => at_line(text, b"Twice", line),
        ReserveFault::Memory => Ok(()),
    }
}

#[tactic(auto, using(std::proofs::Common::append_assoc), unfolding(crate::specs::Refusals::rights_words))]
fn write_rights_fault(text: &mut Text, fault: RightsFault) -> Result<(), Memory>
    ensures { IfOk result (λ _. text.new ≡ text.old ++ rights_words fault) }
{
    match fault {
        RightsFault::Frame(fault) => write_frame_fault(text, fault),
        RightsFault::NoBus { line } => at_line(text, b"NoBus", line),
        RightsFault::Negative { line } => at_line(text, b"Negative", line),
        RightsFault::Memory => Ok(()),
    }
}

#[tactic(auto, using(std::proofs::Common::append_assoc), unfolding(crate::specs::Refusals::step_words))]
fn write_step_fault(text: &mut Text, fault: StepFault) -> Result<(), Memory>
    ensures { IfOk result (λ _. text.new ≡ text.old ++ step_words fault) }
{
    match fault {
        StepFault::Frame(fault) => write_frame_fault(text, fault),
        StepFault::Word { line } => at_line(text, b"Word", line),
        StepFault::Memory => Ok(()),
    }
}

#[tactic(auto, using(std::proofs::Common::append_assoc), unfolding(crate::specs::Refusals::table_words))]
fn write_table_fault(text: &mut Text, fault: TableFault) -> Result<(), Memory>
    ensures { IfOk result (λ _. text.new ≡ text.old ++ table_words fault) }
{
    match fault {
        TableFault::Frame(fault) => write_frame_fault(text, fault),
        TableFault::NoBranch { line } => at_line(text, b"NoBranch", line),
        TableFault::NoBus { line } => at_line(text, b"NoBus", line),
        TableFault::DeadBranch { line } => at_line(text, b"DeadBranch", line),
        TableFault::DeadBus { line } => at_line(text, b"DeadBus", line),
        TableFault::Twice { line } => at_line(text, b"Twice", line),
        TableFault::Kind { line } => at_line(text, b"Kind", line),
        TableFault::NoLimit { line } => at_line(text, b"NoLimit", line),
        TableFault::Penalty { line } => at_line(text, b"Penalty", line),
        TableFault::NoOffset { branch } => numbered(text, b"NoOffset branch ", branch as usize),
        TableFault::Memory => Ok(()),
    }
}

/// The numbers of the buses on a side of an outage.
fn write_side(text: &mut Text, side: &List<u32>) -> Result<(), Memory>
    ensures { IfOk result (λ _. text.new ≡ text.old ++ side_text side.now) }
{
    for bus in side.slice() {
        numbered(text, b" ", *bus as usize)?;
    }
    Ok(())
}

#[tactic(auto, using(std::proofs::Common::append_assoc), unfolding(crate::specs::Refusals::outage_words))]
fn write_outage_fault(text: &mut Text, fault: &OutageFault) -> Result<(), Memory>
    ensures { IfOk result (λ _. text.new ≡ text.old ++ outage_words fault.now) }
{
    match fault {
        OutageFault::NoBranch { line } => at_line(text, b"NoBranch", *line),
        OutageFault::DeadBranch { line } => at_line(text, b"DeadBranch", *line),
        OutageFault::Twice { line } => at_line(text, b"Twice", *line),
        OutageFault::Islands { branch, side } => {
            numbered(text, b"Islands branch ", *branch as usize)?;
            text.word(b" side")?;
            write_side(text, side)
        }
        OutageFault::Memory => Ok(()),
    }
}

/// A unit, and the sum of the shares of what is picked up of its output, in 10^-6.
#[tactic(auto, using(std::proofs::Common::append_assoc))]
fn write_share_sum(text: &mut Text, unit: u32, sum: i64) -> Result<(), Memory>
    ensures { IfOk result (λ _. text.new ≡ text.old ++ codes "ShareSum unit " ++ decimal unit ++ codes " sum " ++ decimal_text share_places sum) }
{
    numbered(text, b"ShareSum unit ", unit as usize)?;
    text.word(b" sum ")?;
    text.decimal(i128::from(sum), SHARE_PLACES)
}

#[tactic(auto, using(std::proofs::Common::append_assoc), unfolding(crate::specs::Refusals::unit_outage_words))]
fn write_unit_outage_fault(text: &mut Text, fault: UnitOutageFault) -> Result<(), Memory>
    ensures { IfOk result (λ _. text.new ≡ text.old ++ unit_outage_words fault) }
{
    match fault {
        UnitOutageFault::Frame(fault) => write_frame_fault(text, fault),
        UnitOutageFault::NoUnit { line } => at_line(text, b"NoUnit", line),
        UnitOutageFault::DeadUnit { line } => at_line(text, b"DeadUnit", line),
        UnitOutageFault::SameUnit { line } => at_line(text, b"SameUnit", line),
        UnitOutageFault::Share { line } => at_line(text, b"Share", line),
        UnitOutageFault::Twice { line } => at_line(text, b"Twice", line),
        UnitOutageFault::ShareSum { unit, sum } => write_share_sum(text, unit, sum),
        UnitOutageFault::Memory => Ok(()),
    }
}

#[tactic(auto, using(std::proofs::Common::append_assoc), unfolding(crate::specs::Refusals::lack_words))]
fn write_lack(text: &mut Text, lack: Uncovered) -> Result<(), Memory>
    ensures { IfOk result (λ _. text.new ≡ text.old ++ lack_words lack) }
{
    match lack {
        Uncovered::NoShift { branch } => numbered(text, b"NoShift branch ", branch as usize),
        Uncovered::NoLoss { branch } => numbered(text, b"NoLoss branch ", branch as usize),
    }
}

#[tactic(auto, using(std::proofs::Common::append_assoc), unfolding(crate::specs::Refusals::factor_words))]
fn write_factor_fault(text: &mut Text, fault: FactorFault) -> Result<(), Memory>
    ensures { IfOk result (λ _. text.new ≡ text.old ++ factor_words fault) }
{
    match fault {
        FactorFault::TooMany { count } => numbered(text, b"TooMany count ", count),
        FactorFault::NotPositive { branch } => numbered(
            text,
            b"NotPositive branch ",
            branch as usize,
        ),
    }
}

#[tactic(auto, using(std::proofs::Common::append_assoc), unfolding(crate::specs::Refusals::costs_words))]
fn write_costs_fault(text: &mut Text, fault: CostsFault) -> Result<(), Memory>
    ensures { IfOk result (λ _. text.new ≡ text.old ++ costs_words fault) }
{
    match fault {
        CostsFault::Text { fault } => write_case_fault(text, fault),
        CostsFault::Twice => text.word(b"Twice gencost"),
        CostsFault::Ragged { row } => numbered(text, b"Ragged gencost row ", row),
    }
}

/// What is wrong with a row of costs.
#[tactic(auto, using(std::proofs::Common::append_assoc), unfolding(crate::specs::Refusals::row_cost_words))]
fn write_row_fault(text: &mut Text, fault: RowFault) -> Result<(), Memory>
    ensures { IfOk result (λ _. text.new ≡ text.old ++ row_cost_words fault) }
{
    match fault {
        RowFault::Cell { col, why } => {
            numbered(text, b"Cell col ", col)?;
            text.word(b" ")?;
            text.word(why_word(why))
        }
        RowFault::Model => text.word(b"Model"),
        RowFault::Count => text.word(b"Count"),
        RowFault::Degree => text.word(b"Degree"),
    }
}

/// What is wrong with the cost of a unit.
#[tactic(auto, using(std::proofs::Common::append_assoc), unfolding(crate::specs::Refusals::cost_words))]
fn write_cost_fault(text: &mut Text, fault: CostFault) -> Result<(), Memory>
    ensures { IfOk result (λ _. text.new ≡ text.old ++ cost_words fault) }
{
    match fault {
        CostFault::Row { fault } => write_row_fault(text, fault),
        CostFault::Outputs => text.word(b"Outputs"),
        CostFault::Slopes => text.word(b"Slopes"),
        CostFault::Memory => Ok(()),
    }
}

#[tactic(auto, using(std::proofs::Common::append_assoc), unfolding(crate::specs::Refusals::unoffered_words))]
fn write_unoffered(text: &mut Text, stop: OfferStop) -> Result<(), Memory>
    ensures { IfOk result (λ _. text.new ≡ text.old ++ unoffered_words stop) }
{
    match stop {
        OfferStop::TooFew { rows } => numbered(text, b"TooFew gencost rows ", rows),
        OfferStop::Cost { unit, fault } => {
            numbered(text, b"Cost unit ", unit as usize)?;
            text.word(b" ")?;
            write_cost_fault(text, fault)
        }
        OfferStop::Price { unit } => numbered(text, b"Price unit ", unit as usize),
        OfferStop::TooMany => text.word(b"TooMany blocks"),
        OfferStop::Memory => Ok(()),
    }
}

fn key_word(key: Key) -> &'static [u8]
    ensures { result.now ≡ key_name key }
{
    match key {
        Key::Json => b"json",
        Key::Version => b"version",
        Key::Kind => b"kind",
        Key::Energy => b"energy",
        Key::Blocks => b"blocks",
        Key::Limits => b"limits",
        Key::Places => b"places",
        Key::Reserve => b"reserve",
        Key::Extra => b"extra",
    }
}

fn input_word(input: Input) -> &'static [u8]
    ensures { result.now ≡ input_name input }
{
    match input {
        Input::Case => b"case ",
        Input::Ptdf => b"ptdf ",
        Input::Lodf => b"lodf ",
        Input::Contingencies => b"contingencies ",
        Input::UnitOutages => b"unit-outages ",
        Input::Offers => b"offers ",
        Input::Reserves => b"reserves ",
        Input::Offsets => b"offsets ",
        Input::Penalties => b"penalties ",
        Input::Rights => b"rights ",
        Input::Edits => b"edits ",
        Input::Certificate => b"certificate ",
    }
}

/// Which file is refused.
fn file_word(refusal: &Refusal) -> &'static [u8]
    ensures { result.now ≡ file_name refusal.now }
{
    match refusal {
        Refusal::TooLong(input) | Refusal::Table(input, _) => input_word(*input),
        Refusal::Case(_) | Refusal::Network(_) | Refusal::Split { bus: _ } => b"case ",
        Refusal::Costs(_) | Refusal::NoCosts | Refusal::Unoffered(_) => b"case ",
        Refusal::Outages(_) => b"contingencies ",
        Refusal::UnitOutages(_) => b"unit-outages ",
        Refusal::Uncovered(_) | Refusal::Factors(_) => b"factors ",
        Refusal::Offers(_) => b"offers ",
        Refusal::Reserves(_) => b"reserves ",
        Refusal::Rights(_) => b"rights ",
        Refusal::Edits(_) => b"edits ",
        Refusal::Certificate(_) => b"certificate ",
    }
}

/// Its fault.
#[tactic(auto, using(std::proofs::Common::append_assoc), unfolding(crate::specs::Refusals::fault_words))]
fn write_fault(text: &mut Text, refusal: &Refusal) -> Result<(), Memory>
    ensures { IfOk result (λ _. text.new ≡ text.old ++ fault_words refusal.now) }
{
    match refusal {
        Refusal::TooLong(_) => text.word(b"TooLong limit 33554432"),
        Refusal::Case(fault) => write_case_fault(text, *fault),
        Refusal::Network(fault) => write_net_fault(text, *fault),
        Refusal::Split { bus } => numbered(text, b"Split bus ", *bus as usize),
        Refusal::Table(_, fault) => write_table_fault(text, *fault),
        Refusal::Outages(fault) => write_outage_fault(text, fault),
        Refusal::UnitOutages(fault) => write_unit_outage_fault(text, *fault),
        Refusal::Uncovered(lack) => write_lack(text, *lack),
        Refusal::Factors(fault) => write_factor_fault(text, *fault),
        Refusal::Costs(fault) => write_costs_fault(text, *fault),
        Refusal::NoCosts => text.word(b"Missing gencost"),
        Refusal::Unoffered(stop) => write_unoffered(text, *stop),
        Refusal::Offers(fault) => write_offer_fault(text, *fault),
        Refusal::Reserves(fault) => write_reserve_fault(text, *fault),
        Refusal::Rights(fault) => write_rights_fault(text, *fault),
        Refusal::Edits(fault) => write_step_fault(text, *fault),
        Refusal::Certificate(key) => {
            text.word(b"Key ")?;
            text.word(key_word(*key))
        }
    }
}

/// Which file is refused, and its fault.
#[tactic(auto, using(std::proofs::Common::append_assoc), unfolding(crate::specs::Refusals::refusal_words))]
fn write_refusal(text: &mut Text, refusal: &Refusal) -> Result<(), Memory>
    ensures { IfOk result (λ _. text.new ≡ text.old ++ refusal_words refusal.now) }
{
    text.word(file_word(refusal))?;
    write_fault(text, refusal)
}

/// The line that refuses a file.
#[tactic(auto, using(std::proofs::Common::append_assoc), unfolding(crate::specs::Refusals::refusal_line))]
pub fn refusal_text(alloc: Global, refusal: &Refusal) -> Result<Vec<u8>, Memory>
    ensures { IfOk result (λ bytes. bytes.items ≡ refusal_line refusal.now) }
{
    let mut text = Text::new(alloc);
    text.word(b"refused ")?;
    write_refusal(&mut text, refusal)?;
    text.word(b"\n")?;
    Ok(text.into_bytes())
}
