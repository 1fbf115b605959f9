//! Reads the text of a case: its statements, and of these the rows of three matrices.
//!
//! A text is a list of statements. Line ends, `;` and `,` part them, and comments and continuations go between. The first is
//! `function mpc = NAME`. Every other sets a field: `mpc.NAME`, or with further names behind points, then `=` and a value. A value is a
//! number, a string, a matrix in `[` `]` or a cell list in `{` `}`. A case sets `mpc.version` to the string `2`, `mpc.baseMVA` to a
//! number, and `mpc.bus`, `mpc.gen` and `mpc.branch` to matrices of numbers, each of them once; what other fields are set to is passed
//! over. A byte order mark at the start is dropped, and places are counted behind it.
#![tactic(auto)]

ghost use Rattle.std.specs.Prelude.{◌≡◌, ◌≢◌, ◌≤◌, ℕ, length, map, IsTrue, Err, List};
ghost use Rattle.case_text.specs.Names.{is_matrix};
ghost use Rattle.case_text.specs.Matrices.{matrix_of, cell_at, width_of};
ghost use Rattle.case_text.specs.Cases.{without_mark, case_of};

use case_tokens::Tokens;
use std::alloc::Global;
use std::fmt;
use std::marker::Model;
use thiserror::Error;

mod costs;
pub mod laws;
mod matrices;
mod names;
mod nests;
mod settings;
mod statements;
mod words;

pub use costs::{CostsFault, RawCosts, read_costs};
use matrices::{MatrixRows, cell_of, width_of};

/// A field that a case has to set.
#[derive(Clone, Copy, PartialEq, Eq, Debug)]
pub enum Field {
    Version,
    BaseMva,
    Bus,
    Gen,
    Branch,
}

impl Field {
    /// Whether the field is one of the three matrices.
    pub fn is_matrix(self) -> bool
        ensures { result ≡ is_matrix self }
    {
        matches!(self, Field::Bus | Field::Gen | Field::Branch)
    }
}

/// Writes the field's name in a case.
impl fmt::Display for Field {
    fn fmt<W: fmt::Write>(&self, f: &mut fmt::Formatter<W>) -> fmt::Result {
        f.write_str(match self {
            Field::Version => "version",
            Field::BaseMva => "baseMVA",
            Field::Bus => "bus",
            Field::Gen => "gen",
            Field::Branch => "branch",
        })
    }
}

/// Why a text is no case. Faults come in the order of the statements; of one statement `Code` comes first, but behind `BadToken` where
/// the token stands inside the value's brackets and what is wrong stands behind them, and the others in the order below.
#[derive(Clone, Copy, Debug, PartialEq, Eq, Error)]
pub enum CaseFault {
    /// The statement that begins on this line is none, or a line inside brackets is `%{` or `%}`.
    #[error("line {line} is not understood")]
    Code { line: usize },
    /// The token at this place can't stand there inside brackets; or it is the text's length, and the text ends inside them.
    #[error("the token at {at} can't stand there")]
    BadToken { at: usize },
    /// The case is of version 1.
    #[error("the case is of version 1")]
    VersionOne,
    /// The field was set before.
    #[error("{field} is set twice")]
    Twice { field: Field },
    /// The first row of the matrix that has not as many cells as its first row, counted from 1.
    #[error("row {row} of {field} has not as many cells as the first")]
    Ragged { field: Field, row: usize },
    /// The matrix has rows, of too few cells.
    #[error("{field} has too few columns")]
    Narrow { field: Field },
    /// No version is set.
    #[error("no version is set")]
    NoVersion,
    /// Another field is not set.
    #[error("{field} is not set")]
    Missing { field: Field },
    #[error("memory was refused")]
    Memory,
}

/// The three matrices of a case. Contracts see them as rows of the texts of their cells.
#[derive(Drop, Debug)]
pub struct RawCase<'a> {
    pub(crate) bus: MatrixRows<'a>,
    pub(crate) generators: MatrixRows<'a>,
    pub(crate) branch: MatrixRows<'a>,
}

impl<'a> Model for RawCase<'a> {
    ghost use Rattle.std.specs.Prelude.{map};
    ghost use Rattle.case_text.specs.Matrices.{CaseMatrices};

    ghost Value = { CaseMatrices };

    ghost view = { λ case. record {
      bus = map (λ row. map (λ cell. cell.now) row.items) case.bus.items;
      generators = map (λ row. map (λ cell. cell.now) row.items) case.generators.items;
      branch = map (λ row. map (λ cell. cell.now) row.items) case.branch.items;
    } };
}

impl RawCase<'_> {
    pub fn rows(&self, field: Field) -> usize
        requires { IsTrue (is_matrix field) }
        ensures { result ≡ length (matrix_of self.now field) }
    {
        match field {
            Field::Bus => self.bus.len(),
            Field::Gen => self.generators.len(),
            Field::Branch => self.branch.len(),
            Field::Version | Field::BaseMva => 0,
        }
    }

    /// How many cells each row has, and 0 where there is none.
    pub fn width(&self, field: Field) -> usize
        requires { IsTrue (is_matrix field) }
        ensures { result ≡ width_of (matrix_of self.now field) }
    {
        match field {
            Field::Bus => width_of(self.bus.as_slice()),
            Field::Gen => width_of(self.generators.as_slice()),
            Field::Branch => width_of(self.branch.as_slice()),
            Field::Version | Field::BaseMva => 0,
        }
    }

    /// The text of a cell, by row and column from 1, and no bytes where there is none.
    pub fn cell(&self, field: Field, row: usize, col: usize) -> &[u8]
        requires matrix { IsTrue (is_matrix field) }
        requires places { (1 ≤ row) × (1 ≤ col) }
        ensures { result.now ≡ cell_at (matrix_of self.now field) row col }
    {
        match field {
            Field::Bus => cell_of(self.bus.as_slice(), row, col),
            Field::Gen => cell_of(self.generators.as_slice(), row, col),
            Field::Branch => cell_of(self.branch.as_slice(), row, col),
            Field::Version | Field::BaseMva => &[],
        }
    }
}

/// What stands behind the byte order mark that a text may begin with.
#[tactic(auto, unfolding(crate::specs::Cases::without_mark))]
fn without_mark(text: &[u8]) -> &[u8]
    ensures { result.now ≡ without_mark text.now }
{
    match text.strip_prefix(b"\xEF\xBB\xBF") {
        Some(rest) => rest,
        None => text,
    }
}

/// Reads a case, or tells its first fault.
#[tactic(auto, unfolding(crate::specs::Cases::case_of))]
pub fn read_case<'a>(alloc: Global, text: &'a [u8]) -> Result<RawCase<'a>, CaseFault>
    ensures { result ≢ Err CaseFault.Memory → result ≡ case_of text.now }
{
    let text = without_mark(text);
    let mut tokens = Tokens::new(text);
    statements::read_statements(alloc, &mut tokens, text)
}
