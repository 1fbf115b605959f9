//! The costs of a case's units, which `read_case` passes over.

ghost use Rattle.std.specs.Prelude.{◌≡◌, ◌≢◌, ◌≤◌, ◌-◌, [], length, drop, Err, None, MatchResult, slice_index_or};
ghost use Rattle.case_text.specs.Matrices.{cell_at};
ghost use Rattle.case_text.specs.Costs.{costs_field, costs_from, costs_of, with_costs};
ghost use Rattle.case_text.specs.Cases.{past_separators};
ghost use Rattle.case_text.specs.Readers.{SameEnd};
ghost use Rattle.case_text.specs.Views.{setting_of};

use crate::matrices::{MatrixRows, cell_of, first_ragged, width_of};
use crate::statements::{Setting, next_head, read_statement, token_outside};
use crate::words::text_of;
use crate::{CaseFault, Field, without_mark};
use case_tokens::Tokens;
use std::alloc::Global;
use std::marker::Model;
use thiserror::Error;

/// Why the costs of a text can't be read.
#[derive(Clone, Copy, Debug, PartialEq, Eq, Error)]
pub enum CostsFault {
    /// A statement is none, or `gencost` is set to what is no matrix of numbers; or memory was refused.
    #[error("{fault}")]
    Text { fault: CaseFault },
    /// `gencost` was set before.
    #[error("gencost is set twice")]
    Twice,
    /// The first row that has not as many cells as the first one, counted from 1.
    #[error("row {row} of gencost has not as many cells as the first")]
    Ragged { row: usize },
}

/// The rows of `gencost`. Contracts see them as the texts of their cells.
#[derive(Drop, Debug)]
pub struct RawCosts<'a> {
    rows: MatrixRows<'a>,
}

impl<'a> Model for RawCosts<'a> {
    ghost use Rattle.std.specs.Prelude.{map};
    ghost use Rattle.case_text.specs.Matrices.{Rows};

    ghost Value = { Rows };

    ghost view = { λ costs. map (λ row. map (λ cell. cell.now) row.items) costs.rows.items };
}

impl RawCosts<'_> {
    pub fn rows(&self) -> usize
        ensures { result ≡ length self.now }
    {
        self.rows.len()
    }

    /// How many cells a row has, the first row being 1, and 0 where there is no such row.
    pub fn cells(&self, row: usize) -> usize
        requires { 1 ≤ row }
        ensures { result ≡ length (slice_index_or self.now (row - 1) []) }
    {
        match self.rows.get(row - 1) {
            Some(cells) => cells.len(),
            None => 0,
        }
    }

    /// The text of a cell, by row and column from 1, and no bytes where there is none.
    pub fn cell(&self, row: usize, col: usize) -> &[u8]
        requires { (1 ≤ row) × (1 ≤ col) }
        ensures { result.now ≡ cell_at self.now row col }
    {
        cell_of(self.rows.as_slice(), row, col)
    }
}

impl From<CaseFault> for CostsFault {
    ghost use Rattle.case_text.specs.declared.costs.CostsFault.TheVariants as costs_fault;

    ghost from_gives = { λ fault told. told ≡ costs_fault.Text fault };

    fn from(fault: CaseFault) -> CostsFault {
        CostsFault::Text { fault }
    }
}

/// The field that `gencost` is read as, and none of what is passed over.
fn costs_field(name: &[u8]) -> Option<Field>
    ensures { result ≡ costs_field name.now }
{
    if name == b"mpc.gencost".as_slice() {
        Some(Field::Gen)
    } else {
        None
    }
}

/// The rows that are set with a further statement.
fn with_costs<'a>(
    costs: Option<RawCosts<'a>>,
    setting: Setting<'a>,
) -> Result<Option<RawCosts<'a>>, CostsFault>
    ensures { result ≡ with_costs costs.entry (setting_of setting.entry) }
{
    let Setting { field, rows } = setting;
    if field.is_none() {
        return Ok(costs);
    }
    if costs.is_some() {
        return Err(CostsFault::Twice);
    }
    match first_ragged(rows.as_slice(), width_of(rows.as_slice())) {
        Some(row) => Err(CostsFault::Ragged { row }),
        None => Ok(Some(RawCosts { rows })),
    }
}

/// Passes over a token, where one is left.
fn pass_token(tokens: &mut Tokens<'_>)
    ensures same { SameEnd tokens.old tokens.new }
    ensures pass { tokens.new.left.tokens ≡ drop 1 tokens.old.left.tokens }
{
    let _ = token_outside(tokens);
}

/// Passes over the first statement, `function mpc = NAME`.
fn pass_first(tokens: &mut Tokens<'_>, text: &[u8]) -> Result<(), CaseFault>
    requires { tokens.old.text ≡ text.now }
    ensures same { SameEnd tokens.old tokens.new }
    ensures reads { MatchResult result
        (λ _. costs_from text.now tokens.old.left.fault None 4 (past_separators text.now tokens.old.left.tokens) ≡ costs_from text.now tokens.old.left.fault None 0 tokens.new.left.tokens)
        (λ e. costs_from text.now tokens.old.left.fault None 4 (past_separators text.now tokens.old.left.tokens) ≡ Err (CostsFault.Text e)) }
{
    if let Some(_) = next_head(tokens, text)? {
        pass_token(tokens);
        pass_token(tokens);
        pass_token(tokens);
    }
    Ok(())
}

/// Reads the statements behind the first.
fn read_rest<'a>(
    alloc: Global,
    tokens: &mut Tokens<'_>,
    text: &'a [u8],
) -> Result<Option<RawCosts<'a>>, CostsFault>
    requires { tokens.old.text ≡ text.now }
    ensures { result ≢ Err (CostsFault.Text CaseFault.Memory) → result ≡ costs_from text.entry.now tokens.old.left.fault None 0 tokens.old.left.tokens }
{
    let mut costs: Option<RawCosts<'a>> = None;
    while let Some(head) = next_head(tokens, text)? {
        let field = costs_field(text_of(text, head));
        let setting = read_statement(alloc, tokens, text, field, head)?;
        costs = with_costs(costs, setting)?;
    }
    Ok(costs)
}

/// Reads the rows of a text's `gencost`, where it is set. The text is that of a case that `read_case` takes: what is wrong with the first
/// statement, and with what a case has to set, is told there alone.
#[tactic(auto, unfolding(crate::specs::Costs::costs_of))]
pub fn read_costs<'a>(alloc: Global, text: &'a [u8]) -> Result<Option<RawCosts<'a>>, CostsFault>
    ensures { result ≢ Err (CostsFault.Text CaseFault.Memory) → result ≡ costs_of text.now }
{
    let text = without_mark(text);
    let mut tokens = Tokens::new(text);
    pass_first(&mut tokens, text)?;
    read_rest(alloc, &mut tokens, text)
}
