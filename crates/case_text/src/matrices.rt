//! The rows of a matrix.

ghost use Rattle.std.specs.Prelude.{◌≡◌, ◌≢◌, ◌≤◌, ◌||◌, [], ◌∷◌, ◌++◌, length, map, IfOk, IfErr, OnOk, Ok, Err, true, if◌then◌else◌};
ghost use Rattle.case_tokens.specs.TokenLists.{IsWithin};
ghost use Rattle.case_text.specs.Words.{word_of, is_run, text_of};
ghost use Rattle.case_text.specs.Nests.{behind_brackets, first_nest};
ghost use Rattle.record_reading.specs.Records.{first_ragged};
ghost use Rattle.case_text.specs.Matrices.{closes, ends_row, cells_of, some_row, rows_from, cell_at, width_of};
ghost use Rattle.case_text.specs.Readers.{Gives, SameEnd};
ghost use Rattle.case_text.specs.declared.words.Bracket.{Bracket};

use crate::CaseFault;
use crate::nests::{first_nest, step, token_inside};
use crate::words::{Bracket, Word, text_of, word_of};
use case_tokens::{Token, Tokens};
use std::alloc::Global;

/// The rows of a matrix, each the texts of its cells.
pub type MatrixRows<'a> = Vec<Vec<&'a [u8]>>;

/// The text of a cell, by row and column from 1, and no bytes where there is none.
pub fn cell_of<'a>(rows: &[Vec<&'a [u8]>], row: usize, col: usize) -> &'a [u8]
    requires { (1 ≤ row) × (1 ≤ col) }
    ensures { result.now ≡ cell_at (map (λ r. map (λ c. c.now) r.items) rows.now) row col }
{
    match rows.get(row - 1) {
        Some(cells) => match cells.get(col - 1) {
            Some(cell) => *cell,
            None => &[],
        },
        None => &[],
    }
}

/// How many cells the first row has.
pub fn width_of(rows: &[Vec<&[u8]>]) -> usize
    ensures { result ≡ width_of (map (λ r. map (λ c. c.now) r.items) rows.now) }
{
    match rows {
        [first, ..] => first.len(),
        [] => 0,
    }
}

/// The number of the first row that has not so many cells, from 1.
pub fn first_ragged(rows: &[Vec<&[u8]>], width: usize) -> Option<usize>
    ensures { result ≡ first_ragged width 1 (map (λ r. map (λ c. c.now) r.items) rows.now) }
{
    for (at, row) in rows.iter().enumerate() {
        if row.len() != width {
            return Some(at + 1);
        }
    }
    None
}

/// The rows with a further one, where it has cells.
fn with_row<'a>(rows: MatrixRows<'a>, row: Vec<&'a [u8]>) -> Result<MatrixRows<'a>, CaseFault>
    ensures ok { IfOk result (λ all. map (λ r. map (λ c. c.now) r.items) all.items
        ≡ map (λ r. map (λ c. c.now) r.items) rows.entry.items ++ some_row (map (λ c. c.now) row.entry.items)) }
    ensures err { IfErr result (λ e. e ≡ CaseFault.Memory) }
{
    if row.is_empty() {
        return Ok(rows);
    }
    let mut rows = rows;
    if rows.push(row).is_err() {
        return Err(CaseFault::Memory);
    }
    Ok(rows)
}

/// The row with a further cell.
fn with_cell<'a>(row: Vec<&'a [u8]>, cell: &'a [u8]) -> Result<Vec<&'a [u8]>, CaseFault>
    ensures ok { IfOk result (λ all. map (λ c. c.now) all.items ≡ map (λ c. c.now) row.entry.items ++ cell.now ∷ []) }
    ensures err { IfErr result (λ e. e ≡ CaseFault.Memory) }
{
    let mut row = row;
    if row.push(cell).is_err() {
        return Err(CaseFault::Memory);
    }
    Ok(row)
}

/// Rows that are whole, and the cells so far of the one behind them.
#[derive(Drop)]
struct Gathered<'a> {
    rows: MatrixRows<'a>,
    row: Vec<&'a [u8]>,
}

/// What is gathered with a further token.
fn gather<'a>(
    alloc: Global,
    gathered: Gathered<'a>,
    text: &'a [u8],
    token: Token,
) -> Result<Gathered<'a>, CaseFault>
    requires { IsWithin (length text.now) token }
    ensures ok { let row = map (λ c. c.now) gathered.entry.row.items in let rows = map (λ r. map (λ c. c.now) r.items) gathered.entry.rows.items in
        let ends = closes (word_of text.entry.now token) || ends_row (word_of text.entry.now token) in
        IfOk result (λ now. (map (λ c. c.now) now.row.items ≡ (if ends then [] else row ++ cells_of text.entry.now token))
        × (map (λ r. map (λ c. c.now) r.items) now.rows.items ≡ (if ends then rows ++ some_row row else rows))) }
    ensures err { IfErr result (λ e. e ≡ CaseFault.Memory) }
{
    let Gathered { rows, row } = gathered;
    match word_of(text, token) {
        Word::LineEnd | Word::Semicolon | Word::Closing(_) => {
            let rows = with_row(rows, row)?;
            Ok(Gathered {
                rows,
                row: Vec::new(alloc),
            })
        }
        Word::Run => {
            let row = with_cell(row, text_of(text, token))?;
            Ok(Gathered { rows, row })
        }
        _ => Ok(Gathered { rows, row }),
    }
}

/// Reads the rows of a matrix of numbers, up to the bracket that closes it.
pub fn read_rows<'a>(
    alloc: Global,
    tokens: &mut Tokens<'_>,
    text: &'a [u8],
) -> Result<MatrixRows<'a>, CaseFault>
    requires { tokens.old.text ≡ text.now }
    ensures same { SameEnd tokens.old tokens.new }
    ensures ok { OnOk result (behind_brackets text.entry.now tokens.old.left.fault true (first_nest Bracket.Square) tokens.old.left.tokens ≡ Ok tokens.new.left.tokens) }
    ensures err { IfErr result (λ e. e ≢ CaseFault.Memory →
        behind_brackets text.entry.now tokens.old.left.fault true (first_nest Bracket.Square) tokens.old.left.tokens ≡ Err e) }
    ensures rows { IfOk result (λ rows. map (λ r. map (λ c. c.now) r.items) rows.items ≡ rows_from text.entry.now [] tokens.old.left.tokens) }
{
    let mut nest = first_nest(alloc, Bracket::Square)?;
    let mut gathered = Gathered {
        rows: Vec::new(alloc),
        row: Vec::new(alloc),
    };
    while !nest.brackets.is_empty() {
        let token = token_inside(tokens, text)?;
        nest = step(nest, text, token, true)?;
        gathered = gather(alloc, gathered, text, token)?;
    }
    let Gathered { rows, row: _ } = gathered;
    Ok(rows)
}
