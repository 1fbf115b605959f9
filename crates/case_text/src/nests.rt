//! What stands inside the brackets of a value.

ghost use Rattle.std.specs.Prelude.{◌≡◌, ◌≢◌, ◌+◌, ◌-◌, ◌<◌, ◌==◌, ◌&&◌, [], ◌∷◌, ◌++◌, length, take, unwrap_or, nat_lt, map, MatchResult, OnOk, IfOk, IfErr, Ok, Err, not, true, false};
ghost use Rattle.case_tokens.specs.TokenLists.{IsWithin};
ghost use Rattle.case_text.specs.Words.{is_curly};
ghost use Rattle.case_text.specs.Nests.{innermost, is_parted, is_element, step, where_allowed, behind_brackets, first_nest};
ghost use Rattle.case_text.specs.Readers.{Gives, SameEnd, IsNext};
ghost use Rattle.case_text.specs.Nesting.{nest_of};
ghost use Rattle.case_text.specs.declared.nests.Before.{Before};

use crate::CaseFault;
use crate::words::{Bracket, Word, word_of};
use case_tokens::{Token, TokenFault, Tokens};
use std::alloc::Global;

/// What stands before in the row of the innermost bracket.
#[derive(Clone, Copy)]
pub enum Before {
    /// No element.
    Nothing,
    /// An element that ends at this place.
    Element(usize),
    /// An element and a comma.
    Comma,
}

/// The most brackets that are open at once.
const DEEPEST: usize = 8;

/// The brackets that are open, the innermost last, and what stands before in the row of the innermost.
#[derive(Drop)]
pub struct Nest {
    pub brackets: Vec<Bracket>,
    pub before: Before,
}

fn nest_with(brackets: Vec<Bracket>, before: Before) -> Nest
    ensures { nest_of result ≡ record { brackets = brackets.items; before = before } }
{
    Nest { brackets, before }
}

/// Inside the bracket that opens a value.
pub fn first_nest(alloc: Global, bracket: Bracket) -> Result<Nest, CaseFault>
    ensures ok { IfOk result (λ nest. nest_of nest ≡ first_nest bracket) }
    ensures err { IfErr result (λ e. e ≡ CaseFault.Memory) }
{
    let mut brackets = Vec::new(alloc);
    if brackets.push(bracket).is_err() {
        return Err(CaseFault::Memory);
    }
    Ok(nest_with(brackets, Before::Nothing))
}

/// Whether an element may begin at a place.
fn is_parted(before: Before, start: usize) -> bool
    ensures { result ≡ is_parted before start }
{
    match before {
        Before::Nothing | Before::Comma => true,
        Before::Element(end) => end < start,
    }
}

fn innermost(brackets: &[Bracket]) -> Bracket
    ensures { result ≡ innermost brackets.now }
{
    match brackets.last() {
        Some(bracket) => *bracket,
        None => Bracket::Square,
    }
}

fn is_element(before: Before) -> bool
    ensures { result ≡ is_element before }
{
    matches!(before, Before::Element(_))
}

/// Whether a further bracket may be opened inside these.
fn may_open(brackets: &[Bracket]) -> bool
    ensures { result ≡ (is_curly (innermost brackets.now) && nat_lt (length brackets.now) 8) }
{
    innermost(brackets) == Bracket::Curly && brackets.len() < DEEPEST
}

/// The nest, where it is allowed, or the fault of a token that can't stand at the place.
fn where_allowed(allowed: bool, start: usize, nest: Nest) -> Result<Nest, CaseFault>
    ensures { Gives nest_of result (where_allowed allowed start (nest_of nest)) }
{
    if allowed {
        Ok(nest)
    } else {
        Err(CaseFault::BadToken { at: start })
    }
}

fn opened(brackets: Vec<Bracket>, bracket: Bracket) -> Result<Nest, CaseFault>
    ensures ok { IfOk result (λ nest. nest_of nest ≡ record { brackets = brackets.items ++ bracket ∷ []; before = Before.Nothing }) }
    ensures err { IfErr result (λ e. e ≡ CaseFault.Memory) }
{
    let mut brackets = brackets;
    if brackets.push(bracket).is_err() {
        return Err(CaseFault::Memory);
    }
    Ok(nest_with(brackets, Before::Nothing))
}

fn closed(brackets: Vec<Bracket>, end: usize) -> Nest
    ensures { nest_of result ≡ record { brackets = take (length brackets.items - 1) brackets.items; before = Before.Element end } }
{
    let mut brackets = brackets;
    let _ = brackets.pop();
    nest_with(brackets, Before::Element(end))
}

/// What stands behind a token inside brackets, where numbers alone or strings and lists too may stand.
#[tactic(auto, unfolding(crate::specs::Nests::step_by))]
pub fn step(nest: Nest, text: &[u8], token: Token, numbers: bool) -> Result<Nest, CaseFault>
    requires { IsWithin (length text.now) token }
    ensures { Gives nest_of result (step text.now numbers token (nest_of nest)) }
{
    let start = token.span.start;
    let end = token.span.end;
    let Nest { brackets, before } = nest;
    let parted = is_parted(before, start);
    match word_of(text, token) {
        Word::LineEnd | Word::Semicolon => Ok(nest_with(brackets, Before::Nothing)),
        Word::Block => Err(CaseFault::Code { line: token.line }),
        Word::Equals | Word::Unclosed => Err(CaseFault::BadToken { at: start }),
        Word::Comma => {
            let next = nest_with(brackets, Before::Comma);
            where_allowed(is_element(before), start, next)
        }
        Word::Run => where_allowed(parted, start, nest_with(brackets, Before::Element(end))),
        Word::Quoted => {
            let next = nest_with(brackets, Before::Element(end));
            where_allowed(!numbers && parted, start, next)
        }
        Word::Opening(bracket) if may_open(brackets.as_slice()) && parted => {
            opened(brackets, bracket)
        }
        Word::Opening(_) => Err(CaseFault::BadToken { at: start }),
        Word::Closing(bracket) => {
            let matching = bracket == innermost(brackets.as_slice());
            where_allowed(matching, start, closed(brackets, end))
        }
    }
}

/// The next token inside brackets.
pub fn token_inside(tokens: &mut Tokens<'_>, text: &[u8]) -> Result<Token, CaseFault>
    requires { tokens.old.text ≡ text.now }
    ensures next { IfOk result (IsNext tokens.old tokens.new) }
    ensures same { SameEnd tokens.old tokens.new }
    ensures stop { IfErr result (λ e. (tokens.old.left.tokens ≡ []) × (e ≡ CaseFault.BadToken (unwrap_or tokens.old.left.fault (length text.now)))) }
{
    match tokens.next() {
        Ok(Some(token)) => Ok(token),
        Ok(None) => Err(CaseFault::BadToken { at: text.len() }),
        Err(TokenFault::BadToken { at }) => Err(CaseFault::BadToken { at }),
    }
}

/// Passes over the tokens up to the bracket that closes the value.
pub fn skip_brackets(
    alloc: Global,
    tokens: &mut Tokens<'_>,
    text: &[u8],
    bracket: Bracket,
) -> Result<(), CaseFault>
    requires { tokens.old.text ≡ text.now }
    ensures same { SameEnd tokens.old tokens.new }
    ensures ok { OnOk result (behind_brackets text.now tokens.old.left.fault false (first_nest bracket) tokens.old.left.tokens ≡ Ok tokens.new.left.tokens) }
    ensures err { IfErr result (λ e. e ≢ CaseFault.Memory →
        behind_brackets text.now tokens.old.left.fault false (first_nest bracket) tokens.old.left.tokens ≡ Err e) }
{
    let mut nest = first_nest(alloc, bracket)?;
    while !nest.brackets.is_empty() {
        let token = token_inside(tokens, text)?;
        nest = step(nest, text, token, false)?;
    }
    Ok(())
}
