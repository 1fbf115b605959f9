//! The statements of a case.

ghost use Rattle.std.specs.Prelude.{◌≡◌, ◌≢◌, Result, [], ◌∷◌, length, map, IfOk, IfErr, IsTrue, Ok, Err, Some, None, is_some, MatchOption, MatchResult, OnOk};
ghost use Rattle.case_tokens.specs.TokenLists.{IsWithin};
ghost use Rattle.case_text.specs.Words.{word_of};
ghost use Rattle.case_text.specs.Names.{takes_bracket};
ghost use Rattle.case_text.specs.Nests.{behind_brackets, first_nest};
ghost use Rattle.case_text.specs.Statements.{behind_end, plain_value, matrix_rows, bracketed, value_by, statement_of};
ghost use Rattle.case_text.specs.Cases.{case_from, named_from, is_run_of, function_from, statements_from, past_separators, at_end};
ghost use Rattle.case_text.specs.Settings.{no_settings};
ghost use Rattle.case_text.specs.Matrices.{CaseMatrices};
ghost use Rattle.case_text.specs.declared.CaseFault.{CaseFault};
ghost use Rattle.case_text.specs.Readers.{Gives, SameEnd, IsNext};
ghost use Rattle.case_text.specs.Views.{setting_of};

use crate::matrices::{MatrixRows, read_rows};
use crate::names::{
    field_of, is_name, is_target, is_version_one, takes_bracket, takes_number, takes_text,
};
use crate::nests::skip_brackets;
use crate::settings::{Settings, all_set, no_settings, with_setting};
use crate::words::{
    Bracket, Word, is_equals, is_run, is_separator, opens_square, text_of, word_of,
};
use crate::{CaseFault, Field, RawCase};
use case_tokens::{Token, TokenFault, Tokens};
use scaled_decimal::is_number;
use std::alloc::Global;

/// What a statement sets: a field that a case has to set, or none of these, and the rows where it is a matrix.
#[derive(Drop)]
pub struct Setting<'a> {
    pub field: Option<Field>,
    pub rows: MatrixRows<'a>,
}

/// The next token outside brackets, where tokens have no fault.
pub fn token_outside(tokens: &mut Tokens<'_>) -> Option<Token>
    ensures same { SameEnd tokens.old tokens.new }
    ensures next { MatchOption result (tokens.old.left.tokens ≡ []) (IsNext tokens.old tokens.new) }
    ensures end { result ≡ None → tokens.new ≡ tokens.old }
{
    match tokens.next() {
        Ok(found) => found,
        Err(_) => None,
    }
}

/// Passes over what ends a statement.
#[tactic(auto, unfolding(crate::specs::Statements::behind_end))]
fn end_statement(tokens: &mut Tokens<'_>, text: &[u8], line: usize) -> Result<(), CaseFault>
    requires { tokens.old.text ≡ text.now }
    ensures same { SameEnd tokens.old tokens.new }
    ensures ok { OnOk result (behind_end text.now line tokens.old.left.tokens ≡ Ok tokens.new.left.tokens) }
    ensures err { IfErr result (λ e. e ≢ CaseFault.Memory →
        behind_end text.now line tokens.old.left.tokens ≡ Err e) }
{
    match token_outside(tokens) {
        Some(token) if !is_separator(word_of(text, token)) => Err(CaseFault::Code { line }),
        _ => Ok(()),
    }
}

/// A number or a string, where the field takes it.
#[tactic(auto, unfolding(crate::specs::Statements::plain_value))]
fn plain_value<'a>(
    alloc: Global,
    tokens: &mut Tokens<'_>,
    text: &[u8],
    line: usize,
    field: Option<Field>,
    allowed: bool,
) -> Result<Setting<'a>, CaseFault>
    requires { tokens.old.text ≡ text.now }
    ensures same { SameEnd tokens.old tokens.new }
    ensures ok { IfOk result (λ setting. plain_value text.now line field allowed tokens.old.left.tokens
        ≡ Ok (setting_of setting, tokens.new.left.tokens)) }
    ensures err { IfErr result (λ e. e ≢ CaseFault.Memory →
        plain_value text.now line field allowed tokens.old.left.tokens ≡ Err e) }
{
    if !allowed {
        return Err(CaseFault::Code { line });
    }
    end_statement(tokens, text, line)?;
    Ok(Setting {
        field,
        rows: Vec::new(alloc),
    })
}

/// The rows inside the brackets of a value, where they are kept.
fn rows_inside<'a>(
    alloc: Global,
    tokens: &mut Tokens<'_>,
    text: &'a [u8],
    field: Option<Field>,
    bracket: Bracket,
) -> Result<MatrixRows<'a>, CaseFault>
    requires text { tokens.old.text ≡ text.now }
    requires bracket { IsTrue (takes_bracket field bracket) }
    ensures same { SameEnd tokens.old tokens.new }
    ensures ok { OnOk result (behind_brackets text.entry.now tokens.old.left.fault (is_some field) (first_nest bracket) tokens.old.left.tokens ≡ Ok tokens.new.left.tokens) }
    ensures err { IfErr result (λ e. e ≢ CaseFault.Memory →
        behind_brackets text.entry.now tokens.old.left.fault (is_some field) (first_nest bracket) tokens.old.left.tokens ≡ Err e) }
    ensures rows { IfOk result (λ rows. map (λ r. map (λ c. c.now) r.items) rows.items ≡ matrix_rows field text.entry.now tokens.old.left.tokens) }
{
    if field.is_some() {
        return read_rows(alloc, tokens, text);
    }
    skip_brackets(alloc, tokens, text, bracket)?;
    Ok(Vec::new(alloc))
}

/// A matrix or a cell list.
#[tactic(auto, unfolding(crate::specs::Statements::bracketed))]
fn bracketed<'a>(
    alloc: Global,
    tokens: &mut Tokens<'_>,
    text: &'a [u8],
    line: usize,
    field: Option<Field>,
    bracket: Bracket,
) -> Result<Setting<'a>, CaseFault>
    requires { tokens.old.text ≡ text.now }
    ensures same { SameEnd tokens.old tokens.new }
    ensures ok { IfOk result (λ setting. bracketed text.entry.now tokens.old.left.fault line field bracket tokens.old.left.tokens
        ≡ Ok (setting_of setting, tokens.new.left.tokens)) }
    ensures err { IfErr result (λ e. e ≢ CaseFault.Memory →
        bracketed text.entry.now tokens.old.left.fault line field bracket tokens.old.left.tokens ≡ Err e) }
{
    if !takes_bracket(field, bracket) {
        return Err(CaseFault::Code { line });
    }
    let rows = rows_inside(alloc, tokens, text, field, bracket)?;
    end_statement(tokens, text, line)?;
    Ok(Setting { field, rows })
}

/// The value of a statement, and the statement's end.
#[tactic(auto, unfolding(crate::specs::Statements::value_by))]
fn read_value<'a>(
    alloc: Global,
    tokens: &mut Tokens<'_>,
    text: &'a [u8],
    line: usize,
    field: Option<Field>,
    value: Token,
) -> Result<Setting<'a>, CaseFault>
    requires text { tokens.old.text ≡ text.now }
    requires within { IsWithin (length text.now) value }
    ensures same { SameEnd tokens.old tokens.new }
    ensures ok { IfOk result (λ setting. value_by (word_of text.entry.now value) text.entry.now tokens.old.left.fault line field value tokens.old.left.tokens
        ≡ Ok (setting_of setting, tokens.new.left.tokens)) }
    ensures err { IfErr result (λ e. e ≢ CaseFault.Memory →
        value_by (word_of text.entry.now value) text.entry.now tokens.old.left.fault line field value tokens.old.left.tokens ≡ Err e) }
{
    let bytes = text_of(text, value);
    match word_of(text, value) {
        Word::Run => {
            let allowed = is_number(bytes) && takes_number(field);
            plain_value(alloc, tokens, text, line, field, allowed)
        }
        Word::Quoted => {
            let setting = plain_value(alloc, tokens, text, line, field, takes_text(field, bytes))?;
            if field.is_some() && is_version_one(bytes) {
                Err(CaseFault::VersionOne)
            } else {
                Ok(setting)
            }
        }
        Word::Opening(bracket) => bracketed(alloc, tokens, text, line, field, bracket),
        _ => Err(CaseFault::Code { line }),
    }
}

/// A statement from its head on, which sets this field: what it sets, `=`, a value, and its end.
#[tactic(auto, unfolding(crate::specs::Statements::statement_of))]
pub fn read_statement<'a>(
    alloc: Global,
    tokens: &mut Tokens<'_>,
    text: &'a [u8],
    field: Option<Field>,
    head: Token,
) -> Result<Setting<'a>, CaseFault>
    requires text { tokens.old.text ≡ text.now }
    requires within { IsWithin (length text.now) head }
    ensures same { SameEnd tokens.old tokens.new }
    ensures ok { IfOk result (λ setting. statement_of field text.entry.now tokens.old.left.fault head tokens.old.left.tokens
        ≡ Ok (setting_of setting, tokens.new.left.tokens)) }
    ensures err { IfErr result (λ e. e ≢ CaseFault.Memory →
        statement_of field text.entry.now tokens.old.left.fault head tokens.old.left.tokens ≡ Err e) }
{
    let line = head.line;
    let is_head = is_run(word_of(text, head)) && is_target(text_of(text, head));
    let Some(equals) = token_outside(tokens) else {
        return Err(CaseFault::Code { line });
    };
    let Some(value) = token_outside(tokens) else {
        return Err(CaseFault::Code { line });
    };
    if is_head && is_equals(word_of(text, equals)) {
        read_value(alloc, tokens, text, line, field, value)
    } else {
        Err(CaseFault::Code { line })
    }
}

/// The next token, and none at the end of the text.
fn next_token(tokens: &mut Tokens<'_>) -> Result<Option<Token>, CaseFault>
    ensures same { SameEnd tokens.old tokens.new }
    ensures next { IfOk result (λ found. MatchOption found ((tokens.old.left.tokens ≡ []) × (tokens.new.left.tokens ≡ []) × (tokens.old.left.fault ≡ None)) (IsNext tokens.old tokens.new)) }
    ensures stop { IfErr result (λ e. (tokens.old.left.tokens ≡ []) × ((case : Result CaseMatrices CaseFault) → at_end tokens.old.left.fault case ≡ Err e)) }
{
    match tokens.next() {
        Ok(found) => Ok(found),
        Err(TokenFault::BadToken { at }) => Err(CaseFault::BadToken { at }),
    }
}

/// The first token of the next statement, and none at the end of the text.
pub fn next_head(tokens: &mut Tokens<'_>, text: &[u8]) -> Result<Option<Token>, CaseFault>
    requires { tokens.old.text ≡ text.now }
    ensures same { SameEnd tokens.old tokens.new }
    ensures head { IfOk result (λ found. MatchOption found
        ((past_separators text.now tokens.old.left.tokens ≡ []) × (tokens.new.left.tokens ≡ []) × (tokens.old.left.fault ≡ None))
        (λ token. (past_separators text.now tokens.old.left.tokens ≡ token ∷ tokens.new.left.tokens) × IsWithin (length text.now) token)) }
    ensures stop { IfErr result (λ e. (past_separators text.now tokens.old.left.tokens ≡ [])
        × ((case : Result CaseMatrices CaseFault) → at_end tokens.old.left.fault case ≡ Err e)) }
{
    while let Some(token) = next_token(tokens)? {
        if !is_separator(word_of(text, token)) {
            return Ok(Some(token));
        }
    }
    Ok(None)
}

/// Reads the statements behind the first.
fn read_settings<'a>(
    alloc: Global,
    tokens: &mut Tokens<'_>,
    text: &'a [u8],
) -> Result<RawCase<'a>, CaseFault>
    requires { tokens.old.text ≡ text.now }
    ensures ok { IfOk result (λ case. case_from text.entry.now tokens.old.left.fault no_settings 0 tokens.old.left.tokens ≡ Ok case) }
    ensures err { IfErr result (λ e. e ≢ CaseFault.Memory →
        case_from text.entry.now tokens.old.left.fault no_settings 0 tokens.old.left.tokens ≡ Err e) }
{
    let mut settings = no_settings();
    while let Some(head) = next_head(tokens, text)? {
        let named = field_of(text_of(text, head));
        let Setting { field, rows } = read_statement(alloc, tokens, text, named, head)?;
        settings = with_setting(settings, field, rows)?;
    }
    all_set(settings)
}

/// Reads `=` and the name of the function.
#[tactic(auto, unfolding(crate::specs::Cases::named_from))]
fn read_name(tokens: &mut Tokens<'_>, text: &[u8], line: usize) -> Result<(), CaseFault>
    requires { tokens.old.text ≡ text.now }
    ensures same { SameEnd tokens.old tokens.new }
    ensures reads { MatchResult result
        (λ _. named_from text.now tokens.old.left.fault line tokens.old.left.tokens ≡ case_from text.now tokens.old.left.fault no_settings 0 tokens.new.left.tokens)
        (λ e. named_from text.now tokens.old.left.fault line tokens.old.left.tokens ≡ Err e) }
{
    let Some(equals) = token_outside(tokens) else {
        return Err(CaseFault::Code { line });
    };
    let Some(name) = token_outside(tokens) else {
        return Err(CaseFault::Code { line });
    };
    let is_named = is_run(word_of(text, name)) && is_name(text_of(text, name));
    if is_equals(word_of(text, equals)) && is_named {
        Ok(())
    } else {
        Err(CaseFault::Code { line })
    }
}

/// Whether a token is a run of these bytes.
fn is_run_of(bytes: &[u8], text: &[u8], token: Token) -> bool
    requires { IsWithin (length text.now) token }
    ensures { result ≡ is_run_of bytes.now text.now token }
{
    is_run(word_of(text, token)) && text_of(text, token) == bytes
}

/// Reads the first statement from its head on.
#[tactic(auto, unfolding(crate::specs::Cases::function_from))]
fn read_function(tokens: &mut Tokens<'_>, text: &[u8], head: Token) -> Result<(), CaseFault>
    requires text { tokens.old.text ≡ text.now }
    requires within { IsWithin (length text.now) head }
    ensures same { SameEnd tokens.old tokens.new }
    ensures reads { MatchResult result
        (λ _. function_from text.now tokens.old.left.fault head tokens.old.left.tokens ≡ case_from text.now tokens.old.left.fault no_settings 0 tokens.new.left.tokens)
        (λ e. function_from text.now tokens.old.left.fault head tokens.old.left.tokens ≡ Err e) }
{
    let line = head.line;
    let Some(next) = token_outside(tokens) else {
        return Err(CaseFault::Code { line });
    };
    if !is_run_of(b"function", text, head) {
        Err(CaseFault::Code { line })
    } else if opens_square(word_of(text, next)) && head.span.end < next.span.start {
        Err(CaseFault::VersionOne)
    } else if is_run_of(b"mpc", text, next) {
        read_name(tokens, text, line)
    } else {
        Err(CaseFault::Code { line })
    }
}

/// Reads all statements.
pub fn read_statements<'a>(
    alloc: Global,
    tokens: &mut Tokens<'_>,
    text: &'a [u8],
) -> Result<RawCase<'a>, CaseFault>
    requires { tokens.old.text ≡ text.now }
    ensures ok { IfOk result (λ case. statements_from text.entry.now tokens.old.left.fault tokens.old.left.tokens ≡ Ok case) }
    ensures err { IfErr result (λ e. e ≢ CaseFault.Memory →
        statements_from text.entry.now tokens.old.left.fault tokens.old.left.tokens ≡ Err e) }
{
    match next_head(tokens, text)? {
        Some(head) => {
            read_function(tokens, text, head)?;
            read_settings(alloc, tokens, text)
        }
        None => Err(CaseFault::NoVersion),
    }
}
