//! What a token says.

ghost use Rattle.std.specs.Prelude.{◌≡◌, length};
ghost use Rattle.case_tokens.specs.TokenLists.{IsWithin};
ghost use Rattle.case_text.specs.Words.{text_of, mark_of, word_of, is_separator, is_equals, is_run, opens_square};

use case_tokens::{Kind, Token};

/// The brackets of a matrix and of a cell list.
#[derive(Clone, Copy, PartialEq, Eq, Debug)]
pub enum Bracket {
    Square,
    Curly,
}

/// What a token says, without its text.
#[derive(Clone, Copy)]
pub enum Word {
    LineEnd,
    /// A line of `%{` or `%}`.
    Block,
    Comma,
    Semicolon,
    Equals,
    Opening(Bracket),
    Closing(Bracket),
    /// A string.
    Quoted,
    /// A quote that is not closed.
    Unclosed,
    Run,
}

/// The bytes of a token.
pub fn text_of(text: &[u8], token: Token) -> &[u8]
    requires { IsWithin (length text.now) token }
    ensures { result.now ≡ text_of text.now token }
{
    &text[token.span.start..token.span.end]
}

#[tactic(auto, unfolding(crate::specs::Words::mark_of))]
fn mark_of(byte: u8) -> Word
    ensures { result ≡ mark_of byte }
{
    match byte {
        b',' => Word::Comma,
        b';' => Word::Semicolon,
        b'=' => Word::Equals,
        b'[' => Word::Opening(Bracket::Square),
        b'{' => Word::Opening(Bracket::Curly),
        b']' => Word::Closing(Bracket::Square),
        _ => Word::Closing(Bracket::Curly),
    }
}

#[tactic(auto, unfolding(crate::specs::Words::word_of))]
pub fn word_of(text: &[u8], token: Token) -> Word
    requires { IsWithin (length text.now) token }
    ensures { result ≡ word_of text.now token }
{
    match token.kind {
        Kind::LineEnd => Word::LineEnd,
        Kind::Block => Word::Block,
        Kind::Mark => mark_of(text[token.span.start]),
        Kind::Text => Word::Quoted,
        Kind::Open => Word::Unclosed,
        Kind::Run => Word::Run,
    }
}

/// Whether the word parts statements.
pub fn is_separator(word: Word) -> bool
    ensures { result ≡ is_separator word }
{
    matches!(word, Word::Semicolon | Word::Comma | Word::LineEnd)
}

pub fn is_equals(word: Word) -> bool
    ensures { result ≡ is_equals word }
{
    matches!(word, Word::Equals)
}

pub fn is_run(word: Word) -> bool
    ensures { result ≡ is_run word }
{
    matches!(word, Word::Run)
}

/// Whether the word is `[`.
pub fn opens_square(word: Word) -> bool
    ensures { result ≡ opens_square word }
{
    matches!(word, Word::Opening(Bracket::Square))
}
