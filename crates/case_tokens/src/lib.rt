//! Cuts the text of a case into tokens.
//!
//! A text is cut into pieces, each behind the one before it. What parts tokens is passed over: blanks (a space, a tab, a carriage
//! return), comments (from `%` up to the end of the line), and continuations (`...` with the rest of its line and the line's end).
//! All other pieces are tokens; `Kind` says which. Places are counted in bytes from 0, lines from 1.
//!
//! Inside brackets, where more were opened than closed so far, a run must be a number, a quote must be closed on its line, runs and
//! strings must be parted from what follows them, and the text may not end. What breaks this is a fault at its place.
//!
//! Nothing here takes memory.
#![tactic(auto)]

ghost use Rattle.std.specs.Prelude.{◌≡◌, IfOk, IfSome, length};
ghost use Rattle.case_tokens.specs.TokenLists.{Gives, IsWithin, token_list};

use std::marker::Model;

mod bytes;
mod cursor;
pub mod laws;
mod pieces;

use cursor::{Cursor, after_gaps, first_cursor, past_token, piece_of, token_at};
use pieces::Piece;

/// What a token is.
#[derive(Clone, Copy, PartialEq, Eq, Debug)]
pub enum Kind {
    /// A line's end, of one byte.
    LineEnd,
    /// A line that has, blanks aside, only `%{` or `%}`: these two bytes.
    Block,
    /// One of `, ; [ ] { }`, and outside brackets `=`.
    Mark,
    /// A string with its quotes. Its own quote doubled stands for itself.
    Text,
    /// Outside brackets a quote that is not closed on its line, up to the line's end.
    Open,
    /// The longest run up to a blank, a line's end, a quote, `%` or a mark.
    Run,
}

/// The place of a token's first byte, and that behind its last.
#[derive(Clone, Copy, PartialEq, Eq, Debug)]
pub struct Span {
    pub start: usize,
    pub end: usize,
}

/// A token, whose text is the slice of the source at its span.
#[derive(Clone, Copy, PartialEq, Eq, Debug)]
pub struct Token {
    pub kind: Kind,
    pub span: Span,
    /// The line that it stands on.
    pub line: usize,
}

/// Why a text has no further token.
#[derive(Clone, Copy, PartialEq, Eq, Debug)]
pub enum TokenFault {
    /// What begins at this place can't stand inside brackets; or it is the text's length, and the text ends inside them.
    BadToken { at: usize },
}

/// The tokens of a text that are left. Contracts see the text and the list of them.
#[derive(Drop)]
pub struct Tokens<'a> {
    cursor: Cursor<'a>,
}

impl<'a> Model for Tokens<'a> {
    ghost use Rattle.case_tokens.specs.TokenLists.{Remaining};

    ghost Value = { Remaining };

    ghost use Rattle.case_tokens.specs.Cursors.{left_at, IsCursor};

    ghost view = { λ tokens. record { text = tokens.cursor.text.now; left = left_at tokens.cursor } };

    ghost invariant = { λ tokens. IsCursor tokens.cursor };
}

impl<'a> Tokens<'a> {
    pub fn new(text: &'a [u8]) -> Tokens<'a>
        ensures text { result.text ≡ text.now }
        ensures left { result.left ≡ token_list text.now }
    {
        Tokens {
            cursor: first_cursor(text),
        }
    }

    /// The next token, none at the end, or the fault that ends the tokens. After the end and after a fault each further call answers
    /// the same.
    pub fn next(&mut self) -> Result<Option<Token>, TokenFault>
        ensures gives { Gives result self.old self.new }
        ensures within { IfOk result (λ found. IfSome found (IsWithin (length self.old.text))) }
    {
        self.cursor = after_gaps(self.cursor);
        match piece_of(self.cursor) {
            Piece::Token(kind, length) => {
                let token = token_at(self.cursor, kind, length);
                self.cursor = past_token(self.cursor, length);
                Ok(Some(token))
            }
            Piece::Bad => Err(TokenFault::BadToken {
                at: self.cursor.place,
            }),
            Piece::End | Piece::Gap(_) => Ok(None),
        }
    }
}
