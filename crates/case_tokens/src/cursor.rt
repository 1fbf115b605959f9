//! A place of a text, and how it moves from piece to piece.

ghost use Rattle.std.specs.Prelude.{◌≡◌, ◌≤◌, ◌+◌, ◌-◌, ◌<◌, length, take, drop, if◌then◌else◌};
ghost use Rattle.case_tokens.specs.TokenLists.{is_inside, token_list, token_of, with_first};
ghost use Rattle.case_tokens.specs.Pieces.{piece_at, Fits, IsNoGap};
ghost use Rattle.case_tokens.specs.declared.Kind.{Kind};
ghost use Rattle.case_tokens.specs.Cursors.{IsCursor, left_at, brackets_of, Passes};

use crate::bytes::{is_blank, is_closing, is_opening};
use crate::pieces::{self, Piece};
use crate::{Kind, Span, Token};

/// A place of a text.
#[derive(Clone, Copy)]
pub struct Cursor<'a> {
    pub text: &'a [u8],
    pub place: usize,
    /// How many lines end before it.
    pub line_ends: usize,
    /// Whether blanks alone stand before it on its line.
    pub blank: bool,
    /// How many brackets were opened before it.
    pub opened: usize,
    /// How many brackets were closed before it.
    pub closed: usize,
}

pub fn first_cursor(text: &[u8]) -> Cursor<'_>
    ensures valid { IsCursor result }
    ensures text { result.text.now ≡ text.now }
    ensures left { left_at result ≡ token_list text.now }
{
    Cursor {
        text,
        place: 0,
        line_ends: 0,
        blank: true,
        opened: 0,
        closed: 0,
    }
}

/// The piece that begins at the cursor.
pub fn piece_of(cursor: Cursor<'_>) -> Piece
    requires { IsCursor cursor }
    ensures value { result ≡ piece_at (is_inside (brackets_of cursor.entry)) cursor.entry.blank (drop cursor.entry.place cursor.entry.text.now) }
    ensures fits { Fits result (length cursor.entry.text.now - cursor.entry.place) }
{
    pieces::piece_at(
        &cursor.text[cursor.place..],
        cursor.opened > cursor.closed,
        cursor.blank,
    )
}

/// The cursor behind the next so many bytes.
fn passed(cursor: Cursor<'_>, count: usize) -> Cursor<'_>
    requires valid { IsCursor cursor }
    requires within { cursor.place + count ≤ length cursor.text.now }
    ensures valid { IsCursor result }
    ensures moves { Passes cursor.entry count result }
{
    let place = cursor.place + count;
    let mut line_ends = cursor.line_ends;
    let mut blank = cursor.blank;
    for byte in &cursor.text[cursor.place..place] {
        if *byte == b'\n' {
            line_ends += 1;
            blank = true;
        } else {
            blank = blank && is_blank(*byte);
        }
    }
    Cursor {
        place,
        line_ends,
        blank,
        ..cursor
    }
}

/// The cursor at the next piece that does not only part tokens.
pub fn after_gaps(cursor: Cursor<'_>) -> Cursor<'_>
    requires { IsCursor cursor }
    ensures valid { IsCursor result }
    ensures left { left_at result ≡ left_at cursor.entry }
    ensures text { result.text.now ≡ cursor.entry.text.now }
    ensures no_gap { IsNoGap (piece_at (is_inside (brackets_of result)) result.blank (drop result.place result.text.now)) }
{
    let mut at = cursor;
    while let Piece::Gap(count) = piece_of(at) {
        at = passed(at, count);
    }
    at
}

/// 1 where the test holds, else 0.
fn one_if(test: bool) -> usize
    ensures { result ≡ (if test then 1 else 0) }
{
    usize::from(test)
}

/// The cursor behind a token of this many bytes.
pub fn past_token(cursor: Cursor<'_>, count: usize) -> Cursor<'_>
    requires valid { IsCursor cursor }
    requires some { 0 < count }
    requires within { cursor.place + count ≤ length cursor.text.now }
    ensures valid { IsCursor result }
    ensures text { result.text.now ≡ cursor.entry.text.now }
    ensures left { (kind : Kind) →
        piece_at (is_inside (brackets_of cursor.entry)) cursor.entry.blank (drop cursor.entry.place cursor.entry.text.now) ≡ Piece.Token kind count →
        left_at cursor.entry ≡ with_first (token_of kind count (take cursor.entry.place cursor.entry.text.now)) (left_at result) }
{
    let first = cursor.text[cursor.place];
    let behind = passed(cursor, count);
    Cursor {
        opened: cursor.opened + one_if(is_opening(first)),
        closed: cursor.closed + one_if(is_closing(first)),
        ..behind
    }
}

/// The token of this many bytes at the cursor.
pub fn token_at(cursor: Cursor<'_>, kind: Kind, count: usize) -> Token
    requires valid { IsCursor cursor }
    requires some { 0 < count }
    requires within { cursor.place + count ≤ length cursor.text.now }
    ensures { result ≡ token_of kind count (take cursor.entry.place cursor.entry.text.now) }
{
    Token {
        kind,
        span: Span {
            start: cursor.place,
            end: cursor.place + count,
        },
        line: cursor.line_ends + 1,
    }
}
