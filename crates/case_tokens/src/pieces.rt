//! The piece that begins at a place of a text.

ghost use Rattle.std.specs.Prelude.{◌≡◌, ◌≤◌, ◌<◌, length, IfSome, IsTrue};
ghost use Rattle.std.specs.List.{list_all, position_or_len, position, before_first};
ghost use Rattle.case_tokens.specs.Bytes.{is_blank, is_line_end, is_quote, ends_run};
ghost use Rattle.case_tokens.specs.Pieces.{line_length, is_block_rest, comment_at, is_continuation, continuation_length, string_length, is_parted, quoted_at, run_at, piece_at};

use crate::{Kind, bytes};
use scaled_decimal::is_number;

/// What begins at a place of a text.
#[derive(Clone, Copy)]
pub enum Piece {
    /// The text ends outside brackets.
    End,
    /// So many bytes part tokens: a blank, a comment or a continuation.
    Gap(usize),
    /// A token of so many bytes.
    Token(Kind, usize),
    /// What can't stand inside brackets.
    Bad,
}

fn first_line_end(rest: &[u8]) -> Option<usize>
    ensures { result ≡ position is_line_end rest.now }
{
    rest.iter().position(|byte| *byte == b'\n')
}

/// How many bytes are left of a line.
#[tactic(auto, using(scaled_decimal::proofs::CutLemmas::place_or_length, crate::proofs::PieceLemmas::place_within))]
fn line_length(rest: &[u8]) -> usize
    ensures value { result ≡ line_length rest.now }
    ensures within { result ≤ length rest.now }
{
    first_line_end(rest).unwrap_or(rest.len())
}

fn first_run_end(rest: &[u8], inside: bool) -> Option<usize>
    ensures { result ≡ position (ends_run inside) rest.now }
{
    rest.iter().position(|byte| bytes::ends_run(inside, *byte))
}

/// How many bytes a run takes.
#[tactic(auto, using(scaled_decimal::proofs::CutLemmas::place_or_length, crate::proofs::PieceLemmas::place_within))]
fn run_length(rest: &[u8], inside: bool) -> usize
    ensures value { result ≡ position_or_len (ends_run inside) rest.now }
    ensures within { result ≤ length rest.now }
{
    first_run_end(rest, inside).unwrap_or(rest.len())
}

fn are_blank(rest: &[u8]) -> bool
    ensures { result ≡ list_all is_blank rest.now }
{
    rest.iter().all(|byte| bytes::is_blank(*byte))
}

/// Whether a line's rest is `%{` or `%}`, and blanks.
#[tactic(auto, unfolding(crate::specs::Pieces::is_block_rest))]
fn is_block_rest(rest: &[u8]) -> bool
    ensures { result ≡ is_block_rest rest.now }
{
    match rest {
        [first, second, behind @ ..] => {
            *first == b'%' && (*second == b'{' || *second == b'}') && are_blank(behind)
        }
        _ => false,
    }
}

/// The comment, or the block's mark on a line of its own.
#[tactic(auto, unfolding(crate::specs::Pieces::comment_at))]
fn comment_at(rest: &[u8], blank: bool) -> Piece
    ensures { result ≡ comment_at blank rest.now }
{
    let length = line_length(rest);
    if blank && is_block_rest(&rest[..length]) {
        Piece::Token(Kind::Block, 2)
    } else {
        Piece::Gap(length)
    }
}

fn is_continuation(rest: &[u8]) -> bool
    ensures { result ≡ is_continuation rest.now }
{
    rest.starts_with(b"...")
}

/// How many bytes a continuation takes: the rest of its line, and the line's end where there is one.
fn continuation_length(rest: &[u8]) -> usize
    ensures { result ≡ continuation_length rest.now }
{
    let length = line_length(rest);
    if length < rest.len() {
        length + 1
    } else {
        length
    }
}

/// How many bytes a string takes behind its opening quote, where it is closed on its line.
#[tactic(auto, unfolding(crate::specs::Pieces::string_length))]
fn string_length(quote: u8, behind: &[u8]) -> Option<usize>
    requires { IsTrue (is_quote quote) }
    ensures value { result ≡ string_length quote behind.now }
    ensures within { IfSome result (λ n. n ≤ length behind.now) }
{
    let mut at = 0;
    while at < behind.len() && behind[at] != b'\n' {
        if behind[at] != quote {
            at += 1;
        } else if at + 1 < behind.len() && behind[at + 1] == quote {
            at += 2;
        } else {
            return Some(at + 1);
        }
    }
    None
}

/// Whether a number or a string inside brackets is parted from what follows it.
fn is_parted(rest: &[u8]) -> bool
    ensures { result ≡ is_parted rest.now }
{
    match rest {
        [byte, ..] => bytes::may_follow(*byte),
        [] => true,
    }
}

/// The string, or the quote that is not closed.
#[tactic(auto, unfolding(crate::specs::Pieces::quoted_at))]
fn quoted_at(rest: &[u8], closing: Option<usize>, inside: bool) -> Piece
    requires { IfSome closing (λ n. n < length rest.now) }
    ensures { result ≡ quoted_at inside closing rest.now }
{
    match closing {
        Some(behind) if inside && !is_parted(&rest[behind + 1..]) => Piece::Bad,
        Some(behind) => Piece::Token(Kind::Text, behind + 1),
        None if inside => Piece::Bad,
        None => Piece::Token(Kind::Open, line_length(rest)),
    }
}

/// The run of this many bytes.
#[tactic(auto, unfolding(crate::specs::Pieces::run_at))]
fn run_at(rest: &[u8], count: usize, inside: bool) -> Piece
    requires { count ≤ length rest.now }
    ensures { result ≡ run_at inside count rest.now }
{
    let (run, behind) = rest.split_at(count);
    if inside && !(is_number(run) && is_parted(behind)) {
        Piece::Bad
    } else {
        Piece::Token(Kind::Run, count)
    }
}

/// The piece that begins where `rest` is left of a text. `blank` tells whether blanks alone stand before it on its line.
#[tactic(auto, unfolding(crate::specs::Pieces::piece_at))]
pub fn piece_at(rest: &[u8], inside: bool, blank: bool) -> Piece
    ensures { result ≡ piece_at inside blank rest.now }
{
    match rest {
        [] if inside => Piece::Bad,
        [] => Piece::End,
        [first, ..] if bytes::is_blank(*first) => Piece::Gap(1),
        [b'\n', ..] => Piece::Token(Kind::LineEnd, 1),
        [b'%', ..] => comment_at(rest, blank),
        _ if is_continuation(rest) => Piece::Gap(continuation_length(rest)),
        [first, ..] if bytes::is_mark(inside, *first) => Piece::Token(Kind::Mark, 1),
        [first, behind @ ..] if bytes::is_quote(*first) => {
            quoted_at(rest, string_length(*first, behind), inside)
        }
        _ => run_at(rest, run_length(rest, inside), inside),
    }
}
