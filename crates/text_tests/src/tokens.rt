//! `case_tokens`: texts and the shapes of their tokens.

use case_tokens::{Kind, Token, TokenFault, Tokens};
use std::process::Abort;

/// The letter that a token's first byte has in a shape, and that of its other bytes.
fn letters(kind: Kind) -> (u8, u8) {
    match kind {
        Kind::LineEnd => (b'L', b'l'),
        Kind::Block => (b'B', b'b'),
        Kind::Mark => (b'M', b'm'),
        Kind::Text => (b'T', b't'),
        Kind::Open => (b'O', b'o'),
        Kind::Run => (b'R', b'r'),
    }
}

/// Whether a token has its letters in a shape.
fn has_letters(token: Token, shape: &[u8]) -> bool {
    let (first, other) = letters(token.kind);
    match shape.get(token.span.start..token.span.end) {
        Some([letter, rest @ ..]) => *letter == first && rest.iter().all(|byte| *byte == other),
        _ => false,
    }
}

/// Checks the tokens of a text, whose lines have these digits, against its shape: a letter for each byte of a token, and a point for
/// each other byte.
fn check_tokens(rt: &impl Abort, text: &[u8], shape: &[u8], lines: &[u8], fault: Option<usize>) {
    let mut tokens = Tokens::new(text);
    let mut seen = 0usize;
    for line in lines {
        let Ok(Some(token)) = tokens.next() else {
            panic!(rt; "too few tokens in {text:?}");
        };
        assert!(rt; has_letters(token, shape), "{text:?}");
        assert!(rt;
            usize::from(*line) == token.line.wrapping_add(48),
            "{text:?}"
        );
        seen = seen.saturating_add(token.span.end - token.span.start);
    }
    let wanted = shape.iter().filter(|byte| **byte != b'.').count();
    assert!(rt; seen == wanted, "{text:?}");
    let end = match fault {
        Some(at) => Err(TokenFault::BadToken { at }),
        None => Ok(None),
    };
    assert_eq!(rt; tokens.next(), end, "after {text:?}");
    assert_eq!(rt; tokens.next(), end, "again after {text:?}");
}

/// Texts, the shapes of their tokens, the lines of these, and where a text stops that goes on with no token.
static TEXTS: [(&[u8], &[u8], &[u8], Option<usize>); 25] = [
    (b"", b"", b"", None),
    (b" \t\r", b"...", b"", None),
    (b"a b", b"R.R", b"11", None),
    (b"a\r\nb", b"R.LR", b"112", None),
    (b"mpc.x=5;", b"RrrrrMRM", b"1111", None),
    (b"a % b\nc", b"R....LR", b"112", None),
    (b"%{\n%}", b"BbLBb", b"112", None),
    (b" %{ \r\n%{a", b".Bb..L...", b"11", None),
    (b"a %{\n% {", b"R...L...", b"11", None),
    (b"a ... %{\n%{", b"R........Bb", b"12", None),
    (b"a ...\nb", b"R.....R", b"12", None),
    (b"a...\nb", b"RrrrLR", b"112", None),
    (b"a ...", b"R....", b"1", None),
    (b"'a % b'", b"Ttttttt", b"1", None),
    (b"'a''b' \"c'\"", b"Tttttt.Tttt", b"11", None),
    (b"'a\n'", b"OoLO", b"112", None),
    (b"5'a'", b"RTtt", b"11", None),
    (b"[1, 'a']%", b"MRM.TttM.", b"11111", None),
    (b"[1 -Inf]...", b"MR.RrrrM...", b"1111", None),
    (b"[5'a'", b"M....", b"1", Some(1)),
    (b"[1 a]", b"MR...", b"11", Some(3)),
    (b"[1=2]", b"M....", b"1", Some(1)),
    (b"{'a", b"M..", b"1", Some(1)),
    (b"[1\n", b"MRL", b"111", Some(3)),
    (b"]=[[]=a", b"MMMMMMR", b"1111111", None),
];

#[test]
fn cuts_texts(rt: HostRuntime) {
    for (text, shape, lines, fault) in &TEXTS {
        check_tokens(&rt, text, shape, lines, *fault);
    }
}
