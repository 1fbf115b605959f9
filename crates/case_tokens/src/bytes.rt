//! What the bytes of a case's text are.

ghost use Rattle.std.specs.Prelude.{◌≡◌};
ghost use Rattle.case_tokens.specs.Bytes.{is_blank, is_quote, is_opening, is_closing, is_parting, is_mark, ends_run, may_follow};

/// A space, a tab or a carriage return.
pub fn is_blank(byte: u8) -> bool
    ensures { result ≡ is_blank byte }
{
    byte == b' ' || byte == b'\t' || byte == b'\r'
}

pub fn is_quote(byte: u8) -> bool
    ensures { result ≡ is_quote byte }
{
    byte == b'\'' || byte == b'"'
}

pub fn is_opening(byte: u8) -> bool
    ensures { result ≡ is_opening byte }
{
    byte == b'[' || byte == b'{'
}

pub fn is_closing(byte: u8) -> bool
    ensures { result ≡ is_closing byte }
{
    byte == b']' || byte == b'}'
}

fn is_parting(byte: u8) -> bool
    ensures { result ≡ is_parting byte }
{
    byte == b',' || byte == b';'
}

/// Whether the byte is a mark inside brackets, or outside them, where `=` is one too.
pub fn is_mark(inside: bool, byte: u8) -> bool
    ensures { result ≡ is_mark inside byte }
{
    is_parting(byte) || is_opening(byte) || is_closing(byte) || (byte == b'=' && !inside)
}

/// Whether a run goes on up to the byte.
pub fn ends_run(inside: bool, byte: u8) -> bool
    ensures { result ≡ ends_run inside byte }
{
    is_blank(byte) || byte == b'\n' || is_quote(byte) || byte == b'%' || is_mark(inside, byte)
}

/// Whether the byte may follow a number or a string inside brackets.
pub fn may_follow(byte: u8) -> bool
    ensures { result ≡ may_follow byte }
{
    is_blank(byte) || byte == b'\n' || is_parting(byte) || is_closing(byte) || byte == b'%'
}
