//! `line_text`: parts of a line, one behind the other.

use exact_fraction::{Exact, Frac};
use line_text::Text;
use std::test::Fail;

#[test]
fn writes_one_behind_the_other(rt: HostRuntime) -> Result<(), Fail> {
    let mut text = Text::new(rt.alloc());
    text.word(b"a ")?;
    text.number(12)?;
    text.named(b" b ", Frac::of_parts(-5, 2), 0)?;
    text.word(b" c ")?;
    text.parts(Frac::of_parts(6, 4))?;
    text.word(b" d ")?;
    text.decimal(-1_250_000, 6)?;
    let bytes = text.into_bytes();
    assert_eq!(rt; bytes.as_slice(), b"a 12 b -2:1/2 c 3/2 d -1.25".as_slice());
    Ok(())
}
