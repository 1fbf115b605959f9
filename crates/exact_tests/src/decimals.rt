//! `scaled_decimal`: decimals as whole numbers of units, with values worked by hand.

use scaled_decimal::{DecimalFault, Sign, is_number, read, sign_of};

/// Texts, places below a unit, and how many units these are.
static UNITS: [(&[u8], u8, Result<i64, DecimalFault>); 38] = [
    (b"60", 9, Ok(60_000_000_000)),
    (b"6.000e1", 9, Ok(60_000_000_000)),
    (b"-0", 9, Ok(0)),
    (b"1e-10", 9, Err(DecimalFault::TooFine)),
    (b"Inf", 9, Err(DecimalFault::NotFinite)),
    (b"-Inf", 9, Err(DecimalFault::NotFinite)),
    (b"+inf", 9, Err(DecimalFault::NotFinite)),
    (b"NaN", 9, Err(DecimalFault::NotFinite)),
    (b"INF", 9, Err(DecimalFault::BadNumber)),
    (b"1e999999999", 9, Err(DecimalFault::OutOfRange)),
    (b"-1e-999999999", 9, Err(DecimalFault::TooFine)),
    (b"0e99999999999999999999999", 9, Ok(0)),
    (b"0.000e-5", 0, Ok(0)),
    (b"1000e-3", 0, Ok(1)),
    (b"9223372036854775807", 0, Ok(9_223_372_036_854_775_807)),
    (b"-9223372036854775807", 0, Ok(-9_223_372_036_854_775_807)),
    (b"9223372036854775808", 0, Err(DecimalFault::OutOfRange)),
    (b"-9223372036854775808", 0, Err(DecimalFault::OutOfRange)),
    (b"9223372036.854775807", 9, Ok(9_223_372_036_854_775_807)),
    (b"922337203685477580.7E1", 0, Ok(9_223_372_036_854_775_807)),
    (b".5", 1, Ok(5)),
    (b"5.", 0, Ok(5)),
    (b"+5.0e-3", 3, Ok(5)),
    (b"00012.50", 2, Ok(1250)),
    (b"-00012.50", 1, Ok(-125)),
    (b"12.5", 0, Err(DecimalFault::TooFine)),
    (b"12.5e+1", 0, Ok(125)),
    (b".", 0, Err(DecimalFault::BadNumber)),
    (b"", 0, Err(DecimalFault::BadNumber)),
    (b"e5", 0, Err(DecimalFault::BadNumber)),
    (b"5e", 0, Err(DecimalFault::BadNumber)),
    (b"5e+", 0, Err(DecimalFault::BadNumber)),
    (b"--5", 0, Err(DecimalFault::BadNumber)),
    (b" 5", 0, Err(DecimalFault::BadNumber)),
    (b"1 2", 0, Err(DecimalFault::BadNumber)),
    (b"1.2.3", 0, Err(DecimalFault::BadNumber)),
    (b"1e2e3", 0, Err(DecimalFault::BadNumber)),
    (b"0x10", 0, Err(DecimalFault::BadNumber)),
];

#[test]
fn reads_units(rt: HostRuntime) {
    for (text, places, want) in &UNITS {
        assert!(rt; *places <= 18);
        assert_eq!(rt; read(text, *places), *want, "{text:?}");
    }
    let nines = [b'9'; 3000];
    assert_eq!(rt; read(&nines, 0), Err(DecimalFault::OutOfRange));
    let zeros = [b'0'; 3000];
    assert_eq!(rt; read(&zeros, 18), Ok(0));
}

/// Texts, their signs, and whether they are numbers.
static SIGNS: [(&[u8], Result<Sign, DecimalFault>, bool); 8] = [
    (b"-0.0e5", Ok(Sign::Zero), true),
    (b"-.1", Ok(Sign::Below), true),
    (b"3", Ok(Sign::Above), true),
    (b"1e-999999999", Ok(Sign::Above), true),
    (b"nan", Err(DecimalFault::NotFinite), true),
    (b"-Inf", Err(DecimalFault::NotFinite), true),
    (b".e1", Err(DecimalFault::BadNumber), false),
    (b"INF", Err(DecimalFault::BadNumber), false),
];

#[test]
fn tells_signs_and_numbers(rt: HostRuntime) {
    for (text, sign, is) in &SIGNS {
        assert_eq!(rt; sign_of(text), *sign, "{text:?}");
        assert_eq!(rt; is_number(text), *is, "{text:?}");
    }
}

/// Texts of a sign, digits and a point, around the eighteen digits that are read without an exponent, with places and units.
static PLAIN: [(&[u8], u8, Result<i64, DecimalFault>); 22] = [
    (b"+7", 9, Ok(7_000_000_000)),
    (b"-5", 2, Ok(-500)),
    (b"-0", 17, Ok(0)),
    (b"-0", 18, Ok(0)),
    (b"-00012.50", 3, Ok(-12_500)),
    (b"-0.000001", 6, Ok(-1)),
    (b"1", 17, Ok(100_000_000_000_000_000)),
    (b"1", 18, Ok(1_000_000_000_000_000_000)),
    (b"0.000000000000000001", 18, Ok(1)),
    (b".000000000000000001", 18, Ok(1)),
    (b"123456789012345678", 0, Ok(123_456_789_012_345_678)),
    (b"1234567890123456789", 0, Ok(1_234_567_890_123_456_789)),
    (b"-123456789.012345678", 9, Ok(-123_456_789_012_345_678)),
    (b"9.223372036854775807", 18, Ok(9_223_372_036_854_775_807)),
    (b"9.22337203685477580", 17, Ok(922_337_203_685_477_580)),
    (b"9.22337203685477581", 18, Err(DecimalFault::OutOfRange)),
    (b"10", 18, Err(DecimalFault::OutOfRange)),
    (b"1.23", 1, Err(DecimalFault::TooFine)),
    (b"1.20", 1, Ok(12)),
    (b"-", 0, Err(DecimalFault::BadNumber)),
    (b"-.", 0, Err(DecimalFault::BadNumber)),
    (b"1e3", 9, Ok(1_000_000_000_000)),
];

/// Texts of a sign, digits and a point, around the eighteen digits that are read without an exponent.
#[test]
fn reads_plain_texts(rt: HostRuntime) {
    for (text, places, want) in &PLAIN {
        assert!(rt; *places <= 18);
        assert_eq!(rt; read(text, *places), *want, "{text:?}");
    }
}
