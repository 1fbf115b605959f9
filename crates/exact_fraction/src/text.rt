//! The texts of fractions of numbers of 127 bits, and the parts that the texts of longer ones are made of too, in a buffer of the caller.
ghost use Rattle.std.specs.Prelude.{◌≡◌, ℕ, ◌<◌, ◌≤◌, ◌+◌, ◌-◌, ◌*◌, ◌/◌, ◌%◌, ◌^◌, List, [], ◌∷◌, ◌++◌, length, take, if◌then◌else◌, ℤ, pos, ◌<ℤ◌, unsigned_abs};
ghost use Rattle.exact_fraction.specs.Written.{number_text, last_digits, sign_text, trimmed_places, all_places, rest_text, units_text};

use itoa::Buffer;

/// Puts the bytes behind the first `at` ones, and gives the new end.
pub fn append(buf: &mut [u8], at: usize, bytes: &[u8]) -> usize
    requires { at + length bytes.now ≤ length buf.old }
    ensures end { result ≡ at + length bytes.now }
    ensures text { take result buf.new ≡ take at buf.old ++ bytes.now }
{
    let end = at + bytes.len();
    buf[at..end].copy_from_slice(bytes);
    end
}

/// Puts the sign of a number, which is nothing for one that is 0 or above.
pub fn write_sign(negative: bool, buf: &mut [u8]) -> usize
    requires { 0 < length buf.old }
    ensures end { result ≤ 1 }
    ensures text { take result buf.new ≡ (if negative then 45 ∷ [] else []) }
{
    if negative { append(buf, 0, b"-") } else { 0 }
}

/// Puts the digits of `n`.
pub fn append_digits(buf: &mut [u8], at: usize, n: u128) -> usize
    requires { at + length (number_text n) ≤ length buf.old }
    ensures end { result ≡ at + length (number_text n) }
    ensures text { take result buf.new ≡ take at buf.old ++ number_text n }
{
    let mut text = Buffer::new();
    append(buf, at, text.format(n).as_bytes())
}

/// Puts the last `k` digits of `n`, which has no more.
pub fn append_last(buf: &mut [u8], at: usize, k: usize, n: u128) -> usize
    requires space { at + 40 ≤ length buf.old }
    requires places { (0 < k) × (k ≤ 15) }
    requires fits { n < 10 ^ k }
    ensures end { result ≡ at + k }
    ensures text { take result buf.new ≡ take at buf.old ++ last_digits k n }
{
    let mut text = Buffer::new();
    let digits = text.format(n).as_bytes();
    let mut end = at;
    for _zero in digits.len()..k {
        end = append(buf, end, b"0");
    }
    append(buf, end, digits)
}

/// Puts a point and the places `n` without the zeros at their end, or nothing where no place is left.
pub fn append_trimmed(buf: &mut [u8], at: usize, places: usize, n: u128) -> usize
    requires space { at + 41 ≤ length buf.old }
    requires places { places ≤ 15 }
    requires fits { n < 10 ^ places }
    ensures most { result ≤ at + places + 1 }
    ensures text { take result buf.new ≡ take at buf.old ++ trimmed_places places n }
{
    let mut k = places;
    let mut left = n;
    while k > 0 && left % 10 == 0 {
        k -= 1;
        left /= 10;
    }
    if k == 0 {
        return at;
    }
    let end = append(buf, at, b".");
    append_last(buf, end, k, left)
}

/// Puts a point and all the places `n`, and then a rest of `r/d` units.
#[tactic(auto, using(crate::proofs::Digits::short_wide))]
fn append_rest(buf: &mut [u8], at: usize, places: usize, n: u128, r: u128, d: u128) -> usize
    requires start { at + places ≤ 40 }
    requires space { 128 ≤ length buf.old }
    requires places { places ≤ 15 }
    requires fits { n < 10 ^ places }
    requires sizes { (r < 2 ^ 127) × (d < 2 ^ 127) }
    ensures within { result ≤ length buf.old }
    ensures text { take result buf.new ≡ take at buf.old ++ (all_places places n ++ rest_text r d) }
{
    let mut end = at;
    if places > 0 {
        let point = append(buf, at, b".");
        end = append_last(buf, point, places, n);
    }
    let colon = append(buf, end, b":");
    let rest = append_digits(buf, colon, r);
    let slash = append(buf, rest, b"/");
    append_digits(buf, slash, d)
}

/// Puts `q` and `r/d` units, of which `10^places` are a whole, behind the first `at` bytes.
fn append_units(buf: &mut [u8], at: usize, places: usize, q: u128, r: u128, d: u128) -> usize
    requires start { at ≤ 1 }
    requires space { 128 ≤ length buf.old }
    requires places { places ≤ 15 }
    requires sizes { (q < 2 ^ 127) × (r < 2 ^ 127) × (d < 2 ^ 127) }
    ensures within { result ≤ length buf.old }
    ensures text { take result buf.new ≡ take at buf.old ++ units_text places q r d }
{
    let whole = 10u128.pow(places as u32);
    let point = append_digits(buf, at, q / whole);
    if r == 0 {
        append_trimmed(buf, point, places, q % whole)
    } else {
        append_rest(buf, point, places, q % whole, r, d)
    }
}

/// Puts `num/den` behind the first `at` bytes.
#[tactic(auto, using(crate::proofs::Digits::short_wide))]
fn append_parts(buf: &mut [u8], at: usize, num: u128, den: u128) -> usize
    requires start { at ≤ 1 }
    requires space { 128 ≤ length buf.old }
    requires sizes { (num < 2 ^ 127) × (den < 2 ^ 127) }
    ensures within { result ≤ length buf.old }
    ensures text { take result buf.new ≡ take at buf.old ++ (number_text num ++ 47 ∷ number_text den) }
{
    let rest = append_digits(buf, at, num);
    let slash = append(buf, rest, b"/");
    append_digits(buf, slash, den)
}

/// Writes `num/den` in units, of which `10^places` are a whole.
pub fn write_units(num: i128, den: i128, places: usize, buf: &mut [u8]) -> usize
    requires places { places ≤ 15 }
    requires space { 128 ≤ length buf.old }
    requires sizes { (unsigned_abs num < 2 ^ 127) × (unsigned_abs den < 2 ^ 127) }
    requires above { pos 0 <ℤ den }
    ensures within { result ≤ length buf.old }
    ensures text { take result buf.new ≡ sign_text num ++ units_text places (unsigned_abs num / unsigned_abs den) (unsigned_abs num % unsigned_abs den) (unsigned_abs den) }
{
    let size = num.unsigned_abs();
    let den = den.unsigned_abs();
    let start = write_sign(num < 0, buf);
    append_units(buf, start, places, size / den, size % den, den)
}

/// Writes the numerator and the denominator as they are.
pub fn write_parts(num: i128, den: i128, buf: &mut [u8]) -> usize
    requires space { 128 ≤ length buf.old }
    requires sizes { (unsigned_abs num < 2 ^ 127) × (unsigned_abs den < 2 ^ 127) }
    ensures within { result ≤ length buf.old }
    ensures text { take result buf.new ≡ sign_text num ++ number_text (unsigned_abs num) ++ 47 ∷ number_text (unsigned_abs den) }
{
    let start = write_sign(num < 0, buf);
    append_parts(buf, start, num.unsigned_abs(), den.unsigned_abs())
}
