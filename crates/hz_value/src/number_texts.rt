ghost use Rattle.std.specs.Prelude.{
  ◌≡◌,
  ◌≤◌,
  IfOk,
  IfSome,
  reverse,
  Option,
  option_map,
  pos,
  neg_ℤ,
};
ghost use Rattle.std.specs.Fmt.{signed_decimal};
ghost use Rattle.std.specs.Char as char;
ghost use Rattle.hz_value.specs.NumberTexts.{
  is_blank,
  trim_front,
  natural_of,
  unsigned_of,
  text_value,
};

use crate::integers::Safe;
use hz_list::{MAX_SAFE, Memory, Units};
use itoa::Buffer;
use std::alloc::Global;

const PLUS: u16 = b'+' as u16;

const MINUS: u16 = b'-' as u16;

const ZERO: u16 = b'0' as u16;

/// The number in decimal, with `-` before a negative one (ECMA-262, 6.1.6.1.20).
pub fn number_text(alloc: Global, a: Safe) -> Result<Units, Memory>
    ensures { IfOk result (λ text. text ≡ signed_decimal a) }
{
    let mut digits = Buffer::new();
    Units::from_bytes(alloc, digits.format(a.get()).as_bytes())
}

/// The number that the text means (ECMA-262, 7.1.4.1), or None exactly where it means none that is a
/// safe integer, or writes it with a point or an exponent. White space and line terminators at the ends
/// do not count, and the empty text is 0.
pub fn text_number(t: &Units) -> Option<Safe>
    ensures { result ≡ text_value t.now }
{
    units_number(t.as_slice())
}

/// The number that the text of these units means, as `text_number` gives it. It takes no memory.
pub fn units_number(units: &[u16]) -> Option<Safe>
    ensures { result ≡ text_value units.now }
{
    match trim_end(trim_start(units)) {
        [] => positive(Some(0)),
        [PLUS, digits @ ..] => positive(natural(10, digits)),
        [MINUS, digits @ ..] => negative(natural(10, digits)),
        digits => positive(unsigned(digits)),
    }
}

fn positive(magnitude: Option<u64>) -> Option<Safe>
    requires { IfSome magnitude (λ n. n ≤ MAX_SAFE) }
    ensures { result ≡ option_map pos magnitude }
{
    match magnitude {
        Some(n) => Safe::new(n as i64),
        None => None,
    }
}

fn negative(magnitude: Option<u64>) -> Option<Safe>
    requires { IfSome magnitude (λ n. n ≤ MAX_SAFE) }
    ensures { result ≡ option_map (λ n. neg_ℤ (pos n)) magnitude }
{
    match magnitude {
        Some(n) => Safe::new(-(n as i64)),
        None => None,
    }
}

fn unsigned(text: &[u16]) -> Option<u64>
    ensures value { result ≡ unsigned_of text.now }
    ensures bound { IfSome result (λ n. n ≤ MAX_SAFE) }
{
    match text {
        // behind the 0 stands an x, an o or a b, in either case
        [ZERO, 0x78 | 0x58, digits @ ..] => natural(16, digits),
        [ZERO, 0x6f | 0x4f, digits @ ..] => natural(8, digits),
        [ZERO, 0x62 | 0x42, digits @ ..] => natural(2, digits),
        digits => natural(10, digits),
    }
}

// The number that one or more digits write, where it is safe.
fn natural(radix: u64, digits: &[u16]) -> Option<u64>
    requires least { 2 ≤ radix }
    requires most { radix ≤ 16 }
    ensures value { result ≡ natural_of radix digits.now }
    ensures bound { IfSome result (λ n. n ≤ MAX_SAFE) }
{
    if digits.is_empty() {
        return None;
    }
    let mut value = 0;
    for unit in digits {
        let digit = digit_of(*unit);
        if digit >= radix {
            return None;
        }
        value = value * radix + digit;
        if value > MAX_SAFE {
            return None;
        }
    }
    Some(value)
}

// The value of a digit or a letter, and 36 for another unit.
fn digit_of(unit: u16) -> u64
    ensures { result ≡ char.digit_value unit }
{
    match unit {
        48..=57 => unit as u64 - 48,
        65..=90 => unit as u64 - 55,
        97..=122 => unit as u64 - 87,
        _ => 36,
    }
}

fn is_white(unit: u16) -> bool
    ensures { result ≡ is_blank unit }
{
    matches!(
        unit,
        9..=13 | 32 | 160 | 5760 | 8192..=8202 | 8232 | 8233 | 8239 | 8287 | 12288 | 65279
    )
}

fn trim_start(units: &[u16]) -> &[u16]
    ensures { result.now ≡ trim_front units.now }
{
    let mut left = units;
    while let [first, rest @ ..] = left {
        if !is_white(*first) {
            return left;
        }
        left = rest;
    }
    left
}

fn trim_end(units: &[u16]) -> &[u16]
    ensures { result.now ≡ reverse (trim_front (reverse units.now)) }
{
    let mut left = units;
    while let [rest @ .., last] = left {
        if !is_white(*last) {
            return left;
        }
        left = rest;
    }
    left
}
