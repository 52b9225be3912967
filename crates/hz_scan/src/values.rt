//! What string literals mean, in UTF-16 units.

ghost use Rattle.std.specs.Prelude.{◌≡◌, ◌-◌, ◌≤◌, ◌<◌, Some, min, length, take, drop, slice_index};
ghost use Rattle.std.specs.Option.{option_map};
ghost use Rattle.std.specs.Str.{bytes_eq};
ghost use Rattle.hz_tree.specs.tokens.Numbers.{value_of};
ghost use Rattle.hz_tree.specs.tokens.Values as spec;
ghost use Rattle.hz_scan.specs.Values.{low_unit, wanted_behind};

use crate::bytes::{byte, rest};
use crate::characters::{char_len, code_point, is_line_terminator};
use crate::escapes::hex_digits;
use crate::numbers::value;

/// A part of a literal.
#[derive(Clone, Copy)]
struct Part {
    /// Its first unit, or 256 where it is no byte. A part whose first unit is a byte has no other one.
    low: Option<u64>,

    /// Its length in bytes.
    len: usize,
}

/// The first unit of a code point.
#[tactic(auto, using(crate::proofs::ValueLemmas::low_units))]
fn low(point: u64) -> Option<u64>
    ensures { result ≡ low_unit (spec.units_of point) }
{
    Some(point.min(256))
}

/// What the character behind `\` stands for.
fn single_escape(c: u32) -> Option<u64>
    ensures { result ≡ low_unit (spec.single_escape c) }
{
    match c {
        98 => Some(8),
        116 => Some(9),
        110 => Some(10),
        118 => Some(11),
        102 => Some(12),
        114 => Some(13),
        48 => Some(0),
        _ => {
            if is_line_terminator(c) {
                None
            } else {
                low(c as u64)
            }
        }
    }
}

/// The number that so many digits behind the first two bytes stand for, or 256 where it is greater.
#[tactic(auto, using(std::proofs::lemmas::List::take_min))]
fn low_value(z: &[u8], count: usize) -> u64
    requires { 2 ≤ length z.now }
    ensures { result ≡ min (value_of 16 (take count (drop 2 z.now))) 256 }
{
    let digits = rest(z, 2);
    value(16, &digits[..count.min(digits.len())]).min(256)
}

/// The digits behind `\u{`.
fn braced(z: &[u8]) -> Part
    requires long { 3 ≤ length z.now }
    requires brace { slice_index z.now 2 ≡ 123 }
    ensures low { result.low ≡ low_unit (spec.unicode_meant z.now).units }
    ensures len { result.len ≡ (spec.unicode_meant z.now).len }
    ensures some { 1 ≤ result.len }
{
    let digits = rest(z, 3);
    let len = hex_digits(digits);
    Part {
        low: low(value(16, &digits[..len])),
        len: len + 4,
    }
}

/// An escape, at the front of a text that begins with `\`.
fn escape(z: &[u8]) -> Part
    requires { 1 ≤ length z.now }
    ensures low { result.low ≡ low_unit (spec.escape_meant z.now).units }
    ensures len { result.len ≡ (spec.escape_meant z.now).len }
    ensures some { 1 ≤ result.len }
{
    match byte(z, 1) {
        b'x' => Part {
            low: Some(low_value(z, 2)),
            len: 4,
        },
        b'u' => {
            if byte(z, 2) == b'{' {
                braced(z)
            } else {
                Part {
                    low: Some(low_value(z, 4)),
                    len: 6,
                }
            }
        }
        b'\r' if byte(z, 2) == b'\n' => Part { low: None, len: 3 },
        _ => {
            let behind = rest(z, 1);
            Part {
                low: single_escape(code_point(behind)),
                len: 1 + char_len(behind),
            }
        }
    }
}

/// The part at the front of a literal.
fn part_of(z: &[u8]) -> Part
    requires { 1 ≤ length z.now }
    ensures low { result.low ≡ low_unit (spec.part_meant z.now).units }
    ensures len { result.len ≡ (spec.part_meant z.now).len }
    ensures some { 1 ≤ result.len }
{
    if byte(z, 0) == b'\\' {
        escape(z)
    } else {
        Part {
            low: low(code_point(z) as u64),
            len: char_len(z),
        }
    }
}

/// What is wanted behind a part with this first unit.
fn behind<'a>(wanted: &'a [u8], low: Option<u64>) -> Option<&'a [u8]>
    ensures value { option_map (λ more. more.now) result ≡ wanted_behind wanted.now low }
    ensures byte { slice_index wanted.now 0 < 256 }
{
    match low {
        None => Some(wanted),
        Some(low) => match wanted {
            [first, more @ ..] if low < 256 && *first as u64 == low => Some(more),
            _ => None,
        },
    }
}

/// What stands between the quotes.
fn unquoted(written: &[u8]) -> &[u8]
    ensures { result.now ≡ take (length written.now - 2) (drop 1 written.now) }
{
    if written.len() < 2 {
        &[]
    } else {
        &written[1..written.len() - 1]
    }
}

/// Whether the value of a string literal, as it is written with its quotes, is these bytes.
pub fn has_value(written: &[u8], mut wanted: &[u8]) -> bool
    ensures { result ≡ bytes_eq wanted.entry.now (spec.text_value written.now) }
{
    let mut z = unquoted(written);
    'parts: while !z.is_empty() {
        let part = part_of(z);
        match behind(wanted, part.low) {
            Some(more) => wanted = more,
            None => return false,
        }
        z = rest(z, part.len.min(z.len()));
    }
    wanted.is_empty()
}
