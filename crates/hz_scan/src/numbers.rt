//! Numeric literals.

ghost use Rattle.std.specs.Prelude.{◌≡◌, ◌<◌, ◌≤◌, ◌+◌, length, min, true, slice_index};
ghost use Rattle.std.specs.Char.{digit_value, is_digit, is_ascii_digit};
ghost use Rattle.std.specs.List.{prefix_len};
ghost use Rattle.hz_tree.specs.tokens.Numbers as spec;

use crate::bytes::{byte, rest};
use crate::characters::{code_point, starts_name};
use crate::run::{NONE, Repeats, plain, run};
use hz_list::MAX_SAFE;
use hz_tree::{BadKind, Front, OutsideKind, Stretch, TokenKind};

/// A token that does not begin here.
pub fn bad(cause: BadKind) -> Front
    ensures { result ≡ spec.bad cause }
{
    Front {
        kind: TokenKind::Bad(cause),
        len: 0,
    }
}

fn digit(b: u8) -> u8
    ensures value { result ≡ digit_value b }
    ensures small { result ≤ 36 }
{
    match b {
        b'0'..=b'9' => b - b'0',
        b'A'..=b'Z' => b - b'A' + 10,
        b'a'..=b'z' => b - b'a' + 10,
        _ => 36,
    }
}

fn has_digit(z: &[u8], at: usize, radix: u8) -> bool
    requires { radix ≤ 16 }
    ensures value { result ≡ is_digit (slice_index z.now at) radix }
    ensures within { result ≡ true → at < length z.now }
{
    digit(byte(z, at)) < radix
}

/// The number that the digits stand for, or `MAX_SAFE + 1` where it is greater.
#[tactic(auto, unfolding(hz_tree::specs::tokens::Numbers::value_of))]
pub fn value(radix: u8, digits: &[u8]) -> u64
    requires { 1 ≤ radix }
    ensures { result ≡ min (spec.value_of radix digits.now) (MAX_SAFE + 1) }
{
    let mut value: u64 = 0;
    for b in digits {
        if *b != b'_' {
            value = (value * radix as u64 + digit(*b) as u64).min(MAX_SAFE + 1);
        }
    }
    value
}

/// A digit, or a `_` and a digit.
#[derive(Drop)]
struct Digits {
    radix: u8,
    ghost in_range: { radix ≤ 16 },
}

impl Repeats for Digits {
    ghost part_of = { λ s. spec.digit_part s.radix };

    #[tactic(auto, unfolding(hz_tree::specs::tokens::Numbers::digit_part))]
    fn part(&self, z: &[u8]) -> Stretch {
        if has_digit(z, 0, self.radix) {
            plain(1)
        } else if byte(z, 0) == b'_' && has_digit(z, 1, self.radix) {
            plain(2)
        } else {
            NONE
        }
    }
}

/// A literal of this kind and length, by what stands behind it.
#[tactic(auto, unfolding(hz_tree::specs::tokens::Numbers::literal))]
fn literal(kind: TokenKind, len: usize, z: &[u8]) -> Front
    requires { len ≤ length z.now }
    ensures value { result ≡ spec.literal kind len z.now }
    ensures within { result.len ≤ length z.now }
{
    let next = byte(z, len);
    if next == b'n' {
        bad(BadKind::Outside(OutsideKind::BigInt))
    } else if next.is_ascii_digit() || starts_name(code_point(rest(z, len))) {
        bad(BadKind::Syntax)
    } else {
        Front { kind, len }
    }
}

#[tactic(auto, unfolding(hz_tree::specs::tokens::Numbers::radix_of))]
fn radix_of(letter: u8) -> u8
    ensures value { result ≡ spec.radix_of letter }
    ensures small { result ≤ 16 }
{
    match letter {
        b'x' | b'X' => 16,
        b'o' | b'O' => 8,
        b'b' | b'B' => 2,
        _ => 0,
    }
}

#[tactic(auto, unfolding(hz_tree::specs::tokens::Numbers::non_decimal, hz_tree::specs::tokens::Numbers::digits_len, hz_tree::specs::tokens::Numbers::valued))]
fn non_decimal(radix: u8, z: &[u8]) -> Front
    requires small { radix ≤ 16 }
    requires has_radix { radix ≡ spec.radix_of (slice_index z.now 1) }
    requires has_digit { is_digit (slice_index z.now 2) radix ≡ true }
    ensures value { result ≡ spec.non_decimal z.now }
    ensures within { result.len ≤ length z.now }
{
    let digits = rest(z, 2);
    let len = run(&Digits { radix }, rest(digits, 1)).len + 1;
    let value = value(radix, &digits[..len]);
    if value > MAX_SAFE {
        bad(BadKind::Outside(OutsideKind::NumberForm))
    } else {
        literal(TokenKind::Number(value), len + 2, z)
    }
}

#[tactic(auto, unfolding(hz_tree::specs::tokens::Numbers::decimal))]
fn decimal(len: usize, z: &[u8]) -> Front
    requires { len ≤ length z.now }
    ensures value { result ≡ spec.decimal len z.now }
    ensures within { result.len ≤ length z.now }
{
    let value = value(10, &z[..len]);
    let next = byte(z, len);
    if value > MAX_SAFE || next == b'.' || next == b'e' || next == b'E' {
        bad(BadKind::Outside(OutsideKind::NumberForm))
    } else {
        literal(TokenKind::Number(value), len, z)
    }
}

fn ascii_digits(z: &[u8]) -> usize
    ensures value { result ≡ prefix_len is_ascii_digit z.now }
    ensures within { result ≤ length z.now }
{
    let mut len = 0;
    while len < z.len() && z[len].is_ascii_digit() {
        len += 1;
    }
    len
}

/// The literal at the front of a text that begins with a digit.
#[tactic(auto, unfolding(hz_tree::specs::tokens::Numbers::number))]
pub fn number(z: &[u8]) -> Front
    requires { is_ascii_digit (slice_index z.now 0) ≡ true }
    ensures value { result ≡ spec.number z.now }
    ensures within { result.len ≤ length z.now }
{
    if byte(z, 0) != b'0' {
        decimal(run(&Digits { radix: 10 }, rest(z, 1)).len + 1, z)
    } else {
        let radix = radix_of(byte(z, 1));
        if has_digit(z, 2, radix) {
            non_decimal(radix, z)
        } else if byte(z, 1).is_ascii_digit() {
            literal(TokenKind::OctalNumber, ascii_digits(rest(z, 1)) + 1, z)
        } else {
            decimal(1, z)
        }
    }
}
