//! Escapes in string literals and templates.

ghost use Rattle.std.specs.Prelude.{◌≡◌, ◌<◌, ◌≤◌, ◌+◌, length, true};
ghost use Rattle.std.specs.Char.{is_ascii_hexdigit};
ghost use Rattle.std.specs.List.{prefix_len};
ghost use Rattle.hz_tree.specs.tokens.Literals as spec;

use crate::bytes::{byte, rest};
use crate::numbers::value;

fn is_hex_at(z: &[u8], at: usize) -> bool
    ensures value { result ≡ spec.is_hex_at z.now at }
    ensures within { result ≡ true → at < length z.now }
{
    byte(z, at).is_ascii_hexdigit()
}

pub fn hex_digits(z: &[u8]) -> usize
    ensures value { result ≡ prefix_len is_ascii_hexdigit z.now }
    ensures within { result ≤ length z.now }
{
    let mut len = 0;
    while len < z.len() && z[len].is_ascii_hexdigit() {
        len += 1;
    }
    len
}

#[tactic(auto, unfolding(hz_tree::specs::tokens::Literals::braced_escape))]
fn braced_escape(z: &[u8]) -> usize
    requires { 3 ≤ length z.now }
    ensures value { result ≡ spec.braced_escape z.now }
    ensures within { result ≤ length z.now }
{
    let digits = rest(z, 3);
    let len = hex_digits(digits);
    if len > 0 && byte(z, 3 + len) == b'}' && value(16, &digits[..len]) <= 0x10FFFF {
        len + 4
    } else {
        0
    }
}

#[tactic(auto, unfolding(hz_tree::specs::tokens::Literals::unicode_escape))]
fn unicode_escape(z: &[u8]) -> usize
    ensures value { result ≡ spec.unicode_escape z.now }
    ensures within { result ≤ length z.now }
{
    if byte(z, 2) == b'{' {
        braced_escape(z)
    } else if is_hex_at(z, 2) && is_hex_at(z, 3) && is_hex_at(z, 4) && is_hex_at(z, 5) {
        6
    } else {
        0
    }
}

/// The length of the escape at the front of a text that begins with `\`, or 0 where it is malformed.
#[tactic(auto, unfolding(hz_tree::specs::tokens::Literals::escape_len))]
pub fn escape_len(z: &[u8]) -> usize
    ensures value { result ≡ spec.escape_len z.now }
    ensures within { result ≤ length z.now }
{
    if z.len() < 2 {
        return 0;
    }
    match z[1] {
        b'x' => {
            if is_hex_at(z, 2) && is_hex_at(z, 3) {
                4
            } else {
                0
            }
        }
        b'u' => unicode_escape(z),
        b'\r' if byte(z, 2) == b'\n' => 3,
        _ => 2,
    }
}

/// Whether the escape is `\1` to `\9`, or `\0` before a digit.
#[tactic(auto, unfolding(hz_tree::specs::tokens::Literals::is_octal_escape))]
pub fn is_octal_escape(z: &[u8]) -> bool
    ensures { result ≡ spec.is_octal_escape z.now }
{
    match byte(z, 1) {
        b'1'..=b'9' => true,
        b'0' => byte(z, 2).is_ascii_digit(),
        _ => false,
    }
}
