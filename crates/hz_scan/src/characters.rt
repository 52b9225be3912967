//! The character at the front of a text, and its class.

ghost use Rattle.std.specs.Prelude.{◌≡◌, ◌≢◌, ◌<◌, ◌≤◌, length, true};
ghost use Rattle.hz_tree.specs.tokens.Characters as spec;

use crate::bytes::byte;

fn six_bits(z: &[u8], at: usize) -> u32
    ensures value { result ≡ spec.six_bits z.now at }
    ensures small { result < 64 }
{
    (byte(z, at) % 64) as u32
}

/// Its code point, in a text that is well-formed UTF-8.
#[tactic(auto, unfolding(hz_tree::specs::tokens::Characters::code_point))]
pub fn code_point(z: &[u8]) -> u32
    ensures { result ≡ spec.code_point z.now }
{
    let b = byte(z, 0);
    let lead = b as u32;
    if b < 0x80 {
        lead
    } else if b < 0xE0 {
        (lead % 32) * 64 + six_bits(z, 1)
    } else if b < 0xF0 {
        (lead % 16) * 4096 + six_bits(z, 1) * 64 + six_bits(z, 2)
    } else {
        (lead % 8) * 262144 + six_bits(z, 1) * 4096 + six_bits(z, 2) * 64 + six_bits(z, 3)
    }
}

fn width(b: u8) -> usize
    ensures value { result ≡ spec.width b }
    ensures some { 1 ≤ result }
{
    if b < 0x80 {
        1
    } else if b < 0xE0 {
        2
    } else if b < 0xF0 {
        3
    } else {
        4
    }
}

/// Its length in bytes, no more than the text has.
#[tactic(auto, unfolding(hz_tree::specs::tokens::Characters::char_len))]
pub fn char_len(z: &[u8]) -> usize
    ensures value { result ≡ spec.char_len z.now }
    ensures within { result ≤ length z.now }
    ensures some { 0 < length z.now → 1 ≤ result }
{
    width(byte(z, 0)).min(z.len())
}

#[tactic(auto, unfolding(hz_tree::specs::tokens::Characters::is_white_space))]
pub fn is_white_space(c: u32) -> bool
    ensures { result ≡ spec.is_white_space c }
{
    match c {
        0x09 | 0x0B | 0x0C | 0x20 | 0xA0 | 0x1680 => true,
        0x2000..=0x200A => true,
        0x202F | 0x205F | 0x3000 | 0xFEFF => true,
        _ => false,
    }
}

#[tactic(auto, unfolding(hz_tree::specs::tokens::Characters::is_line_terminator))]
pub fn is_line_terminator(c: u32) -> bool
    ensures { result ≡ spec.is_line_terminator c }
{
    match c {
        0x0A | 0x0D | 0x2028 | 0x2029 => true,
        _ => false,
    }
}

/// Whether the character may begin a name.
#[tactic(auto, unfolding(hz_tree::specs::tokens::Characters::starts_name))]
pub fn starts_name(c: u32) -> bool
    ensures { result ≡ spec.starts_name c }
{
    if c < 0x80 {
        starts_ascii_name(c as u8)
    } else {
        match char::from_u32(c) {
            Some(c) => unicode_ident::is_xid_start(c),
            None => false,
        }
    }
}

/// Whether the character may go on with a name.
#[tactic(auto, unfolding(hz_tree::specs::tokens::Characters::continues_name))]
pub fn continues_name(c: u32) -> bool
    ensures { result ≡ spec.continues_name c }
{
    if c < 0x80 {
        continues_ascii_name(c as u8)
    } else {
        match char::from_u32(c) {
            Some(known) => unicode_ident::is_xid_continue(known) || c == 0x200C || c == 0x200D,
            None => false,
        }
    }
}

#[tactic(auto, unfolding(hz_tree::specs::tokens::Characters::starts_name))]
fn starts_ascii_name(b: u8) -> bool
    requires { b < 0x80 }
    ensures { result ≡ spec.starts_name b }
{
    b.is_ascii_alphabetic() || b == b'$' || b == b'_'
}

/// Whether the ASCII character may go on with a name.
#[tactic(auto, unfolding(hz_tree::specs::tokens::Characters::continues_name))]
pub fn continues_ascii_name(b: u8) -> bool
    requires { b < 0x80 }
    ensures value { result ≡ spec.continues_name b }
    ensures some { result ≡ true → b ≢ 0 }
{
    b.is_ascii_alphanumeric() || b == b'$' || b == b'_'
}
