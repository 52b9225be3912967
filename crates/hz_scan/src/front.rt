//! The token at the front of a text.

ghost use Rattle.std.specs.Prelude.{◌≡◌, ◌<◌, ◌≤◌, ◌||◌, ◌&&◌, length, true};
ghost use Rattle.hz_tree.specs.tokens.Tokens as spec;

use crate::bytes::byte;
use crate::characters::{code_point, starts_name};
use crate::literals::{template, text};
use crate::names::name;
use crate::numbers::{bad, number};
use crate::punctuators::punctuator_len;
use hz_tree::{BadKind, Front, OutsideKind, TokenKind};

fn is_html_comment(leads: bool, z: &[u8]) -> bool
    ensures { result ≡ spec.is_html_comment leads z.now }
{
    match byte(z, 0) {
        b'<' => byte(z, 1) == b'!' && byte(z, 2) == b'-' && byte(z, 3) == b'-',
        b'-' => leads && byte(z, 1) == b'-' && byte(z, 2) == b'>',
        _ => false,
    }
}

#[tactic(auto, unfolding(hz_tree::specs::tokens::Tokens::sign))]
fn sign(z: &[u8]) -> Front
    ensures value { result ≡ spec.sign z.now }
    ensures within { result.len ≤ length z.now }
{
    let len = punctuator_len(z);
    if len == 0 || (byte(z, 0) == b'/' && byte(z, 1) == b'*') {
        bad(BadKind::Syntax)
    } else {
        Front {
            kind: TokenKind::Punct,
            len,
        }
    }
}

#[tactic(auto, unfolding(hz_tree::specs::tokens::Tokens::other))]
fn other(z: &[u8]) -> Front
    ensures value { result ≡ spec.other z.now }
    ensures within { result.len ≤ length z.now }
{
    let b = byte(z, 0);
    if b == b'\\' {
        bad(BadKind::Outside(OutsideKind::IdentifierEscape))
    } else if b == b'#' {
        bad(BadKind::Outside(OutsideKind::PrivateName))
    } else if b >= 128 {
        bad(BadKind::Outside(OutsideKind::Character))
    } else {
        sign(z)
    }
}

/// The token at the front of a text that begins with no space and no comment that is finished. `hole` says
/// whether a `}` goes on with a template, and `leads` whether the token is the first one on its line.
#[tactic(auto, unfolding(hz_tree::specs::tokens::Tokens::token))]
pub fn token(hole: bool, leads: bool, z: &[u8]) -> Front
    ensures value { result ≡ spec.token hole leads z.now }
    ensures within { result.len ≤ length z.now }
{
    if z.is_empty() {
        return Front {
            kind: TokenKind::End,
            len: 0,
        };
    }
    let b = z[0];
    if starts_name(code_point(z)) {
        name(z)
    } else if b.is_ascii_digit() {
        number(z)
    } else if b == b'.' && byte(z, 1).is_ascii_digit() {
        bad(BadKind::Outside(OutsideKind::NumberForm))
    } else if b == b'"' || b == b'\'' {
        text(z)
    } else if b == b'`' {
        template(true, z)
    } else if b == b'}' && hole {
        template(false, z)
    } else if is_html_comment(leads, z) {
        bad(BadKind::Outside(OutsideKind::HtmlComment))
    } else {
        other(z)
    }
}
