//! String literals and templates.

ghost use Rattle.std.specs.Prelude.{◌≡◌, ◌≤◌, ◌+◌, length, true, codes, slice_index, ◌≢◌};
ghost use Rattle.hz_tree.specs.tokens.Text.{begins};
ghost use Rattle.hz_tree.specs.tokens.Literals as spec;

use crate::bytes::{byte, rest};
use crate::escapes::{escape_len, is_octal_escape};
use crate::numbers::bad;
use crate::run::{NONE, Repeats, plain, run};
use hz_tree::{BadKind, Front, Stretch, TokenKind};

/// A byte of a string literal or an escape in it.
#[derive(Drop)]
struct InText {
    quote: u8,
}

impl Repeats for InText {
    ghost part_of = { λ s. spec.text_part s.quote };

    #[tactic(auto, unfolding(hz_tree::specs::tokens::Literals::text_part))]
    fn part(&self, z: &[u8]) -> Stretch {
        let b = byte(z, 0);
        if z.is_empty() || b == self.quote || b == b'\n' || b == b'\r' {
            NONE
        } else if b == b'\\' {
            Stretch {
                len: escape_len(z),
                marked: is_octal_escape(z),
            }
        } else {
            plain(1)
        }
    }
}

/// The string literal at the front of a text that begins with a quote.
#[tactic(auto, unfolding(hz_tree::specs::tokens::Literals::text))]
pub fn text(z: &[u8]) -> Front
    requires some { 1 ≤ length z.now }
    requires quoted { slice_index z.now 0 ≢ 0 }
    ensures value { result ≡ spec.text z.now }
    ensures within { result.len ≤ length z.now }
{
    let quote = z[0];
    let body = run(&InText { quote }, rest(z, 1));
    if byte(z, body.len + 1) == quote {
        Front {
            kind: TokenKind::Text { octal: body.marked },
            len: body.len + 2,
        }
    } else {
        bad(BadKind::Syntax)
    }
}

/// A byte of a template or an escape in it.
#[derive(Drop)]
struct InTemplate;

impl Repeats for InTemplate {
    ghost part_of = { λ _. spec.template_part };

    #[tactic(auto, unfolding(hz_tree::specs::tokens::Literals::template_part))]
    fn part(&self, z: &[u8]) -> Stretch {
        let b = byte(z, 0);
        if z.is_empty() || b == b'`' || begins_hole(z) {
            NONE
        } else if b == b'\\' {
            if is_octal_escape(z) {
                NONE
            } else {
                plain(escape_len(z))
            }
        } else {
            plain(1)
        }
    }
}

/// The part of a template at the front of a text that begins with a backquote, where it is the first, or with `}`.
#[tactic(auto, unfolding(hz_tree::specs::tokens::Literals::template))]
pub fn template(first: bool, z: &[u8]) -> Front
    requires { 1 ≤ length z.now }
    ensures value { result ≡ spec.template first z.now }
    ensures within { result.len ≤ length z.now }
{
    let len = run(&InTemplate, rest(z, 1)).len + 1;
    if byte(z, len) == b'`' {
        Front {
            kind: TokenKind::Template { first, last: true },
            len: len + 1,
        }
    } else if begins_hole(rest(z, len)) {
        Front {
            kind: TokenKind::Template { first, last: false },
            len: len + 2,
        }
    } else {
        bad(BadKind::Syntax)
    }
}

fn begins_hole(z: &[u8]) -> bool
    ensures value { result ≡ begins (codes "${") z.now }
    ensures within { result ≡ true → 2 ≤ length z.now }
{
    byte(z, 0) == b'$' && byte(z, 1) == b'{'
}
