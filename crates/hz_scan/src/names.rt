//! Names and reserved words.

ghost use Rattle.std.specs.Prelude.{◌≡◌, ◌<◌, ◌≤◌, length};
ghost use Rattle.std.specs.List.{list_any};
ghost use Rattle.std.specs.Str.{bytes_eq};
ghost use Rattle.hz_tree.specs.tokens.Names as spec;

use crate::bytes::{byte, rest};
use crate::characters::{char_len, code_point, continues_ascii_name, continues_name};
use crate::run::{NONE, Repeats, plain, run};
use hz_tree::{Front, Stretch, TokenKind};

// The reserved words by their first letter.
const IN_B: [&[u8]; 1] = [b"break"];

const IN_C: [&[u8]; 5] = [b"case", b"catch", b"class", b"const", b"continue"];

const IN_D: [&[u8]; 4] = [b"debugger", b"default", b"delete", b"do"];

const IN_E: [&[u8]; 4] = [b"else", b"enum", b"export", b"extends"];

const IN_F: [&[u8]; 4] = [b"false", b"finally", b"for", b"function"];

const IN_I: [&[u8]; 6] = [
    b"if",
    b"import",
    b"in",
    b"instanceof",
    b"implements",
    b"interface",
];

const IN_L: [&[u8]; 1] = [b"let"];

const IN_N: [&[u8]; 2] = [b"new", b"null"];

const IN_P: [&[u8]; 4] = [b"package", b"private", b"protected", b"public"];

const IN_R: [&[u8]; 1] = [b"return"];

const IN_S: [&[u8]; 3] = [b"super", b"switch", b"static"];

const IN_T: [&[u8]; 5] = [b"this", b"throw", b"true", b"try", b"typeof"];

const IN_V: [&[u8]; 2] = [b"var", b"void"];

const IN_W: [&[u8]; 2] = [b"while", b"with"];

const IN_Y: [&[u8]; 1] = [b"yield"];

fn is_among(mut words: &[&[u8]], word: &[u8]) -> bool
    ensures { result ≡ list_any (λ reserved. bytes_eq reserved.now word.now) words.entry.now }
{
    while let [first, more @ ..] = words {
        if *first == word {
            return true;
        }
        words = more;
    }
    false
}

fn is_reserved(word: &[u8]) -> bool
    ensures { result ≡ spec.is_reserved word.now }
{
    match byte(word, 0) {
        b'b' => is_among(&IN_B, word),
        b'c' => is_among(&IN_C, word),
        b'd' => is_among(&IN_D, word),
        b'e' => is_among(&IN_E, word),
        b'f' => is_among(&IN_F, word),
        b'i' => is_among(&IN_I, word),
        b'l' => is_among(&IN_L, word),
        b'n' => is_among(&IN_N, word),
        b'p' => is_among(&IN_P, word),
        b'r' => is_among(&IN_R, word),
        b's' => is_among(&IN_S, word),
        b't' => is_among(&IN_T, word),
        b'v' => is_among(&IN_V, word),
        b'w' => is_among(&IN_W, word),
        b'y' => is_among(&IN_Y, word),
        _ => false,
    }
}

/// A character that goes on with a name.
#[derive(Drop)]
struct InName;

impl Repeats for InName {
    ghost part_of = { λ _. spec.name_part };

    #[inline]
    #[tactic(auto, unfolding(hz_tree::specs::tokens::Names::name_part, hz_tree::specs::tokens::Characters::code_point, hz_tree::specs::tokens::Characters::char_len))]
    fn part(&self, z: &[u8]) -> Stretch {
        let b = byte(z, 0);
        if b < 0x80 {
            if continues_ascii_name(b) {
                plain(1)
            } else {
                NONE
            }
        } else if continues_name(code_point(z)) {
            plain(char_len(z))
        } else {
            NONE
        }
    }
}

/// The name or word at the front of a text whose first character may begin one.
#[tactic(auto, unfolding(hz_tree::specs::tokens::Names::name))]
pub fn name(z: &[u8]) -> Front
    ensures value { result ≡ spec.name z.now }
    ensures within { result.len ≤ length z.now }
{
    let first = char_len(z);
    let len = first + run(&InName, rest(z, first)).len;
    let kind = if is_reserved(&z[..len]) {
        TokenKind::Word
    } else {
        TokenKind::Name
    };
    Front { kind, len }
}
