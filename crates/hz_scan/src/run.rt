ghost use Rattle.std.specs.Prelude.{◌≡◌, ◌≤◌, ℕ, List, length};
ghost use Rattle.hz_tree.specs.declared.front.Stretch.{Stretch};
ghost use Rattle.hz_tree.specs.tokens.Text as spec;

use crate::bytes::rest;
use hz_tree::Stretch;

/// What may stand at the front of a text, and again behind it.
pub trait Repeats {
    ghost part_of: { Self → List ℕ → Stretch };

    /// The part at the front of the text.
    fn part(&self, z: &[u8]) -> Stretch
        ensures value { result ≡ part_of self.now z.now }
        ensures within { result.len ≤ length z.now };
}

/// No part stands there.
pub const NONE: Stretch = Stretch {
    len: 0,
    marked: false,
};

/// A part of so many bytes that is not marked.
pub fn plain(len: usize) -> Stretch
    ensures { result ≡ spec.plain len }
{
    Stretch { len, marked: false }
}

/// All the parts at the front of the text, as one.
pub fn run<P: Repeats>(parts: &P, mut z: &[u8]) -> Stretch
    ensures value { result ≡ spec.run (P.part_of parts.now) z.entry.now }
    ensures within { result.len ≤ length z.entry.now }
{
    let mut len = 0;
    let mut marked = false;
    'parts: loop {
        let part = parts.part(z);
        if part.len == 0 {
            return Stretch { len, marked };
        }
        len += part.len;
        marked |= part.marked;
        z = rest(z, part.len);
    }
}
