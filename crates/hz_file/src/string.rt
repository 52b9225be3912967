//! A text of a file, as UTF-16 units.

ghost use Rattle.std.specs.Prelude.{◌≡◌, ◌↔◌, IsTrue, [], length, slice_get};

use crate::numbers::u16_at;
use std::marker::Model;

/// A text of a file: contracts see the list of its UTF-16 units.
#[derive(Clone, Debug, Drop)]
pub struct StringView<'a> {
    wide: bool,
    bytes: &'a [u8],
}

impl<'a> Model for StringView<'a> {
    ghost use Rattle.std.specs.Prelude.{List, ℕ};
    ghost use Rattle.hz_file.specs.Layout.{units_of};

    ghost Value = { List ℕ };

    ghost view = { λ s. units_of s.wide s.bytes.now };
}

#[tactic(auto, using(crate::proofs::Wide::wide_at, crate::proofs::Wide::wide_length))]
impl<'a> StringView<'a> {
    ghost use Rattle.hz_file.specs.Layout.{units_of};

    /// The text of these bytes, which has two bytes a unit where it is wide, and one elsewhere.
    pub(crate) fn of_bytes(wide: bool, bytes: &'a [u8]) -> StringView<'a>
        ensures { result ≡ units_of wide bytes.entry.now }
    {
        StringView { wide, bytes }
    }

    /// The number of units.
    pub fn len(&self) -> u64
        ensures { result ≡ length self.now }
    {
        if self.wide {
            self.bytes.len() as u64 / 2
        } else {
            self.bytes.len() as u64
        }
    }

    /// Whether there is no unit.
    pub fn is_empty(&self) -> bool
        ensures { IsTrue result ↔ (self.now ≡ []) }
    {
        self.len() == 0
    }

    /// The unit at an index, None exactly past the end.
    pub fn unit(&self, i: u64) -> Option<u16>
        ensures { result ≡ slice_get self.now i }
    {
        if i >= self.len() {
            return None;
        }
        let i = i as usize;
        if self.wide {
            Some(u16_at(self.bytes, 2 * i))
        } else {
            Some(self.bytes[i] as u16)
        }
    }
}
