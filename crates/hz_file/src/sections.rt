//! Where the sections of a file start, and its string entries.

ghost use Rattle.std.specs.Prelude.{◌≡◌, ◌+◌, ◌≤◌, length};
ghost use Rattle.hz_file.specs.Layout.{Fills, field, string_count, strings_at, storage_at, code_at, source_at, entry_is_wide, entry_place, entry_units, entry_size};

use crate::layout;
use crate::numbers::{u32_at, u64_at};

/// How many string entries there are.
pub(crate) fn string_count(bytes: &[u8]) -> u64
    requires { 148 ≤ length bytes.now }
    ensures { result ≡ string_count bytes.now }
{
    u64_at(bytes, layout::STRING_COUNT)
}

/// The place of the first string entry.
pub(crate) fn strings_at(bytes: &[u8]) -> usize
    requires { Fills bytes.now }
    ensures { result ≡ strings_at bytes.now }
{
    layout::FIRST_HEADER
        + 16 * u64_at(bytes, layout::FUNCTION_COUNT) as usize
        + 56 * u64_at(bytes, layout::LARGE_COUNT) as usize
}

/// The place of the string storage.
pub(crate) fn storage_at(bytes: &[u8]) -> usize
    requires { Fills bytes.now }
    ensures { result ≡ storage_at bytes.now }
{
    let overflow_at = strings_at(bytes) + 4 * string_count(bytes) as usize;
    let handlers_at = overflow_at + 24 * u64_at(bytes, layout::OVERFLOW_COUNT) as usize;
    handlers_at + 24 * u64_at(bytes, layout::HANDLER_COUNT) as usize
}

/// The place of the code.
pub(crate) fn code_at(bytes: &[u8]) -> usize
    requires { Fills bytes.now }
    ensures { result ≡ code_at bytes.now }
{
    storage_at(bytes) + u64_at(bytes, layout::STORAGE_LENGTH) as usize
}

/// The place of the source.
pub(crate) fn source_at(bytes: &[u8]) -> usize
    requires { Fills bytes.now }
    ensures { result ≡ source_at bytes.now }
{
    code_at(bytes) + u64_at(bytes, layout::CODE_LENGTH) as usize
}

/// A string entry: where a text lies in the storage, and how long it is.
#[derive(Clone, Copy)]
pub(crate) struct Entry {
    word: u32,
}

impl Entry {
    /// The entry at a place.
    pub(crate) fn at(bytes: &[u8], at: usize) -> Entry
        requires { at + 4 ≤ length bytes.now }
        ensures { result.word ≡ field 4 bytes.now at }
    {
        Entry {
            word: u32_at(bytes, at),
        }
    }

    /// Whether the text has two bytes a unit.
    pub(crate) fn is_wide(self) -> bool
        ensures { result ≡ entry_is_wide self.word }
    {
        self.word % 2 == 1
    }

    /// The place of the text in the storage.
    pub(crate) fn place(self) -> usize
        ensures { result ≡ entry_place self.word }
    {
        (self.word >> 1 & 0x7F_FFFF) as usize
    }

    /// The length of the text in units.
    pub(crate) fn units(self) -> usize
        ensures { result ≡ entry_units self.word }
    {
        (self.word >> 24) as usize
    }

    /// The length of the text in bytes.
    pub(crate) fn size(self) -> usize
        ensures { result ≡ entry_size self.word }
    {
        if self.is_wide() {
            2 * self.units()
        } else {
            self.units()
        }
    }
}
