//! The little-endian numbers of a file, and parts of its bytes.

ghost use Rattle.std.specs.Prelude.{◌≡◌, ◌+◌, ◌≤◌, length};
ghost use Rattle.hz_file.specs.Layout.{field, part};

use byteorder::{ByteOrder, LittleEndian};

/// The number in the two bytes at a place.
#[tactic(auto, unfolding(crate::specs::Layout::field))]
pub(crate) fn u16_at(bytes: &[u8], at: usize) -> u16
    requires { at + 2 ≤ length bytes.now }
    ensures { result ≡ field 2 bytes.now at }
{
    LittleEndian::read_u16(&bytes[at..])
}

/// The number in the four bytes at a place.
#[tactic(auto, unfolding(crate::specs::Layout::field))]
pub(crate) fn u32_at(bytes: &[u8], at: usize) -> u32
    requires { at + 4 ≤ length bytes.now }
    ensures { result ≡ field 4 bytes.now at }
{
    LittleEndian::read_u32(&bytes[at..])
}

/// The number in the eight bytes at a place.
#[tactic(auto, unfolding(crate::specs::Layout::field))]
pub(crate) fn u64_at(bytes: &[u8], at: usize) -> u64
    requires { at + 8 ≤ length bytes.now }
    ensures { result ≡ field 8 bytes.now at }
{
    LittleEndian::read_u64(&bytes[at..])
}

/// The `len` bytes at a place.
pub(crate) fn part(bytes: &[u8], at: usize, len: usize) -> &[u8]
    requires { at + len ≤ length bytes.now }
    ensures { result.now ≡ part bytes.now at len }
{
    &bytes[at..at + len]
}
