//! The rules of the header: each function gives the place where its rule fails.

ghost use Rattle.std.specs.Prelude.{◌≡◌, ◌+◌, ◌^◌, ◌<◌, ◌≤◌, length, MatchOption};
ghost use Rattle.hz_file.specs.Layout.{footer_at};
ghost use Rattle.hz_file.specs.Rules.{size_rule, edition_rule, zero_rule, length_rule, sections_rule, first_nonzero, unless};

use crate::layout;
use crate::numbers::{part, u32_at, u64_at};

/// Bytes that a file has beside its source, texts and code, at least.
const LEAST: usize = 148;
/// 2 ^ 40 bytes.
const MOST: usize = 1_099_511_627_776;

/// The place, unless the test holds.
pub(super) fn unless(test: bool, at: usize) -> Option<usize>
    ensures { result ≡ unless test at }
{
    if test { None } else { Some(at) }
}

pub(crate) fn size_fault(bytes: &[u8]) -> Option<usize>
    ensures { result ≡ size_rule bytes.now }
{
    unless(LEAST <= bytes.len() && bytes.len() <= MOST, bytes.len())
}

pub(crate) fn edition_fault(bytes: &[u8]) -> Option<usize>
    requires { 148 ≤ length bytes.now }
    ensures { result ≡ edition_rule bytes.now }
{
    unless(u32_at(bytes, layout::EDITION) == 1, layout::EDITION)
}

/// The place of the first byte that is not 0, of bytes that stand at a place.
#[tactic(auto, unfolding(crate::specs::Rules::first_nonzero))]
fn nonzero(bytes: &[u8], at: usize) -> Option<usize>
    requires { at + length bytes.now < 2 ^ 64 }
    ensures { result ≡ first_nonzero at bytes.now }
{
    for (i, byte) in bytes.iter().enumerate() {
        if *byte != 0 {
            return Some(at + i);
        }
    }
    None
}

/// Tries the flags' bits but the lowest, the four bytes behind the hash, and the last sixteen.
pub(crate) fn zero_fault(bytes: &[u8]) -> Option<usize>
    requires { 148 ≤ length bytes.now }
    ensures { result ≡ zero_rule bytes.now }
{
    unless(bytes[layout::FLAGS] <= 1, layout::FLAGS)
        .or(nonzero(part(bytes, 13, 3), 13))
        .or(nonzero(part(bytes, 44, 4), 44))
        .or(nonzero(part(bytes, 112, 16), 112))
}

pub(crate) fn length_fault(bytes: &[u8]) -> Option<usize>
    requires { 148 ≤ length bytes.now }
    ensures { result ≡ length_rule bytes.now }
{
    unless(
        u64_at(bytes, layout::FILE_LENGTH) == bytes.len() as u64,
        layout::FILE_LENGTH,
    )
}

/// Where the file ends by the counts and lengths of its header; None where that passes 2 ^ 64.
fn end(bytes: &[u8]) -> Option<u64>
    requires { 148 ≤ length bytes.now }
    ensures { MatchOption result (2 ^ 64 ≤ footer_at bytes.now + 20)
        (λ n. n ≡ footer_at bytes.now + 20) }
{
    u64_at(bytes, layout::FUNCTION_COUNT)
        .checked_mul(16)?
        .checked_add(148)?
        .checked_add(u64_at(bytes, layout::LARGE_COUNT).checked_mul(56)?)?
        .checked_add(u64_at(bytes, layout::STRING_COUNT).checked_mul(4)?)?
        .checked_add(u64_at(bytes, layout::OVERFLOW_COUNT).checked_mul(24)?)?
        .checked_add(u64_at(bytes, layout::HANDLER_COUNT).checked_mul(24)?)?
        .checked_add(u64_at(bytes, layout::STORAGE_LENGTH))?
        .checked_add(u64_at(bytes, layout::CODE_LENGTH))?
        .checked_add(u64_at(bytes, layout::SOURCE_LENGTH))
}

pub(crate) fn sections_fault(bytes: &[u8]) -> Option<usize>
    requires { 148 ≤ length bytes.now }
    ensures { result ≡ sections_rule bytes.now }
{
    let fills = end(bytes) == Some(bytes.len() as u64);
    unless(
        fills
            && u64_at(bytes, layout::OVERFLOW_COUNT) == 0
            && u64_at(bytes, layout::HANDLER_COUNT) == 0
            && u64_at(bytes, layout::LARGE_COUNT) == 0,
        layout::FUNCTION_COUNT,
    )
}
