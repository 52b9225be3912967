//! The rules of the string entries and of the texts that they name.

ghost use Rattle.std.specs.Prelude.{◌≡◌, ◌+◌, ◌≤◌};
ghost use Rattle.std.specs.List.{list_any, list_all};
ghost use Rattle.hz_file.specs.Layout.{Fills, wide_units, storage_length};
ghost use Rattle.hz_file.specs.Rules.{entries_rule, texts_rule, has_its_width, is_text_entry, is_ascii_unit, is_past_ascii};

use crate::layout;
use crate::numbers::{part, u64_at};
use crate::rules::header::unless;
use crate::sections::{Entry, storage_at, string_count, strings_at};

pub(crate) fn entries_fault(bytes: &[u8]) -> Option<usize>
    requires { Fills bytes.now }
    ensures { result ≡ entries_rule bytes.now }
{
    let strings = strings_at(bytes);
    for id in 0..string_count(bytes) as usize {
        let at = strings + 4 * id;
        if Entry::at(bytes, at).units() >= 255 {
            return Some(at);
        }
    }
    None
}

/// Whether a wide text has a unit of 128 or more.
fn has_past_ascii(text: &[u8]) -> bool
    ensures { result ≡ list_any is_past_ascii (wide_units text.now) }
{
    let mut left = text;
    while let [low, high, rest @ ..] = left {
        if *low >= 128 || *high > 0 {
            return true;
        }
        left = rest;
    }
    false
}

/// Whether each byte is below 128.
fn is_narrow(text: &[u8]) -> bool
    ensures { result ≡ list_all is_ascii_unit text.now }
{
    text.iter().all(|byte| *byte < 128)
}

/// Whether a text is wide exactly where it has a unit of 128 or more.
fn has_its_width(wide: bool, text: &[u8]) -> bool
    ensures { result ≡ has_its_width wide text.now }
{
    if wide {
        has_past_ascii(text)
    } else {
        is_narrow(text)
    }
}

/// Whether the text of an entry begins where the one before it ends, lies in the storage, and has its
/// width.
fn is_text_entry(bytes: &[u8], next: usize, entry: Entry) -> bool
    requires fills { Fills bytes.now }
    requires next { next ≤ storage_length bytes.now }
    ensures { result ≡ is_text_entry bytes.now next entry.word }
{
    let size = entry.size();
    entry.place() == next
        && next + size <= u64_at(bytes, layout::STORAGE_LENGTH) as usize
        && has_its_width(entry.is_wide(), part(bytes, storage_at(bytes) + next, size))
}

pub(crate) fn texts_fault(bytes: &[u8]) -> Option<usize>
    requires { Fills bytes.now }
    ensures { result ≡ texts_rule bytes.now }
{
    let strings = strings_at(bytes);
    let mut next = 0;
    for id in 0..string_count(bytes) as usize {
        let at = strings + 4 * id;
        let entry = Entry::at(bytes, at);
        if !is_text_entry(bytes, next, entry) {
            return Some(at);
        }
        next += entry.size();
    }
    unless(
        next == u64_at(bytes, layout::STORAGE_LENGTH) as usize,
        storage_at(bytes),
    )
}
