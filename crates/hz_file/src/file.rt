//! A file that breaks no rule, and what it holds.

ghost use Rattle.std.specs.Prelude.{◌≡◌, ◌↔◌, ◌<◌, ◌≤◌, ◌+◌, IsTrue, Some, None, length, slice_get, IfSome, MatchResult, MatchOption, Ok, Err};
ghost use Rattle.std.specs.Option.{option_copied};
ghost use Rattle.hz_file.specs.Layout.{Fills, HasMagic, code_length, code_place, code_size, entry_at, header_at, part, source_at, source_length};
ghost use Rattle.hz_file.specs.Module.{code_bytes, code_of, module_of, shown_function, text_of};
ghost use Rattle.hz_file.specs.Opening.{rule};

use crate::function::FunctionView;
use crate::kind::kind_of_number;
use crate::malformed::{
    CODE_RULE, EDITION_RULE, ENTRIES_RULE, FOOTER_RULE, FUNCTIONS_RULE, LENGTH_RULE, Malformed,
    SECTIONS_RULE, SIZE_RULE, TEXTS_RULE, ZERO_RULE,
};
use crate::numbers::{part, u16_at, u32_at, u64_at};
use crate::sections::{self, Entry};
use crate::string::StringView;
use crate::{layout, rules};
use std::marker::Model;

/// The eight bytes in front of every file.
pub(crate) const MAGIC: [u8; 8] = [0xFF, 0x48, 0x42, 0x43, 0x57, 0x00, 0x0D, 0x0A];

/// Whether the eight bytes stand in front that begin every file.
pub fn has_magic(bytes: &[u8]) -> bool
    ensures { IsTrue result ↔ HasMagic bytes.now }
{
    bytes.starts_with(&MAGIC)
}

/// A bytecode file that breaks no rule. Contracts see its bytes; `module_of` says what they hold.
#[derive(Clone, Debug, Drop)]
pub struct File<'a> {
    bytes: &'a [u8],
}

impl<'a> Model for File<'a> {
    ghost use Rattle.std.specs.Prelude.{◌≡◌, List, ℕ, None};
    ghost use Rattle.hz_file.specs.Opening.{rule};

    ghost Value = { List ℕ };

    ghost view = { λ f. f.bytes.now };

    ghost invariant = { λ f. rule f.bytes.now ≡ None };
}

/// The fault of a rule, where there is one.
fn check(rule: u8, fault: Option<usize>) -> Result<(), Malformed>
    ensures { MatchOption fault (result ≡ Ok tt)
        (λ at. result ≡ Err (record { rule = rule; at = at })) }
{
    match fault {
        None => Ok(()),
        Some(at) => Err(Malformed { rule, at }),
    }
}

impl<'a> File<'a> {
    /// Opens a file; the magic stands in front (`has_magic` tells). `Malformed` is the first rule that
    /// fails, with its place. No memory is taken.
    #[tactic(auto, unfolding(crate::specs::Opening::rule))]
    pub fn open(bytes: &'a [u8]) -> Result<File<'a>, Malformed>
        requires { HasMagic bytes.now }
        ensures { MatchResult result
            (λ file. (rule bytes.entry.now ≡ None) × (file ≡ bytes.entry.now))
            (λ fault. rule bytes.entry.now ≡ Some fault) }
    {
        check(SIZE_RULE, rules::size_fault(bytes))?;
        check(EDITION_RULE, rules::edition_fault(bytes))?;
        check(ZERO_RULE, rules::zero_fault(bytes))?;
        check(LENGTH_RULE, rules::length_fault(bytes))?;
        check(SECTIONS_RULE, rules::sections_fault(bytes))?;
        check(FUNCTIONS_RULE, rules::functions_fault(bytes))?;
        check(CODE_RULE, rules::code_fault(bytes))?;
        check(ENTRIES_RULE, rules::entries_fault(bytes))?;
        check(TEXTS_RULE, rules::texts_fault(bytes))?;
        check(FOOTER_RULE, rules::footer_fault(bytes))?;
        Ok(File { bytes })
    }
}

/// The code of the function with a header at a place, None in a stub.
fn code(bytes: &[u8], at: usize) -> Option<&[u8]>
    requires fills { Fills bytes.now }
    requires header { at + 16 ≤ length bytes.now }
    requires within { code_place bytes.now at + code_size bytes.now at ≤ code_length bytes.now }
    ensures { option_copied result ≡ code_of bytes.now at }
{
    if bytes[at] % 2 != 1 {
        return None;
    }
    let place = sections::code_at(bytes) + u32_at(bytes, at + 4) as usize;
    Some(part(bytes, place, u16_at(bytes, at + 8) as usize))
}

/// What the file holds. No call takes memory, and none copies bytes.
#[tactic(auto, using(crate::proofs::Sound::sound), unfolding(crate::specs::Module::module_of))]
impl<'a> File<'a> {
    /// The number of functions, of which function 0 is the script.
    #[tactic(auto, using(crate::proofs::Sound::sound, crate::proofs::Shown::function_count_is))]
    pub fn count(&self) -> u32
        ensures shown { result ≡ length (module_of self.now).functions }
        ensures some { 0 < result }
    {
        u64_at(self.bytes, layout::FUNCTION_COUNT) as u32
    }

    /// Whether the flag was set by which the source is read as strict code.
    pub fn strict(&self) -> bool
        ensures { result ≡ (module_of self.now).strict }
    {
        self.bytes[layout::FLAGS] % 2 == 1
    }

    /// The place in the file, in bytes, at which the source starts.
    pub fn source_at(&self) -> usize
        ensures { result ≡ source_at self.now }
    {
        sections::source_at(self.bytes)
    }

    /// The bytes of the source.
    pub fn source(&self) -> &'a [u8]
        ensures shown { result.now ≡ (module_of self.now).source }
        ensures slice { result.now ≡ part self.now (source_at self.now) (source_length self.now) }
    {
        part(
            self.bytes,
            self.source_at(),
            u64_at(self.bytes, layout::SOURCE_LENGTH) as usize,
        )
    }

    /// The function with that number.
    #[tactic(auto, using(crate::proofs::Sound::sound, crate::proofs::Shown::function_count_is, crate::proofs::Shown::function_shown))]
    pub fn function(&self, k: u32) -> FunctionView<'a>
        requires { k < length (module_of self.now).functions }
        ensures shown { slice_get (module_of self.now).functions k
            ≡ Some
            (shown_function result.kind result.length result.registers
            (option_copied result.code)) }

        // The code is the part of the file's code section that the header names. A stub has none, but no
        // file with a stub opens yet.
        ensures slice { option_copied result.code ≡ Some (code_bytes self.now (header_at k)) }
    {
        let at = layout::FIRST_HEADER + 16 * k as usize;
        FunctionView {
            kind: kind_of_number(self.bytes[at] / 4),
            length: self.bytes[at + 1],
            registers: u16_at(self.bytes, at + 2) as u64,
            code: code(self.bytes, at),
        }
    }

    /// The text with that id, None exactly past the table.
    #[tactic(auto, using(crate::proofs::Sound::sound, crate::proofs::Shown::text_shown, crate::proofs::Shown::text_past))]
    pub fn string(&self, id: u64) -> Option<StringView<'a>>
        ensures shown { result ≡ slice_get (module_of self.now).texts id }

        // Its units are read from the part of the file's string storage that the entry names.
        ensures slice { IfSome result (λ text. text ≡ text_of self.now (entry_at self.now id)) }
    {
        if id >= sections::string_count(self.bytes) {
            return None;
        }
        let at = sections::strings_at(self.bytes) + 4 * id as usize;
        let entry = Entry::at(self.bytes, at);
        let place = sections::storage_at(self.bytes) + entry.place();
        let text = part(self.bytes, place, entry.size());
        Some(StringView::of_bytes(entry.is_wide(), text))
    }
}
