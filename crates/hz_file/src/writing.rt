//! The file of one script.

ghost use Rattle.std.specs.Prelude.{◌≡◌, ◌+◌, ◌*◌, ◌<◌, ◌≤◌, if◌then◌else◌, ◌++◌, length, OnOk, IfOk, All, None};
ghost use Rattle.std.specs.List.{concat};
ghost use Rattle.hz_file.specs.Image.{IsShortText, IsSmall, entry_words, function_header, header, image, number, numbers, program, script_module};
ghost use Rattle.hz_file.specs.Layout.{HasMagic, magic};
ghost use Rattle.hz_file.specs.Module.{module_of};
ghost use Rattle.hz_file.specs.Opening.{rule};

use crate::appending::{put, put_numbers, put_text, put_u16, put_u32, put_u64};
use crate::file::MAGIC;
use hz_list::{Memory, Series, Units};
use sha1::Sha1;
use std::alloc::Global;

/// The texts of a file that is to be written, by their ids.
pub type Texts = Series<Units>;

/// The lengths that a header names.
#[derive(Clone, Copy)]
struct Lengths {
    /// All bytes of the file.
    size: u64,
    /// The number of texts.
    texts: u64,
    /// The bytes of the code.
    code: u64,
    /// The bytes of the string storage.
    storage: u64,
}

/// What stands in the header before the hash of the source.
fn put_front(bytes: &mut Vec<u8>, strict: bool, size: u64) -> Result<(), Memory>
    ensures { let flags = if strict then 1 else 0 in
        let front = magic ++ (number 4 1 ++ (number 4 flags ++ number 8 size)) in
        OnOk result (bytes.new.items ≡ bytes.old.items ++ front) }
{
    put(bytes, &MAGIC)?;
    put_u32(bytes, 1)?;
    put_u32(bytes, strict as u32)?;
    put_u64(bytes, size)
}

/// The header of the file.
#[tactic(auto, unfolding(crate::specs::Image::zeros))]
fn put_header(
    bytes: &mut Vec<u8>,
    strict: bool,
    source: &[u8],
    lengths: Lengths,
) -> Result<(), Memory>
    ensures { let of = header strict lengths.size source.now lengths.texts lengths.code
        lengths.storage in
        OnOk result (bytes.new.items ≡ bytes.old.items ++ concat of) }
{
    put_front(bytes, strict, lengths.size)?;
    put(bytes, &Sha1::digest(source))?;
    put(bytes, &[0; 4])?;
    let Lengths {
        texts,
        code,
        storage,
        ..
    } = lengths;
    put_numbers(
        bytes,
        &[1, texts, 0, 0, 0, code, storage, source.len() as u64],
    )?;
    put(bytes, &[0; 16])
}

/// The header of the script.
fn put_function_header(bytes: &mut Vec<u8>, registers: u16, code: u16) -> Result<(), Memory>
    ensures { OnOk result
        (bytes.new.items ≡ bytes.old.items ++ concat (function_header registers code)) }
{
    put(bytes, &[1, 0])?;
    put_u16(bytes, registers)?;
    put_u32(bytes, 0)?;
    put_u16(bytes, code)?;
    put_u16(bytes, 0)?;
    put_u16(bytes, 0)?;
    put_u16(bytes, 0)
}

/// How many units the texts have together.
fn units_in(texts: &Texts) -> usize
    requires { length (concat texts.now) ≤ 8388607 }
    ensures { result ≡ length (concat texts.now) }
{
    let mut units = 0;
    for text in texts.as_slice() {
        units += text.len();
    }
    units
}

/// The string entries.
fn put_entries(bytes: &mut Vec<u8>, texts: &Texts) -> Result<(), Memory>
    requires short { All IsShortText texts.now }
    requires storage { length (concat texts.now) ≤ 8388607 }
    ensures { OnOk result
        (bytes.new.items ≡ bytes.old.items ++ numbers 4 (entry_words 0 texts.now)) }
{
    let mut place: u32 = 0;
    for text in texts.as_slice() {
        let units = text.len() as u32;
        put_u32(bytes, 2 * place + 16_777_216 * units)?;
        place += units;
    }
    Ok(())
}

/// The string storage.
fn put_storage(bytes: &mut Vec<u8>, texts: &Texts) -> Result<(), Memory>
    requires { All IsShortText texts.now }
    ensures { OnOk result (bytes.new.items ≡ bytes.old.items ++ concat texts.now) }
{
    for text in texts.as_slice() {
        put_text(bytes, text)?;
    }
    Ok(())
}

/// The bytes of the file.
fn encode(
    alloc: Global,
    strict: bool,
    source: &[u8],
    texts: &Texts,
    registers: u16,
    code: &[u8],
) -> Result<Vec<u8>, Memory>
    requires { IsSmall (program strict source.now texts.now registers code.now) }
    ensures { let written = program strict source.now texts.now registers code.now in
        IfOk result (λ file. file.items ≡ image written) }
{
    let storage = units_in(texts);
    let size = 164 + 4 * texts.len() + storage + code.len() + source.len();
    let lengths = Lengths {
        size: size as u64,
        texts: texts.len() as u64,
        code: code.len() as u64,
        storage: storage as u64,
    };
    let mut bytes = Vec::with_capacity(alloc, size)?;
    put_header(&mut bytes, strict, source, lengths)?;
    put_function_header(&mut bytes, registers, code.len() as u16)?;
    put_entries(&mut bytes, texts)?;
    put_storage(&mut bytes, texts)?;
    put(&mut bytes, code)?;
    put(&mut bytes, source)?;
    let footer = Sha1::digest(&bytes);
    put(&mut bytes, &footer)?;
    Ok(bytes)
}

/// The file of a script that is its only function: with this flag, this source, these texts by their
/// ids, and for the script, of length 0, this number of registers and this code, without handlers. The
/// source is ASCII; each text has at most 254 units, all below 128. `Memory` comes where memory runs
/// out.
pub fn write_small(
    alloc: Global,
    strict: bool,
    source: &[u8],
    texts: &Texts,
    registers: u16,
    code: &[u8],
) -> Result<Vec<u8>, Memory>
    requires ascii { All (λ byte. byte < 128) source.now }
    requires source { length source.now ≤ 4095 }
    requires texts { length texts.now ≤ 65536 }
    requires short { All IsShortText texts.now }
    requires storage { length (concat texts.now) ≤ 8388607 }
    requires code { 1 ≤ length code.now }
    requires code_fits { length code.now ≤ 65535 }
    ensures bytes { let written = program strict source.now texts.now registers code.now in
        IfOk result (λ file. file.items ≡ image written) }

    // `File::open` opens it, and what it then shows is what was written.
    ensures magic { IfOk result (λ file. HasMagic file.items) }
    ensures opens { IfOk result (λ file. rule file.items ≡ None) }
    ensures holds { let written = program strict source.now texts.now registers code.now in
        IfOk result (λ file. module_of file.items ≡ script_module written) }
{
    encode(alloc, strict, source, texts, registers, code)
}
