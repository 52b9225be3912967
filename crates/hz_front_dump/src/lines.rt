ghost use Rattle.std.specs.Prelude.{◌≡◌, ◌++◌, OnOk, IfOk, string_bytes, option_to_list};
ghost use Rattle.std.specs.List.{flat_map};
ghost use Rattle.std.specs.Option.{option_copied};
ghost use Rattle.hz_front_dump.specs.Dump as spec;

use hz_index::Names;
use hz_tree::{FunctionInfo, FunctionKind};
use std::alloc::{AllocError, Global};

/// Adds the line of a function with this number and so many tokens of its own.
pub fn push_function(
    alloc: Global,
    text: &mut Vec<u8>,
    k: u32,
    info: &FunctionInfo,
    own: usize,
) -> Result<(), AllocError>
    ensures { OnOk result (text.new.items ≡ text.old.items ++ spec.function_line k info.now own) }
{
    let line = function_line(alloc, k, info, own)?;
    text.extend_from_slice(line.as_bytes())
}

fn function_line(
    alloc: Global,
    k: u32,
    info: &FunctionInfo,
    own: usize,
) -> Result<String, AllocError>
    ensures { IfOk result (λ line. string_bytes line ≡ spec.function_line k info.now own) }
{
    let words = info_words(alloc, info)?;
    format!(in alloc; "function {k} {words} {own}\n")
}

fn info_words(alloc: Global, info: &FunctionInfo) -> Result<String, AllocError>
    ensures { IfOk result (λ words. string_bytes words ≡ spec.info_words info.now) }
{
    let (start, end, length) = (info.start, info.end, info.length);
    let kind = kind_word(info.kind);
    let parent = parent_word(alloc, info.parent)?;
    format!(in alloc; "{start} {end} {kind} {length} {parent}")
}

/// Adds the lines of the names that are free in a function.
#[tactic(auto, using(crate::proofs::Written::lines_laws))]
pub fn push_free(text: &mut Vec<u8>, names: &Names<'_>) -> Result<(), AllocError>
    ensures { OnOk result (text.new.items ≡ text.old.items ++ flat_map spec.free_line names.now) }
{
    for i in 0..names.len() {
        push_free_name(text, names.get(i))?;
    }
    Ok(())
}

fn push_free_name(text: &mut Vec<u8>, name: Option<&[u8]>) -> Result<(), AllocError>
    ensures { OnOk result (text.new.items
        ≡ text.old.items ++ flat_map spec.free_line (option_to_list (option_copied name.entry))) }
{
    if let Some(name) = name {
        text.extend_from_slice(b"free ")?;
        text.extend_from_slice(name)?;
        text.extend_from_slice(b"\n")?;
    }
    Ok(())
}

/// The number of what stands round something, or `-`.
pub fn parent_word(alloc: Global, parent: Option<u32>) -> Result<String, AllocError>
    ensures { IfOk result (λ text. string_bytes text ≡ spec.parent_word parent) }
{
    match parent {
        None => String::from_str(alloc, "-"),
        Some(parent) => format!(in alloc; "{parent}"),
    }
}

fn kind_word(kind: FunctionKind) -> &'static str
    ensures { result.now ≡ spec.kind_word kind }
{
    match kind {
        FunctionKind::Script => "script",
        FunctionKind::Function => "function",
        FunctionKind::Arrow => "arrow",
        FunctionKind::Method => "method",
        FunctionKind::Generator => "generator",
    }
}
