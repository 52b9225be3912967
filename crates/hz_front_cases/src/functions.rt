ghost use Rattle.std.specs.Prelude.{◌≡◌, None, Some, IfOk, string_bytes};
ghost use Rattle.hz_tree.specs.declared.refusal.Refusal.{Refusal};
ghost use Rattle.hz_tree.specs.sources.Refusals.{refusal_of, functions};
ghost use Rattle.hz_tree.specs.sources.Shown.{text_of_refusal};
ghost use Rattle.hz_front_cases.specs.Answers as spec;

use hz_index::Index;
use hz_preparse::{PreFault, preparse};
use hz_tree::{FunctionInfo, FunctionKind};
use std::alloc::{AllocError, Global};

/// The functions of a source, or why it is refused.
pub fn reading(alloc: Global, source: &[u8], strict: bool) -> Result<String, AllocError>
    ensures read { refusal_of source.now strict ≡ None → IfOk result
        (λ text. string_bytes text ≡ spec.function_line (functions source.now)) }
    ensures refused { (why : Refusal) → refusal_of source.now strict ≡ Some why → IfOk result
        (λ text. string_bytes text ≡ text_of_refusal why) }
{
    match preparse(alloc, source, strict) {
        Ok(index) => function_line(alloc, &index),
        Err(PreFault::Refused(refusal)) => format!(in alloc; "{refusal}"),
        Err(PreFault::Memory) => Err(AllocError),
    }
}

/// All functions of a source.
fn function_line(alloc: Global, index: &Index<'_>) -> Result<String, AllocError>
    ensures { IfOk result
        (λ text. string_bytes text ≡ spec.function_line (functions index.now.source)) }
{
    let mut words = Vec::new(alloc);
    for k in 0..index.count() {
        words.push(function_word(alloc, index.function(k))?)?;
    }
    words.join(alloc, ", ")
}

/// Kind, start, end, length, and the number of the function round it.
fn function_word(alloc: Global, info: &FunctionInfo) -> Result<String, AllocError>
    ensures { IfOk result (λ text. string_bytes text ≡ spec.function_word info.now) }
{
    let kind = kind_word(info.kind);
    let (start, end, length) = (info.start, info.end, info.length);
    let parent = parent_word(alloc, info.parent)?;
    format!(in alloc; "{kind} {start}..{end} {length}{parent}")
}

fn parent_word(alloc: Global, parent: Option<u32>) -> Result<String, AllocError>
    ensures { IfOk result (λ text. string_bytes text ≡ spec.parent_word parent) }
{
    match parent {
        None => Ok(String::new(alloc)),
        Some(parent) => format!(in alloc; " in {parent}"),
    }
}

fn kind_word(kind: FunctionKind) -> &'static str
    ensures { result.now ≡ spec.kind_word kind }
{
    match kind {
        FunctionKind::Script => "Script",
        FunctionKind::Function => "Function",
        FunctionKind::Arrow => "Arrow",
        FunctionKind::Method => "Method",
        FunctionKind::Generator => "Generator",
    }
}
