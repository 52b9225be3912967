// Reads a first text from its bytes, one byte after the other.

ghost use Rattle.std.specs.Prelude.{◌≡◌, ◌<◌, ◌≤◌, [], length, List, ℕ, ◌⊎◌, IfOk};
ghost use Rattle.hermes.specs.declared.first.language.Argument.{Argument};
ghost use Rattle.hermes.specs.first.Texts.{IsFirst, IsOnly, IsStuck, weight};
ghost use Rattle.hermes.specs.first.Reading.{is_between, Stepped, Reads, Whole};

use crate::first::language::{Calls, FirstFault};
use crate::first::state::{Next, State};
use crate::first::steps::step;
use hz_value::Series;
use std::alloc::Global;

/// The directive without its first byte.
const BEHIND_QUOTE: &[u8] = b"use strict\";";

/// Whether the text may end there.
fn is_between_calls(state: &State) -> bool
    ensures { result ≡ is_between state.now }
{
    match state {
        State::Token(rest, Next::Call) => rest.is_empty(),
        _ => false,
    }
}

/// The step over the first byte of a text. A quote begins the directive; where the text is read as strict, it
/// may begin with a call.
fn first_step(strict: bool, byte: u8) -> Result<State, FirstFault>
    ensures { (source : List ℕ) → Stepped (Whole strict) source 0 byte [] result }
{
    if byte == b'"' {
        Ok(State::Token(BEHIND_QUOTE, Next::Call))
    } else if byte == b'p' && strict {
        Ok(State::Token(b"rint", Next::Open))
    } else {
        Err(FirstFault::NotYet(0))
    }
}

fn read<'a>(alloc: Global, strict: bool, source: &'a [u8]) -> Result<Calls<'a>, FirstFault>
    requires { 0 < length source.now }
    ensures { Reads strict source.entry.now result }
{
    let mut calls = Series::new(alloc);
    let first = first_step(strict, source[0])?;
    let mut state = first;
    for at in 1..source.len() {
        state = step(alloc, source, at, &mut calls, state)?;
    }
    if is_between_calls(&state) {
        Ok(calls)
    } else {
        Err(FirstFault::NotYet(source.len()))
    }
}

/// Reads a text without bytes.
fn read_nothing<'a>(alloc: Global, strict: bool) -> Result<Calls<'a>, FirstFault>
    ensures { Reads strict [] result }
{
    if strict {
        Ok(Series::new(alloc))
    } else {
        Err(FirstFault::NotYet(0))
    }
}

/// Reads a first text: `"use strict";` and calls of `print` with a text or a sum, with spaces and newlines
/// behind tokens. Where the text is read as strict, `"use strict";` may be missing; the text then begins with
/// a call or is empty. The texts of the result stand in the source. Time and memory are linear in the source.
///
/// `NotYet(at)` comes exactly where the source is no first text: `at`, in bytes, is the length of its longest
/// prefix that begins one. `Memory` may come at any source.
pub fn read_first(alloc: Global, strict: bool, source: &[u8]) -> Result<Calls<'_>, FirstFault>
    // The whole source spells the calls that are read, and no others.
    ensures found { IfOk result (λ calls. IsFirst strict calls source.now) }
    ensures alone { IfOk result (λ calls. IsOnly strict calls source.now) }

    // A source that spells calls gives these calls.
    ensures only { (calls : List Argument) → IsFirst strict calls source.now → (result ≡ Ok calls)
        ⊎ (result ≡ Err FirstFault.Memory) }
    ensures stuck { (at : ℕ) → result ≡ Err (FirstFault.NotYet at) → IsStuck strict source.now at }
    ensures place { (at : ℕ) → IsStuck strict source.now at → (result ≡ Err (FirstFault.NotYet at))
        ⊎ (result ≡ Err FirstFault.Memory) }

    // Calls weigh no more than the source has bytes.
    ensures weight { IfOk result (λ calls. weight calls ≤ length source.now) }
{
    read_any(alloc, strict, source)
}

fn read_any<'a>(alloc: Global, strict: bool, source: &'a [u8]) -> Result<Calls<'a>, FirstFault>
    ensures { Reads strict source.entry.now result }
{
    if source.is_empty() {
        read_nothing(alloc, strict)
    } else {
        read(alloc, strict, source)
    }
}
