//! Symbols are read from a place in the middle of a source.

ghost use Rattle.std.specs.Prelude.{◌≡◌, ◌≤◌, [], length, OnOk, IfOk};
ghost use Rattle.hz_tree.specs.sources.Refusals.{functions as functions_in};
ghost use Rattle.hz_middle.specs.Place.{left};
ghost use Rattle.hz_parse.specs.Given.{ReadsParts};
ghost use Rattle.hz_parse.specs.Whole.{IsPlain, Whole};

use crate::numbered::Numbered;
use crate::reader::Reader;
use crate::turns::finish;
use hz_index::Index;
use hz_list::{Memory, Steps};
use hz_middle::Middle;
use hz_parts::{Backwards, Parts};
use hz_rows::Stack;
use hz_tree::Symbol;
use std::alloc::Global;
use std::sync::ledger::Ledger;

/// Reads these symbols, with one step for each token that is not one of a function in them, and gives what they make,
/// with numbers in place of functions.
pub fn read_symbols<'a, L: Ledger>(
    alloc: Global,
    index: &Index<'a>,
    place: &mut Middle<'a>,
    right: &[Symbol],
    steps: &mut Steps<L>,
) -> Result<Parts<'a>, Memory>
    requires source { place.old.source ≡ index.now.source }
    requires inside { place.old.at ≤ length place.old.source }
    requires plain { IsPlain right.now }
    requires read { Whole (functions_in index.now.source) right.now (left place.old) }
    ensures { IfOk result (λ made. ReadsParts (functions_in index.now.source) right.now (left place.old)
        (left place.new) made steps.old steps.new) }
{
    let mut symbols = Stack::new(alloc);
    push_all(&mut symbols, right)?;
    let mut reader = Reader {
        numbers: Numbered::new(index),
        symbols,
        marks: Backwards::new(alloc),
        parts: Parts::new(alloc),
        opened: false,
    };
    finish(alloc, &mut reader, place, steps)?;
    let Reader { parts, .. } = reader;
    Ok(parts)
}

/// Puts the symbols onto an empty stack.
fn push_all(symbols: &mut Stack, right: &[Symbol]) -> Result<(), Memory>
    requires { symbols.old ≡ [] }
    ensures { OnOk result (symbols.new ≡ right.now) }
{
    match symbols.push(right) {
        Ok(()) => Ok(()),
        Err(_) => Err(Memory),
    }
}
