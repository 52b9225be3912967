//! The turns of a reader of one function: each goes past one symbol.

ghost use Rattle.std.specs.Prelude.{◌≡◌, ◌≢◌, ℕ, List, false, OnOk};
ghost use Rattle.hz_tree.specs.declared.signal.Signal.TheVariants.{Enter};
ghost use Rattle.hz_tree.specs.declared.symbol.Symbol.TheVariants as s;
ghost use Rattle.hz_tree.specs.grammar.Look.{Terminal};
ghost use Rattle.hz_middle.specs.Place.{Place};
ghost use Rattle.hz_own.specs.Owned.{open_behind};
ghost use Rattle.hz_parts.specs.declared.parts.Parts.{Parts as Stacks};
ghost use Rattle.hz_parse.specs.Leads.{is_mark, mark_symbol};
ghost use Rattle.hz_parse.specs.Turns.{Going, Reached, Ready, Turned};

use crate::arrows::look_for;
use crate::expanding::expand;
use crate::passing::pass;
use crate::reader::Reader;
use crate::token::take;
use crate::told::tell;
use hz_list::{Memory, Steps};
use hz_middle::Middle;
use hz_parse_stmt::make_row as make;
use hz_tree::{Class, Nonterminal, Signal, Symbol};
use std::alloc::Global;
use std::sync::ledger::Ledger;

/// Reads all symbols, with one step for each token that is the function's own.
pub fn finish<'a, L: Ledger>(
    alloc: Global,
    reader: &mut Reader<'_, 'a>,
    place: &mut Middle<'a>,
    steps: &mut Steps<L>,
) -> Result<(), Memory>
    requires { (last : List Terminal) × (whole : Stacks) × (total : ℕ)
        × Going reader.old place.old steps.old last whole total }
    ensures { OnOk result ((last : List Terminal) (whole : Stacks) (total : ℕ) →
        Going reader.old place.old steps.old last whole total →
        Reached reader.new place.new steps.new last whole total) }
{
    while let Some(symbol) = reader.symbols.pop() {
        turn(alloc, reader, place, symbol, steps)?;
    }
    Ok(())
}

/// Goes past one symbol, which was taken from the stack.
fn turn<'a, L: Ledger>(
    alloc: Global,
    reader: &mut Reader<'_, 'a>,
    place: &mut Middle<'a>,
    symbol: Symbol,
    steps: &mut Steps<L>,
) -> Result<(), Memory>
    requires { Ready symbol reader.old place.old steps.old }
    ensures { OnOk result (Turned symbol reader.old place.old steps.old reader.new place.new steps.new) }
{
    match symbol {
        Symbol::Take(wanted) => pass_class(alloc, reader, place, wanted, steps),
        Symbol::Read(nonterminal) => expand_row(reader, place, nonterminal),
        Symbol::Tell(signal) => pass_signal(reader, place, signal),
    }
}

/// A token, or a mark in the place of one.
fn pass_class<'a, L: Ledger>(
    alloc: Global,
    reader: &mut Reader<'_, 'a>,
    place: &mut Middle<'a>,
    wanted: Class,
    steps: &mut Steps<L>,
) -> Result<(), Memory>
    requires { Ready (s.Take wanted) reader.old place.old steps.old }
    ensures { OnOk result (Turned (s.Take wanted) reader.old place.old steps.old
        reader.new place.new steps.new) }
{
    match wanted {
        Class::Malformed => make_row(alloc, reader),
        _ => take_token(reader, place, wanted, steps),
    }
}

/// What is told, or a function that is entered.
fn pass_signal<'a>(
    reader: &mut Reader<'_, 'a>,
    place: &mut Middle<'a>,
    signal: Signal,
) -> Result<(), Memory>
    requires { (steps : ℕ) × Ready (s.Tell signal) reader.old place.old steps }
    ensures { OnOk result ((steps : ℕ) → Ready (s.Tell signal) reader.old place.old steps →
        Turned (s.Tell signal) reader.old place.old steps reader.new place.new steps) }
{
    match signal {
        Signal::Enter => {
            pass_function(reader, place);
            Ok(())
        }
        _ => tell_signal(reader, place, signal),
    }
}

/// The uppermost mark comes up: its row is made.
fn make_row(alloc: Global, reader: &mut Reader<'_, '_>) -> Result<(), Memory>
    ensures { OnOk result ((place : Place) (steps : ℕ) → Ready mark_symbol reader.old place steps →
        Turned mark_symbol reader.old place steps reader.new place steps) }
{
    let Some(mark) = reader.marks.pop() else {
        return Ok(());
    };
    make(alloc, &reader.numbers, mark, &mut reader.parts)
}

fn take_token<'a, L: Ledger>(
    reader: &mut Reader<'_, 'a>,
    place: &mut Middle<'a>,
    wanted: Class,
    steps: &mut Steps<L>,
) -> Result<(), Memory>
    requires token { is_mark wanted ≡ false }
    requires ready { Ready (s.Take wanted) reader.old place.old steps.old }
    ensures { OnOk result (Turned (s.Take wanted) reader.old place.old steps.old
        reader.new place.new steps.new) }
{
    take(place, &mut reader.parts, reader.opened, wanted, steps)
}

fn expand_row<'a>(
    reader: &mut Reader<'_, 'a>,
    place: &Middle<'a>,
    nonterminal: Nonterminal,
) -> Result<(), Memory>
    requires { (steps : ℕ) × Ready (s.Read nonterminal) reader.old place.now steps }
    ensures { OnOk result ((steps : ℕ) → Ready (s.Read nonterminal) reader.old place.now steps →
        Turned (s.Read nonterminal) reader.old place.now steps reader.new place.now steps) }
{
    let look = look_for(&reader.numbers, place, nonterminal);
    expand(&mut reader.symbols, &mut reader.marks, nonterminal, look)
}

/// A function within is passed over.
fn pass_function<'a>(reader: &mut Reader<'_, 'a>, place: &mut Middle<'a>)
    requires { (steps : ℕ) × Ready (s.Tell Enter) reader.old place.old steps }
    ensures { (steps : ℕ) → Ready (s.Tell Enter) reader.old place.old steps →
        Turned (s.Tell Enter) reader.old place.old steps reader.new place.new steps }
{
    let Some(opened) = reader.parts.opened.first() else {
        unreachable!();
    };
    let opened = *opened;
    pass(&reader.numbers, place, &mut reader.symbols, opened);
    reader.opened = false;
}

fn tell_signal<'a>(
    reader: &mut Reader<'_, 'a>,
    place: &Middle<'a>,
    signal: Signal,
) -> Result<(), Memory>
    requires { signal ≢ Enter }
    ensures { OnOk result ((steps : ℕ) → Turned (s.Tell signal) reader.old place.now steps
        reader.new place.now steps) }
{
    reader.opened = opened_behind(signal, reader.opened);
    tell(place, signal, &mut reader.parts)
}

/// Whether a function is open behind a signal.
fn opened_behind(signal: Signal, opened: bool) -> bool
    ensures { result ≡ open_behind signal opened }
{
    match signal {
        Signal::Open(_, _) => true,
        Signal::Close => false,
        _ => opened,
    }
}
