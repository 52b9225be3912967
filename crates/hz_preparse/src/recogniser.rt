//! The grammar's reading of a source, with a stack of symbols in place of recursion.

ghost use Rattle.std.specs.Prelude.{◌≡◌, [], ◌∷◌, OnOk};
ghost use Rattle.hz_tree.specs.sources.Refusals as spec;
ghost use Rattle.hz_tree.specs.grammar.Signals.{event};
ghost use Rattle.hz_tree.specs.reading.Reading.{told_ahead};
ghost use Rattle.hz_tree.specs.reading.Stack.{ends};
ghost use Rattle.hz_preparse.specs.Heard.{happens};
ghost use Rattle.hz_preparse.specs.Outcome.{outcome, Answers};
ghost use Rattle.hz_preparse.specs.Step.{Begins, TakesToken, Expands, StepsPast};

use crate::fault::PreFault;
use crate::heard::Heard;
use hz_cursor::Cursor;
use hz_errors::Told;
use hz_list::Memory;
use hz_rows::{Stack, Stop, expand};
use hz_tree::{BadKind, Class, Nonterminal, Refusal, Signal, Symbol};
use std::alloc::Global;

/// Reads a script, and tells what is told along it.
pub fn recognise<'a>(
    alloc: Global,
    cursor: &mut Cursor<'a>,
    heard: Heard<'a>,
) -> Result<Heard<'a>, PreFault>
    ensures { Answers (outcome heard.entry (ends (Symbol.Read Nonterminal.Script ∷ []) cursor.old))
        result }
{
    let mut heard = heard;
    let mut stack = Stack::new(alloc);
    begin(&mut stack)?;
    while let Some(symbol) = stack.pop() {
        step(&mut stack, cursor, &mut heard, symbol)?;
    }
    Ok(heard)
}

fn begin(stack: &mut Stack) -> Result<(), PreFault>
    ensures { Begins result stack.old stack.new }
{
    match stack.push(&[Symbol::Read(Nonterminal::Script)]) {
        Ok(()) => Ok(()),
        Err(_) => Err(PreFault::Memory),
    }
}

/// Goes past one symbol, which was taken from the stack. It is short and comes often, so it stands within the loop.
#[inline(always)]
fn step<'a>(
    stack: &mut Stack,
    cursor: &mut Cursor<'a>,
    heard: &mut Heard<'a>,
    symbol: Symbol,
) -> Result<(), PreFault>
    ensures { StepsPast symbol stack.old cursor.old heard.old result stack.new cursor.new heard.new }
{
    match symbol {
        Symbol::Take(wanted) => return take(cursor, wanted),
        Symbol::Read(nonterminal) => return read(stack, cursor, nonterminal),
        Symbol::Tell(signal) => tell(heard, cursor, signal)?,
    }
    Ok(())
}

/// Tells what the grammar says before the next token. It is long, so it stands apart from the loop.
#[inline(never)]
fn tell<'a>(heard: &mut Heard<'a>, cursor: &Cursor<'a>, signal: Signal) -> Result<(), Memory>
    ensures { OnOk result (heard.new ≡ happens heard.old (event signal (told_ahead cursor.now))) }
{
    heard.tell(signal, &beside(signal, cursor))
}

/// What is told beside a signal of the next token, and of the end of the one before it. What is not told is left out.
fn beside<'a>(signal: Signal, cursor: &Cursor<'a>) -> Told<'a>
    ensures { event signal result ≡ event signal (told_ahead cursor.now) }
{
    let nothing = Told {
        at: 0,
        text: &[],
        octal: false,
        behind: 0,
    };
    match signal {
        Signal::Begin(_)
        | Signal::This
        | Signal::NewTarget
        | Signal::Literal
        | Signal::Octal
        | Signal::Rest
        | Signal::ScopeHere(_)
        | Signal::Open(_, _)
        | Signal::OctalKey => Told {
            at: cursor.place(),
            ..nothing
        },
        Signal::Name | Signal::Declare(_) => Told {
            at: cursor.place(),
            text: cursor.text(),
            ..nothing
        },
        Signal::Text | Signal::TextKey => Told {
            at: cursor.place(),
            text: cursor.text(),
            octal: cursor.octal(),
            ..nothing
        },
        Signal::Use | Signal::Label | Signal::JumpTo(_) | Signal::WordKey => Told {
            text: cursor.text(),
            ..nothing
        },
        Signal::EndScope | Signal::Close => Told {
            behind: cursor.behind(),
            ..nothing
        },
        _ => nothing,
    }
}

fn take(cursor: &mut Cursor<'_>, wanted: Class) -> Result<(), PreFault>
    ensures { TakesToken wanted cursor.old result cursor.new }
{
    if cursor.eat(wanted) {
        Ok(())
    } else {
        Err(PreFault::Refused(refusal(cursor.look().cause(), cursor.place())))
    }
}

fn read(stack: &mut Stack, cursor: &Cursor<'_>, nonterminal: Nonterminal) -> Result<(), PreFault>
    ensures { Expands nonterminal cursor.now stack.old result stack.new }
{
    match expand(stack, nonterminal, cursor.look()) {
        Ok(()) => Ok(()),
        Err(Stop::Memory) => Err(PreFault::Memory),
        Err(Stop::Refused(cause)) => Err(PreFault::Refused(refusal(cause, cursor.place()))),
    }
}

fn refusal(cause: BadKind, at: usize) -> Refusal
    ensures { result ≡ spec.refusal_at cause at }
{
    match cause {
        BadKind::Syntax => Refusal::Syntax(at),
        BadKind::Outside(kind) => Refusal::Outside(kind, at),
    }
}
