// The code of calls of `print`.
ghost use Rattle.std.specs.Prelude.{◌≡◌, ◌++◌, ◌∷◌, [], length, IsTrue, OnOk, flat_map};
ghost use Rattle.std.specs.List.{list_all};
ghost use Rattle.hermes.specs.first.Texts.{is_argument};
ghost use Rattle.hermes.specs.first.Generated.{argument_code, opening_code, closing_code, call_code, argument_texts};
ghost use Rattle.hermes.specs.first.Generated.{calls_code, end_code};

use crate::first::generate::instructions::{ARGUMENT, CALLEE, THIS, push};
use crate::first::generate::sums::push_sum;
use crate::first::language::{Argument, Text};
use hz_file::Texts;
use hz_ops::{Op, Operand};
use hz_value::{Memory, Units};
use std::alloc::Global;

/// The id of the text `print`.
const PRINT: u64 = 0;

fn push_opening(code: &mut Vec<u8>) -> Result<(), Memory>
    ensures { OnOk result (code.new.items ≡ code.old.items ++ opening_code) }
{
    push(
        code,
        Op::LoadGlobal,
        &[Operand::Register(CALLEE), Operand::Text(PRINT)],
    )?;
    push(code, Op::LoadUndefined, &[Operand::Register(THIS)])
}

fn push_closing(code: &mut Vec<u8>) -> Result<(), Memory>
    ensures { OnOk result (code.new.items ≡ code.old.items ++ closing_code) }
{
    let operands = [
        Operand::Register(CALLEE),
        Operand::Register(CALLEE),
        Operand::Register(THIS),
        Operand::Register(ARGUMENT),
        Operand::Count(1),
    ];
    push(code, Op::Call, &operands)
}

/// Appends code that loads the argument, and the text that it is.
fn push_argument(
    alloc: Global,
    argument: &Argument<'_>,
    code: &mut Vec<u8>,
    texts: &mut Texts,
) -> Result<(), Memory>
    requires { IsTrue (is_argument argument.now) }
    ensures code { OnOk result
        (code.new.items ≡ code.old.items ++ argument_code (length texts.old) argument.now) }
    ensures texts { OnOk result (texts.new ≡ texts.old ++ argument_texts argument.now) }
{
    match argument {
        Argument::Text(text) => push_text(alloc, text, code, texts),
        Argument::Sum(sum) => push_sum(code, sum),
    }
}

/// Appends code that loads the text, which gets the next id.
fn push_text(
    alloc: Global,
    text: &Text<'_>,
    code: &mut Vec<u8>,
    texts: &mut Texts,
) -> Result<(), Memory>
    ensures code { OnOk result
        (code.new.items ≡ code.old.items
        ++ argument_code (length texts.old) (Argument.Text text.now)) }
    ensures texts { OnOk result (texts.new ≡ texts.old ++ text.now ∷ []) }
{
    let id = texts.len() as u64;
    push(
        code,
        Op::LoadString,
        &[Operand::Register(ARGUMENT), Operand::Text(id)],
    )?;
    texts.push(Units::from_bytes(alloc, text.bytes())?)
}

/// Appends the code of a call with this argument.
fn push_call(
    alloc: Global,
    argument: &Argument<'_>,
    code: &mut Vec<u8>,
    texts: &mut Texts,
) -> Result<(), Memory>
    requires { IsTrue (is_argument argument.now) }
    ensures code { OnOk result
        (code.new.items ≡ code.old.items ++ call_code (length texts.old) argument.now) }
    ensures texts { OnOk result (texts.new ≡ texts.old ++ argument_texts argument.now) }
{
    push_opening(code)?;
    push_argument(alloc, argument, code, texts)?;
    push_closing(code)
}

/// Appends the code of the calls, and the texts that are their arguments.
pub(crate) fn push_calls(
    alloc: Global,
    calls: &[Argument<'_>],
    code: &mut Vec<u8>,
    texts: &mut Texts,
) -> Result<(), Memory>
    requires { IsTrue (list_all is_argument calls.now) }
    ensures code { OnOk result
        (code.new.items ≡ code.old.items ++ calls_code (length texts.old) calls.now) }
    ensures texts { OnOk result (texts.new ≡ texts.old ++ flat_map argument_texts calls.now) }
{
    for argument in calls {
        push_call(alloc, argument, code, texts)?;
    }
    Ok(())
}

/// Appends the end of the script.
pub(crate) fn push_return(code: &mut Vec<u8>) -> Result<(), Memory>
    ensures { OnOk result (code.new.items ≡ code.old.items ++ end_code) }
{
    push(code, Op::LoadUndefined, &[Operand::Register(CALLEE)])?;
    push(code, Op::Return, &[Operand::Register(CALLEE)])
}
