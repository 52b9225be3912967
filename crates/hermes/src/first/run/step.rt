// One instruction.
ghost use Rattle.std.specs.Prelude.{◌≡◌, ◌<◌, ◌≤◌, ℕ, [], length, IfOk};
ghost use Rattle.hz_file.specs.Module.{module_of};
ghost use Rattle.hz_ops.specs.Activations.{Activation, Next, code_of};
ghost use Rattle.hz_ops.specs.Step as row;
ghost use Rattle.hz_ops.specs.Runs.{next_system};
ghost use Rattle.hermes.specs.FileCode.{code_module};
ghost use Rattle.hermes.specs.first.Rows.{activation, IsStep, PrintsLine, Steps, StepsTo};

use crate::first::run::held::Held;
use crate::first::run::operands::{
    call_operands, register, register_and_integer, register_and_text, three_registers,
};
use crate::first::run::rows;
use crate::first::run::stop::{FirstEnd, Stop};
use hz_file::File;
use hz_ops::{Op, Operand, decode};
use std::alloc::Global;

/// A step that prints no line.
fn silent(step: Result<(), Stop>) -> Result<Option<String>, Stop>
    ensures { (n : Next) (a : Activation) → IsStep n step a → Steps (next_system [] n) result a }
{
    step?;
    Ok(None)
}

/// A step that prints this line.
fn spoken(line: Result<String, Stop>) -> Result<Option<String>, Stop>
    ensures { (n : Next) (a : Activation) → PrintsLine n line a
        → Steps (next_system [] n) result a }
{
    let line = line?;
    Ok(Some(line))
}

/// What an instruction does: gives the bytes of the line that it prints, where it prints one.
fn row<'a>(
    alloc: Global,
    file: &File<'a>,
    registers: &mut [Held<'a>],
    op: Op,
    operands: &[Operand],
) -> Result<Option<String>, Stop>
    ensures { (place next : ℕ)
        → Steps
        (next_system []
        (row.row (code_module (module_of file.now)) next
        (activation place registers.old) operands.now op)) result (activation next registers.new) }
{
    match op {
        Op::LoadUndefined => {
            let r = register(operands)?;
            silent(rows::load_undefined(registers, r))
        }
        Op::LoadInt => {
            let (r, integer) = register_and_integer(operands)?;
            silent(rows::load_int(registers, r, integer))
        }
        Op::LoadString => {
            let (r, id) = register_and_text(operands)?;
            silent(rows::load_string(file, registers, r, id))
        }
        Op::LoadGlobal => {
            let (r, id) = register_and_text(operands)?;
            silent(rows::load_global(file, registers, r, id))
        }
        Op::Add => {
            let (r, x, y) = three_registers(operands)?;
            silent(rows::add(registers, r, x, y))
        }
        Op::Sub => {
            let (r, x, y) = three_registers(operands)?;
            silent(rows::sub(registers, r, x, y))
        }
        Op::Mul => {
            let (r, x, y) = three_registers(operands)?;
            silent(rows::mul(registers, r, x, y))
        }
        Op::Return => {
            let r = register(operands)?;
            silent(rows::return_from(registers, r))
        }
        Op::Call => {
            let operands = call_operands(operands)?;
            spoken(rows::call(alloc, registers, operands))
        }
        _ => Err(Stop::Unbuilt),
    }
}

/// What one instruction did: the place of the next one, and the bytes of the line that it prints.
#[derive(Debug, Drop)]
pub(crate) struct Stepped {
    pub next: usize,
    pub line: Option<String>,
}

/// Carries out the instruction at a place of the script's code.
#[tactic(auto, using(crate::proofs::first_texts::running::Progress::decoded_within))]
pub(crate) fn step<'a>(
    alloc: Global,
    file: &File<'a>,
    code: &[u8],
    registers: &mut [Held<'a>],
    place: usize,
) -> Result<Stepped, Stop>
    requires { code.now ≡ code_of (code_module (module_of file.now)) 0 }
    ensures step { StepsTo
        (next_system []
        (row.cstep (code_module (module_of file.now)) (activation place registers.old))) result
        registers.new }
    ensures progress { IfOk result (λ step. (place < step.next) × (step.next ≤ length code.now)) }
{
    let (instruction, length) = decode(code, place).ok_or(Stop::End(FirstEnd::BadCode))?;
    let line = row(
        alloc,
        file,
        registers,
        instruction.op,
        instruction.args.as_slice(),
    )?;
    Ok(Stepped {
        next: place + length,
        line,
    })
}
