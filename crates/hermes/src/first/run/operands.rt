// The operands of an instruction, by the shapes that the rows have.
ghost use Rattle.hermes.specs.first.Rows.{IsRegister, IsRegisterInt, IsRegisterText, AreThreeRegisters};
ghost use Rattle.hermes.specs.first.Rows.{AreCallOperands};

use crate::first::run::stop::{FirstEnd, Stop};
use hz_ops::Operand;

/// The operands of Call: the register of the result, those of the callee and of its `this`, and the
/// first of so many in a row with the arguments.
#[derive(Clone, Copy)]
pub(crate) struct CallOperands {
    pub result: u64,
    pub callee: u64,
    pub this: u64,
    pub first: u64,
    pub count: u8,
}

/// A register; other operands are bad code.
pub(crate) fn register(operands: &[Operand]) -> Result<u64, Stop>
    ensures { IsRegister operands.now result }
{
    match operands {
        [Operand::Register(r)] => Ok(*r),
        _ => Err(Stop::End(FirstEnd::BadCode)),
    }
}

/// A register and an integer; other operands are bad code.
pub(crate) fn register_and_integer(operands: &[Operand]) -> Result<(u64, i64), Stop>
    ensures { IsRegisterInt operands.now result }
{
    match operands {
        [Operand::Register(r), Operand::Int(z)] => Ok((*r, *z)),
        _ => Err(Stop::End(FirstEnd::BadCode)),
    }
}

/// A register and the id of a text; other operands are bad code.
pub(crate) fn register_and_text(operands: &[Operand]) -> Result<(u64, u64), Stop>
    ensures { IsRegisterText operands.now result }
{
    match operands {
        [Operand::Register(r), Operand::Text(id)] => Ok((*r, *id)),
        _ => Err(Stop::End(FirstEnd::BadCode)),
    }
}

/// Three registers; other operands are bad code.
pub(crate) fn three_registers(operands: &[Operand]) -> Result<(u64, u64, u64), Stop>
    ensures { AreThreeRegisters operands.now result }
{
    match operands {
        [
            Operand::Register(r),
            Operand::Register(x),
            Operand::Register(y),
        ] => Ok((*r, *x, *y)),
        _ => Err(Stop::End(FirstEnd::BadCode)),
    }
}

/// The operands of Call; others are bad code.
pub(crate) fn call_operands(operands: &[Operand]) -> Result<CallOperands, Stop>
    ensures { AreCallOperands operands.now result }
{
    match operands {
        [
            Operand::Register(result),
            Operand::Register(callee),
            Operand::Register(this),
            Operand::Register(first),
            Operand::Count(count),
        ] => Ok(CallOperands {
            result: *result,
            callee: *callee,
            this: *this,
            first: *first,
            count: *count,
        }),
        _ => Err(Stop::End(FirstEnd::BadCode)),
    }
}
