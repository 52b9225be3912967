// A step of the script's activation.
ghost use Rattle.std.specs.Prelude.{◌≡◌, ◌+◌, ◌<◌, ◌^◌, IfSome};
ghost use Rattle.hz_ops.specs.code.Effects.{puts_value};
ghost use Rattle.hz_ops.specs.code.Steps.{code_step, result_into, instruction_step};
ghost use Rattle.hz_machine.specs.Kept.{world_of};
ghost use Rattle.hz_machine.specs.Effects.{Follows, TakesStep};
ghost use Rattle.hz_machine.specs.Frames.{next_of};

use crate::act::Act;
use crate::code::Code;
use crate::frame::{Frame, Reply};
use crate::kept::Kept;
use crate::rows::dispatch::row;
use hz_ops::{Held, Instr, Operand, tested};
use hz_value::{Memory, Value};

/// The result of a call goes into the register that the instruction names first.
fn result_into(kept: &Kept, frame: &mut Frame, next: u64, value: Value, operands: &[Operand]) -> Act
    ensures { TakesStep result frame.new kept.now
        (λ lines. result_into next frame.old (world_of lines kept.now) value operands.now) }
{
    let [Operand::Register(r), ..] = operands else {
        return Act::Bad;
    };
    let Some(to) = tested::register(frame.held(), *r) else {
        return Act::Bad;
    };
    frame.put(next, to, Held::Value(value));
    Act::Go
}

/// The instruction in hand, of so many bytes.
fn instruction_step<C: Code>(
    kept: &mut Kept,
    frame: &mut Frame,
    code: &C,
    instr: &Instr,
    length: u64,
) -> Result<Act, Memory>
    requires { (frame.old).place + length < 2 ^ 63 }
    ensures { Follows result frame.new kept.new (λ lines. instruction_step (C.program code.now) frame.old
        (world_of lines kept.old) (instr.now, length) (frame.old).reply) }
{
    let next = frame.place() + length;
    match frame.reply {
        None => row(kept, frame, code, next, instr.args.as_slice(), instr.op),
        Some(Reply::Normal(value)) => {
            Ok(result_into(kept, frame, next, value, instr.args.as_slice()))
        }
        Some(Reply::Thrown(value)) => Ok(Act::Throw(value)),
    }
}

/// The instruction in hand, with its length in bytes.
fn instruction_at<C: Code>(frame: &Frame, code: &C) -> Option<(Instr, u64)>
    requires { 0 < (C.program code.now).count }
    ensures value { result ≡ (C.program code.now).fetch (frame.now).function (frame.now).place }
    ensures bound { IfSome result (λ r. (frame.now).place + r.1 < 2 ^ 63) }
{
    code.fetch(frame.function(), frame.place())
}

/// One step of the script's activation.
pub(crate) fn code_step<C: Code>(
    kept: &mut Kept,
    frame: &mut Frame,
    code: &C,
) -> Result<Act, Memory>
    requires { 0 < (C.program code.now).count }
    ensures { Follows result frame.new kept.new
        (λ lines. code_step (C.program code.now) frame.old (world_of lines kept.old)) }
{
    let Some((instr, length)) = instruction_at(frame, code) else {
        return Ok(Act::Bad);
    };
    instruction_step(kept, frame, code, &instr, length)
}
