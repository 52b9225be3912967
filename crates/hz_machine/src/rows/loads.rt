// Rows that load and move.
ghost use Rattle.std.specs.Prelude.{◌≡◌};
ghost use Rattle.hz_value.specs.declared.values.Value.TheVariants as value;
ghost use Rattle.hz_value.specs.operators.Contents.{Text};
ghost use Rattle.hz_ops.specs.code.Operands as tested;
ghost use Rattle.hz_ops.specs.code.Effects.{tested_to, puts, puts_value, puts_content};
ghost use Rattle.hz_ops.specs.code.Rows.{load, text_row};
ghost use Rattle.hz_machine.specs.Kept.{world_of};
ghost use Rattle.hz_machine.specs.Effects.{TakesStep};

use crate::act::Act;
use crate::code::Code;
use crate::effects::put_text;
use crate::frame::Frame;
use crate::kept::Kept;
use hz_ops::{Held, Operand, tested};
use hz_value::Value;

/// A register gets a constant.
pub(crate) fn load(
    kept: &Kept,
    frame: &mut Frame,
    next: u64,
    operands: &[Operand],
    held: Held,
) -> Act
    ensures { TakesStep result frame.new kept.now
        (λ lines. load held next frame.old (world_of lines kept.now) operands.now) }
{
    let Some(to) = tested::into(frame.held(), operands) else {
        return Act::Bad;
    };
    frame.put(next, to, held);
    Act::Go
}

/// LoadInt.
pub(crate) fn load_int(kept: &Kept, frame: &mut Frame, next: u64, operands: &[Operand]) -> Act
    ensures { TakesStep result frame.new kept.now
        (λ lines. tested_to frame.old (world_of lines kept.now) (tested.integer_into (frame.old).registers operands.now)
        (λ o. puts_value next frame.old (world_of lines kept.now) o.to (value.Num o.integer))) }
{
    let Some(o) = tested::integer_into(frame.held(), operands) else {
        return Act::Bad;
    };
    frame.put(next, o.to, Held::Value(Value::Num(o.integer)));
    Act::Go
}

/// Move.
pub(crate) fn move_held(kept: &Kept, frame: &mut Frame, next: u64, operands: &[Operand]) -> Act
    ensures { TakesStep result frame.new kept.now
        (λ lines. tested_to frame.old (world_of lines kept.now) (tested.held_into (frame.old).registers operands.now)
        (λ o. puts next frame.old (world_of lines kept.now) o.to o.held)) }
{
    let Some(o) = tested::held_into(frame.held(), operands) else {
        return Act::Bad;
    };
    frame.put(next, o.to, o.held);
    Act::Go
}
