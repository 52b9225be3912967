// Lines of the input, for which a built-in function waits.
ghost use Rattle.std.specs.Prelude.{◌≡◌, IfOk, IsOk, OnOk, Ok, None};
ghost use Rattle.hz_value.specs.declared.values.Value.TheVariants as value;
ghost use Rattle.hz_value.specs.system.Acts.{Normal};
ghost use Rattle.hz_value.specs.system.Routines.{routine_answered};
ghost use Rattle.hz_ops.specs.code.Activations.{Activation};
ghost use Rattle.hz_machine.specs.declared.machine.Status.TheVariants as mode;
ghost use Rattle.hz_machine.specs.Machines.{Asks, asking, with_line, line_value, lines_before, lines_behind, machine_of};

use crate::frame::Reply;
use crate::kept::Kept;
use crate::routine::{READLINE, Routine};
use hz_value::{Memory, Units, Value};
use std::alloc::Global;

/// The value that a line becomes: its text, which is kept from then on, or undefined where there is no line.
fn line_value(kept: &mut Kept, text: Option<Units>) -> Result<Value, Memory>
    ensures value { IfOk result (λ v. v ≡ line_value text kept.old) }
    ensures kept { OnOk result (kept.new ≡ with_line text kept.old) }
    ensures none { text ≡ None → result ≡ Ok value.Undefined }
{
    let Some(text) = text else {
        return Ok(Value::Undefined);
    };
    let number = kept.texts.intern(text.into_vec())?;
    Ok(Value::Text(number))
}

/// The built-in function that asked for a line, with the value that came back.
fn answered(alloc: Global, asked: Option<Routine>, value: Value) -> Routine
    ensures { result ≡ routine_answered (asking asked) (Normal value) }
{
    let (place, values) = match asked {
        Some(routine) => (routine.place, routine.values),
        None => (0, Vec::new(alloc)),
    };
    Routine {
        routine: READLINE,
        place,
        values,
        reply: Some(Reply::Normal(value)),
    }
}

/// The line, or that there is none, goes to the built-in function that asked for it.
pub(crate) fn give_line(
    kept: &mut Kept,
    routine: &mut Option<Routine>,
    text: Option<Units>,
) -> Result<(), Memory>
    ensures ok { OnOk result ((a : Activation) → Asks (lines_before text) (lines_behind text)
        (machine_of kept.old a routine.old mode.Waiting) (machine_of kept.new a routine.new mode.Running)) }
    ensures none { text ≡ None → IsOk result }
{
    let value = line_value(kept, text)?;
    *routine = Some(answered(kept.alloc, routine.take(), value));
    Ok(())
}
