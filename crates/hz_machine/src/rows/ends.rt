// Rows that end an activation, and calls.
ghost use Rattle.std.specs.Prelude.{◌≡◌, IfOk, option_map};
ghost use Rattle.hz_value.specs.system.Acts.{Does, Return};
ghost use Rattle.hz_ops.specs.code.Operands as tested;
ghost use Rattle.hz_ops.specs.code.Effects.{tested_to, throws};
ghost use Rattle.hz_ops.specs.code.Rows.{call};
ghost use Rattle.hz_machine.specs.Kept.{world_of};
ghost use Rattle.hz_machine.specs.Effects.{Follows, TakesStep};

use crate::act::Act;
use crate::frame::Frame;
use crate::kept::Kept;
use hz_ops::{Held, Operand, tested};
use hz_value::{Memory, Value};
use std::alloc::Global;

/// Return.
pub(crate) fn return_value(kept: &Kept, frame: &Frame, operands: &[Operand]) -> Act
    ensures { TakesStep result frame.now kept.now
        (λ lines. tested_to frame.now (world_of lines kept.now) (tested.value (frame.now).registers operands.now)
        (λ v. Does (Return v) frame.now (world_of lines kept.now))) }
{
    match tested::value(frame.held(), operands) {
        Some(value) => Act::Return(value),
        None => Act::Bad,
    }
}

/// Throw.
pub(crate) fn throw_value(kept: &Kept, frame: &Frame, operands: &[Operand]) -> Act
    ensures { TakesStep result frame.now kept.now
        (λ lines. tested_to frame.now (world_of lines kept.now) (tested.value (frame.now).registers operands.now)
        (throws frame.now (world_of lines kept.now))) }
{
    match tested::value(frame.held(), operands) {
        Some(value) => Act::Throw(value),
        None => Act::Bad,
    }
}

/// The values that these hold, None where one holds something else.
fn values_in(alloc: Global, row: &[Held]) -> Result<Option<Vec<Value>>, Memory>
    ensures { IfOk result (λ values. option_map (λ v. v.items) values ≡ tested.values_in row.now) }
{
    let mut values = Vec::new(alloc);
    for held in row {
        let Held::Value(value) = held else {
            return Ok(None);
        };
        values.push(*value)?;
    }
    Ok(Some(values))
}

/// The values in so many registers from the first on.
fn values_at(
    alloc: Global,
    registers: &[Held],
    first: u64,
    count: u8,
) -> Result<Option<Vec<Value>>, Memory>
    ensures { IfOk result
        (λ values. option_map (λ v. v.items) values ≡ tested.values_at registers.now first count) }
{
    let length = registers.len() as u64;
    let count = count as u64;
    if first > length || count > length - first {
        return Ok(None);
    }
    let start = first as usize;
    values_in(alloc, &registers[start..start + count as usize])
}

/// Call.
pub(crate) fn call(kept: &Kept, frame: &Frame, operands: &[Operand]) -> Result<Act, Memory>
    ensures { Follows result frame.now kept.now (λ lines. call frame.now (world_of lines kept.now) operands.now) }
{
    let Some(o) = tested::call_operands(frame.held(), operands) else {
        return Ok(Act::Bad);
    };
    let Some(arguments) = values_at(kept.alloc, frame.held(), o.first, o.count)? else {
        return Ok(Act::Bad);
    };
    Ok(Act::Call(o.callee, o.this, arguments))
}
