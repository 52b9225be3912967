// The start of a run.
ghost use Rattle.std.specs.Prelude.{◌≡◌, ◌<◌, [], IfOk, replicate};
ghost use Rattle.hz_value.specs.declared.values.Value.TheVariants as value;
ghost use Rattle.hz_value.specs.world.Start.{texts0, globals0};
ghost use Rattle.hz_value.specs.world.Store.{interned};
ghost use Rattle.hz_machine.specs.Globals.{put_slot};
ghost use Rattle.hz_ops.specs.code.Activations.{code_script};
ghost use Rattle.hz_ops.specs.declared.held.Held.TheVariants as held;

use crate::code::Code;
use crate::frame::Frame;
use crate::globals::{Globals, Slot};
use crate::kept::Kept;
use crate::met::Met;
use crate::rows::names::units_of;
use crate::texts::Texts;
use hz_ops::Held;
use hz_value::{Memory, Value};
use std::alloc::Global;

/// Keeps an ASCII text.
fn keep(alloc: Global, texts: &mut Texts, text: &str) -> Result<(), Memory>
    ensures { IfOk result (λ _. texts.new ≡ interned texts.old text.now) }
{
    let units = units_of(alloc, text)?;
    texts.intern(units)?;
    Ok(())
}

/// The texts that there are from the start.
fn first_texts(alloc: Global) -> Result<Texts, Memory>
    ensures { IfOk result (λ texts. texts ≡ texts0) }
{
    let mut texts = Texts::new(alloc);
    keep(alloc, &mut texts, "length")?;
    keep(alloc, &mut texts, "name")?;
    keep(alloc, &mut texts, "message")?;
    keep(alloc, &mut texts, "")?;
    keep(alloc, &mut texts, "Error")?;
    keep(alloc, &mut texts, "TypeError")?;
    keep(alloc, &mut texts, "RangeError")?;
    keep(alloc, &mut texts, "ReferenceError")?;
    keep(alloc, &mut texts, "print")?;
    Ok(texts)
}

/// Puts a global of this ASCII name.
fn put(
    alloc: Global,
    globals: &mut Globals,
    name: &str,
    value: Option<Value>,
    writable: bool,
) -> Result<(), Memory>
    ensures { IfOk result
        (λ _. globals.new ≡ put_slot name.now (record { value = value; writable = writable }) globals.old) }
{
    let name = units_of(alloc, name)?;
    globals.put(name, Slot { value, writable })
}

/// The globals that there are from the start.
fn first_globals(alloc: Global) -> Result<Globals, Memory>
    ensures { IfOk result (λ globals. globals ≡ globals0) }
{
    let mut globals = Globals::new(alloc);
    put(alloc, &mut globals, "print", Some(Value::Object(6)), true)?;
    put(
        alloc,
        &mut globals,
        "undefined",
        Some(Value::Undefined),
        false,
    )?;
    put(alloc, &mut globals, "NaN", None, false)?;
    put(alloc, &mut globals, "Infinity", None, false)?;
    Ok(globals)
}

/// So many registers, each of which holds undefined.
fn fresh_registers(alloc: Global, count: u64) -> Result<Vec<Held>, Memory>
    ensures { IfOk result
        (λ registers. registers.items ≡ replicate count (held.Value value.Undefined)) }
{
    let mut registers = Vec::with_capacity(alloc, count as usize)?;
    for _ in 0..count {
        registers.push(Held::Value(Value::Undefined))?;
    }
    Ok(registers)
}

/// The world at the start of a run.
pub(crate) fn first_world(alloc: Global, turns: u64) -> Result<Kept, Memory>
    ensures { IfOk result (λ kept. kept
        ≡ record { texts = texts0; globals = globals0; errors = []; turns = turns; calls = 0 }) }
{
    let texts = first_texts(alloc)?;
    let globals = first_globals(alloc)?;
    Ok(Kept {
        alloc,
        texts,
        met: Met::new(alloc),
        globals,
        errors: Vec::new(alloc),
        turns,
        calls: 0,
    })
}

/// The script at its entry.
pub(crate) fn first_frame<C: Code>(alloc: Global, code: &C) -> Result<Frame, Memory>
    requires { 0 < (C.program code.now).count }
    ensures { IfOk result (λ frame. frame ≡ code_script (C.program code.now)) }
{
    let registers = fresh_registers(alloc, code.registers(0))?;
    Ok(Frame {
        place: 0,
        registers,
        reply: None,
    })
}
