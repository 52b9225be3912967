// Rows of texts and of names.
ghost use Rattle.std.specs.Prelude.{◌≡◌, ℕ, List, IfOk, IfSome};
ghost use Rattle.hz_value.specs.operators.Computed.{Gives, and_then};
ghost use Rattle.hz_value.specs.operators.Contents.{Text};
ghost use Rattle.hz_value.specs.operators.Messages.{IsConstant, NotInitialised};
ghost use Rattle.hz_value.specs.world.Globals.{read_global, read_held, resolved, write_global, declare_global};
ghost use Rattle.hz_value.specs.world.World.{Line, type_of_global};
ghost use Rattle.hz_ops.specs.code.Effects.{tested_to, raises, passes, puts_content, gives, gives_value, result_to, changes_globals};
ghost use Rattle.hz_ops.specs.code.Rows.{text_row, name_row, check_init, store_global};
ghost use Rattle.hz_machine.specs.Kept.{world_of};
ghost use Rattle.hz_machine.specs.Effects.{Follows, TakesStep};
ghost use Rattle.hz_machine.specs.Frames.{next_of};
ghost use Rattle.hz_machine.specs.Known.{IsText, IsGlobal, IsWritable};

use crate::act::Act;
use crate::code::Code;
use crate::effects::{put_text, raise};
use crate::errors::Cause;
use crate::frame::Frame;
use crate::globals::{Refused, Slot};
use crate::kept::Kept;
use hz_ops::{Held, Operand, tested};
use hz_value::{Left, Memory, Value};
use std::alloc::Global;

/// The number of the code's text among the texts of the run, where it was met.
fn known_text<C: Code>(kept: &Kept, code: &C, id: u64) -> Option<u64>
    ensures { IfSome result (IsText (C.program code.now) kept.now id) }
{
    let number = kept.met.text(id)?;
    let units = kept.texts.kept(number)?;
    if code.is_string(id, units) {
        return Some(number);
    }
    None
}

/// The register gets a text that was not met under its number.
fn meet_text<C: Code>(
    kept: &mut Kept,
    frame: &mut Frame,
    code: &C,
    next: u64,
    o: &tested::TextInto,
) -> Result<Act, Memory>
    ensures { Follows result frame.new kept.new
        (λ lines. tested_to frame.old (world_of lines kept.old) ((C.program code.now).text (o.now).text)
        (λ t. puts_content next frame.old (world_of lines kept.old) (o.now).to (Text t))) }
{
    let Some(text) = code.string(kept.alloc, o.text)? else {
        return Ok(Act::Bad);
    };
    let number = kept.texts.intern(text)?;
    kept.met.note_text(o.text, number);
    frame.put(next, o.to, Held::Value(Value::Text(number)));
    Ok(Act::Go)
}

/// LoadString. A text that was met is neither copied nor hashed.
pub(crate) fn load_string<C: Code>(
    kept: &mut Kept,
    frame: &mut Frame,
    code: &C,
    next: u64,
    operands: &[Operand],
) -> Result<Act, Memory>
    ensures { Follows result frame.new kept.new
        (λ lines. text_row (λ r t. puts_content next frame.old (world_of lines kept.old) r (Text t))
        (C.program code.now) frame.old (world_of lines kept.old) operands.now) }
{
    let Some(o) = tested::text_into(frame.held(), operands) else {
        return Ok(Act::Bad);
    };
    let Some(number) = known_text(kept, code, o.text) else {
        return meet_text(kept, frame, code, next, &o);
    };
    frame.put(next, o.to, Held::Value(Value::Text(number)));
    Ok(Act::Go)
}

/// ThrowConst.
pub(crate) fn throw_const<C: Code>(
    kept: &mut Kept,
    frame: &Frame,
    code: &C,
    operands: &[Operand],
) -> Result<Act, Memory>
    ensures { Follows result frame.now kept.new
        (λ lines. name_row (λ name. raises frame.now (world_of lines kept.old) (IsConstant name))
        (C.program code.now) frame.now (world_of lines kept.old) operands.now) }
{
    let Some(text) = tested::text(operands) else {
        return Ok(Act::Bad);
    };
    let Some(name) = code.string(kept.alloc, text)? else {
        return Ok(Act::Bad);
    };
    raise(kept, &Cause::IsConstant(name.as_slice()))
}

/// The binding is initialised: its name has to be there.
fn pass_binding<C: Code>(kept: &Kept, frame: &mut Frame, code: &C, next: u64, name: u64) -> Act
    ensures { TakesStep result frame.new kept.now
        (λ lines. tested_to frame.old (world_of lines kept.now) ((C.program code.now).text name)
        (λ t. passes next frame.old (world_of lines kept.now))) }
{
    if !code.has_string(name) {
        return Act::Bad;
    }
    frame.go(next);
    Act::Go
}

/// The binding is not initialised: an error with its name is thrown.
fn refuse_binding<C: Code>(
    kept: &mut Kept,
    frame: &Frame,
    code: &C,
    name: u64,
) -> Result<Act, Memory>
    ensures { Follows result frame.now kept.new
        (λ lines. tested_to frame.now (world_of lines kept.old) ((C.program code.now).text name)
        (λ t. raises frame.now (world_of lines kept.old) (NotInitialised t))) }
{
    let Some(name) = code.string(kept.alloc, name)? else {
        return Ok(Act::Bad);
    };
    raise(kept, &Cause::NotInitialised(name.as_slice()))
}

/// CheckInit.
pub(crate) fn check_init<C: Code>(
    kept: &mut Kept,
    frame: &mut Frame,
    code: &C,
    next: u64,
    operands: &[Operand],
) -> Result<Act, Memory>
    ensures { Follows result frame.new kept.new
        (λ lines. check_init (C.program code.now) next frame.old (world_of lines kept.old) operands.now) }
{
    let Some(o) = tested::named_binding(frame.held(), operands) else {
        return Ok(Act::Bad);
    };
    match o.binding {
        Some(_) => Ok(pass_binding(kept, frame, code, next, o.name)),
        None => refuse_binding(kept, frame, code, o.name),
    }
}

/// The register gets the value of the global.
fn read_global(
    kept: &mut Kept,
    frame: &mut Frame,
    next: u64,
    to: u64,
    name: &[u16],
) -> Result<Act, Memory>
    ensures { Follows result frame.new kept.new
        (λ lines. gives_value next frame.old (world_of lines kept.old) to
        (read_global (kept.old).globals name.now)) }
{
    match kept.globals.resolve(name) {
        Ok(Some(value)) => {
            frame.put(next, to, Held::Value(value));
            Ok(Act::Go)
        }
        Ok(None) => raise(kept, &Cause::NotDefined(name)),
        Err(reason) => Ok(Act::Leave(reason)),
    }
}

/// The global that the code's text names, where it was met.
fn known_global<C: Code>(kept: &Kept, code: &C, id: u64) -> Option<Slot>
    ensures { IfSome result (IsGlobal (C.program code.now) kept.now id) }
{
    let place = kept.met.global(id)?;
    let name = kept.globals.name(place)?;
    if !code.is_string(id, name) {
        return None;
    }
    kept.globals.at(place)
}

/// Remembers where the global of this name stands, which is that of the code's text with this number.
fn note_global(kept: &mut Kept, id: u64, name: &[u16])
    ensures { kept.new ≡ kept.old }
{
    if let Some(place) = kept.globals.place(name) {
        kept.met.note_global(id, place);
    }
}

/// The register gets the value of a global that was not met under the number of its name.
fn meet_global<C: Code>(
    kept: &mut Kept,
    frame: &mut Frame,
    code: &C,
    next: u64,
    o: &tested::TextInto,
) -> Result<Act, Memory>
    ensures { Follows result frame.new kept.new
        (λ lines. tested_to frame.old (world_of lines kept.old) ((C.program code.now).text (o.now).text)
        (λ name. gives_value next frame.old (world_of lines kept.old) (o.now).to
        (read_global (kept.old).globals name))) }
{
    let Some(name) = code.string(kept.alloc, o.text)? else {
        return Ok(Act::Bad);
    };
    note_global(kept, o.text, name.as_slice());
    read_global(kept, frame, next, o.to, name.as_slice())
}

/// The register gets the value of the global.
fn give_global(kept: &Kept, frame: &mut Frame, next: u64, to: u64, slot: &Slot) -> Act
    ensures { (lines : List Line) (name : List ℕ) → next_of result frame.new (world_of lines kept.now)
        ≡ gives_value next frame.old (world_of lines kept.now) to
        (and_then (read_held (slot.now).value) (resolved name)) }
{
    match slot.value {
        Some(value) => {
            frame.put(next, to, Held::Value(value));
            Act::Go
        }
        None => Act::Leave(Left::NotSafe),
    }
}

/// LoadGlobal. A global that was met is found without its name's hash.
pub(crate) fn load_global<C: Code>(
    kept: &mut Kept,
    frame: &mut Frame,
    code: &C,
    next: u64,
    operands: &[Operand],
) -> Result<Act, Memory>
    ensures { Follows result frame.new kept.new
        (λ lines. text_row (λ r name. gives_value next frame.old (world_of lines kept.old) r
        (read_global (kept.old).globals name)) (C.program code.now) frame.old (world_of lines kept.old) operands.now) }
{
    let Some(o) = tested::text_into(frame.held(), operands) else {
        return Ok(Act::Bad);
    };
    let Some(slot) = known_global(kept, code, o.text) else {
        return meet_global(kept, frame, code, next, &o);
    };
    Ok(give_global(kept, frame, next, o.to, &slot))
}

/// An ASCII text as units.
pub(crate) fn units_of(alloc: Global, text: &str) -> Result<Vec<u16>, Memory>
    ensures { IfOk result (λ units. units.items ≡ text.now) }
{
    let mut units = Vec::new(alloc);
    for byte in text.as_bytes() {
        units.push(*byte as u16)?;
    }
    Ok(units)
}

/// The register gets this text.
pub(crate) fn put_name(
    kept: &mut Kept,
    frame: &mut Frame,
    next: u64,
    to: u64,
    text: &str,
) -> Result<Act, Memory>
    ensures { Follows result frame.new kept.new
        (λ lines. puts_content next frame.old (world_of lines kept.old) to (Text text.now)) }
{
    let units = units_of(kept.alloc, text)?;
    put_text(kept, frame, next, to, units)
}

/// The register gets the type of the global.
fn read_type(
    kept: &mut Kept,
    frame: &mut Frame,
    next: u64,
    to: u64,
    name: &[u16],
) -> Result<Act, Memory>
    ensures { Follows result frame.new kept.new
        (λ lines. gives next frame.old (world_of lines kept.old) to
        (and_then (type_of_global (world_of lines kept.old) name.now) (λ t. Gives (Text t)))) }
{
    match kept.globals.resolve(name) {
        Ok(Some(value)) => put_name(kept, frame, next, to, kept.type_name(value)),
        Ok(None) => put_name(kept, frame, next, to, "undefined"),
        Err(reason) => Ok(Act::Leave(reason)),
    }
}

/// TypeofGlobal.
pub(crate) fn typeof_global<C: Code>(
    kept: &mut Kept,
    frame: &mut Frame,
    code: &C,
    next: u64,
    operands: &[Operand],
) -> Result<Act, Memory>
    ensures { Follows result frame.new kept.new
        (λ lines. text_row (λ r name. gives next frame.old (world_of lines kept.old) r
        (and_then (type_of_global (world_of lines kept.old) name) (λ t. Gives (Text t))))
        (C.program code.now) frame.old (world_of lines kept.old) operands.now) }
{
    let Some(o) = tested::text_into(frame.held(), operands) else {
        return Ok(Act::Bad);
    };
    let Some(name) = code.string(kept.alloc, o.text)? else {
        return Ok(Act::Bad);
    };
    read_type(kept, frame, next, o.to, name.as_slice())
}

/// The global of this name gets the value.
fn write_global(
    kept: &mut Kept,
    frame: &mut Frame,
    next: u64,
    name: &[u16],
    value: Value,
) -> Result<Act, Memory>
    ensures { Follows result frame.new kept.new
        (λ lines. changes_globals next frame.old (world_of lines kept.old)
        (write_global (kept.old).globals name.now value)) }
{
    match kept.globals.write(name, value) {
        Ok(()) => {
            frame.go(next);
            Ok(Act::Go)
        }
        Err(Refused::NotDefined) => raise(kept, &Cause::NotDefined(name)),
        Err(Refused::IsConstant) => raise(kept, &Cause::IsConstant(name)),
        Err(Refused::Leaves(reason)) => Ok(Act::Leave(reason)),
        Err(Refused::Memory) => Err(Memory),
    }
}

/// The place of the global that the code's text names, where it was met and can be written.
fn known_writable<C: Code>(kept: &Kept, code: &C, id: u64) -> Option<u64>
    ensures { IfSome result (IsWritable (C.program code.now) kept.now id) }
{
    let place = kept.met.global(id)?;
    let name = kept.globals.name(place)?;
    if !code.is_string(id, name) {
        return None;
    }
    let slot = kept.globals.at(place)?;
    if slot.writable { Some(place) } else { None }
}

/// The global of this name, which was not met under the number of its name, gets the value.
fn meet_written<C: Code>(
    kept: &mut Kept,
    frame: &mut Frame,
    code: &C,
    next: u64,
    o: &tested::TextAndValue,
) -> Result<Act, Memory>
    ensures { Follows result frame.new kept.new
        (λ lines. tested_to frame.old (world_of lines kept.old) ((C.program code.now).text (o.now).text)
        (λ name. changes_globals next frame.old (world_of lines kept.old)
        (write_global (kept.old).globals name (o.now).value))) }
{
    let Some(name) = code.string(kept.alloc, o.text)? else {
        return Ok(Act::Bad);
    };
    note_global(kept, o.text, name.as_slice());
    write_global(kept, frame, next, name.as_slice(), o.value)
}

/// StoreGlobal. A global that was met is found without its name's hash.
pub(crate) fn store_global<C: Code>(
    kept: &mut Kept,
    frame: &mut Frame,
    code: &C,
    next: u64,
    operands: &[Operand],
) -> Result<Act, Memory>
    ensures { Follows result frame.new kept.new
        (λ lines. store_global (C.program code.now) next frame.old (world_of lines kept.old) operands.now) }
{
    let Some(o) = tested::text_and_value(frame.held(), operands) else {
        return Ok(Act::Bad);
    };
    let Some(place) = known_writable(kept, code, o.text) else {
        return meet_written(kept, frame, code, next, &o);
    };
    kept.globals.set(place, o.value);
    frame.go(next);
    Ok(Act::Go)
}

/// DeclareGlobal.
pub(crate) fn declare_global<C: Code>(
    kept: &mut Kept,
    frame: &mut Frame,
    code: &C,
    next: u64,
    operands: &[Operand],
) -> Result<Act, Memory>
    ensures { Follows result frame.new kept.new
        (λ lines. name_row (λ name. passes next frame.old
        (record (world_of lines kept.old) { globals = declare_global name (kept.old).globals }))
        (C.program code.now) frame.old (world_of lines kept.old) operands.now) }
{
    let Some(text) = tested::text(operands) else {
        return Ok(Act::Bad);
    };
    let Some(name) = code.string(kept.alloc, text)? else {
        return Ok(Act::Bad);
    };
    kept.globals.declare(name.as_slice())?;
    frame.go(next);
    Ok(Act::Go)
}
