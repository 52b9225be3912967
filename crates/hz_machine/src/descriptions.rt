// What is told of a value that nobody caught.
ghost use Rattle.std.specs.Prelude.{◌≡◌, ◌++◌, codes, IfOk, option_map, slice_get};
ghost use Rattle.std.specs.Fmt.{signed_decimal};
ghost use Rattle.hz_value.specs.world.Store.{text, object};
ghost use Rattle.hz_value.specs.world.Descriptions.{describe, object_description, with_message};
ghost use Rattle.hz_machine.specs.Kept.{store_of};
ghost use Rattle.hz_machine.specs.Descriptions.{name_number, error_text, error_at, told_error, described};

use crate::errors::{ErrorKind, MadeError};
use crate::kept::Kept;
use crate::rows::names::units_of;
use hz_value::{Memory, Safe, Value, number_text};
use std::alloc::Global;

/// The text `name: message`; the name alone where the message is empty.
fn with_message(alloc: Global, name: &[u16], message: &[u16]) -> Result<Vec<u16>, Memory>
    ensures { IfOk result (λ whole. whole.items ≡ with_message name.now message.now) }
{
    let mut whole = Vec::new(alloc);
    whole.extend_from_slice(name)?;
    if message.is_empty() {
        return Ok(whole);
    }
    let between = units_of(alloc, ": ")?;
    whole.extend_from_slice(between.as_slice())?;
    whole.extend_from_slice(message)?;
    Ok(whole)
}

/// The number of the text that names this kind of errors.
fn name_number(kind: ErrorKind) -> u64
    ensures { result ≡ name_number kind }
{
    match kind {
        ErrorKind::TypeError => 5,
        ErrorKind::ReferenceError => 7,
    }
}

/// The description of an error.
fn describe_error(kept: &Kept, alloc: Global, error: &MadeError) -> Result<Vec<u16>, Memory>
    ensures { IfOk result (λ whole. whole.items ≡ error_text (store_of kept.now) error.now) }
{
    let name = kept.texts.units(name_number(error.kind));
    with_message(alloc, name, kept.texts.units(error.text))
}

/// The error with this number among the objects.
fn error_at(kept: &Kept, object: u64) -> Option<MadeError>
    ensures { result ≡ error_at kept.now object }
{
    if object < 7 {
        return None;
    }
    kept.errors.get((object - 7) as usize).copied()
}

/// The description of an object that is no function.
fn describe_other(kept: &Kept, alloc: Global, object: u64) -> Result<Vec<u16>, Memory>
    ensures { IfOk result
        (λ whole. whole.items ≡ told_error (store_of kept.now) (error_at kept.now object)) }
{
    match error_at(kept, object) {
        Some(error) => describe_error(kept, alloc, &error),
        None => units_of(alloc, "object"),
    }
}

/// The description of an object.
fn describe_object(kept: &Kept, alloc: Global, number: u64) -> Result<Vec<u16>, Memory>
    ensures { IfOk result (λ whole. whole.items ≡ described kept.now number) }
{
    if number == 1 {
        return units_of(alloc, "function");
    }
    if number == 6 {
        return units_of(alloc, "function");
    }
    describe_other(kept, alloc, number)
}

fn copied(alloc: Global, units: &[u16]) -> Result<Vec<u16>, Memory>
    ensures { IfOk result (λ copy. copy.items ≡ units.now) }
{
    let mut copy = Vec::new(alloc);
    copy.extend_from_slice(units)?;
    Ok(copy)
}

fn describe_number(alloc: Global, number: Safe) -> Result<Vec<u16>, Memory>
    ensures { IfOk result (λ text. text.items ≡ signed_decimal number) }
{
    let text = number_text(alloc, number)?;
    Ok(text.into_vec())
}

/// What is told of the value.
#[tactic(auto, using(crate::proofs::Describing::object_described))]
pub(crate) fn describe(kept: &Kept, alloc: Global, value: &Value) -> Result<Vec<u16>, Memory>
    ensures { IfOk result (λ text. text.items ≡ describe (store_of kept.now) value.now) }
{
    match value {
        Value::Undefined => units_of(alloc, "undefined"),
        Value::Null => units_of(alloc, "null"),
        Value::Bool(true) => units_of(alloc, "true"),
        Value::Bool(false) => units_of(alloc, "false"),
        Value::Num(number) => describe_number(alloc, *number),
        Value::Text(text) => copied(alloc, kept.texts.units(*text)),
        Value::Symbol(_) => units_of(alloc, "Symbol()"),
        Value::Object(number) => describe_object(kept, alloc, *number),
    }
}
