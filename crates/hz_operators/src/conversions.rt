// Conversions (ECMA-262, 7.1).
ghost use Rattle.std.specs.Prelude.{◌≡◌, ◌++◌, IfOk};
ghost use Rattle.std.specs.Fmt.{signed_decimal};
ghost use Rattle.hz_value.specs.NumberTexts.{text_value};
ghost use Rattle.hz_value.specs.operators.Computed.{safely};
ghost use Rattle.hz_value.specs.operators.Conversions.{to_boolean, to_primitive, to_number, to_text};
ghost use Rattle.hz_operators.specs.Outcomes.{content_of, Means, MeansPushed};

use crate::bits::small;
use crate::contents::Content;
use crate::halt::{Halt, TextHalt};
use hz_value::{Left, Memory, Safe, number_text, units_number};
use std::alloc::Global;

/// ToBoolean (7.1.2).
pub fn to_boolean(content: &Content<'_>) -> bool
    ensures { result ≡ to_boolean (content_of content.now) }
{
    match content {
        Content::Undefined | Content::Null => false,
        Content::Boolean(value) => *value,
        Content::Number(number) => number.get() != 0,
        Content::Text(units) => !units.is_empty(),
        Content::Symbol(_) | Content::Object(_) => true,
    }
}

/// ToPrimitive (7.1.1): a primitive stays as it is, and at an object the run is left.
pub(crate) fn expect_primitive(content: &Content<'_>) -> Result<(), Halt>
    ensures { Means (λ _. content_of content.now) result (to_primitive (content_of content.now)) }
{
    match content {
        Content::Object(_) => Err(Halt::Leaves(Left::NotBuilt)),
        _ => Ok(()),
    }
}

/// The number of a text (7.1.4.1.1).
fn number_in(units: &[u16]) -> Result<Safe, Halt>
    ensures { Means (λ z. z) result (safely (text_value units.now)) }
{
    units_number(units).ok_or(Halt::Leaves(Left::NotSafe))
}

/// ToNumber (7.1.4). The run is left where the number is no safe integer, and at an object. It takes no memory.
pub fn to_number(content: &Content<'_>) -> Result<Safe, Halt>
    ensures { Means (λ z. z) result (to_number (content_of content.now)) }
{
    match content {
        Content::Undefined => Err(Halt::Leaves(Left::NotSafe)),
        Content::Null => Ok(small(0)),
        Content::Boolean(value) => Ok(small(*value as i64)),
        Content::Number(number) => Ok(*number),
        Content::Text(units) => number_in(units),
        Content::Symbol(_) => Err(Halt::Symbol),
        Content::Object(_) => Err(Halt::Leaves(Left::NotBuilt)),
    }
}

/// Puts an ASCII text behind the units.
fn push_ascii(units: &mut Vec<u16>, text: &str) -> Result<(), Memory>
    ensures { IfOk result (λ _. units.new.items ≡ units.old.items ++ text.now) }
{
    for byte in text.as_bytes() {
        units.push(*byte as u16)?;
    }
    Ok(())
}

/// Puts a number in decimal behind the units.
fn push_number(alloc: Global, units: &mut Vec<u16>, number: Safe) -> Result<(), Memory>
    ensures { IfOk result (λ _. units.new.items ≡ units.old.items ++ signed_decimal number) }
{
    let text = number_text(alloc, number)?;
    units.extend_from_slice(text.as_slice())?;
    Ok(())
}

/// Puts a text behind the units.
fn push_units(units: &mut Vec<u16>, text: &[u16]) -> Result<(), Memory>
    ensures { IfOk result (λ _. units.new.items ≡ units.old.items ++ text.now) }
{
    units.extend_from_slice(text)?;
    Ok(())
}

/// Puts the text of a value behind the units: ToString (7.1.17). At an object the run is left.
pub fn push_text(alloc: Global, units: &mut Vec<u16>, content: &Content<'_>) -> Result<(), TextHalt>
    ensures { MeansPushed units.old.items units.new.items result (to_text (content_of content.now)) }
{
    match content {
        Content::Undefined => push_ascii(units, "undefined")?,
        Content::Null => push_ascii(units, "null")?,
        Content::Boolean(true) => push_ascii(units, "true")?,
        Content::Boolean(false) => push_ascii(units, "false")?,
        Content::Number(number) => push_number(alloc, units, *number)?,
        Content::Text(text) => push_units(units, text)?,
        Content::Symbol(_) => return Err(TextHalt::Halt(Halt::Symbol)),
        Content::Object(_) => return Err(TextHalt::Halt(Halt::Leaves(Left::NotBuilt))),
    }
    Ok(())
}
