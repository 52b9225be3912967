// Printed lines.
ghost use Rattle.std.specs.Prelude.{◌≡◌, ◌++◌, map, IfOk, string_bytes};
ghost use Rattle.std.specs.Fmt.{signed_decimal};
ghost use Rattle.hz_ops.specs.Contents.{text_of, line_of};
ghost use Rattle.hermes.specs.Printing.{line_bytes};
ghost use Rattle.hermes.specs.first.Rows.{content_of, Wrote, MadeLine};

use crate::first::run::held::Held;
use crate::first::run::stop::Stop;
use hz_file::StringView;
use hz_value::{Memory, Safe, number_text};
use std::alloc::Global;

/// Writes the units of the text behind the others.
fn push_view(line: &mut Vec<u16>, text: &StringView<'_>) -> Result<(), Memory>
    ensures { IfOk result (λ _. line.new.items ≡ line.old.items ++ text.now) }
{
    for i in 0..text.len() {
        let Some(unit) = text.unit(i) else {
            unreachable!()
        };
        line.push(unit)?;
    }
    Ok(())
}

/// Writes an ASCII text behind the others.
fn push_ascii(line: &mut Vec<u16>, text: &str) -> Result<(), Memory>
    ensures { IfOk result (λ _. line.new.items ≡ line.old.items ++ text.now) }
{
    for byte in text.as_bytes() {
        line.push(*byte as u16)?;
    }
    Ok(())
}

/// Writes a number in decimal behind the others.
fn push_number(alloc: Global, line: &mut Vec<u16>, number: Safe) -> Result<(), Memory>
    ensures { IfOk result (λ _. line.new.items ≡ line.old.items ++ signed_decimal number) }
{
    let text = number_text(alloc, number)?;
    line.extend_from_slice(text.as_slice())?;
    Ok(())
}

/// Writes the text of what a register holds; `print` has none that is said.
fn push_text(alloc: Global, line: &mut Vec<u16>, held: &Held<'_>) -> Result<(), Stop>
    ensures { Wrote line.old.items line.new.items (text_of (content_of held.now)) result }
{
    match held {
        Held::Undefined => push_ascii(line, "undefined")?,
        Held::Number(number) => push_number(alloc, line, *number)?,
        Held::Text(text) => push_view(line, text)?,
        Held::Print => return Err(Stop::Unbuilt),
    }
    Ok(())
}

/// The line that `print` prints of these arguments: their texts with a space between each two.
pub(crate) fn line_of(alloc: Global, arguments: &[Held<'_>]) -> Result<Vec<u16>, Stop>
    ensures { MadeLine (line_of (map content_of arguments.now)) result }
{
    let mut line = Vec::new(alloc);
    let [first, rest @ ..] = arguments else {
        return Ok(line);
    };
    push_text(alloc, &mut line, first)?;
    for argument in rest {
        push_ascii(&mut line, " ")?;
        push_text(alloc, &mut line, argument)?;
    }
    Ok(line)
}

/// The bytes of a line, with the newline behind it.
pub(crate) fn line_bytes(alloc: Global, line: &[u16]) -> Result<String, Memory>
    ensures { IfOk result (λ text. string_bytes text ≡ line_bytes line.now) }
{
    let mut text = String::from_utf16_lossy(alloc, line)?;
    text.push('\n')?;
    Ok(text)
}
