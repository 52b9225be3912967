//! The parentheses behind which `=>` stands, found from the marks of the tokens.

ghost use Rattle.std.specs.Prelude.{◌≡◌, IfOk, reverse};
ghost use Rattle.hz_cursor.specs.Marks.{answers};

use crate::mark::Mark;
use hz_list::Memory;
use std::alloc::Global;

/// For each `(` of the marks, whether `=>` stands behind the `)` that matches it. The first one comes last.
///
/// From the last mark to the first: the answers of parentheses that are still to be opened lie on a stack.
pub fn flags_of(alloc: Global, mut marks: Vec<Mark>) -> Result<Vec<bool>, Memory>
    ensures { IfOk result (λ flags. reverse flags.items ≡ (answers marks.items).0) }
{
    let mut flags = Vec::new(alloc);
    let mut pending = Vec::new(alloc);
    while let Some(mark) = marks.pop() {
        match mark {
            Mark::Opens => flags.push(pending.pop().unwrap_or(false))?,
            Mark::Closes(arrow) => pending.push(arrow)?,
        }
    }
    Ok(flags)
}
