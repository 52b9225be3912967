// Rows of jumps.
ghost use Rattle.std.specs.Prelude.{◌≡◌, ◌<◌, ◌^◌};
ghost use Rattle.hz_ops.specs.code.Operands as tested;
ghost use Rattle.hz_operators.specs.Outcomes.{content_of as seen};
ghost use Rattle.hz_ops.specs.code.Effects.{tested_to, jumps};
ghost use Rattle.hz_ops.specs.code.Rows.{branch_row, jump_is};
ghost use Rattle.hz_machine.specs.Tests.{test_of};
ghost use Rattle.hz_machine.specs.Kept.{world_of};
ghost use Rattle.hz_machine.specs.Effects.{TakesStep};

use crate::act::Act;
use crate::effects;
use crate::frame::Frame;
use crate::kept::Kept;
use hz_operators::{Content, strictly_equal, to_boolean};
use hz_ops::{Operand, tested};

/// Jump.
pub(crate) fn jump(kept: &mut Kept, frame: &mut Frame, operands: &[Operand]) -> Act
    requires { (frame.old).place < 2 ^ 63 }
    ensures { TakesStep result frame.new kept.new
        (λ lines. tested_to frame.old (world_of lines kept.old) (tested.way operands.now)
        (jumps frame.old (world_of lines kept.old))) }
{
    let Some(way) = tested::way(operands) else {
        return Act::Bad;
    };
    effects::jump(kept, frame, way)
}

/// What a jump asks of a value.
#[derive(Clone, Copy, Debug, PartialEq, Eq)]
pub enum Test {
    True,
    False,
    Nullish,
    Undefined,
}

/// Whether the value is so.
fn holds(test: Test, content: &Content<'_>) -> bool
    ensures { result ≡ test_of test (seen content.now) }
{
    match test {
        Test::True => to_boolean(content),
        Test::False => !to_boolean(content),
        Test::Nullish => matches!(content, Content::Undefined | Content::Null),
        Test::Undefined => matches!(content, Content::Undefined),
    }
}

/// JumpTrue and its kin.
pub(crate) fn branch(
    kept: &mut Kept,
    frame: &mut Frame,
    next: u64,
    operands: &[Operand],
    test: Test,
) -> Act
    requires { (frame.old).place < 2 ^ 63 }
    ensures { TakesStep result frame.new kept.new
        (λ lines. branch_row (test_of test) next frame.old (world_of lines kept.old) operands.now) }
{
    let Some(o) = tested::branch(frame.held(), operands) else {
        return Act::Bad;
    };
    let holds = holds(test, &kept.content(o.value));
    effects::branch(kept, frame, next, holds, o.way)
}

/// JumpIs.
pub(crate) fn jump_is(kept: &mut Kept, frame: &mut Frame, next: u64, operands: &[Operand]) -> Act
    requires { (frame.old).place < 2 ^ 63 }
    ensures { TakesStep result frame.new kept.new
        (λ lines. jump_is next frame.old (world_of lines kept.old) operands.now) }
{
    let Some(o) = tested::branch_at(frame.held(), operands) else {
        return Act::Bad;
    };
    let is = strictly_equal(&kept.content(o.value), &Content::Number(o.integer));
    effects::branch(kept, frame, next, is, o.way)
}
