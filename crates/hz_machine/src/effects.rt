// What rows do behind the tests of their operands.
ghost use Rattle.std.specs.Prelude.{◌≡◌, ◌<◌, ◌^◌, ℕ, Bool, List, IfOk};
ghost use Rattle.hz_value.specs.operators.Computed.{Computed, Gives, and_then};
ghost use Rattle.hz_value.specs.operators.Contents.{Content, Boolean, Number, Text};
ghost use Rattle.hz_value.specs.world.World.{Line};
ghost use Rattle.hz_operators.specs.Outcomes.{Means, MeansText};
ghost use Rattle.hz_operators.specs.Sums.{sum_content};
ghost use Rattle.hz_ops.specs.code.Effects.{raises, puts_content, gives, lands_at, jumps, branches};
ghost use Rattle.hz_value.specs.system.Acts.{take_turn};
ghost use Rattle.hz_ops.specs.code.Activations.{Activation, at};
ghost use Rattle.hz_machine.specs.Errors.{message_of};
ghost use Rattle.hz_machine.specs.Kept.{world_of};
ghost use Rattle.hz_machine.specs.Frames.{next_of};
ghost use Rattle.hz_machine.specs.Effects.{Follows, Stops, StopsText, TakesStep};

use crate::act::Act;
use crate::errors::Cause;
use crate::frame::Frame;
use crate::kept::Kept;
use hz_operators::{Halt, TextHalt};
use hz_ops::Held;
use hz_value::{Memory, Safe, Value};

/// Makes an error and throws it.
#[tactic(auto, using(crate::proofs::Making::raised_is, crate::proofs::Making::error_is))]
pub(crate) fn raise(kept: &mut Kept, cause: &Cause<'_>) -> Result<Act, Memory>
    ensures { IfOk result (λ act. (a : Activation) (lines : List Line)
        → next_of act a (world_of lines kept.new) ≡ raises a (world_of lines kept.old) (message_of cause.now)) }
{
    let error = kept.make_error(cause)?;
    Ok(Act::Throw(error))
}

/// A conversion or an operator had no result.
pub(crate) fn stop(kept: &mut Kept, cause: Halt) -> Result<Act, Memory>
    ensures { IfOk result (λ act. Stops act cause kept.old kept.new) }
{
    match cause {
        Halt::Symbol => raise(kept, &Cause::SymbolConversion),
        Halt::Leaves(reason) => Ok(Act::Leave(reason)),
    }
}

/// One that makes a text gave none.
fn stop_text(kept: &mut Kept, cause: TextHalt) -> Result<Act, Memory>
    ensures { IfOk result (λ act. StopsText act cause kept.old kept.new) }
{
    match cause {
        TextHalt::Halt(cause) => stop(kept, cause),
        TextHalt::Memory => Err(Memory),
    }
}

/// The register gets a number.
pub(crate) fn give_number(
    kept: &mut Kept,
    frame: &mut Frame,
    next: u64,
    to: u64,
    found: Result<Safe, Halt>,
) -> Result<Act, Memory>
    ensures { (c : Computed Content) → Means Number found c → Follows result frame.new kept.new
        (λ lines. gives next frame.old (world_of lines kept.old) to c) }
{
    match found {
        Ok(number) => {
            frame.put(next, to, Held::Value(Value::Num(number)));
            Ok(Act::Go)
        }
        Err(cause) => stop(kept, cause),
    }
}

/// The register gets a boolean.
pub(crate) fn give_boolean(
    kept: &mut Kept,
    frame: &mut Frame,
    next: u64,
    to: u64,
    found: Result<bool, Halt>,
) -> Result<Act, Memory>
    ensures { (c : Computed Bool) → Means (λ b. b) found c → Follows result frame.new kept.new
        (λ lines. gives next frame.old (world_of lines kept.old) to (and_then c (λ b. Gives (Boolean b)))) }
{
    match found {
        Ok(value) => {
            frame.put(next, to, Held::Value(Value::Bool(value)));
            Ok(Act::Go)
        }
        Err(cause) => stop(kept, cause),
    }
}

/// The register gets a text.
pub(crate) fn put_text(
    kept: &mut Kept,
    frame: &mut Frame,
    next: u64,
    to: u64,
    text: Vec<u16>,
) -> Result<Act, Memory>
    ensures { Follows result frame.new kept.new
        (λ lines. puts_content next frame.old (world_of lines kept.old) to (Text text.items)) }
{
    let number = kept.texts.intern(text)?;
    frame.put(next, to, Held::Value(Value::Text(number)));
    Ok(Act::Go)
}

/// The register gets a text that is computed.
pub(crate) fn give_text(
    kept: &mut Kept,
    frame: &mut Frame,
    next: u64,
    to: u64,
    found: Result<Vec<u16>, TextHalt>,
) -> Result<Act, Memory>
    ensures { (c : Computed (List ℕ)) → MeansText (λ t. t.items) found c → Follows result frame.new kept.new
        (λ lines. gives next frame.old (world_of lines kept.old) to (and_then c (λ t. Gives (Text t)))) }
{
    match found {
        Ok(text) => put_text(kept, frame, next, to, text),
        Err(cause) => stop_text(kept, cause),
    }
}

/// The register gets what `+` gives: a number, or else the text.
pub(crate) fn give_sum(
    kept: &mut Kept,
    frame: &mut Frame,
    next: u64,
    to: u64,
    found: Result<Option<Safe>, TextHalt>,
    text: Vec<u16>,
) -> Result<Act, Memory>
    ensures { (c : Computed Content) → MeansText (λ number. sum_content number text.items) found c
        → Follows result frame.new kept.new
        (λ lines. gives next frame.old (world_of lines kept.old) to c) }
{
    match found {
        Ok(Some(number)) => {
            frame.put(next, to, Held::Value(Value::Num(number)));
            Ok(Act::Go)
        }
        Ok(None) => put_text(kept, frame, next, to, text),
        Err(cause) => stop_text(kept, cause),
    }
}

/// Goes on at a place that is not behind the instruction in hand, where a turn is left.
fn turn_to(kept: &mut Kept, frame: &mut Frame, place: u64) -> Act
    ensures { TakesStep result frame.new kept.new
        (λ lines. take_turn (at place frame.old) (world_of lines kept.old)) }
{
    frame.go(place);
    if kept.turns == 0 {
        return Act::Spent;
    }
    kept.turns -= 1;
    Act::Turn
}

/// Goes on at this place.
fn land_at(kept: &mut Kept, frame: &mut Frame, place: u64) -> Act
    ensures { TakesStep result frame.new kept.new (λ lines. lands_at frame.old (world_of lines kept.old) place) }
{
    if frame.place() < place {
        frame.go(place);
        return Act::Go;
    }
    turn_to(kept, frame, place)
}

/// Jumps so many bytes from the instruction in hand.
pub(crate) fn jump(kept: &mut Kept, frame: &mut Frame, way: i64) -> Act
    requires { (frame.old).place < 2 ^ 63 }
    ensures { TakesStep result frame.new kept.new (λ lines. jumps frame.old (world_of lines kept.old) way) }
{
    let place = frame.place() as i128 + way as i128;
    if place < 0 {
        return Act::Bad;
    }
    land_at(kept, frame, place as u64)
}

/// Jumps where the test holds.
pub(crate) fn branch(kept: &mut Kept, frame: &mut Frame, next: u64, holds: bool, way: i64) -> Act
    requires { (frame.old).place < 2 ^ 63 }
    ensures { TakesStep result frame.new kept.new
        (λ lines. branches holds next frame.old (world_of lines kept.old) way) }
{
    if holds {
        return jump(kept, frame, way);
    }
    frame.go(next);
    Act::Go
}
