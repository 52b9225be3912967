// Built-in functions: `print`, `readline`, and Function.prototype, which does nothing.
ghost use Rattle.std.specs.Prelude.{◌≡◌, ◌+◌, ◌<◌, ◌^◌, ◌==◌, ◌++◌, Some, None, IfOk, IsTrue, false, is_none, drop, length};
ghost use Rattle.std.specs.List.{join_with_byte};
ghost use Rattle.hz_value.specs.operators.Conversions.{to_text};
ghost use Rattle.hz_value.specs.world.Store.{content_of};
ghost use Rattle.hz_value.specs.world.World.{World};
ghost use Rattle.hz_value.specs.system.Routines.{text_or_empty, print_argument, print_step, readline_step, routine_step, at_next};
ghost use Rattle.hz_operators.specs.Outcomes.{content_of as seen};
ghost use Rattle.hz_machine.specs.Kept.{store_of, world_of};
ghost use Rattle.hz_machine.specs.Routines.{texts_of, HasText, FollowsRoutine, next_of_routine, wants_line};

use crate::errors::Cause;
use crate::frame::Reply;
use crate::kept::Kept;
use hz_operators::{Content, Halt, push_text};
use hz_value::{Left, Memory, Value};
use std::alloc::Global;
use std::marker::Model;

/// The number of the routine of `print`.
const PRINT: u64 = 1;

/// The number of the routine of `readline`.
pub(crate) const READLINE: u64 = 2;

/// The activation of a built-in function: its routine, the place in its steps, `this` with the arguments, and what
/// came back to it last.
#[derive(Debug, Drop)]
pub struct Routine {
    pub(crate) routine: u64,
    pub(crate) place: u64,
    pub(crate) values: Vec<Value>,
    pub(crate) reply: Option<Reply>,
}

impl Model for Routine {
    ghost use Rattle.std.specs.Prelude.{option_map};
    ghost use Rattle.hz_value.specs.system.Routines.{RoutineActivation};
    ghost use Rattle.hz_machine.specs.Frames.{reply_of};

    ghost Value = { RoutineActivation };

    ghost view = { λ r. record {
      routine = r.routine;
      place = r.place;
      values = r.values.items;
      reply = option_map reply_of r.reply;
    } };
}

impl Routine {
    ghost use Rattle.std.specs.Prelude.{◌≡◌, ◌+◌, ◌<◌, ◌^◌, IfSome, drop, slice_get};
    ghost use Rattle.hz_machine.specs.Routines.{wants_line};

    /// Goes on with the next argument.
    fn advance(&mut self)
        requires { (self.old).place + 1 < 2 ^ 64 }
        ensures { self.new ≡ at_next self.old }
    {
        self.place += 1;
        self.reply = None;
    }

    /// Whether it asks for a line: it is `readline`, and none came back yet.
    pub(crate) fn wants_line(&self) -> bool
        ensures { result ≡ wants_line self.now }
    {
        self.routine == READLINE && self.reply.is_none()
    }

    /// The number of the routine.
    fn number(&self) -> u64
        ensures { result ≡ (self.now).routine }
    {
        self.routine
    }

    /// The arguments.
    fn arguments(&self) -> &[Value]
        ensures { result.now ≡ drop 1 (self.now).values }
    {
        match self.values.as_slice() {
            [_, arguments @ ..] => arguments,
            [] => &[],
        }
    }

    /// The argument in hand.
    fn argument(&self) -> Option<Value>
        ensures value { result ≡ slice_get (drop 1 (self.now).values) (self.now).place }
        ensures bound { IfSome result (λ v. (self.now).place + 1 < 2 ^ 64) }
    {
        self.arguments().get(self.place as usize).copied()
    }
}

/// What a step of a routine asks of the machine.
#[derive(Debug, Drop)]
pub(crate) enum RoutineAct {
    Go,
    Print(Vec<u16>),
    Return(Value),
    Throw(Value),
    Leave(Left),
}

/// Puts the text of a value behind the line, where it has one.
fn push_or_nothing(alloc: Global, line: &mut Vec<u16>, content: &Content<'_>) -> Result<(), Memory>
    ensures { IfOk result
        (λ _. line.new.items ≡ line.old.items ++ text_or_empty (to_text (seen content.now))) }
{
    match content {
        Content::Symbol(_) | Content::Object(_) => Ok(()),
        _ => match push_text(alloc, line, content) {
            Ok(()) => Ok(()),
            Err(_) => Err(Memory),
        },
    }
}

/// The line that `print` prints of these arguments: their texts with a space between each two.
fn line_of(kept: &Kept, arguments: &[Value]) -> Result<Vec<u16>, Memory>
    ensures { IfOk result (λ line. line.items
        ≡ join_with_byte 32 (texts_of (store_of kept.now) arguments.now)) }
{
    let mut line = Vec::new(kept.alloc);
    let [first, rest @ ..] = arguments else {
        return Ok(line);
    };
    push_or_nothing(kept.alloc, &mut line, &kept.content(*first))?;
    for value in rest {
        line.push(32)?;
        push_or_nothing(kept.alloc, &mut line, &kept.content(*value))?;
    }
    Ok(line)
}

/// Whether the value becomes a text.
fn expect_text(content: &Content<'_>) -> Result<(), Halt>
    ensures { HasText result (to_text (seen content.now)) }
{
    match content {
        Content::Symbol(_) => Err(Halt::Symbol),
        Content::Object(_) => Err(Halt::Leaves(Left::NotBuilt)),
        Content::Undefined
        | Content::Null
        | Content::Boolean(_)
        | Content::Number(_)
        | Content::Text(_) => Ok(()),
    }
}

/// The argument in hand is converted.
#[tactic(auto, using(crate::proofs::Making::raised_is, crate::proofs::Making::error_is))]
fn convert(kept: &mut Kept, routine: &mut Routine, value: Value) -> Result<RoutineAct, Memory>
    requires { (routine.old).place + 1 < 2 ^ 64 }
    ensures { FollowsRoutine result routine.new kept.new
        (λ lines. print_argument 0 routine.old (world_of lines kept.old) (Some value)) }
{
    match expect_text(&kept.content(value)) {
        Ok(()) => {
            routine.advance();
            Ok(RoutineAct::Go)
        }
        Err(Halt::Symbol) => {
            let error = kept.make_error(&Cause::SymbolConversion)?;
            Ok(RoutineAct::Throw(error))
        }
        Err(Halt::Leaves(reason)) => Ok(RoutineAct::Leave(reason)),
    }
}

/// Whether the line is to be printed: the place is that behind the last argument.
fn is_last(routine: &Routine) -> bool
    ensures value { result ≡ ((routine.now).place + 1 == length (routine.now).values) }
    ensures bound { IsTrue result → (routine.now).place + 1 < 2 ^ 64 }
{
    let length = routine.values.len() as u64;
    length > 0 && routine.place == length - 1
}

/// Behind the last argument the line is printed, and then undefined is returned.
fn finish(kept: &Kept, routine: &mut Routine) -> Result<RoutineAct, Memory>
    ensures { FollowsRoutine result routine.new kept.now
        (λ lines. print_argument 0 routine.old (world_of lines kept.now) None) }
{
    if !is_last(routine) {
        return Ok(RoutineAct::Return(Value::Undefined));
    }
    let line = line_of(kept, routine.arguments())?;
    routine.advance();
    Ok(RoutineAct::Print(line))
}

/// One step of `print`: its arguments are converted from left to right, then the line is printed.
fn print_step(kept: &mut Kept, routine: &mut Routine) -> Result<RoutineAct, Memory>
    ensures { FollowsRoutine result routine.new kept.new
        (λ lines. print_step 0 routine.old (world_of lines kept.old)) }
{
    match routine.argument() {
        Some(value) => convert(kept, routine, value),
        None => finish(kept, routine),
    }
}

/// One step of `readline` behind its line: it ends with what came back.
fn readline_step(routine: &Routine) -> RoutineAct
    requires { is_none (routine.now).reply ≡ false }
    ensures { (w : World) → next_of_routine result routine.now w ≡ readline_step routine.now w }
{
    match routine.reply {
        Some(Reply::Normal(value)) => RoutineAct::Return(value),
        Some(Reply::Thrown(value)) => RoutineAct::Throw(value),
        None => unreachable!(),
    }
}

/// One step of a routine that asks for no line.
pub(crate) fn routine_step(kept: &mut Kept, routine: &mut Routine) -> Result<RoutineAct, Memory>
    requires { wants_line routine.old ≡ false }
    ensures { FollowsRoutine result routine.new kept.new
        (λ lines. routine_step 0 routine.old (world_of lines kept.old)) }
{
    match routine.number() {
        PRINT => print_step(kept, routine),
        READLINE => Ok(readline_step(routine)),
        _ => Ok(RoutineAct::Return(Value::Undefined)),
    }
}
