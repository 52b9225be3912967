// The machine.
ghost use Rattle.std.specs.Prelude.{◌≡◌, ◌<◌, ◌∷◌, List, None, Some, IfOk, false};
ghost use Rattle.hz_value.specs.declared.values.Value.{Value as AnyValue};
ghost use Rattle.hz_ops.specs.code.Activations.{Program};
ghost use Rattle.hz_machine.specs.declared.machine.Answer.TheVariants as answer;
ghost use Rattle.hz_machine.specs.declared.machine.Status.TheVariants as mode;
ghost use Rattle.hz_machine.specs.Machines.{IsNoCall, Acts, Proceeds, Steps, machine_of, script_moved, routine_moved, called, routine_number};
ghost use Rattle.hz_machine.specs.Routines.{wants_line};

use crate::act::Act;
use crate::code::Code;
use crate::descriptions::describe;
use crate::errors::Cause;
use crate::frame::{Frame, Reply};
use crate::input::give_line;
use crate::kept::Kept;
use crate::routine::{READLINE, Routine, RoutineAct, routine_step};
use crate::start::{first_frame, first_world};
use crate::steps::code_step;
use hz_value::{Left, Memory, Units, Value};
use std::alloc::Global;
use std::marker::Model;

/// How a run ends.
#[derive(Clone, Copy, Debug, PartialEq, Eq)]
pub enum Ending {
    /// The script returned.
    Done,
    /// Nobody caught the value.
    Uncaught(Value),
    /// The run was left.
    Left(Left),
    /// No turn was left.
    TurnsSpent,
    /// The code means nothing.
    BadCode,
}

/// What comes of a step.
#[derive(Debug, Drop)]
pub enum Answer {
    /// The run goes on.
    Go,
    /// The function with this number is entered next, and has no code.
    Need(u32),
    /// A line was printed, which stands here without its newline.
    Print(Units),
    /// The next line of the input is wanted.
    WantLine,
    /// The run has ended.
    Ended(Ending),
    /// Memory ran out.
    Memory,
}

/// Whether the run goes on, and what it waits for.
#[derive(Clone, Copy, Debug, PartialEq, Eq)]
pub enum Status {
    Running,
    /// A line of the input was asked for.
    Waiting,
    Ended(Ending),
    /// Memory ran out.
    Failed,
}

/// A run of code. Contracts see it as the state of the system, with whether it waits for a line, whether it was told
/// that no line is left, and whether memory ran out.
#[derive(Debug, Drop)]
pub struct Machine {
    kept: Kept,
    frame: Frame,
    routine: Option<Routine>,
    status: Status,
    at_end: bool,
}

impl Model for Machine {
    ghost use Rattle.hz_machine.specs.Machines.{MachineState, machine_of};

    ghost Value = { MachineState };

    ghost view = { λ m. record { run = machine_of m.kept m.frame m.routine m.status; at_end = m.at_end } };
}

/// How many calls may be active.
const MAX_CALLS: u64 = 10000;

/// The run ends so.
fn end(status: &mut Status, ending: &Ending) -> Answer
    ensures answer { result ≡ answer.Ended ending.now }
    ensures status { status.new ≡ mode.Ended ending.now }
{
    *status = Status::Ended(*ending);
    Answer::Ended(*ending)
}

/// Does an act of the script that is no call.
fn script_acted(kept: &mut Kept, frame: &Frame, status: &mut Status, act: &Act) -> Answer
    requires running { status.old ≡ mode.Running }
    requires kind { IsNoCall act.now }
    ensures { Acts (script_moved kept.old frame.now act.now) result
        (machine_of kept.new frame.now None status.new) }
{
    match act {
        Act::Go | Act::Turn => Answer::Go,
        Act::Return(_) => end(status, &Ending::Done),
        Act::Throw(value) => end(status, &Ending::Uncaught(*value)),
        Act::Spent => end(status, &Ending::TurnsSpent),
        Act::Leave(reason) => end(status, &Ending::Left(*reason)),
        Act::Bad => end(status, &Ending::BadCode),
        Act::Call(..) => unreachable!(),
    }
}

/// The routine of a built-in function; None where the callee is no function.
fn routine_number(callee: &Value) -> Option<u64>
    ensures { result ≡ routine_number callee.now }
{
    match callee {
        Value::Object(1) => Some(0),
        Value::Object(6) => Some(1),
        _ => None,
    }
}

/// `this`, and the arguments behind it.
fn values_of(alloc: Global, this: Value, arguments: &[Value]) -> Result<Vec<Value>, Memory>
    ensures { IfOk result (λ values. values.items ≡ this ∷ arguments.now) }
{
    let mut values = Vec::new(alloc);
    values.push(this)?;
    values.extend_from_slice(arguments)?;
    Ok(values)
}

/// The callee is no function: an error is thrown at the call.
#[tactic(auto, using(crate::proofs::Making::raised_is, crate::proofs::Making::error_is))]
fn refuse_call(
    kept: &mut Kept,
    frame: &mut Frame,
    this: Value,
    arguments: &[Value],
) -> Result<Answer, Memory>
    ensures { IfOk result (λ a. Acts (called kept.old frame.old this arguments.now None) a
        (machine_of kept.new frame.new None mode.Running)) }
{
    let error = kept.make_error(&Cause::NotFunction)?;
    frame.answer(Reply::Thrown(error));
    Ok(Answer::Go)
}

/// The built-in function is entered: a turn is taken, and one call more is active.
fn enter(
    kept: &mut Kept,
    frame: &Frame,
    routine: &mut Option<Routine>,
    status: &mut Status,
    number: u64,
    values: Vec<Value>,
) -> Answer
    requires none { routine.old ≡ None }
    requires running { status.old ≡ mode.Running }
    ensures { (this : AnyValue) (arguments : List AnyValue) → values.items ≡ this ∷ arguments
        → Acts (called kept.old frame.now this arguments (Some number)) result
        (machine_of kept.new frame.now routine.new status.new) }
{
    if kept.turns == 0 {
        return end(status, &Ending::TurnsSpent);
    }
    kept.turns -= 1;
    if kept.calls >= MAX_CALLS {
        return end(status, &Ending::Left(Left::TooDeep));
    }
    kept.calls += 1;
    *routine = Some(Routine {
        routine: number,
        place: 0,
        values,
        reply: None,
    });
    Answer::Go
}

/// The script calls a value.
fn call(
    kept: &mut Kept,
    frame: &mut Frame,
    routine: &mut Option<Routine>,
    status: &mut Status,
    callee: &Value,
    this: Value,
    arguments: &[Value],
) -> Result<Answer, Memory>
    requires none { routine.old ≡ None }
    requires running { status.old ≡ mode.Running }
    ensures { IfOk result (λ a. Acts (called kept.old frame.old this arguments.now (routine_number callee.now)) a
        (machine_of kept.new frame.new routine.new status.new)) }
{
    let Some(number) = routine_number(callee) else {
        return refuse_call(kept, frame, this, arguments);
    };
    let values = values_of(kept.alloc, this, arguments)?;
    Ok(enter(kept, frame, routine, status, number, values))
}

/// Does an act of the script.
#[tactic(auto, using(crate::proofs::Stepping::call_acts))]
fn act_of_script(
    kept: &mut Kept,
    frame: &mut Frame,
    routine: &mut Option<Routine>,
    status: &mut Status,
    act: &Act,
) -> Result<Answer, Memory>
    requires none { routine.old ≡ None }
    requires running { status.old ≡ mode.Running }
    ensures { IfOk result (λ a. Acts (script_moved kept.old frame.old act.now) a
        (machine_of kept.new frame.new routine.new status.new)) }
{
    match act {
        Act::Call(callee, this, arguments) => {
            call(
                kept,
                frame,
                routine,
                status,
                callee,
                *this,
                arguments.as_slice(),
            )
        }
        _ => Ok(script_acted(kept, frame, status, act)),
    }
}

/// A step of the script.
#[tactic(auto, using(crate::proofs::Stepping::script_steps))]
fn script_step<C: Code>(
    kept: &mut Kept,
    frame: &mut Frame,
    routine: &mut Option<Routine>,
    status: &mut Status,
    code: &C,
) -> Result<Answer, Memory>
    requires none { routine.old ≡ None }
    requires running { status.old ≡ mode.Running }
    requires script { 0 < (C.program code.now).count }
    ensures { IfOk result (λ a. Steps (C.program code.now) (machine_of kept.old frame.old None mode.Running) a
        (machine_of kept.new frame.new routine.new status.new)) }
{
    let act = code_step(kept, frame, code)?;
    act_of_script(kept, frame, routine, status, &act)
}

/// Does an act of the built-in function that the script called.
fn act_of_routine(
    kept: &mut Kept,
    frame: &mut Frame,
    routine: &mut Option<Routine>,
    status: &mut Status,
    called: Routine,
    act: RoutineAct,
) -> Answer
    requires none { routine.old ≡ None }
    requires running { status.old ≡ mode.Running }
    ensures { Acts (routine_moved kept.old frame.old called act) result
        (machine_of kept.new frame.new routine.new status.new) }
{
    match act {
        RoutineAct::Go => {
            *routine = Some(called);
            Answer::Go
        }
        RoutineAct::Print(line) => {
            *routine = Some(called);
            Answer::Print(Units::from_vec(line))
        }
        RoutineAct::Return(value) => {
            kept.calls = kept.calls.saturating_sub(1);
            frame.answer(Reply::Normal(value));
            Answer::Go
        }
        RoutineAct::Throw(value) => {
            kept.calls = kept.calls.saturating_sub(1);
            frame.answer(Reply::Thrown(value));
            Answer::Go
        }
        RoutineAct::Leave(reason) => end(status, &Ending::Left(reason)),
    }
}

/// A step of the built-in function that the script called.
fn called_step(
    kept: &mut Kept,
    frame: &mut Frame,
    routine: &mut Option<Routine>,
    status: &mut Status,
    called: Routine,
) -> Result<Answer, Memory>
    requires none { routine.old ≡ None }
    requires running { status.old ≡ mode.Running }
    requires asks { wants_line called ≡ false }
    ensures { (p : Program)
        → IfOk result (λ a. Steps p (machine_of kept.old frame.old (Some called) mode.Running) a
        (machine_of kept.new frame.new routine.new status.new)) }
{
    let mut called = called;
    let act = routine_step(kept, &mut called)?;
    Ok(act_of_routine(kept, frame, routine, status, called, act))
}

/// A step of the built-in function that the script called, or its wish for a line.
fn routine_goes(
    kept: &mut Kept,
    frame: &mut Frame,
    routine: &mut Option<Routine>,
    status: &mut Status,
    called: Routine,
) -> Result<Answer, Memory>
    requires none { routine.old ≡ None }
    requires running { status.old ≡ mode.Running }
    ensures { (p : Program)
        → IfOk result (λ a. Proceeds p (machine_of kept.old frame.old (Some called) mode.Running) a
        (machine_of kept.new frame.new routine.new status.new)) }
{
    if called.wants_line() {
        *routine = Some(called);
        *status = Status::Waiting;
        return Ok(Answer::WantLine);
    }
    called_step(kept, frame, routine, status, called)
}

/// A step of a run that has not ended.
fn run_step<C: Code>(
    kept: &mut Kept,
    frame: &mut Frame,
    routine: &mut Option<Routine>,
    status: &mut Status,
    code: &C,
) -> Result<Answer, Memory>
    requires running { status.old ≡ mode.Running }
    requires script { 0 < (C.program code.now).count }
    ensures { IfOk result (λ a. Proceeds (C.program code.now)
        (machine_of kept.old frame.old routine.old mode.Running) a
        (machine_of kept.new frame.new routine.new status.new)) }
{
    match routine.take() {
        Some(called) => routine_goes(kept, frame, routine, status, called),
        None => script_step(kept, frame, routine, status, code),
    }
}

impl Machine {
    ghost use Rattle.std.specs.Prelude.{◌≡◌, ◌<◌, None, true, false, IfOk, OnOk, OnErr, IsOk};
    ghost use Rattle.hz_value.specs.declared.leaving.Left.TheVariants.{LongLine};
    ghost use Rattle.hz_value.specs.world.Descriptions.{describe};
    ghost use Rattle.hz_machine.specs.Kept.{store_of};
    ghost use Rattle.hz_machine.specs.Machines.{Answers, Leaves, Reads, Starts, StartsReading};

    /// One step of the run, which is one step of the system over the code. `Go`: the run goes on. `Print`: so it does,
    /// and this line was printed. `WantLine`: exactly where the step asks for a line of the input; it is taken by `line`
    /// or `leave`, and until then each step answers the same. `Ended`: the run has ended so; each further step answers
    /// the same. `Memory`: memory ran out; so each further step answers. `Need` never comes: no function but the script
    /// is entered.
    pub fn step<C: Code>(&mut self, code: &C) -> Answer
        requires { 0 < (C.program code.now).count }
        ensures { Answers (C.program code.now) self.old result self.new }
    {
        match &self.status {
            Status::Failed => return Answer::Memory,
            Status::Ended(ending) => return Answer::Ended(*ending),
            Status::Waiting => return Answer::WantLine,
            Status::Running => {}
        }
        match run_step(
            &mut self.kept,
            &mut self.frame,
            &mut self.routine,
            &mut self.status,
            code,
        ) {
            Ok(answer) => answer,
            Err(_) => {
                self.status = Status::Failed;
                Answer::Memory
            }
        }
    }

    /// The next line of the input without its newline, in UTF-16 units, or None where no line is left. This is the step
    /// of the system that asks for a line. With None it takes no memory and succeeds. After `Memory` each step answers
    /// `Memory`.
    pub fn line(&mut self, text: Option<Units>) -> Result<(), Memory>
        requires waits { (self.old).run.waits ≡ true }
        requires end { (self.old).at_end ≡ true → text ≡ None }
        ensures ok { OnOk result (Reads text self.old self.new) }
        ensures none { text ≡ None → IsOk result }
        ensures err { OnErr result ((self.new).run.failed ≡ true) }
    {
        let at_end = text.is_none();
        match give_line(&mut self.kept, &mut self.routine, text) {
            Ok(()) => {
                self.status = Status::Running;
                self.at_end = at_end;
                Ok(())
            }
            Err(error) => {
                self.status = Status::Failed;
                Err(error)
            }
        }
    }

    /// The run is left for this reason: the next line of the input is too long. This is the step of the system that asks
    /// for a line. No memory is taken.
    pub fn leave(&mut self, reason: Left)
        requires waits { (self.old).run.waits ≡ true }
        requires end { (self.old).at_end ≡ false }
        requires reason { reason ≡ LongLine }
        ensures { Leaves self.old self.new }
    {
        self.status = Status::Ended(Ending::Left(reason));
    }

    /// The start of a run of this code, with so many turns. After Memory there is none.
    pub fn start<C: Code>(alloc: Global, code: &C, turns: u64) -> Result<Machine, Memory>
        requires { 0 < (C.program code.now).count }
        ensures { IfOk result (λ m. Starts (C.program code.now) turns m) }
    {
        let kept = first_world(alloc, turns)?;
        let frame = first_frame(alloc, code)?;
        Ok(Machine {
            kept,
            frame,
            routine: None,
            status: Status::Running,
            at_end: false,
        })
    }

    /// The start of such a run whose script has called `readline`: no object of the start is that function. The first
    /// step asks for a line. After Memory there is none.
    pub fn start_reading<C: Code>(alloc: Global, code: &C, turns: u64) -> Result<Machine, Memory>
        requires { 0 < (C.program code.now).count }
        ensures { IfOk result (λ m. StartsReading (C.program code.now) turns m) }
    {
        let mut kept = first_world(alloc, turns)?;
        let frame = first_frame(alloc, code)?;
        kept.calls = 1;
        let reading = Routine {
            routine: READLINE,
            place: 0,
            values: values_of(alloc, Value::Undefined, &[])?,
            reply: None,
        };
        Ok(Machine {
            kept,
            frame,
            routine: Some(reading),
            status: Status::Running,
            at_end: false,
        })
    }

    /// What is told of a value that nobody caught. No code of the script runs for it.
    pub fn describe(&self, alloc: Global, value: &Value) -> Result<Units, Memory>
        ensures { IfOk result (λ text. text ≡ describe (store_of (self.now).run.kept) value.now) }
    {
        let text = describe(&self.kept, alloc, value)?;
        Ok(Units::from_vec(text))
    }

    /// The turns that the run has left.
    pub fn turns_left(&self) -> u64
        ensures { result ≡ (self.now).run.kept.turns }
    {
        self.kept.turns
    }
}
