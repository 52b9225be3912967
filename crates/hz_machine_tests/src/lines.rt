// Runs that ask for a line of the input.
use crate::script::Script;
use hz_machine::{Answer, Ending, Machine};
use hz_ops::{Instr, Op, Operand, fits, push_instr};
use hz_value::{Left, Memory, Units};
use std::alloc::Global;
use std::test::Fail;

/// Puts the instruction behind the code, where its operands fit.
fn push(code: &mut Vec<u8>, op: Op, operands: &[Operand]) -> Result<(), Memory> {
    if operands.len() > 5 {
        return Ok(());
    }
    let instr = Instr::shortest(op, operands);
    if fits(&instr) {
        push_instr(code, &instr)?;
    }
    Ok(())
}

/// A call with the result in this register: of the function in register 1, with one argument, the text of which stands
/// in register 0.
fn push_call(code: &mut Vec<u8>, to: u64) -> Result<(), Memory> {
    push(
        code,
        Op::Call,
        &[
            Operand::Register(to),
            Operand::Register(1),
            Operand::Register(2),
            Operand::Register(0),
            Operand::Count(1),
        ],
    )
}

/// A script whose first instruction is a call with the result in register 0, which it then prints.
fn printing(alloc: Global) -> Result<Script, Memory> {
    let mut code = Vec::new(alloc);
    push_call(&mut code, 0)?;
    push(
        &mut code,
        Op::LoadGlobal,
        &[Operand::Register(1), Operand::Text(0)],
    )?;
    push_call(&mut code, 2)?;
    push(&mut code, Op::Return, &[Operand::Register(2)])?;
    let mut texts = Vec::new(alloc);
    texts.push(Units::from_bytes(alloc, b"print")?.into_vec())?;
    Ok(Script {
        code,
        registers: 3,
        handlers: Vec::new(alloc),
        texts,
    })
}

/// What the run prints from here on, and how it ends.
fn told(alloc: Global, script: &Script, machine: &mut Machine) -> Result<String, Memory> {
    let mut lines = Vec::new(alloc);
    for _ in 0..20 {
        match machine.step(script) {
            Answer::Print(line) => {
                lines.extend_from_slice(line.as_slice())?;
                lines.push(10)?;
            }
            Answer::WantLine => {
                lines.push(63)?;
                break;
            }
            Answer::Ended(ending) => {
                let name = match ending {
                    Ending::Left(reason) => reason.name(),
                    Ending::Done => "done",
                    _ => "another ending",
                };
                let name = Units::from_bytes(alloc, name.as_bytes())?;
                lines.extend_from_slice(name.as_slice())?;
                break;
            }
            Answer::Memory => return Err(Memory),
            _ => {}
        }
    }
    Ok(String::from_utf16_lossy(alloc, lines.as_slice())?)
}

/// What a run prints that reads this line, or none, and how it ends.
fn read(alloc: Global, text: Option<&str>) -> Result<String, Memory> {
    let script = printing(alloc)?;
    let text = match text {
        Some(text) => Some(Units::from_bytes(alloc, text.as_bytes())?),
        None => None,
    };
    let mut machine = Machine::start_reading(alloc, &script, 9)?;
    let Answer::WantLine = machine.step(&script) else {
        return Ok(String::new(alloc));
    };
    if machine.line(text).is_err() {
        // memory ran out: so the next step answers
        return match machine.step(&script) {
            Answer::Memory => Err(Memory),
            _ => Ok(String::new(alloc)),
        };
    }
    told(alloc, &script, &mut machine)
}

/// What a run tells that is left where it asks for a line.
fn left(alloc: Global) -> Result<String, Memory> {
    let script = printing(alloc)?;
    let mut machine = Machine::start_reading(alloc, &script, 9)?;
    let Answer::WantLine = machine.step(&script) else {
        return Ok(String::new(alloc));
    };
    machine.leave(Left::LongLine);
    told(alloc, &script, &mut machine)
}

#[test]
fn a_line_is_read(rt: HostRuntime) -> Result<(), Fail> {
    let alloc = rt.alloc();
    let text = read(alloc, Some("a b"))?;
    assert_eq!(rt; text.as_str(), "a b\ndone");
    Ok(())
}

#[test]
fn an_empty_line_is_read(rt: HostRuntime) -> Result<(), Fail> {
    let alloc = rt.alloc();
    let text = read(alloc, Some(""))?;
    assert_eq!(rt; text.as_str(), "\ndone");
    Ok(())
}

#[test]
fn no_line_is_left(rt: HostRuntime) -> Result<(), Fail> {
    let alloc = rt.alloc();
    let text = read(alloc, None)?;
    assert_eq!(rt; text.as_str(), "undefined\ndone");
    Ok(())
}

#[test]
fn a_line_is_too_long(rt: HostRuntime) -> Result<(), Fail> {
    let alloc = rt.alloc();
    let text = left(alloc)?;
    assert_eq!(rt; text.as_str(), "LongLine");
    Ok(())
}

#[test]
fn a_run_waits(rt: HostRuntime) -> Result<(), Fail> {
    let alloc = rt.alloc();
    let script = printing(alloc)?;
    let mut machine = Machine::start_reading(alloc, &script, 9)?;
    let first = told(alloc, &script, &mut machine)?;
    assert_eq!(rt; first.as_str(), "?");
    let second = told(alloc, &script, &mut machine)?;
    assert_eq!(rt; second.as_str(), "?");
    Ok(())
}
