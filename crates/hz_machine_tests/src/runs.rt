// Runs of scripts.
use crate::script::Script;
use hz_machine::{Answer, Ending, Machine};
use hz_ops::{Instr, Op, Operand, fits, push_instr};
use hz_value::{Memory, Units};
use std::alloc::Global;
use std::test::Fail;

/// How a run has ended.
fn ending(alloc: Global, machine: &Machine, ending: &Ending) -> Result<Vec<u16>, Memory> {
    match ending {
        Ending::Done => units(alloc, "done"),
        Ending::Uncaught(value) => Ok(machine.describe(alloc, value)?.into_vec()),
        Ending::Left(reason) => units(alloc, reason.name()),
        Ending::TurnsSpent => units(alloc, "turns spent"),
        Ending::BadCode => units(alloc, "bad code"),
    }
}

/// What a run prints, and how it ends.
pub(crate) fn told(alloc: Global, script: &Script, turns: u64) -> Result<String, Memory> {
    let mut machine = Machine::start(alloc, script, turns)?;
    let mut lines = Vec::new(alloc);
    for _ in 0..1000 {
        match machine.step(script) {
            Answer::Print(line) => {
                lines.extend_from_slice(line.as_slice())?;
                lines.push(10)?;
            }
            Answer::Ended(end) => {
                let text = ending(alloc, &machine, &end)?;
                lines.extend_from_slice(text.as_slice())?;
                break;
            }
            Answer::Memory => return Err(Memory),
            _ => {}
        }
    }
    Ok(String::from_utf16_lossy(alloc, lines.as_slice())?)
}

/// Puts the instruction behind the code, where its operands fit.
fn push(code: &mut Vec<u8>, op: Op, operands: &[Operand]) -> Result<(), Memory> {
    if operands.len() > 5 {
        return Ok(());
    }
    let instr = Instr::shortest(op, operands);
    if fits(&instr) {
        push_instr(code, &instr)?;
    }
    Ok(())
}

fn units(alloc: Global, text: &str) -> Result<Vec<u16>, Memory> {
    Ok(Units::from_bytes(alloc, text.as_bytes())?.into_vec())
}

/// Counts from 3 down to 0, and prints the count and a text.
fn counting(alloc: Global) -> Result<Script, Memory> {
    let mut code = Vec::new(alloc);
    push(
        &mut code,
        Op::LoadInt,
        &[Operand::Register(0), Operand::Int(3)],
    )?;
    push(
        &mut code,
        Op::Dec,
        &[Operand::Register(0), Operand::Register(0)],
    )?;
    push(
        &mut code,
        Op::JumpTrue,
        &[Operand::Register(0), Operand::Jump(-3)],
    )?;
    push(
        &mut code,
        Op::LoadGlobal,
        &[Operand::Register(1), Operand::Text(0)],
    )?;
    push(
        &mut code,
        Op::LoadString,
        &[Operand::Register(2), Operand::Text(1)],
    )?;
    push(
        &mut code,
        Op::Add,
        &[
            Operand::Register(2),
            Operand::Register(2),
            Operand::Register(0),
        ],
    )?;
    push(
        &mut code,
        Op::Call,
        &[
            Operand::Register(3),
            Operand::Register(1),
            Operand::Register(3),
            Operand::Register(2),
            Operand::Count(1),
        ],
    )?;
    push(
        &mut code,
        Op::LoadGlobal,
        &[Operand::Register(1), Operand::Text(1)],
    )?;
    push(&mut code, Op::Return, &[Operand::Register(3)])?;
    let mut texts = Vec::new(alloc);
    texts.push(units(alloc, "print")?)?;
    texts.push(units(alloc, "x")?)?;
    Ok(Script {
        code,
        registers: 4,
        handlers: Vec::new(alloc),
        texts,
    })
}

#[test]
fn counts_and_prints(rt: HostRuntime) -> Result<(), Fail> {
    let alloc = rt.alloc();
    let script = counting(alloc)?;
    let text = told(alloc, &script, 9)?;
    assert_eq!(rt; text.as_str(), "x0\nReferenceError: x is not defined");
    Ok(())
}

#[test]
fn no_turn_is_left(rt: HostRuntime) -> Result<(), Fail> {
    let alloc = rt.alloc();
    let script = counting(alloc)?;
    let text = told(alloc, &script, 1)?;
    assert_eq!(rt; text.as_str(), "turns spent");
    Ok(())
}

#[test]
fn no_turn_for_the_call(rt: HostRuntime) -> Result<(), Fail> {
    let alloc = rt.alloc();
    let script = counting(alloc)?;
    let text = told(alloc, &script, 2)?;
    assert_eq!(rt; text.as_str(), "turns spent");
    Ok(())
}

/// A script of these bytes, without texts and with two registers.
fn bytes(alloc: Global, bytes: &[u8]) -> Result<Script, Memory> {
    let mut code = Vec::new(alloc);
    code.extend_from_slice(bytes)?;
    Ok(Script {
        code,
        registers: 2,
        handlers: Vec::new(alloc),
        texts: Vec::new(alloc),
    })
}

#[test]
fn register_out_of_range(rt: HostRuntime) -> Result<(), Fail> {
    let alloc = rt.alloc();
    let text = told(alloc, &bytes(alloc, &[64, 2])?, 9)?;
    assert_eq!(rt; text.as_str(), "bad code");
    Ok(())
}

#[test]
fn undefined_less_undefined(rt: HostRuntime) -> Result<(), Fail> {
    let alloc = rt.alloc();
    let text = told(alloc, &bytes(alloc, &[28, 0, 0, 1, 64, 0])?, 9)?;
    assert_eq!(rt; text.as_str(), "NotSafe");
    Ok(())
}

#[test]
fn null_is_thrown(rt: HostRuntime) -> Result<(), Fail> {
    let alloc = rt.alloc();
    let text = told(alloc, &bytes(alloc, &[2, 1, 65, 1])?, 9)?;
    assert_eq!(rt; text.as_str(), "null");
    Ok(())
}

#[test]
fn null_is_called(rt: HostRuntime) -> Result<(), Fail> {
    let alloc = rt.alloc();
    let text = told(alloc, &bytes(alloc, &[2, 1, 83, 0, 1, 1, 1, 0])?, 0)?;
    assert_eq!(rt; text.as_str(), "TypeError: value is not a function");
    Ok(())
}
