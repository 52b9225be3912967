// The scripts that are measured, as code. Register 0 counts the rounds, and register 1 has their number.
use hz_machine_tests::Script;
use hz_ops::{Instr, Op, Operand, fits, push_instr};
use hz_value::{Memory, Units};
use std::alloc::Global;

/// A register as an operand.
fn reg(number: u64) -> Operand {
    Operand::Register(number)
}

/// Puts the instruction behind the code, where its operands fit.
fn push(code: &mut Vec<u8>, op: Op, operands: &[Operand]) -> Result<(), Memory> {
    if operands.len() > 5 {
        return Ok(());
    }
    let instr = Instr::shortest(op, operands);
    if fits(&instr) {
        push_instr(code, &instr)?;
    }
    Ok(())
}

/// The way of a jump back from one place of a short code to another, 0 where it is none.
fn way_back(from: usize, to: usize) -> i64 {
    if to > from || from - to > 1000 {
        return 0;
    }
    -((from - to) as i64)
}

/// Behind the body the count rises, and where it is less than the number of rounds the body follows again.
fn end_round(code: &mut Vec<u8>, body: usize) -> Result<(), Memory> {
    push(code, Op::Inc, &[reg(0), reg(0)])?;
    push(code, Op::Less, &[reg(2), reg(0), reg(1)])?;
    let way = way_back(code.len(), body);
    push(code, Op::JumpTrue, &[reg(2), Operand::Jump(way)])?;
    push(code, Op::Return, &[reg(0)])
}

/// The rounds begin at 0.
fn begin_rounds(code: &mut Vec<u8>, rounds: u32) -> Result<(), Memory> {
    push(code, Op::LoadInt, &[reg(0), Operand::Int(0)])?;
    push(code, Op::LoadInt, &[reg(1), Operand::Int(rounds as i64)])?;
    push(code, Op::LoadInt, &[reg(3), Operand::Int(0)])
}

/// A round adds the count to a sum.
fn adding(code: &mut Vec<u8>) -> Result<(), Memory> {
    push(code, Op::And, &[reg(4), reg(0), reg(1)])?;
    push(code, Op::Add, &[reg(3), reg(4), reg(0)])
}

/// A round joins a text and the count, and compares the text with another one.
fn joining(code: &mut Vec<u8>) -> Result<(), Memory> {
    push(code, Op::LoadString, &[reg(3), Operand::Text(0)])?;
    push(code, Op::Add, &[reg(4), reg(3), reg(0)])?;
    push(code, Op::StrictEqual, &[reg(5), reg(4), reg(3)])
}

/// A round loads a text, and joins it with another one to a text that is met each time.
fn repeating(code: &mut Vec<u8>) -> Result<(), Memory> {
    push(code, Op::LoadString, &[reg(3), Operand::Text(0)])?;
    push(code, Op::LoadString, &[reg(4), Operand::Text(1)])?;
    push(code, Op::Add, &[reg(5), reg(3), reg(4)])
}

/// A round adds the count to a global.
fn summing(code: &mut Vec<u8>) -> Result<(), Memory> {
    push(code, Op::DeclareGlobal, &[Operand::Text(1)])?;
    push(code, Op::StoreGlobal, &[Operand::Text(1), reg(0)])?;
    push(code, Op::LoadGlobal, &[reg(3), Operand::Text(1)])?;
    push(code, Op::CheckInit, &[reg(3), Operand::Text(1)])
}

/// What a round does, by the name of the shape; nothing under another name.
fn body_of(code: &mut Vec<u8>, shape: &str) -> Result<(), Memory> {
    match shape {
        "loop" => adding(code),
        "texts" => joining(code),
        "repeated" => repeating(code),
        "globals" => summing(code),
        _ => Ok(()),
    }
}

fn units(alloc: Global, text: &str) -> Result<Vec<u16>, Memory> {
    Ok(Units::from_bytes(alloc, text.as_bytes())?.into_vec())
}

/// The script of this shape over so many rounds.
pub(crate) fn script_of(alloc: Global, shape: &str, rounds: u32) -> Result<Script, Memory> {
    let mut code = Vec::new(alloc);
    begin_rounds(&mut code, rounds)?;
    let body = code.len();
    body_of(&mut code, shape)?;
    end_round(&mut code, body)?;
    let mut texts = Vec::new(alloc);
    texts.push(units(alloc, "a text of some units: ")?)?;
    texts.push(units(alloc, "count")?)?;
    Ok(Script {
        code,
        registers: 6,
        handlers: Vec::new(alloc),
        texts,
    })
}
