// The rules of bad code, on code that is written out by hand.
use crate::rows::script;
use crate::runs::told;
use hz_value::Memory;
use std::alloc::Global;
use std::test::Fail;

/// The first of these codes that does not tell this where no turn is left.
fn other(alloc: Global, cases: &[&[u8]], expected: &str) -> Result<Option<usize>, Memory> {
    for (number, bytes) in cases.iter().enumerate() {
        let text = told(alloc, &script(alloc, bytes, &[])?, 0)?;
        if text.as_str() != expected {
            return Ok(Some(number));
        }
    }
    Ok(None)
}

/// Register 6 is not there: written, read, named by a call, one of a row of arguments, and the first of none.
const REGISTERS: [&[u8]; 10] = [
    &[2, 6],
    &[8, 0, 6],
    &[27, 6, 0, 1],
    &[27, 0, 0, 6],
    &[64, 6],
    &[65, 6],
    &[59, 6, 4, 0],
    &[83, 0, 6, 1, 2, 0],
    &[83, 0, 1, 2, 4, 3],
    &[83, 0, 1, 2, 6, 0],
];

#[test]
fn register_is_not_there(rt: HostRuntime) -> Result<(), Fail> {
    assert_eq!(rt; other(rt.alloc(), &REGISTERS, "bad code")?, None);
    Ok(())
}

/// Text 3 is not there. The binding that is tested is initialised.
const NO_TEXT: [&[u8]; 7] = [
    &[7, 0, 3, 0],
    &[21, 0, 3, 0],
    &[22, 3, 0],
    &[23, 0, 3, 0],
    &[24, 0, 3, 0],
    &[25, 3, 0, 0],
    &[26, 3, 0],
];

#[test]
fn text_is_not_there(rt: HostRuntime) -> Result<(), Fail> {
    assert_eq!(rt; other(rt.alloc(), &NO_TEXT, "bad code")?, None);
    Ok(())
}

/// 2 to the power of 53, and its negation, in long forms: to load, and to jump at.
const NOT_SAFE: [&[u8]; 3] = [
    &[134, 0, 0, 0, 0, 0, 0, 0, 0, 0, 0, 0, 0, 0, 0, 32, 0],
    &[134, 0, 0, 0, 0, 0, 0, 0, 0, 0, 0, 0, 0, 0, 0, 224, 255],
    &[
        191, 0, 0, 0, 0, 0, 0, 0, 0, 0, 0, 0, 0, 0, 0, 32, 0, 25, 0, 0, 0, 0, 0, 0, 0,
    ],
];

#[test]
fn integer_is_not_safe(rt: HostRuntime) -> Result<(), Fail> {
    assert_eq!(rt; other(rt.alloc(), &NOT_SAFE, "bad code")?, None);
    Ok(())
}

/// Register 0 has the empty mark, where a value is asked for.
const NO_VALUE: [&[u8]; 9] = [
    &[5, 0, 25, 0, 0, 0],
    &[5, 0, 27, 1, 0, 1],
    &[5, 0, 43, 1, 0],
    &[5, 0, 51, 1, 1, 0],
    &[5, 0, 60, 0, 4, 0],
    &[5, 0, 63, 0, 0, 5, 0],
    &[5, 0, 64, 0],
    &[5, 0, 65, 0],
    &[5, 0, 83, 1, 2, 3, 0, 1],
];

#[test]
fn value_is_asked_for(rt: HostRuntime) -> Result<(), Fail> {
    assert_eq!(rt; other(rt.alloc(), &NO_VALUE, "bad code")?, None);
    Ok(())
}

/// A place before the code: it is tested before the turn.
const BEFORE: [&[u8]; 2] = [&[58, 255, 255], &[3, 0, 59, 0, 253, 255]];

#[test]
fn jump_leads_before_the_code(rt: HostRuntime) -> Result<(), Fail> {
    assert_eq!(rt; other(rt.alloc(), &BEFORE, "bad code")?, None);
    Ok(())
}

/// The end of the code, a place behind it that a jump leads to, numbers of no operation, and instructions that are
/// cut.
const NO_INSTRUCTION: [&[u8]; 8] = [
    &[],
    &[1, 0],
    &[58, 3, 0],
    &[58, 100, 0],
    &[0],
    &[128, 0],
    &[227, 0],
    &[6, 0],
];

#[test]
fn no_instruction_stands_there(rt: HostRuntime) -> Result<(), Fail> {
    assert_eq!(rt; other(rt.alloc(), &NO_INSTRUCTION, "bad code")?, None);
    Ok(())
}

/// What would throw, leave the run, take a turn or print, but for an operand.
const OPERANDS_FIRST: [&[u8]; 5] = [
    &[23, 6, 1, 0],
    &[25, 1, 0, 6],
    &[28, 6, 0, 1],
    &[32, 6, 0, 1],
    &[23, 0, 0, 0, 83, 6, 0, 1, 2, 0],
];

#[test]
fn operands_are_tested_first(rt: HostRuntime) -> Result<(), Fail> {
    assert_eq!(rt; other(rt.alloc(), &OPERANDS_FIRST, "bad code")?, None);
    Ok(())
}

/// A jump that is not taken is not tested.
const NOT_TAKEN: [&[u8]; 2] = [
    &[59, 0, 157, 255, 64, 0],
    &[6, 0, 5, 63, 0, 4, 157, 255, 64, 0],
];

#[test]
fn jump_is_tested_where_it_is_taken(rt: HostRuntime) -> Result<(), Fail> {
    assert_eq!(rt; other(rt.alloc(), &NOT_TAKEN, "done")?, None);
    Ok(())
}

/// Jumps to their own places and back, and a call, with no turn left.
const NO_TURN: [&[u8]; 3] = [
    &[58, 0, 0],
    &[3, 0, 59, 0, 254, 255],
    &[23, 0, 0, 0, 83, 0, 0, 1, 2, 0, 64, 0],
];

#[test]
fn no_turn_is_left(rt: HostRuntime) -> Result<(), Fail> {
    assert_eq!(rt; other(rt.alloc(), &NO_TURN, "turns spent")?, None);
    Ok(())
}
