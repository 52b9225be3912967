// Each row once, on code that is written out by hand: what register 2 holds behind it is printed.
use crate::runs::told;
use crate::script::Script;
use hz_value::{Memory, Units};
use std::alloc::Global;
use std::test::Fail;

/// The texts of each script here, by their numbers from 0.
const TEXTS: [&str; 3] = ["print", "x", "12"];

/// Prints what register 2 holds: loads `print`, calls it, and returns what it gave.
const PRINTING: &[u8] = &[23, 3, 0, 0, 1, 4, 83, 5, 3, 4, 2, 1, 64, 5];

/// A script of these bytes, with the texts and six registers.
pub(crate) fn script(alloc: Global, bytes: &[u8], more: &[u8]) -> Result<Script, Memory> {
    let mut code = Vec::new(alloc);
    code.extend_from_slice(bytes)?;
    code.extend_from_slice(more)?;
    let mut texts = Vec::new(alloc);
    for text in &TEXTS {
        texts.push(Units::from_bytes(alloc, text.as_bytes())?.into_vec())?;
    }
    Ok(Script {
        code,
        registers: 6,
        handlers: Vec::new(alloc),
        texts,
    })
}

/// The first of these codes that does not tell what stands beside it, and what it tells. It has two turns: one for a
/// jump back, and one for the call.
pub(crate) fn other(
    alloc: Global,
    cases: &[(&[u8], &str)],
) -> Result<Option<(usize, String)>, Memory> {
    for (number, (bytes, expected)) in cases.iter().enumerate() {
        let text = told(alloc, &script(alloc, bytes, PRINTING)?, 2)?;
        if text.as_str() != *expected {
            return Ok(Some((number, text)));
        }
    }
    Ok(None)
}

/// Rows that load, move, and go by names.
const LOADS: [(&[u8], &str); 15] = [
    (&[6, 2, 5, 1, 2], "undefined\ndone"),
    (&[2, 2], "null\ndone"),
    (&[3, 2], "true\ndone"),
    (&[4, 2], "false\ndone"),
    (&[5, 2, 21, 2, 1, 0], "ReferenceError: x is not initialised"),
    (&[6, 2, 254], "-2\ndone"),
    (&[7, 2, 2, 0], "12\ndone"),
    (&[6, 0, 5, 8, 2, 0], "5\ndone"),
    (&[6, 2, 5, 21, 2, 1, 0], "5\ndone"),
    (&[22, 1, 0], "TypeError: x is constant"),
    (&[23, 2, 1, 0], "ReferenceError: x is not defined"),
    (&[24, 2, 0, 0], "function\ndone"),
    (&[24, 2, 1, 0], "undefined\ndone"),
    (&[25, 1, 0, 2], "ReferenceError: x is not defined"),
    (
        &[26, 1, 0, 6, 2, 7, 25, 1, 0, 2, 2, 2, 23, 2, 1, 0],
        "7\ndone",
    ),
];

#[test]
fn loads_and_names(rt: HostRuntime) -> Result<(), Fail> {
    assert_eq!(rt; other(rt.alloc(), &LOADS)?, None);
    Ok(())
}

/// Operators on 12 and 5, on -12 and 2, and on others.
const OPERATORS: [(&[u8], &str); 16] = [
    (&[6, 0, 12, 6, 1, 5, 27, 2, 0, 1], "17\ndone"),
    (&[7, 0, 2, 0, 6, 1, 5, 27, 2, 0, 1], "125\ndone"),
    (&[6, 0, 12, 6, 1, 5, 28, 2, 0, 1], "7\ndone"),
    (&[6, 0, 12, 6, 1, 5, 29, 2, 0, 1], "60\ndone"),
    (&[6, 0, 12, 6, 1, 4, 30, 2, 0, 1], "3\ndone"),
    (&[6, 0, 12, 6, 1, 5, 30, 2, 0, 1], "NotSafe"),
    (&[6, 0, 12, 6, 1, 5, 31, 2, 0, 1], "2\ndone"),
    (&[6, 0, 12, 6, 1, 5, 32, 2, 0, 1], "248832\ndone"),
    (&[6, 0, 12, 6, 1, 5, 33, 2, 0, 1], "4\ndone"),
    (&[6, 0, 12, 6, 1, 5, 34, 2, 0, 1], "13\ndone"),
    (&[6, 0, 12, 6, 1, 5, 35, 2, 0, 1], "9\ndone"),
    (&[6, 0, 12, 6, 1, 5, 36, 2, 0, 1], "384\ndone"),
    (&[6, 0, 244, 6, 1, 2, 37, 2, 0, 1], "-3\ndone"),
    (&[6, 0, 244, 6, 1, 2, 38, 2, 0, 1], "1073741821\ndone"),
    (&[6, 0, 12, 6, 1, 5, 39, 2, 0, 1], "2\ndone"),
    (&[6, 0, 249, 6, 1, 2, 39, 2, 0, 1], "-3\ndone"),
];

#[test]
fn operators_on_two(rt: HostRuntime) -> Result<(), Fail> {
    assert_eq!(rt; other(rt.alloc(), &OPERATORS)?, None);
    Ok(())
}

/// Operators on 5, on the text 12, and on null. Of what becomes a number or a text the type is printed.
const UNARY: [(&[u8], &str); 8] = [
    (&[6, 0, 5, 41, 2, 0], "-5\ndone"),
    (&[6, 0, 5, 42, 2, 0], "-6\ndone"),
    (&[6, 0, 5, 43, 2, 0], "false\ndone"),
    (&[7, 0, 2, 0, 44, 0, 0, 45, 2, 0], "number\ndone"),
    (&[2, 0, 45, 2, 0], "object\ndone"),
    (&[7, 0, 2, 0, 46, 2, 0], "13\ndone"),
    (&[7, 0, 2, 0, 47, 2, 0], "11\ndone"),
    (&[6, 0, 5, 49, 0, 0, 45, 2, 0], "string\ndone"),
];

#[test]
fn operators_on_one(rt: HostRuntime) -> Result<(), Fail> {
    assert_eq!(rt; other(rt.alloc(), &UNARY)?, None);
    Ok(())
}

/// Comparisons of numbers, and of the text 12.
const COMPARISONS: [(&[u8], &str); 9] = [
    (&[7, 0, 2, 0, 6, 1, 12, 50, 2, 0, 1], "true\ndone"),
    (&[7, 0, 2, 0, 6, 1, 12, 51, 2, 0, 1], "false\ndone"),
    (&[6, 0, 5, 6, 1, 12, 52, 2, 0, 1], "true\ndone"),
    (&[6, 0, 5, 6, 1, 5, 52, 2, 0, 1], "false\ndone"),
    (&[6, 0, 5, 6, 1, 5, 53, 2, 0, 1], "true\ndone"),
    (&[6, 0, 12, 6, 1, 5, 54, 2, 0, 1], "true\ndone"),
    (&[6, 0, 5, 6, 1, 12, 55, 2, 0, 1], "false\ndone"),
    (&[7, 0, 2, 0, 6, 1, 5, 52, 2, 0, 1], "false\ndone"),
    (&[1, 0, 6, 1, 5, 52, 2, 0, 1], "NotSafe"),
];

#[test]
fn comparisons(rt: HostRuntime) -> Result<(), Fail> {
    assert_eq!(rt; other(rt.alloc(), &COMPARISONS)?, None);
    Ok(())
}

/// Jumps over a load of null, and one back to the load in front.
const JUMPS: [(&[u8], &str); 9] = [
    (&[6, 2, 5, 58, 5, 0, 2, 2], "5\ndone"),
    (&[6, 2, 5, 59, 2, 6, 0, 2, 2], "5\ndone"),
    (&[6, 2, 5, 60, 2, 6, 0, 2, 2], "null\ndone"),
    (&[2, 0, 6, 2, 5, 61, 0, 6, 0, 2, 2], "5\ndone"),
    (&[2, 0, 6, 2, 5, 62, 0, 6, 0, 2, 2], "null\ndone"),
    (&[6, 2, 5, 62, 0, 6, 0, 2, 2], "5\ndone"),
    (&[6, 2, 5, 63, 2, 5, 7, 0, 2, 2], "5\ndone"),
    (&[6, 2, 5, 63, 2, 4, 7, 0, 2, 2], "null\ndone"),
    (&[6, 2, 2, 47, 2, 2, 59, 2, 253, 255], "0\ndone"),
];

#[test]
fn jumps(rt: HostRuntime) -> Result<(), Fail> {
    assert_eq!(rt; other(rt.alloc(), &JUMPS)?, None);
    Ok(())
}

/// Rows that end the script, and calls.
const ENDS: [(&[u8], &str); 4] = [
    (&[64, 0], "done"),
    (&[6, 0, 5, 65, 0], "5"),
    (
        &[23, 3, 0, 0, 6, 0, 5, 2, 1, 83, 2, 3, 4, 0, 2],
        "5 null\nundefined\ndone",
    ),
    (
        &[2, 1, 83, 0, 1, 1, 1, 0],
        "TypeError: value is not a function",
    ),
];

#[test]
fn ends_and_calls(rt: HostRuntime) -> Result<(), Fail> {
    assert_eq!(rt; other(rt.alloc(), &ENDS)?, None);
    Ok(())
}
