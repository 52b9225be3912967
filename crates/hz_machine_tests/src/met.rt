// Texts and globals that were met before.
use crate::rows::{other, script};
use crate::script::Script;
use hz_machine::{Answer, Ending, Machine};
use hz_value::{Memory, Units};
use std::alloc::Global;
use std::test::Fail;

/// A text that is loaded twice, and a global that is read, written and read again.
const TWICE: [(&[u8], &str); 3] = [
    (&[7, 0, 2, 0, 7, 2, 2, 0], "12\ndone"),
    (
        &[
            26, 1, 0, 6, 0, 7, 25, 1, 0, 0, 23, 2, 1, 0, 6, 0, 8, 25, 1, 0, 0, 23, 2, 1, 0,
        ],
        "8\ndone",
    ),
    (&[7, 0, 2, 0, 7, 1, 2, 0, 51, 2, 0, 1], "true\ndone"),
];

#[test]
fn met_twice(rt: HostRuntime) -> Result<(), Fail> {
    assert_eq!(rt; other(rt.alloc(), &TWICE)?, None);
    Ok(())
}

/// A script of these bytes, whose text 1 is this one.
fn with_text(alloc: Global, bytes: &[u8], text: &str) -> Result<Script, Memory> {
    let mut script = script(alloc, bytes, &[])?;
    let mut texts = Vec::new(alloc);
    texts.push(Units::from_bytes(alloc, b"print")?.into_vec())?;
    texts.push(Units::from_bytes(alloc, text.as_bytes())?.into_vec())?;
    script.texts = texts;
    Ok(script)
}

/// Two steps over the first code and two over the second: what is thrown then.
fn thrown(alloc: Global, first: &Script, second: &Script) -> Result<String, Memory> {
    let mut machine = Machine::start(alloc, first, 9)?;
    for _ in 0..2 {
        let _answer = machine.step(first);
    }
    let _answer = machine.step(second);
    match machine.step(second) {
        Answer::Ended(Ending::Uncaught(value)) => {
            let text = machine.describe(alloc, &value)?;
            Ok(String::from_utf16_lossy(alloc, text.as_slice())?)
        }
        _ => Ok(String::new(alloc)),
    }
}

/// A text of the code that is handed in counts, whatever another code had under its number.
#[test]
fn text_of_the_code_in_hand(rt: HostRuntime) -> Result<(), Fail> {
    let alloc = rt.alloc();
    let first = with_text(alloc, &[7, 0, 1, 0, 58, 252, 255], "first")?;
    let second = with_text(alloc, &[7, 0, 1, 0, 65, 0], "second")?;
    let text = thrown(alloc, &first, &second)?;
    assert_eq!(rt; text.as_str(), "second");
    Ok(())
}

#[test]
fn global_of_the_code_in_hand(rt: HostRuntime) -> Result<(), Fail> {
    let alloc = rt.alloc();
    let first = with_text(alloc, &[23, 0, 1, 0, 58, 252, 255], "print")?;
    let second = with_text(alloc, &[23, 0, 1, 0, 65, 0], "undefined")?;
    let text = thrown(alloc, &first, &second)?;
    assert_eq!(rt; text.as_str(), "undefined");
    Ok(())
}
