// What the code of a script shows beside its instructions.
use crate::rows::script;
use hz_machine::{Code, Entry};
use hz_ops::Handler;
use hz_tree::FunctionKind;
use std::test::Fail;

#[test]
fn shows_the_script_alone(rt: HostRuntime) -> Result<(), Fail> {
    let script = script(rt.alloc(), &[], &[])?;
    assert_eq!(rt; script.count(), 1);
    assert_eq!(rt; script.entry(0), Entry::Code);
    assert_eq!(rt; script.kind(0), FunctionKind::Script);
    assert_eq!(rt; script.length(0), 0);
    assert_eq!(rt; script.registers(0), 6);
    Ok(())
}

/// The first handler that holds the place tells where its throws are caught.
#[test]
fn catches_by_the_inner_handler(rt: HostRuntime) -> Result<(), Fail> {
    let mut script = script(rt.alloc(), &[], &[])?;
    script.handlers.push(Handler {
        from: 2,
        to: 4,
        target: 8,
    })?;
    script.handlers.push(Handler {
        from: 1,
        to: 6,
        target: 9,
    })?;
    assert_eq!(rt; script.handler(0, 0), None);
    assert_eq!(rt; script.handler(0, 1), Some(9));
    assert_eq!(rt; script.handler(0, 2), Some(8));
    assert_eq!(rt; script.handler(0, 3), Some(8));
    assert_eq!(rt; script.handler(0, 4), Some(9));
    assert_eq!(rt; script.handler(0, 6), None);
    Ok(())
}
