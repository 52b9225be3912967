use hz_preparse::preparse;
use hz_tree::{FunctionInfo, FunctionInfos, FunctionKind, Slice};
use std::test::Fail;

fn info(start: usize, end: usize, parent: Option<u32>) -> FunctionInfo {
    FunctionInfo {
        start,
        end,
        kind: FunctionKind::Arrow,
        length: 1,
        parent,
    }
}

#[test]
fn lists_of_functions(rt: HostRuntime) -> Result<(), Fail> {
    let mut functions = FunctionInfos::new(rt.alloc());
    functions.push(info(0, 9, None))?;
    functions.push(info(4, 4, Some(0)))?;
    functions.set(1, info(4, 8, Some(0)));
    assert_eq!(rt; functions.len(), 2);
    assert_eq!(rt; *functions.at(1), info(4, 8, Some(0)));
    assert_eq!(rt; functions.get(0).copied(), Some(info(0, 9, None)));
    assert_eq!(rt; functions.get(2).copied(), None);
    let name = Slice::new(b"ab");
    assert_eq!(rt; name.bytes(), b"ab".as_slice());
    Ok(())
}

#[test]
fn keeps_the_source_and_the_flag(rt: HostRuntime) {
    let source = b"'use strict'; a";
    for strict in [false, true] {
        let Ok(index) = preparse(rt.alloc(), source, strict) else {
            panic!(rt; "it is not read");
        };
        assert_eq!(rt; index.source(), source.as_slice());
        assert_eq!(rt; index.strict(), strict);
        assert_eq!(rt; index.count(), 1);
    }
}
