use hz_middle::Middle;
use hz_tree::{Class, TokenKind};
use std::alloc::Global;
use std::process::Abort;
use std::test::Fail;

#[test]
fn goes_past_a_function(rt: HostRuntime) -> Result<(), Fail> {
    past_a_function(&rt, rt.alloc())
}

/// Reads a call from its start, and goes past the function in it by its extent.
fn past_a_function<A: Abort>(rt: &A, alloc: Global) -> Result<(), Fail> {
    let mut middle = Middle::new(alloc, b"f(function(){return `${g}`})+y", 0);
    assert!(rt; middle.eat(Class::Name)?);
    assert!(rt; !middle.eat(Class::Name)?);
    assert!(rt; middle.eat(Class::LeftParen)?);
    assert_eq!(rt;
        (middle.place(), middle.text()),
        (2, b"function".as_slice())
    );
    assert_eq!(rt; middle.look(false).two, Class::LeftParen);
    middle.skip(27);
    assert_eq!(rt; (middle.place(), middle.kind()), (27, TokenKind::Punct));
    assert!(rt; middle.eat(Class::RightParen)?);
    assert_eq!(rt; (middle.behind(), middle.text()), (28, b"+".as_slice()));
    Ok(())
}
