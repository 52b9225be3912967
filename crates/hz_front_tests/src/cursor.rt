use hz_cursor::Cursor;
use hz_scan::{Scanner, Seen, class_of, look_at};
use hz_tree::{BadKind, Class, MAX_LENGTH, OutsideKind};
use std::alloc::Global;
use std::test::Fail;

/// For each `(` in order, `+` where it begins the parameters of an arrow, and else `-`.
fn shown_arrows(alloc: Global, source: &[u8]) -> Result<String, Fail> {
    let mut shown = String::new(alloc);
    if source.len() > MAX_LENGTH {
        return Ok(shown);
    }
    let mut cursor = Cursor::new(alloc, source)?;
    for _ in 0..=source.len() {
        let look = cursor.look();
        if look.one.is_paren() {
            shown.push_str(if look.begins_arrow() { "+" } else { "-" })?;
        }
        if !cursor.eat(look.one) {
            break;
        }
    }
    Ok(shown)
}

#[test]
fn finds_arrows(rt: HostRuntime) -> Result<(), Fail> {
    for (source, arrows) in [
        ("(a) => b", "+"),
        ("((a)) => b", "+-"),
        ("((a) => b)", "-+"),
        ("(a)\n=> b", "+"),
        ("async (x)\n=> 1", "+"),
        ("f(a)(b) => c", "-+"),
        ("([a, {b}]) => c", "+"),
        ("( [ ) => 1", "-"),
        ("( [ ) (a) => 1", "-+"),
        ("( } (a) => 1", "-+"),
        ("(a", "-"),
        ("(a)", "-"),
        (") (a) => b", "+"),
        ("(a = 1, b = 2n) => a", "-"),
        ("(`${(a) => b}`) => c", "++"),
        ("`${ `${(a)}` } ${(b) => c}`", "-+"),
        ("(`${ ( }`) => a", "--"),
        ("(`${ { } }`) => a", "+"),
        ("(`${a} ${b}`) => a", "+"),
        ("( ${ (a) => b", "-+"),
    ] {
        let shown = shown_arrows(rt.alloc(), source.as_bytes())?;
        assert_eq!(rt; shown.as_str(), arrows, "of {source:?}");
    }
    Ok(())
}

#[test]
fn looks_and_takes(rt: HostRuntime) -> Result<(), Fail> {
    let mut cursor = Cursor::new(rt.alloc(), b"let \nasync (x) => class")?;
    let look = cursor.look();
    assert_eq!(rt; (look.one, look.two), (Class::Let, Class::Async));
    assert_eq!(rt; (look.one_newline, look.two_newline), (false, true));
    assert!(rt; !look.begins_arrow());
    assert!(rt; !cursor.eat(Class::Name));
    assert_eq!(rt; (cursor.place(), cursor.behind()), (0, 0));
    assert!(rt; cursor.eat(Class::Let));
    let look = cursor.look();
    assert!(rt; look.is_async());
    assert_eq!(rt; look.cause(), BadKind::Outside(OutsideKind::Async));
    for (class, at, behind) in [
        (Class::Name, 5, 3),
        (Class::LeftParen, 11, 10),
        (Class::Name, 12, 12),
        (Class::RightParen, 13, 13),
        (Class::Arrow, 15, 14),
    ] {
        assert_eq!(rt; (cursor.place(), cursor.behind()), (at, behind));
        assert!(rt; cursor.eat(class));
    }
    assert_eq!(rt; cursor.look().cause(), BadKind::Outside(OutsideKind::Class));
    assert!(rt; cursor.eat(Class::Class));
    assert_eq!(rt; (cursor.place(), cursor.behind()), (23, 23));
    assert!(rt; cursor.eat(Class::End));
    assert!(rt; !cursor.eat(Class::End));
    assert_eq!(rt; (cursor.place(), cursor.behind()), (0, 0));
    Ok(())
}

#[test]
fn shows_texts(rt: HostRuntime) -> Result<(), Fail> {
    let mut cursor = Cursor::new(rt.alloc(), b" let /* a */ a\n= '\\07' + \"\\0\"")?;
    for (text, octal) in [
        ("let", false),
        ("a", false),
        ("=", false),
        ("'\\07'", true),
        ("+", false),
        ("\"\\0\"", false),
        ("", false),
    ] {
        assert_eq!(rt; cursor.text(), text.as_bytes(), "of {text:?}");
        assert_eq!(rt; cursor.octal(), octal, "of {text:?}");
        let look = cursor.look();
        assert!(rt; cursor.eat(look.one), "of {text:?}");
    }
    assert!(rt; cursor.text().is_empty());
    assert!(rt; !cursor.octal());
    Ok(())
}

#[test]
fn looks_at_two_tokens(rt: HostRuntime) {
    let word = Seen {
        class: Class::Async,
        newline: true,
    };
    let paren = Seen {
        class: Class::LeftParen,
        newline: false,
    };
    let look = look_at(Some(word), Some(paren), true);
    assert!(rt; look.one_newline);
    assert!(rt; look.is_async());
    let look = look_at(Some(word), None, true);
    assert_eq!(rt;
        (look.two, look.two_newline, look.arrow),
        (Class::End, false, false)
    );
}

#[test]
fn classes_of_tokens(rt: HostRuntime) {
    for (source, class, name, reserved, word) in [
        ("async", Class::Async, true, false, true),
        ("class", Class::Class, false, true, true),
        ("=>", Class::Arrow, false, false, false),
    ] {
        let found = class_of(&Scanner::new(source.as_bytes()).next(false));
        assert_eq!(rt; found, class);
        assert_eq!(rt; found.is_name(), name, "of {source:?}");
        assert_eq!(rt; found.is_reserved_word(), reserved, "of {source:?}");
        assert_eq!(rt; found.is_word(), word, "of {source:?}");
        assert_eq!(rt; Class::Name.fits(found), name, "of {source:?}");
    }
}
