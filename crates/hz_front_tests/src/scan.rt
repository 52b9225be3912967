use hz_scan::{Scanner, Tokens, first_token_len, has_value};
use hz_tree::{BadKind, TokenKind};
use std::test::Fail;

#[test]
fn last_token_again(rt: HostRuntime) {
    for (source, kind, at) in [
        ("\n ", TokenKind::End, 2),
        ("\n}\\1`", TokenKind::Bad(BadKind::Syntax), 1),
        ("\n@", TokenKind::Bad(BadKind::Syntax), 1),
    ] {
        let mut scanner = Scanner::new(source.as_bytes());
        for hole in [true, false, true] {
            let token = scanner.next(hole);
            assert_eq!(rt; (token.kind, token.at, token.newline), (kind, at, true));
            assert!(rt; token.text.is_empty());
            assert!(rt; token.kind.is_last());
        }
    }
}

#[test]
fn tokens_of_a_template(rt: HostRuntime) -> Result<(), Fail> {
    let mut left = Tokens::new(rt.alloc(), b"`${{}}`");
    for len in [3, 1, 1, 2, 0] {
        assert_eq!(rt; left.next()?.map(|token| token.text.len()), Some(len));
    }
    assert!(rt; left.next()?.is_none());
    let mut source = Vec::new(rt.alloc());
    source.extend_from_slice(b" let a")?;
    assert_eq!(rt; first_token_len(source), 3);
    Ok(())
}

#[test]
fn values_of_literals(rt: HostRuntime) {
    for (written, wanted, same) in [
        ("''", "", true),
        ("\"__proto__\"", "__proto__", true),
        ("'\\x5f\\u005F\\u{5f}'", "___", true),
        ("'a\\\nb\\t\\''", "ab\t'", true),
        ("'ab'", "a", false),
        ("'a'", "ab", false),
        ("'\\u0161'", "a", false),
    ] {
        let found = has_value(written.as_bytes(), wanted.as_bytes());
        assert_eq!(rt; found, same, "of {written:?}");
    }
}
