use crate::data::{SCRIPT, WIDE};
use hz_file::{File, Malformed, StringView, Texts, has_magic, write_small};
use hz_tree::FunctionKind;
use hz_value::Units;
use std::test::Fail;

/// What `File::open` finds broken.
fn fault(bytes: &[u8]) -> Option<Malformed> {
    if !has_magic(bytes) {
        return None;
    }
    File::open(bytes).err()
}

#[test]
fn a_script_is_written_as_another_program_wrote_it(rt: HostRuntime) -> Result<(), Fail> {
    let alloc = rt.alloc();
    let mut texts = Texts::new(alloc);
    texts.push(Units::from_bytes(alloc, b"a")?)?;
    let bytes = write_small(alloc, true, b"", &texts, 1, &[1, 0, 0x40, 0])?;
    assert_eq!(rt; bytes.as_slice(), SCRIPT.as_slice());
    Ok(())
}

#[test]
fn the_first_broken_rule_is_named_with_its_place(rt: HostRuntime) {
    let rows: [(usize, u8, u8, usize); 9] = [
        (8, 2, 2, 8),
        (12, 3, 3, 12),
        (16, 0, 4, 16),
        (96, 2, 5, 48),
        (128, 5, 6, 128),
        (136, 5, 8, 128),
        (147, 0xFF, 10, 144),
        (148, 0xE9, 11, 144),
        (172, 0, 14, 172),
    ];
    for (at, value, rule, place) in rows {
        let mut bytes = SCRIPT;
        bytes[at] = value;
        assert_eq!(rt; fault(&bytes), Some(Malformed { rule, at: place }));
    }
    assert_eq!(rt; fault(&SCRIPT[..127]), Some(Malformed { rule: 1, at: 127 }));
}

/// The units of a text.
fn has_units(text: Option<StringView<'_>>, units: &[u16]) -> bool {
    let Some(text) = text else {
        return false;
    };
    for (i, unit) in units.iter().enumerate() {
        if text.unit(i as u64) != Some(*unit) {
            return false;
        }
    }
    text.len() == units.len() as u64
        && text.is_empty() == units.is_empty()
        && text.unit(text.len()).is_none()
}

#[test]
fn what_is_written_opens(rt: HostRuntime) -> Result<(), Fail> {
    let alloc = rt.alloc();
    let mut texts = Texts::new(alloc);
    texts.push(Units::from_bytes(alloc, b"a b")?)?;
    let bytes = write_small(alloc, true, b"f();", &texts, 7, &[1, 0, 0x40, 0])?;
    let file = File::open(&bytes)?;
    assert!(rt; file.strict());
    assert_eq!(rt; file.source(), b"f();".as_slice());
    assert_eq!(rt; file.function(0).registers, 7);
    assert!(rt; has_units(file.string(0), &[0x61, 0x20, 0x62]));
    assert!(rt; file.string(1).is_none());
    Ok(())
}

#[test]
fn a_file_of_another_program_is_shown(rt: HostRuntime) -> Result<(), Fail> {
    assert!(rt; has_magic(&WIDE));
    let file = File::open(&WIDE)?;
    assert_eq!(rt; file.count(), 1);
    assert!(rt; !file.strict());
    assert_eq!(rt; file.source_at(), 171);
    assert_eq!(rt; file.source(), b"print(1);".as_slice());
    let script = file.function(0);
    assert_eq!(rt; script.kind, FunctionKind::Script);
    assert_eq!(rt; script.length, 0);
    assert_eq!(rt; script.registers, 3);
    assert_eq!(rt; script.code.ok_or("no code")?, [1, 0, 0x40, 0].as_slice());
    assert!(rt; has_units(file.string(0), &[0x61, 0x62]));
    assert!(rt; has_units(file.string(1), &[0xE9, 0x2603]));
    assert!(rt; has_units(file.string(2), &[]));
    assert!(rt; has_units(file.string(3), &[0x63]));
    assert!(rt; file.string(4).is_none());
    Ok(())
}

#[test]
fn a_view_is_used_while_its_bytes_live(rt: HostRuntime) -> Result<(), Fail> {
    let bytes = Vec::from_slice(rt.alloc(), &WIDE)?;
    assert!(rt; has_magic(&bytes));
    let source = File::open(&bytes)?.source();
    let len = source.len();
    drop(bytes);
    assert_eq!(rt; len, 9);
    Ok(())
}
