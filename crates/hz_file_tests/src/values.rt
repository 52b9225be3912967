use hz_value::{
    Left, MAX_SAFE, Safe, Series, Units, add, div, floor_quot, int32, mul, number_text, pow,
    quot_or_zero, rem, sub, text_number, trunc_quot, uint32,
};
use std::alloc::Global;
use std::test::Fail;

fn number(value: i64) -> Result<Safe, Fail> {
    Ok(Safe::new(value).ok_or("not safe")?)
}

#[test]
fn operators(rt: HostRuntime) -> Result<(), Fail> {
    let most = number(MAX_SAFE as i64)?;
    let one = number(1)?;
    let two = number(2)?;
    let minus_seven = number(-7)?;
    assert_eq!(rt; Safe::new(9007199254740992), None);
    assert_eq!(rt; add(most, one), None);
    assert_eq!(rt; add(minus_seven, two).map(Safe::get), Some(-5));
    assert_eq!(rt; sub(minus_seven, two).map(Safe::get), Some(-9));
    assert_eq!(rt; mul(minus_seven, two).map(Safe::get), Some(-14));
    assert_eq!(rt; div(minus_seven, two), None);
    assert_eq!(rt; div(number(-14)?, two).map(Safe::get), Some(-7));
    assert_eq!(rt; rem(minus_seven, number(3)?).map(Safe::get), Some(-1));
    assert_eq!(rt;
        pow(two, number(52)?).map(Safe::get),
        Some(4503599627370496)
    );
    assert_eq!(rt; pow(two, minus_seven), None);
    Ok(())
}

#[test]
fn quotients_and_conversions(rt: HostRuntime) -> Result<(), Fail> {
    let two = number(2)?;
    let minus_seven = number(-7)?;
    assert_eq!(rt; quot_or_zero(minus_seven, two).get(), -3);
    assert_eq!(rt; quot_or_zero(two, number(0)?).get(), 0);
    assert_eq!(rt; floor_quot(minus_seven, two).map(Safe::get), Some(-4));
    assert_eq!(rt; trunc_quot(minus_seven, two).map(Safe::get), Some(-3));
    assert_eq!(rt; int32(number(2147483648)?), -2147483648);
    assert_eq!(rt; uint32(number(-1)?), 4294967295);
    Ok(())
}

fn read(alloc: Global, text: &str) -> Result<Option<i64>, Fail> {
    let units = Units::from_bytes(alloc, text.as_bytes())?;
    Ok(text_number(&units).map(Safe::get))
}

#[test]
fn texts_as_numbers(rt: HostRuntime) -> Result<(), Fail> {
    let rows = [
        (" 0x10 ", Some(16)),
        ("", Some(0)),
        ("1.5", None),
        ("-0x1", None),
        ("\n-0\t", Some(0)),
        ("+007", Some(7)),
        ("0O17", Some(15)),
        ("0b101", Some(5)),
        ("0x", None),
        ("-", None),
        ("1e3", None),
        ("9007199254740992", None),
        ("-9007199254740991", Some(-9007199254740991)),
    ];
    for (text, want) in rows {
        assert_eq!(rt; read(rt.alloc(), text)?, want, "at {text}");
    }
    let wide_blanks = Units::from_vec([0xfeff, 0x2028, 0x37, 0x3000].to_vec(rt.alloc())?);
    assert_eq!(rt; text_number(&wide_blanks).map(Safe::get), Some(7));
    Ok(())
}

#[test]
fn numbers_as_texts(rt: HostRuntime) -> Result<(), Fail> {
    let text = number_text(rt.alloc(), number(-40)?)?;
    assert_eq!(rt; text.as_slice(), [45, 52, 48].as_slice());
    Ok(())
}

#[test]
fn units_in_order(rt: HostRuntime) -> Result<(), Fail> {
    let mut text = Units::empty(rt.alloc());
    assert!(rt; text.is_empty());
    text.push(0xd800)?;
    text.push(65)?;
    assert_eq!(rt; text.len(), 2);
    text.set(1, 66);
    assert_eq!(rt; text.at(0), Some(0xd800));
    assert_eq!(rt; text.get(1), Some(&66));
    assert_eq!(rt; text.at(2), None);
    assert_eq!(rt; text.pop(), Some(66));
    assert_eq!(rt; text.into_vec().as_slice(), [0xd800].as_slice());
    Ok(())
}

#[test]
fn texts_in_order(rt: HostRuntime) -> Result<(), Fail> {
    let mut texts = Series::new(rt.alloc());
    texts.push(Units::from_bytes(rt.alloc(), b"ab")?)?;
    texts.push(Units::empty(rt.alloc()))?;
    assert_eq!(rt; texts.get(0).map_or(0, |text| text.len()), 2);
    assert!(rt; texts.get(2).is_none());
    assert_eq!(rt; texts.as_slice().len(), 2);
    Ok(())
}

#[test]
fn name_of_a_reason(rt: HostRuntime) -> Result<(), Fail> {
    let shown = Left::ZeroSign.to_string(rt.alloc())?;
    assert_eq!(rt; shown.as_str(), "ZeroSign");
    Ok(())
}
