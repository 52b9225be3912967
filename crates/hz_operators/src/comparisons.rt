// Comparisons (ECMA-262, 7.2, 13.10 and 13.11).
ghost use Rattle.std.specs.Prelude.{◌≡◌};
ghost use Rattle.hz_value.specs.operators.Comparisons.{is_before, is_less, strictly_equal, loosely_equal};
ghost use Rattle.hz_value.specs.operators.Comparisons.{number_for_boolean, equal_by_type, equal_to_number, equal_to_object};
ghost use Rattle.hz_operators.specs.Outcomes.{content_of, Means};
ghost use Rattle.hz_operators.specs.Orders.{by_order, of_primitives, less_as_numbers};

use crate::bits::small;
use crate::contents::Content;
use crate::conversions::{expect_primitive, to_number};
use crate::halt::Halt;
use hz_value::{Left, Safe};

/// A comparison by order.
#[derive(Clone, Copy, Debug, PartialEq, Eq)]
pub enum Order {
    Less,
    LessOrEqual,
    Greater,
    GreaterOrEqual,
}

/// Whether the first text stands before the second, unit by unit.
fn is_before(first: &[u16], second: &[u16]) -> bool
    ensures { result ≡ is_before first.now second.now }
{
    let mut left = first;
    let mut right = second;
    while let [v, behind @ ..] = right {
        let [u, rest @ ..] = left else {
            return true;
        };
        if u != v {
            return u < v;
        }
        left = rest;
        right = behind;
    }
    false
}

/// Whether the first is less as a number.
fn less_as_numbers(x: &Content<'_>, y: &Content<'_>) -> Result<bool, Halt>
    ensures { Means (λ b. b) result (less_as_numbers (content_of x.now) (content_of y.now)) }
{
    let a = to_number(x)?;
    let b = to_number(y)?;
    Ok(a.get() < b.get())
}

/// IsLessThan (7.2.12) of primitives, where x becomes a number first.
fn is_less(x: &Content<'_>, y: &Content<'_>) -> Result<bool, Halt>
    ensures { Means (λ b. b) result (is_less (content_of x.now) (content_of y.now)) }
{
    match (x, y) {
        (Content::Text(s), Content::Text(t)) => Ok(is_before(s, t)),
        _ => less_as_numbers(x, y),
    }
}

/// `<`, `<=`, `>` and `>=` (13.10): of `>` and `<=` the right operand becomes a number first.
pub fn compare(order: Order, u: &Content<'_>, v: &Content<'_>) -> Result<bool, Halt>
    ensures { Means (λ b. b) result (by_order order (content_of u.now) (content_of v.now)) }
{
    expect_primitive(u)?;
    expect_primitive(v)?;
    compare_primitives(order, u, v)
}

fn compare_primitives(order: Order, u: &Content<'_>, v: &Content<'_>) -> Result<bool, Halt>
    ensures { Means (λ b. b) result (of_primitives order (content_of u.now) (content_of v.now)) }
{
    match order {
        Order::Less => is_less(u, v),
        Order::LessOrEqual => Ok(!is_less(v, u)?),
        Order::Greater => is_less(v, u),
        Order::GreaterOrEqual => Ok(!is_less(u, v)?),
    }
}

/// IsStrictlyEqual (7.2.14).
pub fn strictly_equal(u: &Content<'_>, v: &Content<'_>) -> bool
    ensures { result ≡ strictly_equal (content_of u.now) (content_of v.now) }
{
    match (u, v) {
        (Content::Undefined, Content::Undefined) => true,
        (Content::Null, Content::Null) => true,
        (Content::Boolean(a), Content::Boolean(b)) => a == b,
        (Content::Number(a), Content::Number(b)) => a.get() == b.get(),
        (Content::Text(s), Content::Text(t)) => s == t,
        (Content::Symbol(a), Content::Symbol(b)) => a == b,
        (Content::Object(a), Content::Object(b)) => a == b,
        _ => false,
    }
}

/// A boolean counts as its number.
fn number_for_boolean<'a>(content: &Content<'a>) -> Content<'a>
    ensures { content_of result ≡ number_for_boolean (content_of content.now) }
{
    match content {
        Content::Undefined => Content::Undefined,
        Content::Null => Content::Null,
        Content::Boolean(value) => Content::Number(small(*value as i64)),
        Content::Number(number) => Content::Number(*number),
        Content::Text(units) => Content::Text(units),
        Content::Symbol(symbol) => Content::Symbol(*symbol),
        Content::Object(object) => Content::Object(*object),
    }
}

/// A number against another value (7.2.13).
fn equal_to_number(a: Safe, v: &Content<'_>) -> Result<bool, Halt>
    ensures { Means (λ b. b) result (equal_to_number a (content_of v.now)) }
{
    match v {
        Content::Number(b) => Ok(a.get() == b.get()),
        Content::Text(_) => Ok(a.get() == to_number(v)?.get()),
        Content::Object(_) => Err(Halt::Leaves(Left::NotBuilt)),
        _ => Ok(false),
    }
}

/// An object against another value.
fn equal_to_object(a: u64, v: &Content<'_>) -> Result<bool, Halt>
    ensures { Means (λ b. b) result (equal_to_object a (content_of v.now)) }
{
    match v {
        Content::Object(b) => Ok(a == *b),
        Content::Undefined | Content::Null => Ok(false),
        _ => Err(Halt::Leaves(Left::NotBuilt)),
    }
}

/// IsLooselyEqual of values that are no booleans.
fn equal_by_type(u: &Content<'_>, v: &Content<'_>) -> Result<bool, Halt>
    ensures { Means (λ b. b) result (equal_by_type (content_of u.now) (content_of v.now)) }
{
    match (u, v) {
        (Content::Undefined, Content::Null) => Ok(true),
        (Content::Null, Content::Undefined) => Ok(true),
        (Content::Number(a), _) => equal_to_number(*a, v),
        (_, Content::Number(b)) => equal_to_number(*b, u),
        (Content::Object(a), _) => equal_to_object(*a, v),
        (_, Content::Object(b)) => equal_to_object(*b, u),
        _ => Ok(strictly_equal(u, v)),
    }
}

/// IsLooselyEqual (7.2.13).
pub fn loosely_equal(u: &Content<'_>, v: &Content<'_>) -> Result<bool, Halt>
    ensures { Means (λ b. b) result (loosely_equal (content_of u.now) (content_of v.now)) }
{
    equal_by_type(&number_for_boolean(u), &number_for_boolean(v))
}
