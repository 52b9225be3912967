// Operators on numbers (ECMA-262, 13.4 to 13.9 and 13.12).
ghost use Rattle.std.specs.Prelude.{◌≡◌};
ghost use Rattle.hz_value.specs.operators.Arithmetic.{on_numbers};
ghost use Rattle.hz_value.specs.operators.Contents.{Number};
ghost use Rattle.hz_operators.specs.Outcomes.{content_of, Means};
ghost use Rattle.hz_operators.specs.NumberOperators.{numeric, numeric_of_one, on_number};

use crate::bits;
use crate::contents::Content;
use crate::conversions::to_number;
use crate::halt::Halt;
use hz_value::{Left, Safe};

/// An operator on two numbers.
#[derive(Clone, Copy, Debug, PartialEq, Eq)]
pub enum NumberOperator {
    Sum,
    Difference,
    Product,
    Quotient,
    Remainder,
    Power,
    And,
    Or,
    Xor,
    ShiftLeft,
    ShiftRight,
    ShiftRightUnsigned,
    /// `(a / b) | 0`.
    QuotientToInt32,
}

/// An operator on one number.
#[derive(Clone, Copy, Debug, PartialEq, Eq)]
pub enum UnaryOperator {
    /// `+` in front.
    Same,
    Negate,
    BitNot,
    Increment,
    Decrement,
}

/// The result where it is safe.
fn result_of(operator: NumberOperator, x: Safe, y: Safe) -> Option<Safe>
    ensures { result ≡ numeric operator x y }
{
    match operator {
        NumberOperator::Sum => hz_value::add(x, y),
        NumberOperator::Difference => hz_value::sub(x, y),
        NumberOperator::Product => hz_value::mul(x, y),
        NumberOperator::Quotient => hz_value::div(x, y),
        NumberOperator::Remainder => hz_value::rem(x, y),
        NumberOperator::Power => hz_value::pow(x, y),
        NumberOperator::And => Some(bits::bit_and(x, y)),
        NumberOperator::Or => Some(bits::bit_or(x, y)),
        NumberOperator::Xor => Some(bits::bit_xor(x, y)),
        NumberOperator::ShiftLeft => Some(bits::shift_left(x, y)),
        NumberOperator::ShiftRight => Some(bits::shift_right(x, y)),
        NumberOperator::ShiftRightUnsigned => Some(bits::shift_right_unsigned(x, y)),
        NumberOperator::QuotientToInt32 => Some(hz_value::quot_or_zero(x, y)),
    }
}

/// The result where it is safe.
#[tactic(auto, using(crate::proofs::Safety::negated_is_safe))]
fn result_of_one(operator: UnaryOperator, x: Safe) -> Option<Safe>
    ensures { result ≡ numeric_of_one operator x }
{
    match operator {
        UnaryOperator::Same => Some(x),
        UnaryOperator::Negate => Safe::new(-x.get()),
        UnaryOperator::BitNot => Some(bits::bit_not(x)),
        UnaryOperator::Increment => hz_value::add(x, bits::small(1)),
        UnaryOperator::Decrement => hz_value::sub(x, bits::small(1)),
    }
}

/// The operator on two values, which become numbers from left to right.
pub fn on_numbers(operator: NumberOperator, u: &Content<'_>, v: &Content<'_>) -> Result<Safe, Halt>
    ensures { Means Number result (on_numbers (numeric operator) (content_of u.now) (content_of v.now)) }
{
    let x = to_number(u)?;
    let y = to_number(v)?;
    result_of(operator, x, y).ok_or(Halt::Leaves(Left::NotSafe))
}

/// The operator on one value, which becomes a number.
pub fn on_number(operator: UnaryOperator, u: &Content<'_>) -> Result<Safe, Halt>
    ensures { Means Number result (on_number operator (content_of u.now)) }
{
    let x = to_number(u)?;
    result_of_one(operator, x).ok_or(Halt::Leaves(Left::NotSafe))
}
