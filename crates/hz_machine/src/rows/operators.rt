// Rows of operators and conversions.
ghost use Rattle.std.specs.Prelude.{◌≡◌, not};
ghost use Rattle.hz_value.specs.operators.Arithmetic.{on_numbers, add};
ghost use Rattle.hz_value.specs.operators.Comparisons.{loosely_equal, strictly_equal};
ghost use Rattle.hz_value.specs.operators.Computed.{Gives, and_then};
ghost use Rattle.hz_value.specs.operators.Contents.{Boolean, Text};
ghost use Rattle.hz_value.specs.operators.Conversions.{to_boolean, to_text};
ghost use Rattle.hz_value.specs.world.Store.{content_of, type_name};
ghost use Rattle.hz_operators.specs.NumberOperators.{numeric, on_number};
ghost use Rattle.hz_operators.specs.Orders.{by_order};
ghost use Rattle.hz_operators.specs.Outcomes.{content_of as seen, MeansText};
ghost use Rattle.hz_ops.specs.code.Operands as tested;
ghost use Rattle.hz_ops.specs.code.Effects.{gives, tested_to, puts_content, compared};
ghost use Rattle.hz_ops.specs.code.Rows.{binary_row, unary_row};
ghost use Rattle.hz_machine.specs.Kept.{store_of, world_of};
ghost use Rattle.hz_machine.specs.Effects.{Follows, TakesStep};

use crate::act::Act;
use crate::effects::{give_boolean, give_number, give_sum, give_text};
use crate::frame::Frame;
use crate::kept::Kept;
use crate::rows::names::put_name;
use hz_operators::{
    Content, NumberOperator, Order, TextHalt, UnaryOperator, on_number, on_numbers, push_text,
    to_boolean,
};
use hz_ops::{Held, Operand, tested};
use hz_value::{Memory, Value};
use std::alloc::Global;

/// An operator on two values that become numbers.
fn numbers_into(
    kept: &mut Kept,
    frame: &mut Frame,
    next: u64,
    o: &tested::FromTwo,
    operator: NumberOperator,
) -> Result<Act, Memory>
    ensures { Follows result frame.new kept.new (λ lines. gives next frame.old (world_of lines kept.old) (o.now).to
        (on_numbers (numeric operator) (content_of (store_of kept.old) (o.now).left)
        (content_of (store_of kept.old) (o.now).right))) }
{
    let found = on_numbers(operator, &kept.content(o.left), &kept.content(o.right));
    give_number(kept, frame, next, o.to, found)
}

/// An operator on two values that become numbers.
pub(crate) fn numbers(
    kept: &mut Kept,
    frame: &mut Frame,
    next: u64,
    operands: &[Operand],
    operator: NumberOperator,
) -> Result<Act, Memory>
    ensures { Follows result frame.new kept.new
        (λ lines. binary_row (on_numbers (numeric operator)) next frame.old (world_of lines kept.old) operands.now) }
{
    let Some(o) = tested::from_two(frame.held(), operands) else {
        return Ok(Act::Bad);
    };
    numbers_into(kept, frame, next, &o, operator)
}

/// `+` on two values.
fn sum_into(
    kept: &mut Kept,
    frame: &mut Frame,
    next: u64,
    o: &tested::FromTwo,
) -> Result<Act, Memory>
    ensures { Follows result frame.new kept.new (λ lines. gives next frame.old (world_of lines kept.old) (o.now).to
        (add (content_of (store_of kept.old) (o.now).left) (content_of (store_of kept.old) (o.now).right))) }
{
    let mut text = Vec::new(kept.alloc);
    let found = hz_operators::add(
        kept.alloc,
        &kept.content(o.left),
        &kept.content(o.right),
        &mut text,
    );
    give_sum(kept, frame, next, o.to, found, text)
}

/// Add.
pub(crate) fn sum(
    kept: &mut Kept,
    frame: &mut Frame,
    next: u64,
    operands: &[Operand],
) -> Result<Act, Memory>
    ensures { Follows result frame.new kept.new
        (λ lines. binary_row add next frame.old (world_of lines kept.old) operands.now) }
{
    let Some(o) = tested::from_two(frame.held(), operands) else {
        return Ok(Act::Bad);
    };
    sum_into(kept, frame, next, &o)
}

/// An order between two values.
fn order_into(
    kept: &mut Kept,
    frame: &mut Frame,
    next: u64,
    o: &tested::FromTwo,
    order: Order,
) -> Result<Act, Memory>
    ensures { Follows result frame.new kept.new (λ lines. gives next frame.old (world_of lines kept.old) (o.now).to
        (compared (by_order order) (content_of (store_of kept.old) (o.now).left)
        (content_of (store_of kept.old) (o.now).right))) }
{
    let found = hz_operators::compare(order, &kept.content(o.left), &kept.content(o.right));
    give_boolean(kept, frame, next, o.to, found)
}

/// Less and its kin.
pub(crate) fn order(
    kept: &mut Kept,
    frame: &mut Frame,
    next: u64,
    operands: &[Operand],
    order: Order,
) -> Result<Act, Memory>
    ensures { Follows result frame.new kept.new
        (λ lines. binary_row (compared (by_order order)) next frame.old (world_of lines kept.old) operands.now) }
{
    let Some(o) = tested::from_two(frame.held(), operands) else {
        return Ok(Act::Bad);
    };
    order_into(kept, frame, next, &o, order)
}

/// `==` on two values.
fn equality_into(
    kept: &mut Kept,
    frame: &mut Frame,
    next: u64,
    o: &tested::FromTwo,
) -> Result<Act, Memory>
    ensures { Follows result frame.new kept.new (λ lines. gives next frame.old (world_of lines kept.old) (o.now).to
        (compared loosely_equal (content_of (store_of kept.old) (o.now).left)
        (content_of (store_of kept.old) (o.now).right))) }
{
    let found = hz_operators::loosely_equal(&kept.content(o.left), &kept.content(o.right));
    give_boolean(kept, frame, next, o.to, found)
}

/// Equal.
pub(crate) fn equality(
    kept: &mut Kept,
    frame: &mut Frame,
    next: u64,
    operands: &[Operand],
) -> Result<Act, Memory>
    ensures { Follows result frame.new kept.new
        (λ lines. binary_row (compared loosely_equal) next frame.old (world_of lines kept.old) operands.now) }
{
    let Some(o) = tested::from_two(frame.held(), operands) else {
        return Ok(Act::Bad);
    };
    equality_into(kept, frame, next, &o)
}

/// StrictEqual.
pub(crate) fn strict_equality(
    kept: &Kept,
    frame: &mut Frame,
    next: u64,
    operands: &[Operand],
) -> Act
    ensures { TakesStep result frame.new kept.now
        (λ lines. binary_row (λ u v. Gives (Boolean (strictly_equal u v))) next frame.old (world_of lines kept.now)
        operands.now) }
{
    let Some(o) = tested::from_two(frame.held(), operands) else {
        return Act::Bad;
    };
    let equal = hz_operators::strictly_equal(&kept.content(o.left), &kept.content(o.right));
    frame.put(next, o.to, Held::Value(Value::Bool(equal)));
    Act::Go
}

/// An operator on one value that becomes a number.
fn number_into(
    kept: &mut Kept,
    frame: &mut Frame,
    next: u64,
    o: &tested::FromOne,
    operator: UnaryOperator,
) -> Result<Act, Memory>
    ensures { Follows result frame.new kept.new (λ lines. gives next frame.old (world_of lines kept.old) (o.now).to
        (on_number operator (content_of (store_of kept.old) (o.now).value))) }
{
    let found = on_number(operator, &kept.content(o.value));
    give_number(kept, frame, next, o.to, found)
}

/// An operator on one value that becomes a number.
pub(crate) fn number(
    kept: &mut Kept,
    frame: &mut Frame,
    next: u64,
    operands: &[Operand],
    operator: UnaryOperator,
) -> Result<Act, Memory>
    ensures { Follows result frame.new kept.new
        (λ lines. unary_row (on_number operator) next frame.old (world_of lines kept.old) operands.now) }
{
    let Some(o) = tested::from_one(frame.held(), operands) else {
        return Ok(Act::Bad);
    };
    number_into(kept, frame, next, &o, operator)
}

/// Not.
pub(crate) fn negation(kept: &Kept, frame: &mut Frame, next: u64, operands: &[Operand]) -> Act
    ensures { TakesStep result frame.new kept.now
        (λ lines. unary_row (λ u. Gives (Boolean (not (to_boolean u)))) next frame.old (world_of lines kept.now)
        operands.now) }
{
    let Some(o) = tested::from_one(frame.held(), operands) else {
        return Act::Bad;
    };
    let holds = to_boolean(&kept.content(o.value));
    frame.put(next, o.to, Held::Value(Value::Bool(!holds)));
    Act::Go
}

/// Typeof.
pub(crate) fn type_of(
    kept: &mut Kept,
    frame: &mut Frame,
    next: u64,
    operands: &[Operand],
) -> Result<Act, Memory>
    ensures { Follows result frame.new kept.new
        (λ lines. tested_to frame.old (world_of lines kept.old) (tested.from_one (frame.old).registers operands.now)
        (λ o. puts_content next frame.old (world_of lines kept.old) o.to
        (Text (type_name (store_of kept.old) o.value)))) }
{
    let Some(o) = tested::from_one(frame.held(), operands) else {
        return Ok(Act::Bad);
    };
    let name = kept.type_name(o.value);
    put_name(kept, frame, next, o.to, name)
}

/// The text of a value.
fn text_of(alloc: Global, content: &Content<'_>) -> Result<Vec<u16>, TextHalt>
    ensures { MeansText (λ t. t.items) result (to_text (seen content.now)) }
{
    let mut text = Vec::new(alloc);
    push_text(alloc, &mut text, content)?;
    Ok(text)
}

/// The text of a value.
fn text_into(
    kept: &mut Kept,
    frame: &mut Frame,
    next: u64,
    o: &tested::FromOne,
) -> Result<Act, Memory>
    ensures { Follows result frame.new kept.new (λ lines. gives next frame.old (world_of lines kept.old) (o.now).to
        (and_then (to_text (content_of (store_of kept.old) (o.now).value)) (λ t. Gives (Text t)))) }
{
    let found = text_of(kept.alloc, &kept.content(o.value));
    give_text(kept, frame, next, o.to, found)
}

/// ToText.
pub(crate) fn to_text(
    kept: &mut Kept,
    frame: &mut Frame,
    next: u64,
    operands: &[Operand],
) -> Result<Act, Memory>
    ensures { Follows result frame.new kept.new
        (λ lines. unary_row (λ u. and_then (to_text u) (λ t. Gives (Text t))) next frame.old (world_of lines kept.old)
        operands.now) }
{
    let Some(o) = tested::from_one(frame.held(), operands) else {
        return Ok(Act::Bad);
    };
    text_into(kept, frame, next, &o)
}
