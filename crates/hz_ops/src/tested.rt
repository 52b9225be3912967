// What the operands of a row stand for, once they are tested.
//
// Each call gives None exactly where the operands fail a test: other operands than those of the shape, a register
// that is not there, an integer that is not safe, or a register that holds something else than is asked for.
ghost use Rattle.std.specs.Prelude.{◌≡◌};
ghost use Rattle.hz_ops.specs.code.Operands as tested;

use crate::held::Held;
use crate::op::Operand;
use hz_value::{Safe, Value};

/// A register that is written, and an integer.
#[derive(Clone, Copy, Debug)]
pub struct IntegerInto {
    pub to: u64,
    pub integer: Safe,
}

/// A register that is written, and the number of a text.
#[derive(Clone, Copy, Debug)]
pub struct TextInto {
    pub to: u64,
    pub text: u64,
}

/// A register that is written, and what another holds.
#[derive(Clone, Copy, Debug)]
pub struct HeldInto {
    pub to: u64,
    pub held: Held,
}

/// A register that is written, and a value.
#[derive(Clone, Copy, Debug)]
pub struct FromOne {
    pub to: u64,
    pub value: Value,
}

/// A register that is written, and two values.
#[derive(Clone, Copy, Debug)]
pub struct FromTwo {
    pub to: u64,
    pub left: Value,
    pub right: Value,
}

/// The number of a text, and a value.
#[derive(Clone, Copy, Debug)]
pub struct TextAndValue {
    pub text: u64,
    pub value: Value,
}

/// A binding, None where it is not initialised, and the number of its name's text.
#[derive(Clone, Copy, Debug)]
pub struct NamedBinding {
    pub binding: Option<Value>,
    pub name: u64,
}

/// A value, and the way of a jump.
#[derive(Clone, Copy, Debug)]
pub struct Branching {
    pub value: Value,
    pub way: i64,
}

/// A value, an integer, and the way of a jump.
#[derive(Clone, Copy, Debug)]
pub struct BranchAt {
    pub value: Value,
    pub integer: Safe,
    pub way: i64,
}

/// A register that is written, a callee, its `this`, and where its arguments stand: so many registers in a row, from
/// the first on.
#[derive(Clone, Copy, Debug)]
pub struct CallOperands {
    pub to: u64,
    pub callee: Value,
    pub this: Value,
    pub first: u64,
    pub count: u8,
}

/// What the register holds.
fn held_at(registers: &[Held], r: u64) -> Option<Held>
    ensures { result ≡ tested.held_at registers.now r }
{
    registers.get(r as usize).copied()
}

/// The register, where it is there.
pub fn register(registers: &[Held], r: u64) -> Option<u64>
    ensures { result ≡ tested.register registers.now r }
{
    held_at(registers, r)?;
    Some(r)
}

/// The value that the register holds.
fn value_at(registers: &[Held], r: u64) -> Option<Value>
    ensures { result ≡ tested.value_at registers.now r }
{
    match held_at(registers, r)? {
        Held::Value(value) => Some(value),
        _ => None,
    }
}

/// The binding that the register holds.
fn binding_at(registers: &[Held], r: u64) -> Option<Option<Value>>
    ensures { result ≡ tested.binding_at registers.now r }
{
    match held_at(registers, r)? {
        Held::Value(value) => Some(Some(value)),
        Held::Empty => Some(None),
        _ => None,
    }
}

/// A register that is written.
pub fn into(registers: &[Held], operands: &[Operand]) -> Option<u64>
    ensures { result ≡ tested.into registers.now operands.now }
{
    let [Operand::Register(r)] = operands else {
        return None;
    };
    register(registers, *r)
}

/// A register that is written, and an integer.
pub fn integer_into(registers: &[Held], operands: &[Operand]) -> Option<IntegerInto>
    ensures { result ≡ tested.integer_into registers.now operands.now }
{
    let [Operand::Register(r), Operand::Int(integer)] = operands else {
        return None;
    };
    let to = register(registers, *r)?;
    let integer = Safe::new(*integer)?;
    Some(IntegerInto { to, integer })
}

/// A register that is written, and the number of a text.
pub fn text_into(registers: &[Held], operands: &[Operand]) -> Option<TextInto>
    ensures { result ≡ tested.text_into registers.now operands.now }
{
    let [Operand::Register(r), Operand::Text(text)] = operands else {
        return None;
    };
    let to = register(registers, *r)?;
    Some(TextInto { to, text: *text })
}

/// A register that is written, and what another holds.
pub fn held_into(registers: &[Held], operands: &[Operand]) -> Option<HeldInto>
    ensures { result ≡ tested.held_into registers.now operands.now }
{
    let [Operand::Register(r), Operand::Register(x)] = operands else {
        return None;
    };
    let to = register(registers, *r)?;
    let held = held_at(registers, *x)?;
    Some(HeldInto { to, held })
}

/// A register that is written, and a value.
pub fn from_one(registers: &[Held], operands: &[Operand]) -> Option<FromOne>
    ensures { result ≡ tested.from_one registers.now operands.now }
{
    let [Operand::Register(r), Operand::Register(x)] = operands else {
        return None;
    };
    let to = register(registers, *r)?;
    let value = value_at(registers, *x)?;
    Some(FromOne { to, value })
}

/// A register that is written, and two values.
pub fn from_two(registers: &[Held], operands: &[Operand]) -> Option<FromTwo>
    ensures { result ≡ tested.from_two registers.now operands.now }
{
    let [
        Operand::Register(r),
        Operand::Register(x),
        Operand::Register(y),
    ] = operands
    else {
        return None;
    };
    let to = register(registers, *r)?;
    let left = value_at(registers, *x)?;
    let right = value_at(registers, *y)?;
    Some(FromTwo { to, left, right })
}

/// A call's registers. The first one of the arguments is there also where there is none.
pub fn call_operands(registers: &[Held], operands: &[Operand]) -> Option<CallOperands>
    ensures { result ≡ tested.call_operands registers.now operands.now }
{
    let [
        Operand::Register(r),
        Operand::Register(callee),
        Operand::Register(this),
        Operand::Register(first),
        Operand::Count(count),
    ] = operands
    else {
        return None;
    };
    let to = register(registers, *r)?;
    let callee = value_at(registers, *callee)?;
    let this = value_at(registers, *this)?;
    let first = register(registers, *first)?;
    Some(CallOperands {
        to,
        callee,
        this,
        first,
        count: *count,
    })
}

/// A value.
pub fn value(registers: &[Held], operands: &[Operand]) -> Option<Value>
    ensures { result ≡ tested.value registers.now operands.now }
{
    let [Operand::Register(x)] = operands else {
        return None;
    };
    value_at(registers, *x)
}

/// The number of a text.
pub fn text(operands: &[Operand]) -> Option<u64>
    ensures { result ≡ tested.text operands.now }
{
    let [Operand::Text(text)] = operands else {
        return None;
    };
    Some(*text)
}

/// The number of a text, and a value.
pub fn text_and_value(registers: &[Held], operands: &[Operand]) -> Option<TextAndValue>
    ensures { result ≡ tested.text_and_value registers.now operands.now }
{
    let [Operand::Text(text), Operand::Register(x)] = operands else {
        return None;
    };
    let value = value_at(registers, *x)?;
    Some(TextAndValue { text: *text, value })
}

/// A binding and its name.
pub fn named_binding(registers: &[Held], operands: &[Operand]) -> Option<NamedBinding>
    ensures { result ≡ tested.named_binding registers.now operands.now }
{
    let [Operand::Register(x), Operand::Text(name)] = operands else {
        return None;
    };
    let binding = binding_at(registers, *x)?;
    Some(NamedBinding {
        binding,
        name: *name,
    })
}

/// The way of a jump.
pub fn way(operands: &[Operand]) -> Option<i64>
    ensures { result ≡ tested.way operands.now }
{
    let [Operand::Jump(way)] = operands else {
        return None;
    };
    Some(*way)
}

/// A value, and the way of a jump.
pub fn branch(registers: &[Held], operands: &[Operand]) -> Option<Branching>
    ensures { result ≡ tested.branch registers.now operands.now }
{
    let [Operand::Register(x), Operand::Jump(way)] = operands else {
        return None;
    };
    let value = value_at(registers, *x)?;
    Some(Branching { value, way: *way })
}

/// A value, an integer, and the way of a jump.
pub fn branch_at(registers: &[Held], operands: &[Operand]) -> Option<BranchAt>
    ensures { result ≡ tested.branch_at registers.now operands.now }
{
    let [
        Operand::Register(x),
        Operand::Int(integer),
        Operand::Jump(way),
    ] = operands
    else {
        return None;
    };
    let value = value_at(registers, *x)?;
    let integer = Safe::new(*integer)?;
    Some(BranchAt {
        value,
        integer,
        way: *way,
    })
}
