// One instruction: its row, by the class of its operation.
ghost use Rattle.std.specs.Prelude.{◌≡◌, ◌<◌, ◌^◌, ℕ};
ghost use Rattle.hz_ops.specs.code.Rows.{row};
ghost use Rattle.hz_machine.specs.Kept.{world_of};
ghost use Rattle.hz_machine.specs.Effects.{Follows, TakesStep};
ghost use Rattle.hz_machine.specs.Classes.{class_of};
ghost use Rattle.hz_machine.specs.declared.rows.dispatch.Class.TheVariants as class;

use crate::act::Act;
use crate::code::Code;
use crate::frame::Frame;
use crate::kept::Kept;
use crate::rows::jumps::{self, Test};
use crate::rows::{ends, loads, names, operators};
use hz_operators::{NumberOperator, Order, UnaryOperator};
use hz_ops::{Held, Op, Operand};
use hz_value::{Memory, Value};

/// A class of operations.
#[derive(Clone, Copy, Debug, PartialEq, Eq)]
pub enum Class {
    Load,
    Name,
    Number,
    Operator,
    Jump,
    End,
}

/// The class of the operation.
fn class_of(op: Op) -> Class
    ensures { result ≡ class_of op }
{
    match op {
        Op::LoadUndefined
        | Op::LoadNull
        | Op::LoadTrue
        | Op::LoadFalse
        | Op::LoadEmpty
        | Op::LoadInt
        | Op::Move => Class::Load,
        Op::LoadString
        | Op::CheckInit
        | Op::ThrowConst
        | Op::LoadGlobal
        | Op::TypeofGlobal
        | Op::StoreGlobal
        | Op::DeclareGlobal => Class::Name,
        Op::Sub
        | Op::Mul
        | Op::Div
        | Op::Rem
        | Op::Pow
        | Op::And
        | Op::Or
        | Op::Xor
        | Op::Shl
        | Op::Sar
        | Op::Shr
        | Op::Quot => Class::Number,
        Op::Jump
        | Op::JumpTrue
        | Op::JumpFalse
        | Op::JumpNullish
        | Op::JumpUndefined
        | Op::JumpIs => Class::Jump,
        Op::Return | Op::Throw | Op::Call => Class::End,
        _ => Class::Operator,
    }
}

fn load_row<C: Code>(
    kept: &Kept,
    frame: &mut Frame,
    code: &C,
    next: u64,
    operands: &[Operand],
    op: Op,
) -> Act
    requires { class_of op ≡ class.Load }
    ensures { TakesStep result frame.new kept.now
        (λ lines. row (C.program code.now) next frame.old (world_of lines kept.now) operands.now op) }
{
    match op {
        Op::LoadUndefined => {
            loads::load(kept, frame, next, operands, Held::Value(Value::Undefined))
        }
        Op::LoadNull => loads::load(kept, frame, next, operands, Held::Value(Value::Null)),
        Op::LoadTrue => loads::load(kept, frame, next, operands, Held::Value(Value::Bool(true))),
        Op::LoadFalse => loads::load(kept, frame, next, operands, Held::Value(Value::Bool(false))),
        Op::LoadEmpty => loads::load(kept, frame, next, operands, Held::Empty),
        Op::LoadInt => loads::load_int(kept, frame, next, operands),
        Op::Move => loads::move_held(kept, frame, next, operands),
        _ => unreachable!(),
    }
}

fn name_row<C: Code>(
    kept: &mut Kept,
    frame: &mut Frame,
    code: &C,
    next: u64,
    operands: &[Operand],
    op: Op,
) -> Result<Act, Memory>
    requires { class_of op ≡ class.Name }
    ensures { Follows result frame.new kept.new
        (λ lines. row (C.program code.now) next frame.old (world_of lines kept.old) operands.now op) }
{
    match op {
        Op::LoadString => names::load_string(kept, frame, code, next, operands),
        Op::CheckInit => names::check_init(kept, frame, code, next, operands),
        Op::ThrowConst => names::throw_const(kept, frame, code, operands),
        Op::LoadGlobal => names::load_global(kept, frame, code, next, operands),
        Op::TypeofGlobal => names::typeof_global(kept, frame, code, next, operands),
        Op::StoreGlobal => names::store_global(kept, frame, code, next, operands),
        Op::DeclareGlobal => names::declare_global(kept, frame, code, next, operands),
        _ => unreachable!(),
    }
}

fn number_row<C: Code>(
    kept: &mut Kept,
    frame: &mut Frame,
    code: &C,
    next: u64,
    operands: &[Operand],
    op: Op,
) -> Result<Act, Memory>
    requires { class_of op ≡ class.Number }
    ensures { Follows result frame.new kept.new
        (λ lines. row (C.program code.now) next frame.old (world_of lines kept.old) operands.now op) }
{
    match op {
        Op::Sub => operators::numbers(kept, frame, next, operands, NumberOperator::Difference),
        Op::Mul => operators::numbers(kept, frame, next, operands, NumberOperator::Product),
        Op::Div => operators::numbers(kept, frame, next, operands, NumberOperator::Quotient),
        Op::Rem => operators::numbers(kept, frame, next, operands, NumberOperator::Remainder),
        Op::Pow => operators::numbers(kept, frame, next, operands, NumberOperator::Power),
        Op::And => operators::numbers(kept, frame, next, operands, NumberOperator::And),
        Op::Or => operators::numbers(kept, frame, next, operands, NumberOperator::Or),
        Op::Xor => operators::numbers(kept, frame, next, operands, NumberOperator::Xor),
        Op::Shl => operators::numbers(kept, frame, next, operands, NumberOperator::ShiftLeft),
        Op::Sar => operators::numbers(kept, frame, next, operands, NumberOperator::ShiftRight),
        Op::Shr => {
            operators::numbers(
                kept,
                frame,
                next,
                operands,
                NumberOperator::ShiftRightUnsigned,
            )
        }
        Op::Quot => operators::numbers(
            kept,
            frame,
            next,
            operands,
            NumberOperator::QuotientToInt32,
        ),
        _ => unreachable!(),
    }
}

fn operator_row<C: Code>(
    kept: &mut Kept,
    frame: &mut Frame,
    code: &C,
    next: u64,
    operands: &[Operand],
    op: Op,
) -> Result<Act, Memory>
    requires { class_of op ≡ class.Operator }
    ensures { Follows result frame.new kept.new
        (λ lines. row (C.program code.now) next frame.old (world_of lines kept.old) operands.now op) }
{
    match op {
        Op::Add => operators::sum(kept, frame, next, operands),
        Op::Neg => operators::number(kept, frame, next, operands, UnaryOperator::Negate),
        Op::BitNot => operators::number(kept, frame, next, operands, UnaryOperator::BitNot),
        Op::ToNumber => operators::number(kept, frame, next, operands, UnaryOperator::Same),
        Op::Inc => operators::number(kept, frame, next, operands, UnaryOperator::Increment),
        Op::Dec => operators::number(kept, frame, next, operands, UnaryOperator::Decrement),
        Op::Not => Ok(operators::negation(kept, frame, next, operands)),
        Op::Typeof => operators::type_of(kept, frame, next, operands),
        Op::ToText => operators::to_text(kept, frame, next, operands),
        Op::Equal => operators::equality(kept, frame, next, operands),
        Op::StrictEqual => Ok(operators::strict_equality(kept, frame, next, operands)),
        Op::Less => operators::order(kept, frame, next, operands, Order::Less),
        Op::LessEqual => operators::order(kept, frame, next, operands, Order::LessOrEqual),
        Op::Greater => operators::order(kept, frame, next, operands, Order::Greater),
        Op::GreaterEqual => operators::order(kept, frame, next, operands, Order::GreaterOrEqual),
        _ => unreachable!(),
    }
}

fn jump_row<C: Code>(
    kept: &mut Kept,
    frame: &mut Frame,
    code: &C,
    next: u64,
    operands: &[Operand],
    op: Op,
) -> Act
    requires class { class_of op ≡ class.Jump }
    requires place { (frame.old).place < 2 ^ 63 }
    ensures { TakesStep result frame.new kept.new
        (λ lines. row (C.program code.now) next frame.old (world_of lines kept.old) operands.now op) }
{
    match op {
        Op::Jump => jumps::jump(kept, frame, operands),
        Op::JumpTrue => jumps::branch(kept, frame, next, operands, Test::True),
        Op::JumpFalse => jumps::branch(kept, frame, next, operands, Test::False),
        Op::JumpNullish => jumps::branch(kept, frame, next, operands, Test::Nullish),
        Op::JumpUndefined => jumps::branch(kept, frame, next, operands, Test::Undefined),
        Op::JumpIs => jumps::jump_is(kept, frame, next, operands),
        _ => unreachable!(),
    }
}

fn end_row<C: Code>(
    kept: &Kept,
    frame: &Frame,
    code: &C,
    operands: &[Operand],
    op: Op,
) -> Result<Act, Memory>
    requires { class_of op ≡ class.End }
    ensures { (next : ℕ) → Follows result frame.now kept.now
        (λ lines. row (C.program code.now) next frame.now (world_of lines kept.now) operands.now op) }
{
    match op {
        Op::Return => Ok(ends::return_value(kept, frame, operands)),
        Op::Throw => Ok(ends::throw_value(kept, frame, operands)),
        Op::Call => ends::call(kept, frame, operands),
        _ => unreachable!(),
    }
}

/// The row of the operation, where `next` is the place behind its instruction.
pub(crate) fn row<C: Code>(
    kept: &mut Kept,
    frame: &mut Frame,
    code: &C,
    next: u64,
    operands: &[Operand],
    op: Op,
) -> Result<Act, Memory>
    requires { (frame.old).place < 2 ^ 63 }
    ensures { Follows result frame.new kept.new
        (λ lines. row (C.program code.now) next frame.old (world_of lines kept.old) operands.now op) }
{
    match class_of(op) {
        Class::Load => Ok(load_row(kept, frame, code, next, operands, op)),
        Class::Name => name_row(kept, frame, code, next, operands, op),
        Class::Number => number_row(kept, frame, code, next, operands, op),
        Class::Operator => operator_row(kept, frame, code, next, operands, op),
        Class::Jump => Ok(jump_row(kept, frame, code, next, operands, op)),
        Class::End => end_row(kept, frame, code, operands, op),
    }
}
