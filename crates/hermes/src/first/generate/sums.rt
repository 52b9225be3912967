// The code of sums.
ghost use Rattle.std.specs.Prelude.{◌≡◌, ◌<◌, ◌++◌, ◌∷◌, [], true, IsTrue, OnOk, flat_map};
ghost use Rattle.std.specs.List.{list_all};
ghost use Rattle.hz_ops.specs.Table.{kinds_of};
ghost use Rattle.hz_ops.specs.Coding.{operands_fit};
ghost use Rattle.hermes.specs.first.Texts.{is_number, is_term, is_addend, is_sum};
ghost use Rattle.hermes.specs.first.Generated.{load_int, combine, factor_code, term_code, addend_code, sum_code};
ghost use Rattle.hermes.specs.first.Generated.{sign_operation};

use crate::first::generate::instructions::{ARGUMENT, FACTOR, TERM, push};
use crate::first::language::{Addend, Sign, Sum, Term};
use hz_ops::{Op, Operand};
use hz_value::Memory;

/// Appends code that loads the number.
fn push_number(code: &mut Vec<u8>, to: u64, number: u64) -> Result<(), Memory>
    requires { IsTrue (is_number number) }
    ensures { OnOk result (code.new.items ≡ code.old.items ++ load_int to number) }
{
    push(
        code,
        Op::LoadInt,
        &[Operand::Register(to), Operand::Int(number as i64)],
    )
}

/// Appends code that combines the numbers of two registers in the first of them.
fn push_operation(code: &mut Vec<u8>, op: Op, to: u64, from: u64) -> Result<(), Memory>
    requires { let operands =
        Operand.Register to ∷ Operand.Register to ∷ Operand.Register from ∷ [] in
        operands_fit true (kinds_of op) operands ≡ true }
    ensures { OnOk result (code.new.items ≡ code.old.items ++ combine op to from) }
{
    push(
        code,
        op,
        &[
            Operand::Register(to),
            Operand::Register(to),
            Operand::Register(from),
        ],
    )
}

/// Appends code that multiplies the number in a register by each factor.
fn push_factors(code: &mut Vec<u8>, to: u64, factors: &[u64]) -> Result<(), Memory>
    requires { IsTrue (list_all is_number factors.now) }
    ensures { OnOk result
        (code.new.items ≡ code.old.items ++ flat_map (factor_code to) factors.now) }
{
    for number in factors {
        push_number(code, FACTOR, *number)?;
        push_operation(code, Op::Mul, to, FACTOR)?;
    }
    Ok(())
}

/// Appends code that multiplies the term's numbers in a register.
fn push_term(code: &mut Vec<u8>, to: u64, term: &Term) -> Result<(), Memory>
    requires { IsTrue (is_term term.now) }
    ensures { OnOk result (code.new.items ≡ code.old.items ++ term_code to term.now) }
{
    push_number(code, to, term.first)?;
    push_factors(code, to, term.others.as_slice())
}

fn sign_operation(sign: Sign) -> Op
    ensures { result ≡ sign_operation sign }
{
    match sign {
        Sign::Plus => Op::Add,
        Sign::Minus => Op::Sub,
    }
}

/// Appends code that adds the term to the sum, or takes it away.
fn push_addend(code: &mut Vec<u8>, addend: &Addend) -> Result<(), Memory>
    requires { IsTrue (is_addend addend.now) }
    ensures { OnOk result (code.new.items ≡ code.old.items ++ addend_code addend.now) }
{
    push_term(code, TERM, &addend.term)?;
    push_operation(code, sign_operation(addend.sign), ARGUMENT, TERM)
}

fn push_addends(code: &mut Vec<u8>, addends: &[Addend]) -> Result<(), Memory>
    requires { IsTrue (list_all is_addend addends.now) }
    ensures { OnOk result (code.new.items ≡ code.old.items ++ flat_map addend_code addends.now) }
{
    for addend in addends {
        push_addend(code, addend)?;
    }
    Ok(())
}

/// Appends code that adds up the sum in the argument's register.
pub(crate) fn push_sum(code: &mut Vec<u8>, sum: &Sum) -> Result<(), Memory>
    requires { IsTrue (is_sum sum.now) }
    ensures { OnOk result (code.new.items ≡ code.old.items ++ sum_code sum.now) }
{
    push_term(code, ARGUMENT, &sum.first)?;
    push_addends(code, sum.others.as_slice())
}
