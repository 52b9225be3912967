// Instructions.
ghost use Rattle.std.specs.Prelude.{◌≡◌, ◌++◌, IsTrue, OnOk, OnErr};
ghost use Rattle.hz_ops.specs.Coding.{fits_of, spelling};

use crate::coding::{encode_into, operands_fit};
use crate::op::{Op, Operand};
use arrayvec::ArrayVec;
use hz_value::Memory;

/// An instruction.
#[derive(Clone, Debug, PartialEq, Eq, Drop)]
pub struct Instr {
    /// Its operation.
    pub op: Op,

    /// Whether it has the long form.
    pub long: bool,

    /// Its operands, in the order in which they are written.
    pub args: ArrayVec<Operand, 5>,
}

impl Instr {
    ghost use Rattle.std.specs.Prelude.{◌≡◌, ◌≤◌, length, true, IsTrue};
    ghost use Rattle.hz_ops.specs.Table.{kinds_of};
    ghost use Rattle.hz_ops.specs.Coding.{operands_fit, instr_of, shortest_of, fits_of};

    /// The instruction of these operands, in the long form or the short one.
    pub fn new(op: Op, long: bool, operands: &[Operand]) -> Instr
        requires { length operands.now ≤ 5 }
        ensures { result ≡ instr_of op long operands.now }
    {
        let mut args = ArrayVec::new();
        for operand in operands {
            args.push(*operand);
        }
        Instr { op, long, args }
    }

    /// The instruction of these operands, in the short form where they fit it, else in the long form.
    pub fn shortest(op: Op, operands: &[Operand]) -> Instr
        requires { length operands.now ≤ 5 }
        ensures value { result ≡ shortest_of op operands.now }
        ensures fits { operands_fit true (kinds_of op) operands.now ≡ true
            → IsTrue (fits_of result) }
    {
        Instr::new(op, !operands_fit(op, false, operands), operands)
    }
}

/// Appends the bytes of the instruction to the code. Where memory runs out the code stays as it was.
pub fn push_instr(code: &mut Vec<u8>, i: &Instr) -> Result<(), Memory>
    requires { IsTrue (fits_of i.now) }
    ensures ok { OnOk result (code.new.items ≡ code.old.items ++ spelling i.now) }
    ensures err { OnErr result (code.new.items ≡ code.old.items) }
{
    let mut bytes = [0; 41];
    let length = encode_into(i, &mut bytes);
    code.extend_from_slice(&bytes[..length])?;
    Ok(())
}
