// The registers of the code, and its instructions.
ghost use Rattle.std.specs.Prelude.{◌≡◌, ◌≤◌, ◌++◌, true, length, OnOk};
ghost use Rattle.hz_ops.specs.Table.{kinds_of};
ghost use Rattle.hz_ops.specs.Coding.{operands_fit};
ghost use Rattle.hermes.specs.first.Generated.{bytes_of};

use hz_ops::{Instr, Op, Operand, push_instr};
use hz_value::Memory;

/// The register of the callee, and later of the call's result.
pub(crate) const CALLEE: u64 = 0;

/// The register of `this`.
pub(crate) const THIS: u64 = 1;

/// The register of the argument, where a sum is added up.
pub(crate) const ARGUMENT: u64 = 2;

/// The register where a term is multiplied.
pub(crate) const TERM: u64 = 3;

/// The register of a factor.
pub(crate) const FACTOR: u64 = 4;

/// How many registers there are.
pub(crate) const REGISTERS: u16 = 5;

/// Appends the instruction, in the short form where the operands fit it.
#[tactic(auto, unfolding(crate::specs::first::Generated::bytes_of))]
pub(crate) fn push(code: &mut Vec<u8>, op: Op, operands: &[Operand]) -> Result<(), Memory>
    requires few { length operands.now ≤ 5 }
    requires fits { operands_fit true (kinds_of op) operands.now ≡ true }
    ensures { OnOk result (code.new.items ≡ code.old.items ++ bytes_of op operands.now) }
{
    push_instr(code, &Instr::shortest(op, operands))
}
