// Operands by the kinds that an operation has, in their order.
ghost use Rattle.std.specs.Prelude.{◌≡◌, ◌+◌, ◌*◌, ◌≤◌, ◌++◌, length, take, drop, IsTrue, IfSome, option_map};
ghost use Rattle.hz_ops.specs.Coding.{operands_at, operands_fit, operand_bytes};

use crate::op::{Operand, OperandKind};
use crate::operand::{operand_at, operand_fits, put_operand, size_of};
use arrayvec::ArrayVec;

/// Whether these are operands of these kinds, each with room in its bytes.
pub(crate) fn are_operands(kinds: &[OperandKind], long: bool, args: &[Operand]) -> bool
    ensures { result ≡ operands_fit long kinds.now args.now }
{
    let mut left = args;
    for kind in kinds {
        let [operand, rest @ ..] = left else {
            return false;
        };
        if !operand_fits(size_of(long, *kind), *kind, *operand) {
            return false;
        }
        left = rest;
    }
    left.is_empty()
}

/// The operands of these kinds in front, and the bytes behind them; `None` where there are too few
/// bytes.
pub(crate) fn read_operands<'a>(
    kinds: &[OperandKind],
    long: bool,
    bytes: &'a [u8],
) -> Option<(ArrayVec<Operand, 5>, &'a [u8])>
    requires { length kinds.now ≤ 5 }
    ensures value { option_map (λ r. (r.0.items, r.1.now)) result
        ≡ operands_at long kinds.now bytes.entry.now }
    ensures left { IfSome result (λ r. length r.1.now ≤ length bytes.entry.now) }
{
    let mut args = ArrayVec::new();
    let mut rest = bytes;
    for kind in kinds {
        let (operand, behind) = operand_at(*kind, long, rest)?;
        args.push(operand);
        rest = behind;
    }
    Some((args, rest))
}

/// Writes the operands from this place on, and gives the place behind them.
pub(crate) fn write_operands(
    kinds: &[OperandKind],
    long: bool,
    args: &[Operand],
    buf: &mut [u8],
    start: usize,
) -> usize
    requires few { length kinds.now ≤ 5 }
    requires fits { IsTrue (operands_fit long kinds.now args.now) }
    requires room { start + length (operand_bytes long kinds.now args.now)
        ≤ length buf.old }
    ensures place { result ≡ start + length (operand_bytes long kinds.now args.now) }
    ensures front { take result buf.new ≡ take start buf.old
        ++ operand_bytes long kinds.now args.now }
    ensures back { drop result buf.new ≡ drop result buf.old }
{
    let mut at = start;
    for (i, kind) in kinds.iter().enumerate() {
        at = put_operand(*kind, long, args[i], buf, at);
    }
    at
}
