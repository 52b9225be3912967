// Instructions as bytes.
ghost use Rattle.std.specs.Prelude.{◌≡◌, ℕ, ◌+◌, ◌*◌, ◌≤◌, ◌++◌, List, length, take, drop, IsTrue, IfSome, Some, option_map};
ghost use Rattle.hz_ops.specs.Table.{kinds_of};
ghost use Rattle.hz_ops.specs.Coding.{operands_at, operands_fit, operand_bytes, first_byte, front, decode_at, spelling, fits_of};

use crate::instr::Instr;
use crate::op::{Op, Operand};
use crate::shape::{are_operands, read_operands, write_operands};
use crate::table::{kinds_of, number_of, op_at};
use arrayvec::ArrayVec;

/// Whether the operands have the shape of the operation, and each fits the form.
pub fn fits(i: &Instr) -> bool
    ensures { result ≡ fits_of i.now }
{
    operands_fit(i.op, i.long, i.args.as_slice())
}

/// Writes the instruction at the front of `buf`, leaves the rest, and gives the length in bytes.
pub fn encode_into(i: &Instr, buf: &mut [u8]) -> usize
    requires fits { IsTrue (fits_of i.now) }
    requires room { 41 ≤ length buf.old }
    ensures length { result ≡ length (spelling i.now) }
    ensures most { result ≤ 41 }
    ensures bytes { buf.new ≡ spelling i.now ++ drop (length (spelling i.now)) buf.old }

    // What was written is read again, whatever follows.
    ensures again { (rest : List ℕ)
        → front (spelling i.now ++ rest) ≡ Some (i.now, length (spelling i.now)) }
{
    buf[0] = first_byte(i.long, i.op);
    put_operands(i.op, i.long, i.args.as_slice(), buf)
}

/// The instruction at this place, and its length in bytes; `None` exactly where no whole instruction
/// stands there, as at the end and past it.
pub fn decode(bytes: &[u8], at: usize) -> Option<(Instr, usize)>
    ensures value { result ≡ decode_at bytes.now at }

    // What is read is written as the same bytes.
    ensures written { IfSome result
        (λ r. IsTrue (fits_of r.0) × (take r.1 (drop at bytes.now) ≡ spelling r.0)) }
{
    instruction_at(bytes, at)
}

#[inline(always)]
fn instruction_at(bytes: &[u8], at: usize) -> Option<(Instr, usize)>
    ensures { result ≡ decode_at bytes.now at }
{
    if at > bytes.len() {
        return None;
    }
    front(&bytes[at..])
}

/// The instruction in front, and its length.
#[inline(always)]
fn front(bytes: &[u8]) -> Option<(Instr, usize)>
    ensures { result ≡ front bytes.now }
{
    let [first, operands @ ..] = bytes else {
        return None;
    };
    let op = op_at(*first % 128)?;
    let long = *first >= 128;
    let (args, rest) = operands_at(op, long, operands)?;
    Some((Instr { op, long, args }, bytes.len() - rest.len()))
}

fn first_byte(long: bool, op: Op) -> u8
    ensures { result ≡ first_byte long op }
{
    if long {
        number_of(op) + 128
    } else {
        number_of(op)
    }
}

/// The operands of this operation in front, and the bytes behind them.
#[inline(always)]
fn operands_at(op: Op, long: bool, bytes: &[u8]) -> Option<(ArrayVec<Operand, 5>, &[u8])>
    ensures value { option_map (λ r. (r.0.items, r.1.now)) result
        ≡ operands_at long (kinds_of op) bytes.now }
    ensures left { IfSome result (λ r. length r.1.now ≤ length bytes.now) }
{
    read_operands(kinds_of(op), long, bytes)
}

/// Whether these are the operation's operands, each with room in its bytes.
pub(crate) fn operands_fit(op: Op, long: bool, args: &[Operand]) -> bool
    ensures { result ≡ operands_fit long (kinds_of op) args.now }
{
    are_operands(kinds_of(op), long, args)
}

/// Writes the operands behind the first byte, and gives the place behind them.
fn put_operands(op: Op, long: bool, args: &[Operand], buf: &mut [u8]) -> usize
    requires fits { IsTrue (operands_fit long (kinds_of op) args.now) }
    requires room { 1 + length (operand_bytes long (kinds_of op) args.now) ≤ length buf.old }
    ensures place { result ≡ 1 + length (operand_bytes long (kinds_of op) args.now) }
    ensures front { take result buf.new ≡ take 1 buf.old
        ++ operand_bytes long (kinds_of op) args.now }
    ensures back { drop result buf.new ≡ drop result buf.old }
{
    write_operands(kinds_of(op), long, args, buf, 1)
}
