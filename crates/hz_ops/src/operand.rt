// One operand: its bytes, and the operand that bytes stand for.
ghost use Rattle.std.specs.Prelude.{◌≡◌, ◌+◌, ◌*◌, ◌^◌, ◌<◌, ◌≤◌, ◌++◌, length, take, drop, IsTrue, option_map};
ghost use Rattle.std.specs.Int.{to_le_bytes, cast_signed, cast_unsigned};
ghost use Rattle.hz_ops.specs.Sizes.{width, byte_count};
ghost use Rattle.hz_ops.specs.Coding.{size_of, operand_of, number_of, unsigned_fits, signed_fits, operand_fits, operand_at};

use crate::number::{Size, number_at, put_number};
use crate::op::{Operand, OperandKind};

/// How many bytes an operand of this kind takes, in the long form or the short one.
#[inline(always)]
pub(crate) fn size_of(long: bool, kind: OperandKind) -> Size
    ensures { result ≡ size_of long kind }
{
    match (long, kind) {
        (_, OperandKind::Count) => Size::One,
        (true, _) => Size::Eight,
        (false, OperandKind::Register | OperandKind::Int) => Size::One,
        (false, _) => Size::Two,
    }
}

fn unsigned_fits(size: Size, number: u64) -> bool
    ensures { result ≡ unsigned_fits size number }
{
    match size {
        Size::One => number < 1 << 8,
        Size::Two => number < 1 << 16,
        Size::Eight => true,
    }
}

fn signed_fits(size: Size, number: i64) -> bool
    ensures { result ≡ signed_fits size number }
{
    match size {
        Size::One => -128 <= number && number < 128,
        Size::Two => -32768 <= number && number < 32768,
        Size::Eight => true,
    }
}

/// Whether the operand is of this kind, and has room in so many bytes.
pub(crate) fn operand_fits(size: Size, kind: OperandKind, operand: Operand) -> bool
    ensures { result ≡ operand_fits size kind operand }
{
    match (kind, operand) {
        (OperandKind::Register, Operand::Register(n)) => unsigned_fits(size, n),
        (OperandKind::Slot, Operand::Slot(n)) => unsigned_fits(size, n),
        (OperandKind::Text, Operand::Text(n)) => unsigned_fits(size, n),
        (OperandKind::Function, Operand::Function(n)) => unsigned_fits(size, n),
        (OperandKind::Int, Operand::Int(z)) => signed_fits(size, z),
        (OperandKind::Jump, Operand::Jump(z)) => signed_fits(size, z),
        (OperandKind::Count, Operand::Count(n)) => unsigned_fits(size, n as u64),
        _ => false,
    }
}

/// The signed number whose two's complement in so many bytes is this one.
#[inline(always)]
fn signed(size: Size, number: u64) -> i64
    requires { number < 2 ^ (8 * byte_count size) }
    ensures { result ≡ cast_signed (width size) number }
{
    match size {
        Size::One => (number as u8).cast_signed() as i64,
        Size::Two => (number as u16).cast_signed() as i64,
        Size::Eight => number.cast_signed(),
    }
}

/// The two's complement of this number in so many bytes.
fn unsigned(size: Size, number: i64) -> u64
    requires { IsTrue (signed_fits size number) }
    ensures { result ≡ cast_unsigned (width size) number }
{
    match size {
        Size::One => (number as i8).cast_unsigned() as u64,
        Size::Two => (number as i16).cast_unsigned() as u64,
        Size::Eight => number.cast_unsigned(),
    }
}

/// The operand of this kind that the number in so many bytes stands for.
#[inline(always)]
fn operand_of(kind: OperandKind, size: Size, number: u64) -> Operand
    requires fits { number < 2 ^ (8 * byte_count size) }
    requires count { kind ≡ OperandKind.Count → number < 256 }
    ensures { result ≡ operand_of kind size number }
{
    match kind {
        OperandKind::Register => Operand::Register(number),
        OperandKind::Slot => Operand::Slot(number),
        OperandKind::Text => Operand::Text(number),
        OperandKind::Function => Operand::Function(number),
        OperandKind::Int => Operand::Int(signed(size, number)),
        OperandKind::Jump => Operand::Jump(signed(size, number)),
        OperandKind::Count => Operand::Count(number as u8),
    }
}

/// The number in so many bytes that stands for this operand.
fn number_of(size: Size, kind: OperandKind, operand: Operand) -> u64
    requires { IsTrue (operand_fits size kind operand) }
    ensures value { result ≡ number_of size operand }
    ensures fits { result < 2 ^ (8 * byte_count size) }
{
    match operand {
        Operand::Register(n) => n,
        Operand::Slot(n) => n,
        Operand::Text(n) => n,
        Operand::Function(n) => n,
        Operand::Int(z) => unsigned(size, z),
        Operand::Jump(z) => unsigned(size, z),
        Operand::Count(n) => n as u64,
    }
}

/// The operand of this kind in front, and the bytes behind it; `None` where there are too few bytes.
#[inline(always)]
pub(crate) fn operand_at(kind: OperandKind, long: bool, bytes: &[u8]) -> Option<(Operand, &[u8])>
    ensures value { option_map (λ r. (r.0, r.1.now)) result ≡ operand_at long kind bytes.now }
{
    let size = size_of(long, kind);
    let (number, rest) = number_at(size, bytes)?;
    Some((operand_of(kind, size, number), rest))
}

/// Writes the operand at this place, and gives the place behind it.
pub(crate) fn put_operand(
    kind: OperandKind,
    long: bool,
    operand: Operand,
    buf: &mut [u8],
    at: usize,
) -> usize
    requires fits { IsTrue (operand_fits (size_of long kind) kind operand) }
    requires room { at + byte_count (size_of long kind) ≤ length buf.old }
    ensures place { result ≡ at + byte_count (size_of long kind) }
    ensures front { take result buf.new ≡ take at buf.old
        ++ to_le_bytes (width (size_of long kind)) (number_of (size_of long kind) operand) }
    ensures back { drop result buf.new ≡ drop result buf.old }
{
    let size = size_of(long, kind);
    put_number(size, number_of(size, kind, operand), buf, at)
}
