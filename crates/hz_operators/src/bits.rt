// Operators on 32 bits (ECMA-262, 13.9 and 13.12).
ghost use Rattle.std.specs.Prelude.{◌≡◌, ◌≤◌, ◌<◌, ◌%◌, ◌/◌, ◌^◌, pos, unsigned_abs};
ghost use Rattle.std.specs.Int.{w32, int_bit_and, int_bit_or, int_bit_xor, int_bit_not, int_shl, int_shr};
ghost use Rattle.hz_value.specs.Numbers.{signed_32, unsigned_32};
ghost use Rattle.hz_value.specs.operators.Arithmetic.{shift_count};

use hz_value::{Safe, int32, uint32};

/// A number of 32 bits, with a sign or without one.
#[tactic(auto, using(crate::proofs::Safety::small_is_safe))]
pub(crate) fn small(value: i64) -> Safe
    requires { unsigned_abs value ≤ 4294967296 }
    ensures { result ≡ value }
{
    match Safe::new(value) {
        Some(number) => number,
        None => unreachable!(),
    }
}

/// How far a shift moves: modulo 32.
fn shift_count(y: Safe) -> u32
    ensures count { result ≡ shift_count y }
    ensures small { result < 32 }
{
    uint32(y) % 32
}

/// `x & y`.
pub(crate) fn bit_and(x: Safe, y: Safe) -> Safe
    ensures { result ≡ int_bit_and w32 (signed_32 x) (signed_32 y) }
{
    small((int32(x) & int32(y)) as i64)
}

/// `x | y`.
pub(crate) fn bit_or(x: Safe, y: Safe) -> Safe
    ensures { result ≡ int_bit_or w32 (signed_32 x) (signed_32 y) }
{
    small((int32(x) | int32(y)) as i64)
}

/// `x ^ y`.
pub(crate) fn bit_xor(x: Safe, y: Safe) -> Safe
    ensures { result ≡ int_bit_xor w32 (signed_32 x) (signed_32 y) }
{
    small((int32(x) ^ int32(y)) as i64)
}

/// `~x`.
pub(crate) fn bit_not(x: Safe) -> Safe
    ensures { result ≡ int_bit_not w32 (signed_32 x) }
{
    small(!int32(x) as i64)
}

/// `x << y`.
pub(crate) fn shift_left(x: Safe, y: Safe) -> Safe
    ensures { result ≡ int_shl w32 (signed_32 x) (shift_count y) }
{
    small((int32(x) << shift_count(y)) as i64)
}

/// `x >> y`.
pub(crate) fn shift_right(x: Safe, y: Safe) -> Safe
    ensures { result ≡ int_shr (signed_32 x) (shift_count y) }
{
    small((int32(x) >> shift_count(y)) as i64)
}

/// `x >>> y`.
pub(crate) fn shift_right_unsigned(x: Safe, y: Safe) -> Safe
    ensures { result ≡ pos (unsigned_abs (unsigned_32 x) / 2 ^ shift_count y) }
{
    small((uint32(x) >> shift_count(y)) as i64)
}
