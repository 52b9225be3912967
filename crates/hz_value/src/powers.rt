ghost use Rattle.std.specs.Prelude.{◌≡◌, ◌<◌, ◌≤◌, ◌≤ℤ◌, ℤ, pos, unsigned_abs};
ghost use Rattle.std.specs.Int.{int_pow};
ghost use Rattle.hz_value.specs.Numbers.{power_of, safe};

use crate::integers::{Safe, from_wide};

/// `a ** b`, or None exactly where that is not safe, or where b is negative and a is neither 1 nor -1.
/// `0 ** 0` is 1.
pub fn pow(a: Safe, b: Safe) -> Option<Safe>
    ensures { result ≡ power_of a b }
{
    let base = a.get();
    let exponent = b.get();
    if base == 1 || base == -1 {
        return Safe::new(unit_power(base, exponent));
    }
    if exponent < 0 {
        return None;
    }
    if base == 0 {
        return Safe::new(zero_power(exponent));
    }
    large_power(base, exponent)
}

// A power of 1 or -1.
#[tactic(auto, using(crate::proofs::PowerLaws::one_pow))]
fn unit_power(base: i64, exponent: i64) -> i64
    requires { unsigned_abs base ≡ 1 }
    ensures power { result ≡ int_pow base (unsigned_abs exponent) }
    ensures unit { unsigned_abs result ≡ 1 }
{
    if base == 1 || exponent % 2 == 0 {
        1
    } else {
        -1
    }
}

// A power of 0.
#[tactic(auto, using(crate::proofs::PowerLaws::zero_pow))]
fn zero_power(exponent: i64) -> i64
    requires { pos 0 ≤ℤ exponent }
    ensures { result ≡ int_pow (pos 0) (unsigned_abs exponent) }
{
    if exponent == 0 { 1 } else { 0 }
}

// A power of another base. With an exponent above 60 it is not safe; below that it is found in 128 bits.
#[tactic(auto, using(crate::proofs::PowerLaws::large_pow))]
fn large_power(base: i64, exponent: i64) -> Option<Safe>
    requires base { 1 < unsigned_abs base }
    requires exponent { pos 0 ≤ℤ exponent }
    ensures { result ≡ safe (int_pow base (unsigned_abs exponent)) }
{
    if exponent > 60 {
        return None;
    }
    match (base as i128).checked_pow(exponent as u32) {
        Some(power) => from_wide(power),
        None => None,
    }
}
