ghost use Rattle.std.specs.Prelude.{◌≡◌, ℤ, pos, Option};
ghost use Rattle.hz_value.specs.Numbers.{
  IsSafe,
  safe,
  sum_of,
  difference_of,
  product_of,
  quotient_of,
  remainder_of,
  floor_quotient_of,
  truncated_quotient_of,
  quotient_to_int32,
  signed_32,
  unsigned_32,
};

use hz_list::MAX_SAFE;
use std::marker::Model;

const TWO_TO_31: i64 = 2147483648;

const TWO_TO_32: i64 = 4294967296;

/// A number of a script: an integer from -`MAX_SAFE` to `MAX_SAFE`.
#[derive(Clone, Copy, Debug, PartialEq, Eq)]
pub struct Safe {
    value: i64,
}

impl Model for Safe {
    ghost use Rattle.std.specs.Prelude.{ℤ};
    ghost use Rattle.hz_value.specs.Numbers.{IsSafe};

    ghost Value = { ℤ };

    ghost view = { λ s. s.value };

    ghost invariant = { λ s. IsSafe s.value };

    ghost inverse = { λ z. record { value = z } };
}

impl Safe {
    /// The number `v`, or None exactly where it is not safe.
    pub fn new(v: i64) -> Option<Safe>
        ensures { result ≡ safe v }
    {
        if v.unsigned_abs() > MAX_SAFE {
            return None;
        }
        Some(Safe { value: v })
    }

    /// The number as an integer of the machine.
    pub fn get(self) -> i64
        ensures value { result ≡ self }
        ensures in_range { IsSafe self }
    {
        self.value
    }
}

/// The number `value`, or None exactly where it is not safe; for results of an operator on two numbers.
pub fn from_wide(value: i128) -> Option<Safe>
    ensures { result ≡ safe value }
{
    if value.unsigned_abs() > MAX_SAFE as u128 {
        return None;
    }
    Some(Safe {
        value: value as i64,
    })
}

/// `a + b`, or None exactly where that is not safe.
pub fn add(a: Safe, b: Safe) -> Option<Safe>
    ensures { result ≡ sum_of a b }
{
    from_wide(a.value as i128 + b.value as i128)
}

/// `a - b`, or None exactly where that is not safe.
pub fn sub(a: Safe, b: Safe) -> Option<Safe>
    ensures { result ≡ difference_of a b }
{
    from_wide(a.value as i128 - b.value as i128)
}

/// `a * b`, or None exactly where that is not safe.
pub fn mul(a: Safe, b: Safe) -> Option<Safe>
    ensures { result ≡ product_of a b }
{
    from_wide(a.value as i128 * b.value as i128)
}

/// `a / b`, or None exactly where b is 0 or does not divide a.
pub fn div(a: Safe, b: Safe) -> Option<Safe>
    ensures { result ≡ quotient_of a b }
{
    if b.value == 0 || a.value % b.value != 0 {
        return None;
    }
    Some(Safe {
        value: a.value / b.value,
    })
}

/// `a % b`, with the sign of a, or None exactly where b is 0.
pub fn rem(a: Safe, b: Safe) -> Option<Safe>
    ensures { result ≡ remainder_of a b }
{
    if b.value == 0 {
        return None;
    }
    Some(Safe {
        value: a.value % b.value,
    })
}

/// The exact quotient of a by b rounded toward zero, or None exactly where b is 0.
pub fn trunc_quot(a: Safe, b: Safe) -> Option<Safe>
    ensures { result ≡ truncated_quotient_of a b }
{
    if b.value == 0 {
        return None;
    }
    Some(Safe {
        value: a.value / b.value,
    })
}

/// The exact quotient of a by b rounded toward minus infinity, or None exactly where b is 0.
pub fn floor_quot(a: Safe, b: Safe) -> Option<Safe>
    ensures { result ≡ floor_quotient_of a b }
{
    if b.value == 0 {
        return None;
    }
    if b.value < 0 {
        return Some(Safe {
            value: (-a.value).div_euclid(-b.value),
        });
    }
    Some(Safe {
        value: a.value.div_euclid(b.value),
    })
}

/// ToUint32 (ECMA-262, 7.1.7).
pub fn uint32(a: Safe) -> u32
    ensures { pos result ≡ unsigned_32 a }
{
    a.value.rem_euclid(TWO_TO_32) as u32
}

/// ToInt32 (ECMA-262, 7.1.6).
pub fn int32(a: Safe) -> i32
    ensures { result ≡ signed_32 a }
{
    let low = a.value.rem_euclid(TWO_TO_32);
    if low < TWO_TO_31 {
        low as i32
    } else {
        (low - TWO_TO_32) as i32
    }
}

/// `(a / b) | 0`: ToInt32 of the quotient rounded toward zero, and 0 where b is 0.
pub fn quot_or_zero(a: Safe, b: Safe) -> Safe
    ensures { result ≡ quotient_to_int32 a b }
{
    match trunc_quot(a, b) {
        Some(quotient) => Safe {
            value: int32(quotient) as i64,
        },
        None => Safe { value: 0 },
    }
}
