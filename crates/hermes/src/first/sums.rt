// Sums that grow by a number at their end.

ghost use Rattle.std.specs.Prelude.{◌≡◌, ◌++◌, [], ◌∷◌, IfOk, IfErr};
ghost use Rattle.hermes.specs.first.Reading.{steps_of, steps_with};

use crate::first::language::{Addend, FirstFault, Sum, Term};
use crate::first::state::Operator;
use hz_value::Series;
use std::alloc::Global;

/// The sum with one factor more at its end.
fn multiplied(mut sum: Sum, number: u64) -> Result<Sum, FirstFault>
    ensures value { IfOk result (λ s. steps_of s ≡ steps_of sum ++ (Operator.Times, number) ∷ []) }
    ensures memory { IfErr result (λ fault. fault ≡ FirstFault.Memory) }
{
    match sum.others.pop() {
        Some(mut last) => {
            last.term.others.push(number)?;
            sum.others.push(last)?;
            Ok(sum)
        }
        None => {
            sum.first.others.push(number)?;
            Ok(sum)
        }
    }
}

/// The sum with one number more at its end.
fn extended(alloc: Global, mut sum: Sum, operator: Operator, number: u64) -> Result<Sum, FirstFault>
    ensures value { IfOk result (λ s. steps_of s ≡ steps_of sum ++ (operator, number) ∷ []) }
    ensures memory { IfErr result (λ fault. fault ≡ FirstFault.Memory) }
{
    match operator {
        Operator::Sign(sign) => {
            let term = Term {
                first: number,
                others: Series::new(alloc),
            };
            sum.others.push(Addend { sign, term })?;
            Ok(sum)
        }
        Operator::Times => multiplied(sum, number),
    }
}

/// The sum that ends with this number.
pub(crate) fn sum_at(
    alloc: Global,
    before: Option<(Sum, Operator)>,
    number: u64,
) -> Result<Sum, FirstFault>
    ensures value { IfOk result (λ s. steps_of s ≡ steps_with before number) }
    ensures memory { IfErr result (λ fault. fault ≡ FirstFault.Memory) }
{
    match before {
        Some((sum, operator)) => extended(alloc, sum, operator, number),
        None => Ok(Sum {
            first: Term {
                first: number,
                others: Series::new(alloc),
            },
            others: Series::new(alloc),
        }),
    }
}
