//! The makers of operations, of what they are made of, and of lists of expressions, by their nonterminals.

mod arrows;
mod lists;
mod operands;
mod rests;
mod tails;
mod yields;

ghost use Rattle.std.specs.Prelude.{◌≡◌};
ghost use Rattle.hz_parse_expr.specs.declared.make.Group.TheVariants as group;
ghost use Rattle.hz_parse_expr.specs.Groups as spec;
ghost use Rattle.hz_parts.specs.Makes.{Makes, row_of};

use hz_list::Memory;
use hz_parts::{Mark, Numbers, Parts};
use hz_tree::Nonterminal;
use std::alloc::Global;

/// Puts what the row of a mark makes in the place of its parts, where the nonterminal is one of operations. Only memory
/// can fail.
pub fn make_operation<N: Numbers>(
    alloc: Global,
    numbers: &N,
    mark: Mark,
    parts: &mut Parts<'_>,
) -> Result<(), Memory>
    requires { spec.group_of mark.nonterminal ≡ group.Operation }
    ensures { Makes mark.nonterminal (row_of (N.functions numbers.now) mark) result parts.old parts.new }
{
    let look = mark.look;
    match mark.nonterminal {
        Nonterminal::Expr(_) => lists::expr(alloc, parts),
        Nonterminal::ExprRest(_, _) => lists::expr_rest(alloc, parts, look.one),
        Nonterminal::Operation(loosest, context) => {
            operands::operation(alloc, numbers, parts, loosest, context, look)
        }
        Nonterminal::Tails(tailed, loosest, context) => {
            tails::tails(alloc, parts, tailed, loosest, context, look)
        }
        Nonterminal::Rests(loosest, tightest, context) => {
            rests::rests(alloc, parts, loosest, tightest, context, look)
        }
        Nonterminal::ArrowSign => arrows::arrow_sign(parts, look),
        Nonterminal::ArrowBody(_) => Ok(()),
        Nonterminal::YieldValue(_) => yields::yield_value(alloc, parts, look),
        _ => unreachable!(),
    }
}
