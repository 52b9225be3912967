//! The makers of the properties of object literals (ECMA-262, 13.2.5), by their nonterminals.

pub mod entered;
pub mod keys;
pub mod object;

ghost use Rattle.std.specs.Prelude.{◌≡◌};
ghost use Rattle.hz_parse_expr.specs.declared.make.Group.TheVariants as group;
ghost use Rattle.hz_parse_expr.specs.Groups as spec;
ghost use Rattle.hz_parts.specs.Makes.{Makes, row_of};

use hz_list::Memory;
use hz_parts::{Mark, Numbers, Parts};
use hz_tree::Nonterminal;
use std::alloc::Global;

/// Puts what the row of a mark makes in the place of its parts, where the nonterminal is one of properties. Only memory
/// can fail.
pub fn make_property<N: Numbers>(
    alloc: Global,
    numbers: &N,
    mark: Mark,
    parts: &mut Parts<'_>,
) -> Result<(), Memory>
    requires { spec.group_of mark.nonterminal ≡ group.Property }
    ensures { Makes mark.nonterminal (row_of (N.functions numbers.now) mark) result parts.old parts.new }
{
    let look = mark.look;
    match mark.nonterminal {
        Nonterminal::Props(_) => object::props(alloc, parts, look.one),
        Nonterminal::MoreProps(_) => object::more_props(alloc, parts, look.one),
        Nonterminal::Prop(_) => object::prop(alloc, numbers, parts, look),
        Nonterminal::ShorthandEnd => Ok(()),
        Nonterminal::KeyRest(_) => object::key_rest(numbers, parts, look),
        Nonterminal::Key(_) => keys::key(alloc, parts, look.one),
        _ => unreachable!(),
    }
}
