//! The makers of names, parameters and bodies of functions (ECMA-262, 15), by their nonterminals.

pub mod parameters;

ghost use Rattle.std.specs.Prelude.{◌≡◌, List};
ghost use Rattle.hz_tree.specs.declared.index.FunctionInfo.{FunctionInfo};
ghost use Rattle.hz_parse_expr.specs.declared.make.Group.TheVariants as group;
ghost use Rattle.hz_parse_expr.specs.Groups as spec;
ghost use Rattle.hz_parts.specs.Makes.{Makes, row_of};

use hz_list::Memory;
use hz_parts::{Mark, Parts};
use hz_tree::Nonterminal;
use std::alloc::Global;

/// Puts what the row of a mark makes in the place of its parts, where the nonterminal is one of functions. Only memory
/// can fail.
pub fn make_function(alloc: Global, mark: Mark, parts: &mut Parts<'_>) -> Result<(), Memory>
    requires { spec.group_of mark.nonterminal ≡ group.Function }
    ensures { (functions : List FunctionInfo) → Makes mark.nonterminal (row_of functions mark)
        result parts.old parts.new }
{
    let look = mark.look;
    match mark.nonterminal {
        Nonterminal::Bound(_) => parameters::bound(parts, look),
        Nonterminal::OwnName => parameters::own_name(parts, look.one),
        Nonterminal::Params => parameters::params(parts),
        Nonterminal::Parameters => parameters::parameters(alloc, parts, look.one),
        Nonterminal::MoreParameters => parameters::more_parameters(alloc, parts, look.one),
        Nonterminal::ParameterEnd => Ok(()),
        Nonterminal::Body(_) => parameters::body(parts),
        _ => unreachable!(),
    }
}
