//! Primary expressions, with what stands in them and behind them (ECMA-262, 13.2 and 13.3).

ghost use Rattle.std.specs.Prelude.{◌≡◌};
ghost use Rattle.hz_parse_expr.specs.declared.make.Group.TheVariants as group;
ghost use Rattle.hz_parse_expr.specs.Groups as spec;
ghost use Rattle.hz_parts.specs.Makes.{Makes, row_of};

pub mod arguments;
mod brackets;
mod functions;
mod literals;
pub mod members;
mod new;
mod primary;
mod templates;
mod words;

use hz_list::Memory;
use hz_parts::{Mark, Numbers, Parts};
use hz_tree::Nonterminal;
use std::alloc::Global;

/// Puts what the row of a mark makes in the place of its parts. Only memory can fail.
pub fn make_primary<N: Numbers>(
    alloc: Global,
    numbers: &N,
    mark: Mark,
    parts: &mut Parts<'_>,
) -> Result<(), Memory>
    requires { spec.group_of mark.nonterminal ≡ group.Primary }
    ensures { Makes mark.nonterminal (row_of (N.functions numbers.now) mark) result parts.old parts.new }
{
    let look = mark.look;
    match mark.nonterminal {
        Nonterminal::OptionalTail(_) => members::optional_tail(alloc, parts, look.one),
        Nonterminal::Word => Ok(()),
        Nonterminal::Members(_) => members::members(alloc, parts, look.one),
        Nonterminal::NewArgs(_) => members::new_args(alloc, parts, look.one),
        Nonterminal::Args(_) => arguments::args(alloc, parts),
        Nonterminal::Arguments(_) => arguments::arguments(alloc, parts, look.one),
        Nonterminal::MoreArguments(_) => arguments::more_arguments(alloc, parts, look.one),
        Nonterminal::Argument(_) => arguments::argument(alloc, parts, look.one),
        Nonterminal::Primary(_) => primary::primary(alloc, numbers, parts, look),
        Nonterminal::TemplateRest(_) => templates::template_rest(alloc, parts, look.one),
        Nonterminal::Elements(_) => arguments::elements(alloc, parts, look.one),
        Nonterminal::MoreElements(_) => arguments::more_elements(alloc, parts, look.one),
        _ => unreachable!(),
    }
}
