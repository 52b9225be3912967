//! The makers by their nonterminals.

ghost use Rattle.std.specs.Prelude.{◌≡◌, true};
ghost use Rattle.hz_parts.specs.Makes.{Makes, row_of};
ghost use Rattle.hz_parse_expr.specs.Groups as spec;

use crate::functions::make_function;
use crate::operations::make_operation;
use crate::primaries::make_primary;
use crate::properties::make_property;
use hz_list::Memory;
use hz_parts::{Mark, Numbers, Parts};
use hz_tree::Nonterminal;
use std::alloc::Global;

/// Which makers a nonterminal belongs to.
#[derive(Clone, Copy)]
enum Group {
    Operation,
    Primary,
    Property,
    Function,

    /// Those of statements, which are none of these.
    Other,
}

/// Puts what the row of a mark makes in the place of its parts, where the nonterminal is one of expressions or of the
/// functions in them. Only memory can fail.
pub fn make_expression<N: Numbers>(
    alloc: Global,
    numbers: &N,
    mark: Mark,
    parts: &mut Parts<'_>,
) -> Result<(), Memory>
    ensures { spec.of_expression mark.nonterminal ≡ true
        → Makes mark.nonterminal (row_of (N.functions numbers.now) mark) result parts.old parts.new }
{
    match group_of(mark.nonterminal) {
        Group::Operation => make_operation(alloc, numbers, mark, parts),
        Group::Primary => make_primary(alloc, numbers, mark, parts),
        Group::Property => make_property(alloc, numbers, mark, parts),
        Group::Function => make_function(alloc, mark, parts),
        Group::Other => Ok(()),
    }
}

fn group_of(nonterminal: Nonterminal) -> Group
    ensures { result ≡ spec.group_of nonterminal }
{
    match nonterminal {
        Nonterminal::Expr(_)
        | Nonterminal::ExprRest(_, _)
        | Nonterminal::Operation(_, _)
        | Nonterminal::Tails(_, _, _)
        | Nonterminal::Rests(_, _, _)
        | Nonterminal::ArrowSign
        | Nonterminal::ArrowBody(_)
        | Nonterminal::YieldValue(_) => Group::Operation,
        Nonterminal::OptionalTail(_)
        | Nonterminal::Word
        | Nonterminal::Members(_)
        | Nonterminal::NewArgs(_)
        | Nonterminal::Args(_)
        | Nonterminal::Arguments(_)
        | Nonterminal::MoreArguments(_)
        | Nonterminal::Argument(_)
        | Nonterminal::Primary(_)
        | Nonterminal::TemplateRest(_)
        | Nonterminal::Elements(_)
        | Nonterminal::MoreElements(_) => Group::Primary,
        Nonterminal::Props(_)
        | Nonterminal::MoreProps(_)
        | Nonterminal::Prop(_)
        | Nonterminal::ShorthandEnd
        | Nonterminal::KeyRest(_)
        | Nonterminal::Key(_) => Group::Property,
        Nonterminal::Bound(_)
        | Nonterminal::OwnName
        | Nonterminal::Params
        | Nonterminal::Parameters
        | Nonterminal::MoreParameters
        | Nonterminal::ParameterEnd
        | Nonterminal::Body(_) => Group::Function,
        Nonterminal::Script
        | Nonterminal::Items(_)
        | Nonterminal::Item(_)
        | Nonterminal::Binds(_, _)
        | Nonterminal::Bind(_, _)
        | Nonterminal::MoreBinds(_, _)
        | Nonterminal::Initial(_, _)
        | Nonterminal::Semi
        | Nonterminal::LooseSemi
        | Nonterminal::Statement(_)
        | Nonterminal::Block(_)
        | Nonterminal::Else(_)
        | Nonterminal::Label(_)
        | Nonterminal::ReturnValue(_)
        | Nonterminal::ThrowValue(_)
        | Nonterminal::Clauses(_, _)
        | Nonterminal::Handlers(_)
        | Nonterminal::CatchClause(_)
        | Nonterminal::CatchName
        | Nonterminal::Finally(_)
        | Nonterminal::ForOpen
        | Nonterminal::Head(_)
        | Nonterminal::DeclaredHead(_, _)
        | Nonterminal::LeftHead(_)
        | Nonterminal::OptionalExpr(_) => Group::Other,
    }
}
