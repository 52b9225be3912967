//! The makers by their nonterminals.

ghost use Rattle.std.specs.Prelude.{◌≡◌, List};
ghost use Rattle.hz_tree.specs.declared.index.FunctionInfo.{FunctionInfo};
ghost use Rattle.hz_parse_stmt.specs.declared.make.Group.TheVariants as group;
ghost use Rattle.hz_parse_stmt.specs.Groups as spec;
ghost use Rattle.hz_parts.specs.Makes.{Makes, row_of};

use crate::{handlers, heads, items, statements, variables};
use hz_list::Memory;
use hz_parse_expr::make_expression;
use hz_parts::{Mark, Numbers, Parts};
use hz_tree::Nonterminal;
use std::alloc::Global;

/// Which makers a nonterminal belongs to.
#[derive(Clone, Copy)]
enum Group {
    Item,
    Statement,
    Head,

    /// Those of expressions and functions, which are none of these.
    Other,
}

/// Puts what the row of a mark makes in the place of its parts: the rows of statements are made here, the others by the
/// makers of expressions. Only memory can fail.
pub fn make_row<N: Numbers>(
    alloc: Global,
    numbers: &N,
    mark: Mark,
    parts: &mut Parts<'_>,
) -> Result<(), Memory>
    ensures { Makes mark.nonterminal (row_of (N.functions numbers.now) mark) result parts.old parts.new }
{
    match group_of(mark.nonterminal) {
        Group::Item => make_item(alloc, numbers, mark, parts),
        Group::Statement => make_own_statement(alloc, mark, parts),
        Group::Head => make_head(alloc, mark, parts),
        Group::Other => make_expression(alloc, numbers, mark, parts),
    }
}

fn group_of(nonterminal: Nonterminal) -> Group
    ensures { result ≡ spec.group_of nonterminal }
{
    match nonterminal {
        Nonterminal::Script
        | Nonterminal::Items(_)
        | Nonterminal::Item(_)
        | Nonterminal::Binds(_, _)
        | Nonterminal::Bind(_, _)
        | Nonterminal::MoreBinds(_, _)
        | Nonterminal::Initial(_, _)
        | Nonterminal::Semi
        | Nonterminal::LooseSemi => Group::Item,
        Nonterminal::Statement(_)
        | Nonterminal::Block(_)
        | Nonterminal::Else(_)
        | Nonterminal::Label(_)
        | Nonterminal::ReturnValue(_)
        | Nonterminal::ThrowValue(_)
        | Nonterminal::Clauses(_, _)
        | Nonterminal::Handlers(_)
        | Nonterminal::CatchClause(_)
        | Nonterminal::CatchName
        | Nonterminal::Finally(_) => Group::Statement,
        Nonterminal::ForOpen
        | Nonterminal::Head(_)
        | Nonterminal::DeclaredHead(_, _)
        | Nonterminal::LeftHead(_)
        | Nonterminal::OptionalExpr(_) => Group::Head,
        _ => Group::Other,
    }
}

/// Items and declarations.
fn make_item<N: Numbers>(
    alloc: Global,
    numbers: &N,
    mark: Mark,
    parts: &mut Parts<'_>,
) -> Result<(), Memory>
    requires { spec.group_of mark.nonterminal ≡ group.Item }
    ensures { Makes mark.nonterminal (row_of (N.functions numbers.now) mark) result parts.old parts.new }
{
    let look = mark.look;
    match mark.nonterminal {
        Nonterminal::Script => items::script(parts),
        Nonterminal::Items(_) => items::items(alloc, parts, look.one),
        Nonterminal::Item(_) => items::item(numbers, parts, look),
        Nonterminal::Binds(word, _) => variables::binds(parts, word),
        Nonterminal::Bind(word, _) => variables::bind(parts, word),
        Nonterminal::MoreBinds(word, _) => variables::more_binds(alloc, parts, word, look.one),
        Nonterminal::Initial(word, _) => variables::initial(alloc, parts, word, look.one),
        Nonterminal::Semi => variables::semi(parts, look),
        Nonterminal::LooseSemi => variables::loose_semi(parts, look.one),
        _ => unreachable!(),
    }
}

/// Statements and parts of them.
fn make_own_statement(alloc: Global, mark: Mark, parts: &mut Parts<'_>) -> Result<(), Memory>
    requires { spec.group_of mark.nonterminal ≡ group.Statement }
    ensures { (functions : List FunctionInfo) → Makes mark.nonterminal (row_of functions mark)
        result parts.old parts.new }
{
    let look = mark.look;
    match mark.nonterminal {
        Nonterminal::Statement(_) => statements::statement(alloc, parts, look),
        Nonterminal::Block(_) => statements::block(parts),
        Nonterminal::Else(_) => statements::otherwise(alloc, parts, look.one),
        Nonterminal::Label(jump) => statements::label(parts, jump, look),
        Nonterminal::ReturnValue(_) => statements::return_value(alloc, parts, look),
        Nonterminal::ThrowValue(_) => Ok(()),
        Nonterminal::Clauses(_, has_default) => {
            handlers::clauses(alloc, parts, has_default, look.one)
        }
        Nonterminal::Handlers(_) => handlers::handlers(alloc, parts, look),
        Nonterminal::CatchClause(_) => handlers::catch_clause(parts),
        Nonterminal::CatchName => handlers::catch_name(parts, look.one),
        Nonterminal::Finally(_) => handlers::finally(alloc, parts, look.one),
        _ => unreachable!(),
    }
}

/// The heads of `for`.
fn make_head(alloc: Global, mark: Mark, parts: &mut Parts<'_>) -> Result<(), Memory>
    requires { spec.group_of mark.nonterminal ≡ group.Head }
    ensures { (functions : List FunctionInfo) → Makes mark.nonterminal (row_of functions mark)
        result parts.old parts.new }
{
    let look = mark.look;
    match mark.nonterminal {
        Nonterminal::ForOpen => heads::for_open(parts, look.one),
        Nonterminal::Head(context) => heads::head(alloc, parts, context, look),
        Nonterminal::DeclaredHead(word, _) => heads::declared_head(alloc, parts, word, look.one),
        Nonterminal::LeftHead(_) => heads::left_head(alloc, parts, look.one),
        Nonterminal::OptionalExpr(_) => heads::optional_expr(alloc, parts, look.one),
        _ => unreachable!(),
    }
}
