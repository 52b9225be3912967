//! Expressions, and what follows a comma (ECMA-262, 13.16).

ghost use Rattle.std.specs.Prelude.{◌≡◌, Bool};
ghost use Rattle.hz_tree.specs.declared.nonterminal.Context.{Context as In};
ghost use Rattle.hz_tree.specs.declared.nonterminal.Nonterminal.TheVariants as n;
ghost use Rattle.hz_tree.specs.grammar.ExpressionRows as row;
ghost use Rattle.hz_parts.specs.Makes.{Makes};

use crate::operated::listed;
use hz_list::Memory;
use hz_parts::{Parts, first_item, no_items, past_token};
use hz_tree::Class;
use std::alloc::Global;

pub fn expr(alloc: Global, parts: &mut Parts<'_>) -> Result<(), Memory>
    ensures { (c : In) → Makes (n.Expr c) (row.expr_row c) result parts.old parts.new }
{
    let Some(more) = parts.lists.pop() else {
        return Ok(());
    };
    let Some(first) = parts.trees.pop() else {
        return Ok(());
    };
    let tree = listed(alloc, first, more)?;
    parts.trees.push(tree)
}

pub fn expr_rest(alloc: Global, parts: &mut Parts<'_>, one: Class) -> Result<(), Memory>
    ensures { (listed : Bool) (c : In) → Makes (n.ExprRest listed c) (row.expr_rest_row listed c one)
        result parts.old parts.new }
{
    match one {
        Class::Comma => {
            past_token(parts);
            first_item(parts)
        }
        _ => no_items(alloc, parts),
    }
}
