//! Arguments of calls (ECMA-262, 13.3) and elements of arrays (13.2.4).

ghost use Rattle.std.specs.Prelude.{◌≡◌};
ghost use Rattle.hz_tree.specs.declared.nonterminal.Context.{Context as In};
ghost use Rattle.hz_tree.specs.declared.nonterminal.Nonterminal.TheVariants as n;
ghost use Rattle.hz_tree.specs.grammar.PrimaryRows as row;
ghost use Rattle.hz_parts.specs.Makes.{Makes};

use crate::shapes::spread;
use hz_list::Memory;
use hz_parts::{Parts, first_item, no_items, past_token};
use hz_tree::{Class, Tree};
use std::alloc::Global;

pub fn args(alloc: Global, parts: &mut Parts<'_>) -> Result<(), Memory>
    ensures { (c : In) → Makes (n.Args c) (row.args_row c) result parts.old parts.new }
{
    past_token(parts);
    let Some(first) = parts.seen.pop() else {
        return Ok(());
    };
    let Some(values) = parts.lists.pop() else {
        return Ok(());
    };
    parts.trees.push(Tree::Args {
        at: first.at,
        values: values.into_items(),
    })
}

pub fn arguments(alloc: Global, parts: &mut Parts<'_>, one: Class) -> Result<(), Memory>
    ensures { (c : In) → Makes (n.Arguments c) (row.arguments_row c one) result parts.old parts.new }
{
    match one {
        Class::RightParen => no_items(alloc, parts),
        _ => first_item(parts),
    }
}

pub fn more_arguments(alloc: Global, parts: &mut Parts<'_>, one: Class) -> Result<(), Memory>
    ensures { (c : In) → Makes (n.MoreArguments c) (row.more_arguments_row c one) result parts.old parts.new }
{
    match one {
        Class::Comma => {
            past_token(parts);
            Ok(())
        }
        _ => no_items(alloc, parts),
    }
}

pub fn argument(alloc: Global, parts: &mut Parts<'_>, one: Class) -> Result<(), Memory>
    ensures { (c : In) → Makes (n.Argument c) (row.argument_row c one) result parts.old parts.new }
{
    match one {
        Class::Ellipsis => spread(alloc, parts),
        _ => Ok(()),
    }
}

pub fn elements(alloc: Global, parts: &mut Parts<'_>, one: Class) -> Result<(), Memory>
    ensures { (c : In) → Makes (n.Elements c) (row.elements_row c one) result parts.old parts.new }
{
    match one {
        Class::RightBracket => no_items(alloc, parts),
        Class::Comma => hole(parts),
        _ => first_item(parts),
    }
}

/// A comma without an element before it.
fn hole(parts: &mut Parts<'_>) -> Result<(), Memory>
    ensures { (c : In) → Makes (n.Elements c) (row.elements_row c Class.Comma) result parts.old parts.new }
{
    past_token(parts);
    let Some(begun) = parts.seen.pop() else {
        return Ok(());
    };
    let Some(mut list) = parts.lists.pop() else {
        return Ok(());
    };
    list.push(Tree::Hole { at: begun.at })?;
    parts.lists.push(list)
}

pub fn more_elements(alloc: Global, parts: &mut Parts<'_>, one: Class) -> Result<(), Memory>
    ensures { (c : In) → Makes (n.MoreElements c) (row.more_elements_row c one) result parts.old parts.new }
{
    match one {
        Class::Comma => {
            past_token(parts);
            Ok(())
        }
        _ => no_items(alloc, parts),
    }
}
