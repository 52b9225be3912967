//! `new` (ECMA-262, 13.3.5), and `new.target`.

ghost use Rattle.std.specs.Prelude.{◌≡◌};
ghost use Rattle.hz_tree.specs.declared.nonterminal.Context.{Context as In};
ghost use Rattle.hz_tree.specs.declared.nonterminal.Nonterminal.TheVariants as n;
ghost use Rattle.hz_tree.specs.grammar.PrimaryRows as row;
ghost use Rattle.hz_parts.specs.Makes.{Makes};

use hz_list::Memory;
use hz_parts::{Parts, boxed_tree, past_token};
use hz_tree::{Class, Tree};
use std::alloc::Global;

pub fn new_expression(alloc: Global, parts: &mut Parts<'_>, two: Class) -> Result<(), Memory>
    ensures { (c : In) → Makes (n.Primary c) (row.new_row c two) result parts.old parts.new }
{
    match two {
        Class::Dot => new_target(parts),
        _ => constructed(alloc, parts),
    }
}

fn new_target(parts: &mut Parts<'_>) -> Result<(), Memory>
    ensures { (c : In) → Makes (n.Primary c) (row.new_row c Class.Dot) result parts.old parts.new }
{
    past_token(parts);
    past_token(parts);
    past_token(parts);
    let Some(told) = parts.seen.pop() else {
        return Ok(());
    };
    parts.trees.push(Tree::NewTarget { at: told.at })
}

/// `new` and what it constructs, whatever token that begins with.
fn constructed(alloc: Global, parts: &mut Parts<'_>) -> Result<(), Memory>
    ensures { (c : In) → Makes (n.Primary c) (row.new_row c Class.Name) result parts.old parts.new }
{
    past_token(parts);
    let Some(begun) = parts.seen.pop() else {
        return Ok(());
    };
    let Some(args) = parts.options.pop() else {
        return Ok(());
    };
    let Some(members) = parts.lists.pop() else {
        return Ok(());
    };
    let Some(callee) = boxed_tree(alloc, parts)? else {
        return Ok(());
    };
    parts.trees.push(Tree::New {
        at: begun.at,
        callee,
        members: members.into_items(),
        args,
    })
}
