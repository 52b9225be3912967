//! Members, and the arguments behind `new` (ECMA-262, 13.3).

ghost use Rattle.std.specs.Prelude.{◌≡◌};
ghost use Rattle.hz_tree.specs.declared.nonterminal.Context.{Context as In};
ghost use Rattle.hz_tree.specs.declared.nonterminal.Nonterminal.TheVariants as n;
ghost use Rattle.hz_tree.specs.grammar.PrimaryRows as row;
ghost use Rattle.hz_parts.specs.Makes.{Makes};

use crate::shapes::{dot, index, word_member};
use hz_list::Memory;
use hz_parts::{Parts, boxed_tree, first_item, no_items};
use hz_tree::Class;
use std::alloc::Global;

/// What stands behind `?.`. The arguments that it may be stand there already.
pub fn optional_tail(alloc: Global, parts: &mut Parts<'_>, one: Class) -> Result<(), Memory>
    ensures { (c : In) → Makes (n.OptionalTail c) (row.optional_tail_row c one) result parts.old parts.new }
{
    match one {
        Class::LeftBracket => index(alloc, parts),
        Class::LeftParen => Ok(()),
        _ => optional_word(parts),
    }
}

/// A word, whatever token it is.
fn optional_word(parts: &mut Parts<'_>) -> Result<(), Memory>
    ensures { (c : In) → Makes (n.OptionalTail c) (row.optional_tail_row c Class.Name)
        result parts.old parts.new }
{
    word_member(parts)
}

pub fn members(alloc: Global, parts: &mut Parts<'_>, one: Class) -> Result<(), Memory>
    ensures { (c : In) → Makes (n.Members c) (row.members_row c one) result parts.old parts.new }
{
    match one {
        Class::Dot => dot_before(parts),
        Class::LeftBracket => index_before(alloc, parts),
        _ => no_items(alloc, parts),
    }
}

/// `.` and a word before other members.
fn dot_before(parts: &mut Parts<'_>) -> Result<(), Memory>
    ensures { (c : In) → Makes (n.Members c) (row.members_row c Class.Dot) result parts.old parts.new }
{
    dot(parts)?;
    first_item(parts)
}

/// A key in brackets before other members.
fn index_before(alloc: Global, parts: &mut Parts<'_>) -> Result<(), Memory>
    ensures { (c : In) → Makes (n.Members c) (row.members_row c Class.LeftBracket) result parts.old parts.new }
{
    index(alloc, parts)?;
    first_item(parts)
}

pub fn new_args(alloc: Global, parts: &mut Parts<'_>, one: Class) -> Result<(), Memory>
    ensures { (c : In) → Makes (n.NewArgs c) (row.new_args_row c one) result parts.old parts.new }
{
    match one {
        Class::LeftParen => some_tree(alloc, parts),
        Class::OptionalDot => Ok(()),
        _ => parts.options.push(None),
    }
}

/// The uppermost tree, as one that could be absent.
fn some_tree(alloc: Global, parts: &mut Parts<'_>) -> Result<(), Memory>
    ensures { (c : In) → Makes (n.NewArgs c) (row.new_args_row c Class.LeftParen) result parts.old parts.new }
{
    let Some(tree) = boxed_tree(alloc, parts)? else {
        return Ok(());
    };
    parts.options.push(Some(tree))
}
