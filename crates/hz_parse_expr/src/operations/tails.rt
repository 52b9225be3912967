//! The members and calls behind an operand (ECMA-262, 13.3).

ghost use Rattle.std.specs.Prelude.{◌≡◌, Bool, false};
ghost use Rattle.hz_tree.specs.declared.look.Look.{Look as Ahead};
ghost use Rattle.hz_tree.specs.declared.nonterminal.Context.{Context as In};
ghost use Rattle.hz_tree.specs.declared.nonterminal.Nonterminal.TheVariants as n;
ghost use Rattle.hz_tree.specs.declared.operator.Level.{Level as Tightness};
ghost use Rattle.hz_tree.specs.grammar.OperatorRows as row;
ghost use Rattle.hz_parts.specs.Makes.{Makes};

use super::rests::rests;
use crate::shapes::{dot, index};
use hz_list::Memory;
use hz_parts::{Parts, boxed_tree, first_item, no_items};
use hz_tree::{Class, Context, Level, Look, Tree};
use std::alloc::Global;

pub fn tails(
    alloc: Global,
    parts: &mut Parts<'_>,
    tailed: bool,
    loosest: Level,
    context: Context,
    look: Look,
) -> Result<(), Memory>
    ensures { Makes (n.Tails tailed loosest context) (row.tails_row tailed loosest context look)
        result parts.old parts.new }
{
    match look.one {
        Class::Dot => word_member(parts),
        Class::LeftBracket => key_member(alloc, parts),
        Class::LeftParen => first_item(parts),
        Class::OptionalDot => chain(alloc, parts),
        _ => tails_end(alloc, parts, tailed, loosest, context, look),
    }
}

/// `.` and a word, before other members and calls.
fn word_member(parts: &mut Parts<'_>) -> Result<(), Memory>
    ensures { (tailed : Bool) (loosest : Tightness) (c : In) (l : Ahead) → Makes (n.Tails tailed loosest c)
        (row.tails_by tailed loosest c l Class.Dot) result parts.old parts.new }
{
    dot(parts)?;
    first_item(parts)
}

/// A key in brackets, before other members and calls.
fn key_member(alloc: Global, parts: &mut Parts<'_>) -> Result<(), Memory>
    ensures { (tailed : Bool) (loosest : Tightness) (c : In) (l : Ahead) → Makes (n.Tails tailed loosest c)
        (row.tails_by tailed loosest c l Class.LeftBracket) result parts.old parts.new }
{
    index(alloc, parts)?;
    first_item(parts)
}

/// `?.` and what follows it, before other members and calls.
fn chain(alloc: Global, parts: &mut Parts<'_>) -> Result<(), Memory>
    ensures { (tailed : Bool) (loosest : Tightness) (c : In) (l : Ahead) → Makes (n.Tails tailed loosest c)
        (row.tails_by tailed loosest c l Class.OptionalDot) result parts.old parts.new }
{
    let Some(first) = parts.seen.pop() else {
        return Ok(());
    };
    let Some(tail) = boxed_tree(alloc, parts)? else {
        return Ok(());
    };
    let Some(mut list) = parts.lists.pop() else {
        return Ok(());
    };
    list.push(Tree::Optional { at: first.at, tail })?;
    parts.lists.push(list)
}

/// The end of the members and calls, with the operators behind them.
fn tails_end(
    alloc: Global,
    parts: &mut Parts<'_>,
    tailed: bool,
    loosest: Level,
    context: Context,
    look: Look,
) -> Result<(), Memory>
    ensures { Makes (n.Tails tailed loosest context) (row.tails_end tailed loosest context look)
        result parts.old parts.new }
{
    if tailed {
        no_items(alloc, parts)
    } else {
        untailed(alloc, parts, loosest, context, look)
    }
}

/// Operators alone.
fn untailed(
    alloc: Global,
    parts: &mut Parts<'_>,
    loosest: Level,
    context: Context,
    look: Look,
) -> Result<(), Memory>
    ensures { Makes (n.Tails false loosest context) (row.tails_end false loosest context look)
        result parts.old parts.new }
{
    rests(alloc, parts, loosest, Level::Update, context, look)?;
    no_items(alloc, parts)
}
