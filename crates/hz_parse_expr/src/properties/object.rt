//! The properties of object literals (ECMA-262, 13.2.5).

ghost use Rattle.std.specs.Prelude.{◌≡◌, not, ◌&&◌};
ghost use Rattle.hz_tree.specs.declared.class.Class.TheVariants as k;
ghost use Rattle.hz_tree.specs.declared.look.Look.{Look as Ahead};
ghost use Rattle.hz_tree.specs.declared.nonterminal.Context.{Context as In};
ghost use Rattle.hz_tree.specs.declared.nonterminal.Nonterminal.TheVariants as n;
ghost use Rattle.hz_tree.specs.grammar.Classes.{begins_key, is_colon, is_name, is_paren};
ghost use Rattle.hz_tree.specs.grammar.PropertyRows as row;
ghost use Rattle.hz_cuts.specs.Rows.{cut_row};
ghost use Rattle.hz_parts.specs.Makes.{Makes};
ghost use Rattle.hz_parse_expr.specs.Makes.{keyed_tree};
ghost use Rattle.hz_parse_expr.specs.Properties.{getter_cut, keyed_row, setter_cut, shorthand_row};

use crate::properties::entered::{generator, getter, method, setter};
use crate::shapes::spread;
use hz_list::Memory;
use hz_parts::{Numbers, Parts, boxed_tree, first_item, no_items, past_token};
use hz_tree::{Class, Look, Tree};
use sqlite_items::Boxed;
use std::alloc::Global;

pub fn props(alloc: Global, parts: &mut Parts<'_>, one: Class) -> Result<(), Memory>
    ensures { (c : In) → Makes (n.Props c) (row.props_row c one) result parts.old parts.new }
{
    match one {
        Class::RightBrace => no_items(alloc, parts),
        _ => first_item(parts),
    }
}

pub fn more_props(alloc: Global, parts: &mut Parts<'_>, one: Class) -> Result<(), Memory>
    ensures { (c : In) → Makes (n.MoreProps c) (row.more_props_row c one) result parts.old parts.new }
{
    match one {
        Class::Comma => {
            past_token(parts);
            Ok(())
        }
        _ => no_items(alloc, parts),
    }
}

pub fn prop<N: Numbers>(
    alloc: Global,
    numbers: &N,
    parts: &mut Parts<'_>,
    look: Look,
) -> Result<(), Memory>
    ensures { (c : In) → Makes (n.Prop c) (cut_row (N.functions numbers.now) (n.Prop c) look)
        result parts.old parts.new }
{
    match look.one {
        Class::Ellipsis => spread_prop(alloc, parts),
        Class::Star => generator(alloc, numbers, parts),
        Class::Get => getter_prop(alloc, numbers, parts, look),
        Class::Set => setter_prop(alloc, numbers, parts, look),
        _ => plain_prop(alloc, parts, look),
    }
}

fn spread_prop(alloc: Global, parts: &mut Parts<'_>) -> Result<(), Memory>
    ensures { (c : In) (l : Ahead) → Makes (n.Prop c) (row.prop_by c l k.Ellipsis) result parts.old parts.new }
{
    spread(alloc, parts)
}

/// A getter, or another property whose name is `get`.
fn getter_prop<N: Numbers>(
    alloc: Global,
    numbers: &N,
    parts: &mut Parts<'_>,
    look: Look,
) -> Result<(), Memory>
    ensures { (c : In) → Makes (n.Prop c) (getter_cut (N.functions numbers.now) c look (begins_key look.two))
        result parts.old parts.new }
{
    if look.two.begins_key() {
        getter(alloc, numbers, parts)
    } else {
        plain_prop(alloc, parts, look)
    }
}

/// A setter, or another property whose name is `set`.
fn setter_prop<N: Numbers>(
    alloc: Global,
    numbers: &N,
    parts: &mut Parts<'_>,
    look: Look,
) -> Result<(), Memory>
    ensures { (c : In) → Makes (n.Prop c) (setter_cut (N.functions numbers.now) c look (begins_key look.two))
        result parts.old parts.new }
{
    if look.two.begins_key() {
        setter(alloc, numbers, parts)
    } else {
        plain_prop(alloc, parts, look)
    }
}

/// A property that is no getter, setter, generator or spread.
fn plain_prop(alloc: Global, parts: &mut Parts<'_>, look: Look) -> Result<(), Memory>
    ensures { (c : In) → Makes (n.Prop c) (row.plain_prop_row c look) result parts.old parts.new }
{
    if is_shorthand(look) {
        shorthand(parts)
    } else {
        keyed(alloc, parts)
    }
}

fn is_shorthand(look: Look) -> bool
    ensures { result ≡ is_name look.one && (not (is_colon look.two) && not (is_paren look.two)) }
{
    look.one.is_name() && !look.two.is_colon() && !look.two.is_paren()
}

/// A name by itself.
fn shorthand(parts: &mut Parts<'_>) -> Result<(), Memory>
    ensures { (c : In) → Makes (n.Prop c) (shorthand_row c) result parts.old parts.new }
{
    past_token(parts);
    let Some(used) = parts.seen.pop() else {
        return Ok(());
    };
    let Some(begun) = parts.seen.pop() else {
        return Ok(());
    };
    parts.trees.push(Tree::Shorthand {
        at: begun.at,
        name: used.text,
    })
}

/// A key and what follows it.
fn keyed(alloc: Global, parts: &mut Parts<'_>) -> Result<(), Memory>
    ensures { (c : In) → Makes (n.Prop c) (keyed_row c) result parts.old parts.new }
{
    let Some(begun) = parts.seen.pop() else {
        return Ok(());
    };
    let Some(is_method) = parts.flags.pop() else {
        return Ok(());
    };
    let Some(value) = boxed_tree(alloc, parts)? else {
        return Ok(());
    };
    let Some(key) = boxed_tree(alloc, parts)? else {
        return Ok(());
    };
    parts.trees.push(property(is_method, begun.at, key, value))
}

/// A method, or a property with a value.
fn property<'a>(
    is_method: bool,
    at: usize,
    key: Boxed<Tree<'a>>,
    value: Boxed<Tree<'a>>,
) -> Tree<'a>
    ensures { result ≡ keyed_tree is_method at key.entry value.entry }
{
    if is_method {
        Tree::Method {
            at,
            key,
            function: value,
        }
    } else {
        Tree::Property { at, key, value }
    }
}

/// What follows a key.
pub fn key_rest<N: Numbers>(numbers: &N, parts: &mut Parts<'_>, look: Look) -> Result<(), Memory>
    ensures { (c : In) → Makes (n.KeyRest c) (cut_row (N.functions numbers.now) (n.KeyRest c) look)
        result parts.old parts.new }
{
    match look.one {
        Class::Colon => valued(parts),
        Class::LeftParen => method(numbers, parts),
        _ => Ok(()),
    }
}

/// The value of a property.
fn valued(parts: &mut Parts<'_>) -> Result<(), Memory>
    ensures { (c : In) (l : Ahead) → Makes (n.KeyRest c) (row.key_rest_by c l k.Colon)
        result parts.old parts.new }
{
    past_token(parts);
    parts.flags.push(false)
}
