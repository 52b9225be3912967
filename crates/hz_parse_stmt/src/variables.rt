//! Declarations of variables (ECMA-262, 14.3), and semicolons (12.10).

ghost use Rattle.std.specs.Prelude.{◌≡◌, None, OnOk};
ghost use Rattle.hz_tree.specs.declared.nonterminal.Context.{Context as In};
ghost use Rattle.hz_tree.specs.declared.nonterminal.Nonterminal.TheVariants as n;
ghost use Rattle.hz_tree.specs.grammar.StatementRows as row;
ghost use Rattle.hz_parts.specs.Makes.{Makes};
ghost use Rattle.hz_parts.specs.Values.{push_option};

use crate::shapes::some_tree;
use hz_list::Memory;
use hz_parts::{Parts, first_item, no_items, past_token};
use hz_tree::{Class, DeclarationWord, Look, Tree};
use std::alloc::Global;

pub fn binds(parts: &mut Parts<'_>, word: DeclarationWord) -> Result<(), Memory>
    ensures { (c : In) → Makes (n.Binds word c) (row.binds_row word c) result parts.old parts.new }
{
    first_item(parts)
}

pub fn bind(parts: &mut Parts<'_>, word: DeclarationWord) -> Result<(), Memory>
    ensures { (c : In) → Makes (n.Bind word c) (row.bind_row word c) result parts.old parts.new }
{
    let Some(value) = parts.options.pop() else {
        return Ok(());
    };
    let Some(Some(bound)) = parts.names.pop() else {
        return Ok(());
    };
    parts.trees.push(Tree::Bind {
        at: bound.at,
        word,
        name: bound.name,
        value,
    })
}

pub fn initial(
    alloc: Global,
    parts: &mut Parts<'_>,
    word: DeclarationWord,
    one: Class,
) -> Result<(), Memory>
    ensures { (c : In) → Makes (n.Initial word c) (row.initial_row word c one) result parts.old parts.new }
{
    match one {
        Class::Assign => {
            past_token(parts);
            some_tree(alloc, parts)
        }
        _ => no_value(parts),
    }
}

/// A name without a value.
fn no_value(parts: &mut Parts<'_>) -> Result<(), Memory>
    ensures { OnOk result (parts.new ≡ push_option None parts.old) }
{
    parts.options.push(None)
}

pub fn more_binds(
    alloc: Global,
    parts: &mut Parts<'_>,
    word: DeclarationWord,
    one: Class,
) -> Result<(), Memory>
    ensures { (c : In) → Makes (n.MoreBinds word c) (row.more_binds_row word c one) result parts.old parts.new }
{
    match one {
        Class::Comma => {
            past_token(parts);
            Ok(())
        }
        _ => no_items(alloc, parts),
    }
}

pub fn semi(parts: &mut Parts<'_>, look: Look) -> Result<(), Memory>
    ensures { Makes n.Semi (row.semi_row look) result parts.old parts.new }
{
    match look.one {
        Class::Semicolon => {
            past_token(parts);
            Ok(())
        }
        _ => Ok(()),
    }
}

/// The semicolon behind a do-while.
pub fn loose_semi(parts: &mut Parts<'_>, one: Class) -> Result<(), Memory>
    ensures { Makes n.LooseSemi (row.loose_semi_row one) result parts.old parts.new }
{
    match one {
        Class::Semicolon => {
            past_token(parts);
            Ok(())
        }
        _ => Ok(()),
    }
}
