//! The keys of properties (ECMA-262, 13.2.5).

ghost use Rattle.std.specs.Prelude.{◌≡◌};
ghost use Rattle.hz_tree.specs.declared.look.Look.{Look as Ahead};
ghost use Rattle.hz_tree.specs.declared.nonterminal.Context.{Context as In};
ghost use Rattle.hz_tree.specs.declared.nonterminal.Nonterminal.TheVariants as n;
ghost use Rattle.hz_tree.specs.grammar.PropertyRows as row;
ghost use Rattle.hz_parts.specs.Makes.{Makes};

use hz_list::Memory;
use hz_parts::{Parts, past_token};
use hz_tree::{Class, Tree};
use sqlite_items::Boxed;
use std::alloc::Global;

pub fn key(alloc: Global, parts: &mut Parts<'_>, one: Class) -> Result<(), Memory>
    ensures { (c : In) (l : Ahead) → Makes (n.Key c) (row.key_by c l one) result parts.old parts.new }
{
    match one {
        Class::Text => text_key(parts),
        Class::Number => number_key(parts),
        Class::OctalNumber => octal_key(parts),
        Class::LeftBracket => computed_key(alloc, parts),
        _ => word_key(parts),
    }
}

fn text_key(parts: &mut Parts<'_>) -> Result<(), Memory>
    ensures { (c : In) (l : Ahead) → Makes (n.Key c) (row.key_by c l Class.Text) result parts.old parts.new }
{
    past_token(parts);
    let Some(told) = parts.seen.pop() else {
        return Ok(());
    };
    parts.trees.push(Tree::TextKey {
        at: told.at,
        written: told.text,
        octal: told.octal,
    })
}

fn number_key(parts: &mut Parts<'_>) -> Result<(), Memory>
    ensures { (c : In) (l : Ahead) → Makes (n.Key c) (row.key_by c l Class.Number) result parts.old parts.new }
{
    let Some(first) = parts.seen.pop() else {
        return Ok(());
    };
    parts.trees.push(Tree::NumberKey {
        at: first.at,
        value: first.number,
    })
}

fn octal_key(parts: &mut Parts<'_>) -> Result<(), Memory>
    ensures { (c : In) (l : Ahead) → Makes (n.Key c) (row.key_by c l Class.OctalNumber)
        result parts.old parts.new }
{
    past_token(parts);
    let Some(told) = parts.seen.pop() else {
        return Ok(());
    };
    parts.trees.push(Tree::OctalKey { at: told.at })
}

fn computed_key(alloc: Global, parts: &mut Parts<'_>) -> Result<(), Memory>
    ensures { (c : In) (l : Ahead) → Makes (n.Key c) (row.key_by c l Class.LeftBracket)
        result parts.old parts.new }
{
    past_token(parts);
    let Some(first) = parts.seen.pop() else {
        return Ok(());
    };
    let Some(key) = parts.trees.pop() else {
        return Ok(());
    };
    let key = Boxed::new(alloc, key)?;
    parts.trees.push(Tree::ComputedKey { at: first.at, key })
}

fn word_key(parts: &mut Parts<'_>) -> Result<(), Memory>
    ensures { (c : In) (l : Ahead) → Makes (n.Key c) (row.key_by c l Class.Name) result parts.old parts.new }
{
    let Some(word) = parts.seen.pop() else {
        return Ok(());
    };
    let Some(told) = parts.seen.pop() else {
        return Ok(());
    };
    parts.trees.push(Tree::WordKey {
        at: word.at,
        word: told.text,
    })
}
