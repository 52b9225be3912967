//! Primary expressions in brackets: parentheses, arrays and objects (ECMA-262, 13.2).

ghost use Rattle.std.specs.Prelude.{◌≡◌};
ghost use Rattle.hz_tree.specs.declared.look.Look.{Look as Ahead};
ghost use Rattle.hz_tree.specs.declared.nonterminal.Context.{Context as In};
ghost use Rattle.hz_tree.specs.declared.nonterminal.Nonterminal.TheVariants as n;
ghost use Rattle.hz_tree.specs.grammar.PrimaryRows as row;
ghost use Rattle.hz_parts.specs.Makes.{Makes};

use hz_list::Memory;
use hz_parts::{Parts, boxed_tree, past_token};
use hz_tree::{Class, Tree};
use std::alloc::Global;

pub fn parentheses(alloc: Global, parts: &mut Parts<'_>) -> Result<(), Memory>
    ensures { (c : In) (l : Ahead) → Makes (n.Primary c) (row.primary_by c l Class.LeftParen)
        result parts.old parts.new }
{
    past_token(parts);
    past_token(parts);
    let Some(begun) = parts.seen.pop() else {
        return Ok(());
    };
    let Some(value) = boxed_tree(alloc, parts)? else {
        return Ok(());
    };
    parts.trees.push(Tree::Parentheses {
        at: begun.at,
        value,
    })
}

pub fn array(parts: &mut Parts<'_>) -> Result<(), Memory>
    ensures { (c : In) (l : Ahead) → Makes (n.Primary c) (row.primary_by c l Class.LeftBracket)
        result parts.old parts.new }
{
    past_token(parts);
    past_token(parts);
    let Some(begun) = parts.seen.pop() else {
        return Ok(());
    };
    let Some(elements) = parts.lists.pop() else {
        return Ok(());
    };
    parts.trees.push(Tree::Array {
        at: begun.at,
        elements: elements.into_items(),
    })
}

pub fn object(parts: &mut Parts<'_>) -> Result<(), Memory>
    ensures { (c : In) (l : Ahead) → Makes (n.Primary c) (row.primary_by c l Class.LeftBrace)
        result parts.old parts.new }
{
    past_token(parts);
    past_token(parts);
    let Some(begun) = parts.seen.pop() else {
        return Ok(());
    };
    let Some(props) = parts.lists.pop() else {
        return Ok(());
    };
    parts.trees.push(Tree::Object {
        at: begun.at,
        props: props.into_items(),
    })
}
