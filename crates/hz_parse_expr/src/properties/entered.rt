//! Properties with a function, which is left out for its number.

ghost use Rattle.std.specs.Prelude.{◌≡◌, true};
ghost use Rattle.hz_tree.specs.declared.class.Class.TheVariants as k;
ghost use Rattle.hz_tree.specs.declared.look.Look.{Look as Ahead};
ghost use Rattle.hz_tree.specs.declared.nonterminal.Context.{Context as In};
ghost use Rattle.hz_tree.specs.declared.nonterminal.Nonterminal.TheVariants as n;
ghost use Rattle.hz_tree.specs.declared.tree.FunctionForm.TheVariants as form;
ghost use Rattle.hz_tree.specs.declared.tree.Tree.TheVariants as made;
ghost use Rattle.hz_tree.specs.trees.FunctionTrees.{number_at};
ghost use Rattle.hz_parts.specs.Makes.{Makes};
ghost use Rattle.hz_parse_expr.specs.Properties.{getter_cut, key_rest_cut, prop_cut, setter_cut};

use hz_list::Memory;
use hz_parts::{Numbers, Parts, boxed_tree, past_token};
use hz_tree::{FunctionForm, Tree};
use sqlite_items::Boxed;
use std::alloc::Global;

/// What stands in the place of a function that was opened.
fn inner<'a, N: Numbers>(numbers: &N, at: usize) -> Tree<'a>
    ensures { result ≡ made.Inner at (number_at (N.functions numbers.now) at) form.Method }
{
    Tree::Inner {
        at,
        number: numbers.number_at(at),
        form: FunctionForm::Method,
    }
}

/// A method behind its key.
pub fn method<N: Numbers>(numbers: &N, parts: &mut Parts<'_>) -> Result<(), Memory>
    ensures { (c : In) (l : Ahead) → Makes (n.KeyRest c) (key_rest_cut (N.functions numbers.now) c l k.LeftParen)
        result parts.old parts.new }
{
    let Some(opened) = parts.opened.pop() else {
        return Ok(());
    };
    parts.trees.push(inner(numbers, opened))?;
    parts.flags.push(true)
}

pub fn generator<N: Numbers>(
    alloc: Global,
    numbers: &N,
    parts: &mut Parts<'_>,
) -> Result<(), Memory>
    ensures { (c : In) (l : Ahead) → Makes (n.Prop c) (prop_cut (N.functions numbers.now) c l k.Star)
        result parts.old parts.new }
{
    past_token(parts);
    let Some(begun) = parts.seen.pop() else {
        return Ok(());
    };
    let Some(opened) = parts.opened.pop() else {
        return Ok(());
    };
    let Some(key) = boxed_tree(alloc, parts)? else {
        return Ok(());
    };
    let function = Boxed::new(alloc, inner(numbers, opened))?;
    parts.trees.push(Tree::Method {
        at: begun.at,
        key,
        function,
    })
}

pub fn getter<N: Numbers>(alloc: Global, numbers: &N, parts: &mut Parts<'_>) -> Result<(), Memory>
    ensures { (c : In) (l : Ahead) → Makes (n.Prop c) (getter_cut (N.functions numbers.now) c l true)
        result parts.old parts.new }
{
    past_token(parts);
    let Some(begun) = parts.seen.pop() else {
        return Ok(());
    };
    let Some(opened) = parts.opened.pop() else {
        return Ok(());
    };
    let Some(key) = boxed_tree(alloc, parts)? else {
        return Ok(());
    };
    let function = Boxed::new(alloc, inner(numbers, opened))?;
    parts.trees.push(Tree::Getter {
        at: begun.at,
        key,
        function,
    })
}

pub fn setter<N: Numbers>(alloc: Global, numbers: &N, parts: &mut Parts<'_>) -> Result<(), Memory>
    ensures { (c : In) (l : Ahead) → Makes (n.Prop c) (setter_cut (N.functions numbers.now) c l true)
        result parts.old parts.new }
{
    past_token(parts);
    let Some(begun) = parts.seen.pop() else {
        return Ok(());
    };
    let Some(opened) = parts.opened.pop() else {
        return Ok(());
    };
    let Some(key) = boxed_tree(alloc, parts)? else {
        return Ok(());
    };
    let function = Boxed::new(alloc, inner(numbers, opened))?;
    parts.trees.push(Tree::Setter {
        at: begun.at,
        key,
        function,
    })
}
