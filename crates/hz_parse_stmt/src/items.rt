//! The script and its items (ECMA-262, 14.3 and 16).

ghost use Rattle.std.specs.Prelude.{◌≡◌, ℕ, List, ◌∷◌, Some, OnOk};
ghost use Rattle.hz_tree.specs.declared.tree.Bound.{Bound as Named};
ghost use Rattle.hz_tree.specs.declared.tree.FunctionForm.TheVariants as form;
ghost use Rattle.hz_tree.specs.declared.tree.Tree.{Tree as Made};
ghost use Rattle.hz_tree.specs.declared.tree.Tree.TheVariants as made;
ghost use Rattle.hz_tree.specs.trees.FunctionTrees.{number_at};
ghost use Rattle.hz_parts.specs.declared.parts.Parts.{Parts as Stacks};
ghost use Rattle.hz_parts.specs.declared.parts.Seen.{Seen as Told};
ghost use Rattle.hz_tree.specs.declared.nonterminal.Context.{Context as In};
ghost use Rattle.hz_tree.specs.declared.nonterminal.Nonterminal.TheVariants as n;
ghost use Rattle.hz_tree.specs.grammar.StatementRows as row;
ghost use Rattle.hz_cuts.specs.Rows.{cut_row};
ghost use Rattle.hz_parts.specs.Makes.{Makes};
ghost use Rattle.hz_parts.specs.Values.{push_name, push_opened, push_seen, push_tree};
ghost use Rattle.hz_parse_stmt.specs.Items.{declared};

use hz_list::Memory;
use hz_parts::{Numbers, Parts, first_item, no_items, past_token};
use hz_tree::{Class, DeclarationWord, FunctionForm, Look, Tree};
use std::alloc::Global;

pub fn script(parts: &mut Parts<'_>) -> Result<(), Memory>
    ensures { Makes n.Script row.script_row result parts.old parts.new }
{
    past_token(parts);
    let Some(begun) = parts.seen.pop() else {
        return Ok(());
    };
    let Some(items) = parts.lists.pop() else {
        return Ok(());
    };
    parts.trees.push(Tree::Script {
        at: begun.at,
        items: items.into_items(),
    })
}

pub fn items(alloc: Global, parts: &mut Parts<'_>, one: Class) -> Result<(), Memory>
    ensures { (c : In) → Makes (n.Items c) (row.items_row c one) result parts.old parts.new }
{
    match one {
        Class::RightBrace => no_items(alloc, parts),
        Class::Case => no_items(alloc, parts),
        Class::Default => no_items(alloc, parts),
        Class::End => no_items(alloc, parts),
        _ => more_items(parts),
    }
}

/// One item more, whatever token it begins with.
fn more_items(parts: &mut Parts<'_>) -> Result<(), Memory>
    ensures { (c : In) → Makes (n.Items c) (row.items_row c Class.Name) result parts.old parts.new }
{
    first_item(parts)
}

/// An item. The statement that it may be stands there already.
pub fn item<N: Numbers>(numbers: &N, parts: &mut Parts<'_>, look: Look) -> Result<(), Memory>
    ensures { (c : In) → Makes (n.Item c) (cut_row (N.functions numbers.now) (n.Item c) look)
        result parts.old parts.new }
{
    match look.one {
        Class::Function => declaration(numbers, parts, look.two),
        Class::Let => lexical(parts, DeclarationWord::Let),
        Class::Const => lexical(parts, DeclarationWord::Const),
        _ => Ok(()),
    }
}

/// The declaration of a function that is left out.
fn declaration<N: Numbers>(numbers: &N, parts: &mut Parts<'_>, two: Class) -> Result<(), Memory>
    ensures { (c : In) → Makes (n.Item c) (declared (N.functions numbers.now) c two)
        result parts.old parts.new }
{
    match two {
        Class::Star => generator(numbers, parts),
        _ => function(numbers, parts),
    }
}

fn generator<N: Numbers>(numbers: &N, parts: &mut Parts<'_>) -> Result<(), Memory>
    ensures { (c : In) → Makes (n.Item c) (declared (N.functions numbers.now) c Class.Star)
        result parts.old parts.new }
{
    past_token(parts);
    inner(numbers, parts)
}

fn function<N: Numbers>(numbers: &N, parts: &mut Parts<'_>) -> Result<(), Memory>
    ensures { (c : In) → Makes (n.Item c) (declared (N.functions numbers.now) c Class.Name)
        result parts.old parts.new }
{
    inner(numbers, parts)
}

/// The number of a function that is declared.
fn inner<N: Numbers>(numbers: &N, parts: &mut Parts<'_>) -> Result<(), Memory>
    ensures { OnOk result ((token : Told) (opened : ℕ) (name : Named) (below : Stacks)
        → parts.old ≡ push_name (Some name) (push_seen token (push_opened opened below))
        → parts.new ≡ push_tree (made.Inner opened (number_at (N.functions numbers.now) opened)
        (form.Declaration name)) below) }
{
    past_token(parts);
    let Some(at) = parts.opened.pop() else {
        return Ok(());
    };
    let Some(Some(name)) = parts.names.pop() else {
        return Ok(());
    };
    parts.trees.push(Tree::Inner {
        at,
        number: numbers.number_at(at),
        form: FunctionForm::Declaration(name),
    })
}

/// A declaration with `let` or `const`.
fn lexical(parts: &mut Parts<'_>, word: DeclarationWord) -> Result<(), Memory>
    ensures { OnOk result ((token begun : Told) (seen : List Told) (binds : List Made) (lists : List (List Made))
        → parts.old.seen ≡ token ∷ begun ∷ seen → parts.old.lists ≡ binds ∷ lists
        → parts.new ≡ record parts.old {
          seen = seen;
          lists = lists;
          trees = made.Lexical begun.at word binds ∷ parts.old.trees;
        }) }
{
    past_token(parts);
    let Some(begun) = parts.seen.pop() else {
        return Ok(());
    };
    let Some(binds) = parts.lists.pop() else {
        return Ok(());
    };
    parts.trees.push(Tree::Lexical {
        at: begun.at,
        word,
        binds: binds.into_items(),
    })
}
