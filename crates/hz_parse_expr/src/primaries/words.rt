//! Primary expressions of one word (ECMA-262, 13.1 and 13.2).

ghost use Rattle.std.specs.Prelude.{◌≡◌, List, ◌∷◌, OnOk};
ghost use Rattle.hz_tree.specs.declared.look.Look.{Look as Ahead};
ghost use Rattle.hz_tree.specs.declared.nonterminal.Context.{Context as In};
ghost use Rattle.hz_tree.specs.declared.nonterminal.Nonterminal.TheVariants as n;
ghost use Rattle.hz_tree.specs.declared.tree.Tree.TheVariants as made;
ghost use Rattle.hz_tree.specs.grammar.PrimaryRows as row;
ghost use Rattle.hz_parts.specs.declared.parts.Seen.{Seen as Told};
ghost use Rattle.hz_parts.specs.Makes.{Makes};

use hz_list::Memory;
use hz_parts::{Parts, past_token};
use hz_tree::{Class, Tree};

pub fn this(parts: &mut Parts<'_>) -> Result<(), Memory>
    ensures { (c : In) (l : Ahead) → Makes (n.Primary c) (row.primary_by c l Class.This)
        result parts.old parts.new }
{
    past_token(parts);
    let Some(told) = parts.seen.pop() else {
        return Ok(());
    };
    parts.trees.push(Tree::This { at: told.at })
}

pub fn null(parts: &mut Parts<'_>) -> Result<(), Memory>
    ensures { (c : In) (l : Ahead) → Makes (n.Primary c) (row.primary_by c l Class.Null)
        result parts.old parts.new }
{
    past_token(parts);
    let Some(told) = parts.seen.pop() else {
        return Ok(());
    };
    parts.trees.push(Tree::Null { at: told.at })
}

/// `true` or `false`.
pub fn truth(parts: &mut Parts<'_>, value: bool) -> Result<(), Memory>
    ensures { OnOk result ((token told : Told) (seen : List Told) → parts.old.seen ≡ token ∷ told ∷ seen
        → parts.new ≡ record parts.old {
          seen = seen;
          trees = made.Truth told.at value ∷ parts.old.trees;
        }) }
{
    past_token(parts);
    let Some(told) = parts.seen.pop() else {
        return Ok(());
    };
    parts.trees.push(Tree::Truth { at: told.at, value })
}

/// A name, whichever it is.
pub fn name(parts: &mut Parts<'_>) -> Result<(), Memory>
    ensures { (c : In) (l : Ahead) → Makes (n.Primary c) (row.primary_by c l Class.Name)
        result parts.old parts.new }
{
    identifier(parts)
}

fn identifier(parts: &mut Parts<'_>) -> Result<(), Memory>
    ensures { OnOk result ((token told : Told) (seen : List Told) → parts.old.seen ≡ token ∷ told ∷ seen
        → parts.new ≡ record parts.old {
          seen = seen;
          trees = made.Identifier told.at told.text ∷ parts.old.trees;
        }) }
{
    past_token(parts);
    let Some(told) = parts.seen.pop() else {
        return Ok(());
    };
    parts.trees.push(Tree::Identifier {
        at: told.at,
        name: told.text,
    })
}
