//! What many rows make.

ghost use Rattle.std.specs.Prelude.{◌≡◌, List, ◌∷◌, OnOk};
ghost use Rattle.hz_tree.specs.declared.tree.Tree.{Tree as Made};
ghost use Rattle.hz_tree.specs.declared.tree.Tree.TheVariants as made;
ghost use Rattle.hz_parts.specs.declared.parts.Seen.{Seen as Told};

use hz_list::Memory;
use hz_parts::{Parts, past_token};
use hz_tree::Tree;
use sqlite_items::Boxed;
use std::alloc::Global;

/// `...` and what is spread.
pub fn spread(alloc: Global, parts: &mut Parts<'_>) -> Result<(), Memory>
    ensures { OnOk result ((begun dots : Told) (seen : List Told) (value : Made) (trees : List Made)
        → parts.old.seen ≡ dots ∷ begun ∷ seen → parts.old.trees ≡ value ∷ trees
        → parts.new ≡ record parts.old { seen = seen; trees = made.Spread begun.at value ∷ trees }) }
{
    past_token(parts);
    let Some(begun) = parts.seen.pop() else {
        return Ok(());
    };
    let Some(value) = parts.trees.pop() else {
        return Ok(());
    };
    let value = Boxed::new(alloc, value)?;
    parts.trees.push(Tree::Spread {
        at: begun.at,
        value,
    })
}

/// `[`, a key and `]`.
pub fn index(alloc: Global, parts: &mut Parts<'_>) -> Result<(), Memory>
    ensures { OnOk result ((first last : Told) (seen : List Told) (key : Made) (trees : List Made)
        → parts.old.seen ≡ last ∷ first ∷ seen → parts.old.trees ≡ key ∷ trees
        → parts.new ≡ record parts.old { seen = seen; trees = made.Index first.at key ∷ trees }) }
{
    past_token(parts);
    let Some(first) = parts.seen.pop() else {
        return Ok(());
    };
    let Some(key) = parts.trees.pop() else {
        return Ok(());
    };
    let key = Boxed::new(alloc, key)?;
    parts.trees.push(Tree::Index { at: first.at, key })
}

/// `.` and a word.
pub fn dot(parts: &mut Parts<'_>) -> Result<(), Memory>
    ensures { OnOk result ((first word : Told) (seen : List Told) → parts.old.seen ≡ word ∷ first ∷ seen
        → parts.new
        ≡ record parts.old { seen = seen; trees = made.Dot first.at word.text ∷ parts.old.trees }) }
{
    let Some(word) = parts.seen.pop() else {
        return Ok(());
    };
    let Some(first) = parts.seen.pop() else {
        return Ok(());
    };
    parts.trees.push(Tree::Dot {
        at: first.at,
        word: word.text,
    })
}

/// A word behind `?.`.
pub fn word_member(parts: &mut Parts<'_>) -> Result<(), Memory>
    ensures { OnOk result ((word : Told) (seen : List Told) → parts.old.seen ≡ word ∷ seen
        → parts.new ≡ record parts.old { seen = seen; trees = made.Dot word.at word.text ∷ parts.old.trees }) }
{
    let Some(word) = parts.seen.pop() else {
        return Ok(());
    };
    parts.trees.push(Tree::Dot {
        at: word.at,
        word: word.text,
    })
}
