//! What many rows make.

ghost use Rattle.std.specs.Prelude.{◌≡◌, List, [], ◌∷◌, drop, OnOk};
ghost use Rattle.hz_tree.specs.declared.tree.Tree.{Tree as Made};
ghost use Rattle.hz_parts.specs.Makes.{TakesTree};

use crate::backwards::Backwards;
use crate::parts::Parts;
use hz_list::Memory;
use hz_tree::Tree;
use sqlite_items::Boxed;
use std::alloc::Global;

/// A list of nothing.
pub fn no_items(alloc: Global, parts: &mut Parts<'_>) -> Result<(), Memory>
    ensures { OnOk result (parts.new ≡ record parts.old { lists = [] ∷ parts.old.lists }) }
{
    parts.lists.push(Backwards::new(alloc))
}

/// A list with the uppermost tree before it.
pub fn first_item(parts: &mut Parts<'_>) -> Result<(), Memory>
    ensures { OnOk result ((first : Made) (more trees : List Made) (lists : List (List Made))
        → parts.old.trees ≡ first ∷ trees → parts.old.lists ≡ more ∷ lists
        → parts.new ≡ record parts.old { trees = trees; lists = (first ∷ more) ∷ lists }) }
{
    let Some(first) = parts.trees.pop() else {
        return Ok(());
    };
    let Some(mut list) = parts.lists.pop() else {
        return Ok(());
    };
    list.push(first)?;
    parts.lists.push(list)
}

/// What stands behind a token that is no part of it.
pub fn past_token(parts: &mut Parts<'_>)
    ensures { parts.new ≡ record parts.old { seen = drop 1 parts.old.seen } }
{
    let _token = parts.seen.pop();
}

/// Takes the uppermost tree away, into a box. None where there is none.
pub fn boxed_tree<'a>(
    alloc: Global,
    parts: &mut Parts<'a>,
) -> Result<Option<Boxed<Tree<'a>>>, Memory>
    ensures { TakesTree result parts.old parts.new }
{
    match parts.trees.pop() {
        Some(tree) => Ok(Some(Boxed::new(alloc, tree)?)),
        None => Ok(None),
    }
}
