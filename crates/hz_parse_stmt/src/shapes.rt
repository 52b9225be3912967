//! What many rows make.

ghost use Rattle.std.specs.Prelude.{◌≡◌, List, ◌∷◌, drop, Some, OnOk};
ghost use Rattle.hz_tree.specs.declared.tree.Tree.{Tree as Made};

use hz_list::Memory;
use hz_parts::{Parts, boxed_tree, past_token};
use std::alloc::Global;

/// The uppermost tree, as one that could be absent.
pub fn some_tree(alloc: Global, parts: &mut Parts<'_>) -> Result<(), Memory>
    ensures { OnOk result ((tree : Made) (trees : List Made) → parts.old.trees ≡ tree ∷ trees
        → parts.new ≡ record parts.old { trees = trees; options = Some tree ∷ parts.old.options }) }
{
    let Some(tree) = boxed_tree(alloc, parts)? else {
        return Ok(());
    };
    parts.options.push(Some(tree))
}

/// What stands behind three tokens that are no part of it.
pub fn past_three_tokens(parts: &mut Parts<'_>)
    ensures { parts.new ≡ record parts.old { seen = drop 3 parts.old.seen } }
{
    past_token(parts);
    past_token(parts);
    past_token(parts);
}
