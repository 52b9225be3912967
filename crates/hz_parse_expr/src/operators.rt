//! Operations (ECMA-262, 13.4 to 13.15).

ghost use Rattle.std.specs.Prelude.{◌≡◌, List, [], ◌∷◌, OnOk};
ghost use Rattle.hz_tree.specs.declared.tree.Tree.{Tree as Made};
ghost use Rattle.hz_parts.specs.declared.parts.Behind.{Behind as Operation};
ghost use Rattle.hz_parts.specs.declared.parts.Behind.TheVariants as behind;
ghost use Rattle.hz_parts.specs.declared.parts.Seen.{Seen as Told};

use hz_list::Memory;
use hz_parts::{Backwards, Behind, Parts, boxed_tree, past_token};
use hz_tree::{AssignOperator, UpdateOperator};
use std::alloc::Global;

/// No operators.
pub fn no_operators(alloc: Global, parts: &mut Parts<'_>) -> Result<(), Memory>
    ensures { OnOk result (parts.new ≡ record parts.old { behind = [] ∷ parts.old.behind }) }
{
    parts.behind.push(Backwards::new(alloc))
}

/// An assignment.
pub fn assigns(alloc: Global, parts: &mut Parts<'_>, operator: AssignOperator) -> Result<(), Memory>
    ensures { OnOk result ((token : Told) (seen : List Told) (value : Made) (trees : List Made)
        → parts.old.seen ≡ token ∷ seen → parts.old.trees ≡ value ∷ trees
        → parts.new ≡ record parts.old {
          seen = seen;
          trees = trees;
          behind = (behind.Assigns operator value ∷ []) ∷ parts.old.behind;
        }) }
{
    past_token(parts);
    no_operators(alloc, parts)?;
    let Some(value) = boxed_tree(alloc, parts)? else {
        return Ok(());
    };
    push_first(parts, Behind::Assigns(operator, value))
}

/// An update before other operators.
pub fn updates(parts: &mut Parts<'_>, operator: UpdateOperator) -> Result<(), Memory>
    ensures { OnOk result ((token : Told) (seen : List Told) (more : List Operation) (others : List (List Operation))
        → parts.old.seen ≡ token ∷ seen → parts.old.behind ≡ more ∷ others
        → parts.new
        ≡ record parts.old { seen = seen; behind = (behind.Updates operator ∷ more) ∷ others }) }
{
    past_token(parts);
    push_first(parts, Behind::Updates(operator))
}

/// An operator before those that are uppermost.
pub fn push_first<'a>(parts: &mut Parts<'a>, operator: Behind<'a>) -> Result<(), Memory>
    ensures { OnOk result ((more : List Operation) (others : List (List Operation))
        → parts.old.behind ≡ more ∷ others
        → parts.new ≡ record parts.old { behind = (operator.entry ∷ more) ∷ others }) }
{
    let Some(mut operators) = parts.behind.pop() else {
        return Ok(());
    };
    operators.push(operator)?;
    parts.behind.push(operators)
}
