//! Names, parameters and bodies of functions (ECMA-262, 15).

ghost use Rattle.std.specs.Prelude.{◌≡◌, Bool, List, [], ◌∷◌, Option, Some, None, OnOk};
ghost use Rattle.hz_tree.specs.declared.signal.Role.{Role as Part};
ghost use Rattle.hz_tree.specs.declared.nonterminal.Nonterminal.TheVariants as n;
ghost use Rattle.hz_tree.specs.declared.tree.Bound.{Bound as Named};
ghost use Rattle.hz_tree.specs.grammar.FunctionRows as row;
ghost use Rattle.hz_tree.specs.grammar.StatementRows.{bound_row};
ghost use Rattle.hz_parts.specs.declared.parts.Seen.{Seen as Told};
ghost use Rattle.hz_parts.specs.Makes.{Makes};

use hz_list::Memory;
use hz_parts::{Backwards, Parts, past_token};
use hz_tree::{Bound, Class, Look, Rest, Tree};
use std::alloc::Global;

/// A name in the place of a binding.
pub fn bound(parts: &mut Parts<'_>, look: Look) -> Result<(), Memory>
    ensures { (role : Part) → Makes (n.Bound role) (bound_row role look) result parts.old parts.new }
{
    named(parts)
}

fn named(parts: &mut Parts<'_>) -> Result<(), Memory>
    ensures { OnOk result ((name told : Told) (seen : List Told) → parts.old.seen ≡ name ∷ told ∷ seen
        → parts.new ≡ record parts.old {
          seen = seen;
          names = Some (record { at = told.at; name = told.text }) ∷ parts.old.names;
        }) }
{
    past_token(parts);
    let Some(told) = parts.seen.pop() else {
        return Ok(());
    };
    parts.names.push(Some(Bound {
        at: told.at,
        name: told.text,
    }))
}

/// The name of a function expression, if it has one.
pub fn own_name(parts: &mut Parts<'_>, one: Class) -> Result<(), Memory>
    ensures { Makes n.OwnName (row.own_name_row one) result parts.old parts.new }
{
    if one.is_name() {
        Ok(())
    } else {
        parts.names.push(None)
    }
}

pub fn params(parts: &mut Parts<'_>) -> Result<(), Memory>
    ensures { Makes n.Params row.params_row result parts.old parts.new }
{
    past_token(parts);
    past_token(parts);
    Ok(())
}

pub fn parameters(alloc: Global, parts: &mut Parts<'_>, one: Class) -> Result<(), Memory>
    ensures { Makes n.Parameters (row.parameters_row one) result parts.old parts.new }
{
    match one {
        Class::RightParen => no_parameters(alloc, parts),
        Class::Ellipsis => rest_parameter(alloc, parts),
        _ => first_parameter(parts),
    }
}

/// No parameters, and no rest behind them.
fn no_parameters(alloc: Global, parts: &mut Parts<'_>) -> Result<(), Memory>
    ensures { OnOk result (parts.new ≡ record parts.old {
      bounds = [] ∷ parts.old.bounds;
      rests = None ∷ parts.old.rests;
    }) }
{
    parts.bounds.push(Backwards::new(alloc))?;
    parts.rests.push(None)
}

/// `...` and the name behind it.
fn rest_parameter(alloc: Global, parts: &mut Parts<'_>) -> Result<(), Memory>
    ensures { Makes n.Parameters (row.parameters_row Class.Ellipsis) result parts.old parts.new }
{
    past_token(parts);
    let Some(dots) = parts.seen.pop() else {
        return Ok(());
    };
    let Some(Some(bound)) = parts.names.pop() else {
        return Ok(());
    };
    parts.bounds.push(Backwards::new(alloc))?;
    parts.rests.push(Some(Rest { at: dots.at, bound }))
}

/// A parameter before those that are uppermost.
fn first_parameter(parts: &mut Parts<'_>) -> Result<(), Memory>
    ensures { OnOk result ((bound : Named) (names : List (Option Named)) (more : List Named)
        (others : List (List Named)) → parts.old.names ≡ Some bound ∷ names → parts.old.bounds ≡ more ∷ others
        → parts.new ≡ record parts.old { names = names; bounds = (bound ∷ more) ∷ others }) }
{
    let Some(Some(bound)) = parts.names.pop() else {
        return Ok(());
    };
    let Some(mut more) = parts.bounds.pop() else {
        return Ok(());
    };
    more.push(bound)?;
    parts.bounds.push(more)
}

pub fn more_parameters(alloc: Global, parts: &mut Parts<'_>, one: Class) -> Result<(), Memory>
    ensures { Makes n.MoreParameters (row.more_parameters_row one) result parts.old parts.new }
{
    match one {
        Class::Comma => {
            past_token(parts);
            Ok(())
        }
        _ => no_parameters(alloc, parts),
    }
}

pub fn body(parts: &mut Parts<'_>) -> Result<(), Memory>
    ensures { (generator : Bool) → Makes (n.Body generator) (row.body_row generator)
        result parts.old parts.new }
{
    past_token(parts);
    past_token(parts);
    let Some(begun) = parts.seen.pop() else {
        return Ok(());
    };
    let Some(items) = parts.lists.pop() else {
        return Ok(());
    };
    parts.trees.push(Tree::Body {
        at: begun.at,
        items: items.into_items(),
    })
}
