//! A function of what was read of its parameters and its body.

ghost use Rattle.std.specs.Prelude.{◌≡◌, List, Option, IfOk};
ghost use Rattle.hz_tree.specs.declared.tree.Bound.{Bound as Binding};
ghost use Rattle.hz_tree.specs.declared.tree.Rest.{Rest as Collected};
ghost use Rattle.hz_tree.specs.declared.tree.Tree.{Tree as Made};
ghost use Rattle.hz_tree.specs.trees.FunctionTrees.{names_of, rest_name};
ghost use Rattle.hz_parse.specs.Given.{Gives, ListGiven, NameGiven, function_tree};

use hz_list::Memory;
use hz_parts::{Backwards, Parts};
use hz_tree::{Bound, FunctionKind, FunctionTree, Rest, Slice};
use sqlite_items::Items;
use std::alloc::Global;

/// The function whose parts lie on top: one name and a body, or a list of parameters with what may collect the rest, and
/// a body.
pub fn function_of<'a>(
    alloc: Global,
    number: u32,
    kind: FunctionKind,
    one_name: bool,
    parts: &mut Parts<'a>,
) -> Result<FunctionTree<'a>, Memory>
    requires { (bounds : List Binding) × (rest : Option Collected) × (body : Made)
        × Gives one_name parts.old bounds rest body }
    ensures { IfOk result (λ tree. (bounds : List Binding) (rest : Option Collected) (body : Made) →
        Gives one_name parts.old bounds rest body → tree ≡ function_tree number kind bounds rest body) }
{
    if one_name {
        with_name(alloc, number, kind, parts)
    } else {
        with_list(alloc, number, kind, parts)
    }
}

fn with_list<'a>(
    alloc: Global,
    number: u32,
    kind: FunctionKind,
    parts: &mut Parts<'a>,
) -> Result<FunctionTree<'a>, Memory>
    requires { (bounds : List Binding) × (rest : Option Collected) × (body : Made)
        × ListGiven parts.old bounds rest body }
    ensures { IfOk result (λ tree. (bounds : List Binding) (rest : Option Collected) (body : Made) →
        ListGiven parts.old bounds rest body → tree ≡ function_tree number kind bounds rest body) }
{
    let Some(bounds) = parts.bounds.pop() else {
        unreachable!();
    };
    let Some(rest) = parts.rests.pop() else {
        unreachable!();
    };
    let Some(body) = parts.trees.pop() else {
        unreachable!();
    };
    Ok(FunctionTree {
        number,
        kind,
        parameters: names(alloc, bounds)?,
        rest: name_of_rest(rest),
        body,
    })
}

fn with_name<'a>(
    alloc: Global,
    number: u32,
    kind: FunctionKind,
    parts: &mut Parts<'a>,
) -> Result<FunctionTree<'a>, Memory>
    requires { (bounds : List Binding) × (rest : Option Collected) × (body : Made)
        × NameGiven parts.old bounds rest body }
    ensures { IfOk result (λ tree. (bounds : List Binding) (rest : Option Collected) (body : Made) →
        NameGiven parts.old bounds rest body → tree ≡ function_tree number kind bounds rest body) }
{
    let Some(Some(bound)) = parts.names.pop() else {
        unreachable!();
    };
    let Some(body) = parts.trees.pop() else {
        unreachable!();
    };
    let mut names = Vec::new(alloc);
    names.push(bound.name)?;
    Ok(FunctionTree {
        number,
        kind,
        parameters: Items::from_vec(names),
        rest: None,
        body,
    })
}

/// The names of parameters.
fn names<'a>(alloc: Global, bounds: Backwards<Bound<'a>>) -> Result<Items<Slice<'a>>, Memory>
    ensures { IfOk result (λ names. names ≡ names_of bounds.entry) }
{
    let mut names = Vec::new(alloc);
    let mut left = bounds;
    while let Some(bound) = left.pop() {
        names.push(bound.name)?;
    }
    Ok(Items::from_vec(names))
}

fn name_of_rest(rest: Option<Rest<'_>>) -> Option<Slice<'_>>
    ensures { result ≡ rest_name rest.entry }
{
    match rest {
        Some(rest) => Some(rest.bound.name),
        None => None,
    }
}
