ghost use Rattle.std.specs.Prelude.{◌≡◌, ◌+◌, ◌++◌, ◌<◌, ◌≤◌, length, map, IfOk, OnOk, Some, slice_get};
ghost use Rattle.hz_index.specs.Views.{known_scope};
ghost use Rattle.hz_tree.specs.sources.Refusals.{function_scopes};
ghost use Rattle.hz_tree.specs.trees.Layout.{all_scopes};
ghost use Rattle.hz_resolve.specs.Numbered.{numbered, uses_of, uses_in, scopes_of};
ghost use Rattle.hz_resolve.specs.Starts.{all_placed_in, function_starts as starts_of_functions, placed_in};
ghost use Rattle.hz_resolve.specs.Starts.{scope_starts};
ghost use Rattle.hz_resolve.specs.Views.{known_use};

use crate::functions::{PlacedFunction, function_starts, placed_function, sum};
use crate::name::Name;
use crate::scope::NumberedScope;
use hz_index::{Index, Scope, Scopes};
use hz_list::Memory;
use std::alloc::Global;

/// The scopes of all functions, from where each function's start. Memory for more than 4294967295 names is never there.
pub fn numbered_scopes<'i>(
    alloc: Global,
    index: &'i Index<'_>,
    starts: &[u32],
) -> Result<Vec<NumberedScope<'i>>, Memory>
    requires { starts.now ≡ starts_of_functions (function_scopes index.now.source) }
    ensures scopes { IfOk result (λ scopes. scopes.items
        ≡ numbered 0 (all_scopes (function_scopes index.entry.now.source))) }
    ensures few { IfOk result (λ scopes. length (uses_of (all_scopes (function_scopes index.entry.now.source)))
        ≤ 4294967295) }
{
    let mut scopes = Vec::new(alloc);
    let mut next = 0;
    for k in 0..index.count() {
        let function = placed_function(index, starts, k)?;
        next = add_scopes(alloc, &mut scopes, &function, &index.scopes(k), next)?;
    }
    Ok(scopes)
}

/// Adds the scopes of a function at the end. Their first name has the number `next`; the answer is the number of the
/// first name behind them.
fn add_scopes<'i>(
    alloc: Global,
    scopes: &mut Vec<NumberedScope<'i>>,
    function: &PlacedFunction,
    own: &Scopes<'i>,
    next: u32,
) -> Result<u32, Memory>
    ensures scopes { OnOk result (scopes.new.items
        ≡ scopes.old.items ++ numbered next (all_placed_in function.now function.now.first own.now)) }
    ensures next { IfOk result (λ past. past
        ≡ next + length (uses_of (all_placed_in function.now function.now.first own.now))) }
    ensures few { IfOk result (λ past. past ≤ 4294967295) }
{
    let mut past = next;
    let mut i = 0;
    while let Some(scope) = own.get(i) {
        let number = sum(function.first, i)?;
        let first = past;
        past = sum(first, scope.names.len())?;
        scopes.push(numbered_scope(alloc, function, number, scope, first)?)?;
        i += 1;
    }
    Ok(past)
}

/// A scope of a function, with its number and that of its first name.
fn numbered_scope<'i>(
    alloc: Global,
    function: &PlacedFunction,
    number: u32,
    scope: Scope<'i>,
    first: u32,
) -> Result<NumberedScope<'i>, Memory>
    requires { first + length scope.names ≤ 4294967295 }
    ensures { IfOk result (λ s. s ≡ record {
      scope = placed_in function.now number (known_scope scope.entry);
      first = first;
    }) }
{
    let around = match scope.parent {
        None => function.around,
        Some(parent) => Some(sum(function.first, parent as usize)?),
    };
    NumberedScope::new(
        alloc,
        number,
        function.number,
        function.binds,
        around,
        scope.names,
        first,
    )
}

/// The names of all scopes.
pub fn all_names<'i>(alloc: Global, scopes: &[NumberedScope<'i>]) -> Result<Vec<Name<'i>>, Memory>
    ensures { IfOk result (λ names. map known_use names.items ≡ uses_of (scopes_of scopes.now)) }
{
    let mut names = Vec::new(alloc);
    for scope in scopes {
        add_names(&mut names, scope)?;
    }
    Ok(names)
}

/// Adds the names of a scope at the end.
fn add_names<'i>(names: &mut Vec<Name<'i>>, scope: &NumberedScope<'i>) -> Result<(), Memory>
    ensures { OnOk result (map known_use names.new.items
        ≡ map known_use names.old.items ++ uses_in scope.now.scope) }
{
    let mut i = 0;
    while let Some(name) = scope.name(i) {
        names.push(name)?;
        i += 1;
    }
    Ok(())
}

/// The number of each scope's first name, and of the names in all.
pub fn starts_of_names(alloc: Global, scopes: &[NumberedScope<'_>]) -> Result<Vec<u32>, Memory>
    requires numbered { scopes.now ≡ numbered 0 (scopes_of scopes.now) }
    requires few { length (uses_of (scopes_of scopes.now)) ≤ 4294967295 }
    ensures { IfOk result (λ starts. starts.items ≡ scope_starts (scopes_of scopes.now)) }
{
    let mut starts = Vec::with_capacity(alloc, scopes.len())?;
    let mut past = 0;
    starts.push(past)?;
    for scope in scopes {
        past = scope.extent().1 as u32;
        starts.push(past)?;
    }
    Ok(starts)
}
