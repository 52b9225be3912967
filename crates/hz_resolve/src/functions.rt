ghost use Rattle.std.specs.Prelude.{◌≡◌, ◌+◌, ◌<◌, ◌≤◌, length, slice_get, slice_index, Some, IfOk, option_map};
ghost use Rattle.hz_tree.specs.sources.Refusals.{functions as functions_in, function_scopes};
ghost use Rattle.hz_tree.specs.trees.Layout.{all_scopes};
ghost use Rattle.hz_resolve.specs.Starts.{around_of, function_starts as starts_of_functions, placed_function as placed};

use hz_index::Index;
use hz_list::Memory;
use hz_tree::ScopeAt;
use std::alloc::Global;

/// A function, as its scopes are numbered.
#[derive(Clone, Copy, Debug)]
pub struct PlacedFunction {
    pub number: u32,

    /// It binds `arguments`.
    pub binds: bool,

    /// The number of its first scope.
    pub first: u32,

    /// The number of the scope in which it stands.
    pub around: Option<u32>,
}

/// The number of each function's first scope, and of the scopes in all. Memory for more than 4294967295 is never there.
pub fn function_starts(alloc: Global, index: &Index<'_>) -> Result<Vec<u32>, Memory>
    ensures starts { IfOk result (λ starts. starts.items ≡ starts_of_functions (function_scopes index.now.source)) }
    ensures few { IfOk result (λ starts. length (all_scopes (function_scopes index.now.source)) ≤ 4294967295) }
{
    let mut starts = Vec::new(alloc);
    let mut total = 0;
    starts.push(total)?;
    for k in 0..index.count() {
        total = sum(total, index.scopes(k).len())?;
        starts.push(total)?;
    }
    Ok(starts)
}

/// The function with this number.
pub fn placed_function(index: &Index<'_>, starts: &[u32], k: u32) -> Result<PlacedFunction, Memory>
    requires there { k < length (functions_in index.now.source) }
    requires starts { starts.now ≡ starts_of_functions (function_scopes index.now.source) }
    ensures { IfOk result (λ f. option_map (placed (function_scopes index.now.source) k)
        (slice_get (function_scopes index.now.source) k) ≡ Some f) }
{
    Ok(PlacedFunction {
        number: k,
        binds: index.binds(k),
        first: starts[k as usize],
        around: number_around(index, starts, k)?,
    })
}

/// The number of the scope in which the function with this number stands.
fn number_around(index: &Index<'_>, starts: &[u32], k: u32) -> Result<Option<u32>, Memory>
    requires there { k < length (functions_in index.now.source) }
    requires starts { starts.now ≡ starts_of_functions (function_scopes index.now.source) }
    ensures { IfOk result (λ around. option_map (around_of (function_scopes index.now.source))
        (slice_get (function_scopes index.now.source) k) ≡ Some around) }
{
    match index.around(k) {
        None => Ok(None),
        Some(at) => Ok(Some(number_of(starts, at)?)),
    }
}

/// The number of a scope.
fn number_of(starts: &[u32], at: ScopeAt) -> Result<u32, Memory>
    requires { at.function < length starts.now }
    ensures { IfOk result (λ number. number ≡ slice_index starts.now at.function + at.scope) }
{
    sum(starts[at.function as usize], at.scope as usize)
}

/// A sum of numbers. Memory for more than 4294967295 is never there.
pub fn sum(a: u32, b: usize) -> Result<u32, Memory>
    ensures sum { IfOk result (λ sum. sum ≡ a + b) }
    ensures few { IfOk result (λ sum. sum ≤ 4294967295) }
{
    if b > 4294967295 - a as usize {
        return Err(Memory);
    }
    Ok(a + b as u32)
}
