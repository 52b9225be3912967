ghost use Rattle.std.specs.Prelude.{IfOk};
ghost use Rattle.hz_tree.specs.sources.Refusals.{function_scopes};
ghost use Rattle.hz_resolve.specs.Places.{ArePlacesOf};

use crate::build::{all_names, numbered_scopes, starts_of_names};
use crate::functions::function_starts;
use crate::layout::Layout;
use crate::places::places;
use crate::table::Table;
use hz_index::Index;
use hz_list::Memory;
use std::alloc::Global;

/// Finds out where the code of each function finds each name of its scopes: in a register, in a slot of an environment,
/// or among the names of the global object (ECMA-262, 9.1). Memory for more than 4294967295 scopes or names is never
/// there.
pub fn resolve(alloc: Global, index: &Index<'_>) -> Result<Layout, Memory>
    ensures { IfOk result (λ layout. ArePlacesOf (function_scopes index.now.source) layout) }
{
    let functions = function_starts(alloc, index)?;
    let scopes = numbered_scopes(alloc, index, &functions)?;
    let starts = starts_of_names(alloc, &scopes)?;
    let names = all_names(alloc, &scopes)?;
    let table = Table::new(scopes, names);
    let places = places(alloc, &table)?;
    Ok(Layout::new(functions, starts, places))
}
