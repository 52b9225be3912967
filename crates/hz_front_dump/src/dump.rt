ghost use Rattle.std.specs.Prelude.{◌≡◌, ◌<◌, ◌++◌, IfOk, OnOk, length, slice_get, option_to_list};
ghost use Rattle.std.specs.List.{flat_map, enumerate_from};
ghost use Rattle.std.specs.Option.{option_zip};
ghost use Rattle.hz_tree.specs.sources.Refusals.{functions, function_scopes};
ghost use Rattle.hz_tree.specs.trees.Layout.{layout as layout_of};
ghost use Rattle.hz_resolve.specs.Places.{ArePlacesOf};
ghost use Rattle.hz_front_dump.specs.Dump.{known_lines, dump_of};

use crate::lines::{push_free, push_function};
use crate::own::own_counts;
use crate::scopes::push_scopes;
use hz_index::Index;
use hz_list::Memory;
use hz_resolve::{Layout, resolve};
use std::alloc::Global;

/// The lines of all functions of a source.
pub fn dump_index(alloc: Global, index: &Index<'_>) -> Result<Vec<u8>, Memory>
    ensures { IfOk result (λ text. text.items ≡ dump_of index.now.source) }
{
    let owns = own_counts(alloc, index)?;
    let layout = resolve(alloc, index)?;
    let mut text = Vec::new(alloc);
    for k in 0..index.count() {
        push_lines(alloc, &mut text, index, &layout, k, owns[k as usize])?;
    }
    Ok(text)
}

/// Adds the lines of the function with this number, which has so many tokens of its own.
fn push_lines(
    alloc: Global,
    text: &mut Vec<u8>,
    index: &Index<'_>,
    layout: &Layout,
    k: u32,
    own: usize,
) -> Result<(), Memory>
    requires there { k < length (functions index.now.source) }
    requires layout { ArePlacesOf (function_scopes index.now.source) layout.now }
    ensures { OnOk result (text.new.items ≡ text.old.items
        ++ flat_map (known_lines (layout_of (function_scopes index.now.source) k) own) (enumerate_from k
        (option_to_list (option_zip (slice_get (functions index.now.source) k)
        (slice_get (function_scopes index.now.source) k))))) }
{
    push_function(alloc, text, k, index.function(k), own)?;
    push_free(text, &index.free(k))?;
    push_scopes(alloc, text, &index.scopes(k), layout, k)
}
