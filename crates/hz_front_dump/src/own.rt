ghost use Rattle.std.specs.Prelude.{◌≡◌, ◌-◌, ◌<◌, ℕ, length, slice_index_or, IfOk, map};
ghost use Rattle.hz_tree.specs.sources.Refusals.{functions};
ghost use Rattle.hz_tree.specs.trees.FunctionTrees.{inner_tokens, tokens_within};
ghost use Rattle.hz_front_dump.specs.Places.{HasOwn};

use crate::places::TokenPlaces;
use hz_index::Index;
use hz_list::Memory;
use hz_tree::FunctionInfo;
use std::alloc::Global;

/// How many tokens are each function's own.
pub fn own_counts(alloc: Global, index: &Index<'_>) -> Result<Vec<usize>, Memory>
    ensures { IfOk result (λ owns. HasOwn index.now.source (functions index.now.source) owns.items) }
{
    let places = TokenPlaces::new(alloc, index.source())?;
    let mut owns = extents(alloc, index, &places)?;
    for k in 0..index.count() {
        take_inner(&mut owns, index.function(k), &places);
    }
    Ok(owns)
}

/// How many tokens begin in the extent of each function.
fn extents(alloc: Global, index: &Index<'_>, places: &TokenPlaces<'_>) -> Result<Vec<usize>, Memory>
    requires { places.now ≡ index.now.source }
    ensures { IfOk result (λ owns. owns.items
        ≡ map (λ f. tokens_within index.now.source f.start f.end) (functions index.now.source)) }
{
    let mut owns = Vec::new(alloc);
    for k in 0..index.count() {
        let info = index.function(k);
        owns.push(places.within(info.start, info.end))?;
    }
    Ok(owns)
}

/// The tokens in a function's extent are no longer those of the function that it stands in.
fn take_inner(owns: &mut Vec<usize>, info: &FunctionInfo, places: &TokenPlaces<'_>)
    ensures long { length owns.new.items ≡ length owns.old.items }
    ensures each { (k : ℕ) → k < length owns.old.items → slice_index_or owns.new.items k 0
        ≡ slice_index_or owns.old.items k 0 - inner_tokens places.now k info.now }
{
    if let Some(parent) = info.parent {
        let parent = parent as usize;
        if parent < owns.len() {
            owns[parent] = owns[parent].saturating_sub(places.within(info.start, info.end));
        }
    }
}
