ghost use Rattle.hz_tree.specs.sources.Refusals.{function_scopes};
ghost use Rattle.hz_resolve.specs.Places.{ArePlacesOf};

use hz_index::Index;
use hz_preparse::preparse;
use hz_resolve::{Layout, resolve};
use hz_tree::Place;
use std::test::Fail;

/// The place of a name; None where no such name is listed.
fn place(index: &Index<'_>, layout: &Layout, k: u32, scope: u32, name: u32) -> Option<Place>
    requires { ArePlacesOf (function_scopes index.now.source) layout.now }
{
    if k >= index.count() {
        return None;
    }
    let listed = index.scopes(k).get(scope as usize)?;
    match listed.names.get(name as usize) {
        Some(_) => Some(layout.place(k, scope, name)),
        None => None,
    }
}

#[test]
fn finds_a_name_of_the_script_in_a_function(rt: HostRuntime) -> Result<(), Fail> {
    let source = b"let a = 1; function f(){ return a }";
    let Ok(index) = preparse(rt.alloc(), source, true) else {
        panic!(rt; "it is not read");
    };
    let layout = resolve(rt.alloc(), &index)?;
    let slot = Some(Place::Slot { hops: 0, slot: 0 });
    assert_eq!(rt; place(&index, &layout, 0, 0, 0), slot);
    assert_eq!(rt; place(&index, &layout, 1, 0, 0), slot);
    assert_eq!(rt; place(&index, &layout, 0, 0, 1), Some(Place::Global));
    assert_eq!(rt; place(&index, &layout, 0, 0, 2), None);
    Ok(())
}
