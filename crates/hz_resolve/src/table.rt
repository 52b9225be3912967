use crate::name::Name;
use crate::scope::NumberedScope;
use crate::search::{find, hops, scope_at};
use std::marker::Model;

/// The scopes of a source and the names in them, each numbered one behind the other.
#[derive(Drop)]
pub struct Table<'i> {
    scopes: Vec<NumberedScope<'i>>,
    names: Vec<Name<'i>>,
}

impl<'i> Model for Table<'i> {
    ghost use Rattle.std.specs.Prelude.{List, map};
    ghost use Rattle.hz_tree.specs.trees.Layout.{PlacedScope};
    ghost use Rattle.hz_resolve.specs.Numbered.{scopes_of, HaveNames};
    ghost use Rattle.hz_resolve.specs.Views.{known_use};

    ghost Value = { List PlacedScope };

    ghost view = { λ t. scopes_of t.scopes.items };

    ghost invariant = { λ t. HaveNames t.scopes.items (map known_use t.names.items) };
}

impl<'i> Table<'i> {
    ghost use Rattle.std.specs.Prelude.{◌≡◌, ◌<◌, ◌≤◌, length, map, slice_get, Some, IfSome, option_map};
    ghost use Rattle.std.specs.Prelude.{option_and_then};
    ghost use Rattle.hz_resolve.specs.Numbered.{scopes_of, uses_of, HaveNames};
    ghost use Rattle.hz_resolve.specs.Passes.{found_of, outer_of_found, Counts, slot_tests, hops_of, slot_of};
    ghost use Rattle.hz_resolve.specs.Views.{known_use};

    /// These scopes, and the names of all of them.
    pub fn new(scopes: Vec<NumberedScope<'i>>, names: Vec<Name<'i>>) -> Table<'i>
        requires { HaveNames scopes.items (map known_use names.items) }
        ensures { result ≡ scopes_of scopes.entry.items }
    {
        Table { scopes, names }
    }

    /// How many names there are.
    pub fn len(&self) -> u32
        ensures { result ≡ length (uses_of self.now) }
    {
        self.names.len() as u32
    }

    /// The name with this number.
    pub fn name(&self, number: u32) -> &Name<'i>
        requires { number < length (uses_of self.now) }
        ensures { slice_get (uses_of self.now) number ≡ Some (known_use result.now) }
    {
        &self.names[number as usize]
    }

    /// The number of the name that declares this one, or None where no scope does.
    pub fn find(&self, name: &Name<'i>) -> Option<u32>
        ensures { result ≡ found_of self.now (known_use name.now) }
    {
        find(&self.scopes, name.text, name.within(), name.scope)
    }

    /// The number of the name that declares the one with this number, where that name stands in another function.
    pub fn outer(&self, number: u32, found: Option<u32>) -> Option<u32>
        requires { number < length (uses_of self.now) }
        ensures value { option_map (λ u. option_and_then (outer_of_found (uses_of self.now) u) found)
            (slice_get (uses_of self.now) number) ≡ Some result }
        ensures inside { IfSome result (λ q. q < length (uses_of self.now)) }
    {
        let declared = found?;
        let function = self.names.get(declared as usize)?.function;
        (function != self.names[number as usize].function).then_some(declared)
    }

    /// How many environments lie between the scope of a name and the one that declares it, where so many slots come
    /// before each name.
    pub fn hops(&self, name: &Name<'i>, declared: &Name<'i>, before: &[u32]) -> u32
        requires { Counts (slot_tests self.now) before.now }
        ensures { result ≡ hops_of self.now (known_use name.now) (known_use declared.now) }
    {
        hops(
            &self.scopes,
            before,
            name.within(),
            name.scope,
            declared.scope,
        )
    }

    /// The slot of a name that is declared where it stands and has the number `number`: how many of its scope's names
    /// before it have one, where so many do before each name.
    pub fn slot(&self, number: u32, declared: &Name<'i>, before: &[u32]) -> u32
        requires inside { number < length (uses_of self.now) }
        requires before { Counts (slot_tests self.now) before.now }
        ensures { result ≡ slot_of self.now number (known_use declared.now) }
    {
        match scope_at(&self.scopes, Some(declared.scope)) {
            Some(scope) => before[number as usize].saturating_sub(before[scope.extent().0]),
            None => 0,
        }
    }
}
