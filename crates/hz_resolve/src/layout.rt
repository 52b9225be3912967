use hz_tree::Place;
use std::marker::Model;

/// Where the code of each function finds each name of its scopes. Contracts see the places of names, function by
/// function and scope by scope.
#[derive(Debug, Drop)]
pub struct Layout {
    /// The number of each function's first scope among all scopes, and of the scopes in all.
    functions: Vec<u32>,

    /// The number of each scope's first name among all names, and of the names in all.
    scopes: Vec<u32>,

    /// The place of each name.
    places: Vec<Place>,
}

impl Model for Layout {
    ghost use Rattle.hz_resolve.specs.Places.{Places};
    ghost use Rattle.hz_resolve.specs.Starts.{parts_of};

    ghost Value = { Places };

    ghost view = { λ l. parts_of l.functions.items (parts_of l.scopes.items l.places.items) };
}

impl Layout {
    ghost use Rattle.std.specs.Prelude.{◌≡◌, Some, IsSome};
    ghost use Rattle.hz_resolve.specs.Places.{place_at};
    ghost use Rattle.hz_resolve.specs.Starts.{parts_of};

    /// The layout of these places, where the names of each scope and the scopes of each function start.
    pub(crate) fn new(functions: Vec<u32>, scopes: Vec<u32>, places: Vec<Place>) -> Layout
        ensures { result ≡ parts_of functions.items (parts_of scopes.items places.items) }
    {
        Layout {
            functions,
            scopes,
            places,
        }
    }

    /// Where the code of function `k` finds the name with this number among those of the scope with this number of
    /// that function, each counted from 0.
    pub fn place(&self, k: u32, scope: u32, name: u32) -> Place
        requires { IsSome (place_at self.now k scope name) }
        ensures { place_at self.now k scope name ≡ Some result }
    {
        place_in(
            &self.functions,
            &self.scopes,
            &self.places,
            k as usize,
            scope as usize,
            name as usize,
        )
    }
}

ghost use Rattle.std.specs.Prelude.{◌≡◌, ◌≤◌, Some, IsSome};
ghost use Rattle.hz_resolve.specs.Places.{place_at};
ghost use Rattle.hz_resolve.specs.Starts.{parts_of};

/// The place of a name, where the scopes of each function and the names of each scope start.
fn place_in(
    functions: &[u32],
    scopes: &[u32],
    places: &[Place],
    k: usize,
    scope: usize,
    name: usize,
) -> Place
    requires there { IsSome (place_at (parts_of functions.now (parts_of scopes.now places.now)) k scope name) }
    requires small { (k ≤ 4294967295) × (scope ≤ 4294967295) × (name ≤ 4294967295) }
    ensures { place_at (parts_of functions.now (parts_of scopes.now places.now)) k scope name ≡ Some result }
{
    let first = functions[k] as usize;
    let names = scopes[first + scope] as usize;
    places[names + name]
}
