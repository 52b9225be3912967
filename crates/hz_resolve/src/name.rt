ghost use Rattle.std.specs.Prelude.{◌≡◌};
ghost use Rattle.hz_resolve.specs.Views.{known_use};
ghost use Rattle.hz_resolve.specs.Passes.{is_global_use, within_of, place_unfound};

use hz_tree::{BindingKind, Place};

/// A name where it stands.
#[derive(Clone, Copy, Debug)]
pub struct Name<'i> {
    /// Its text in the source.
    pub text: &'i [u8],

    /// How its scope declares it, or None where the scope only uses it.
    pub binding: Option<BindingKind>,

    /// The number of its scope.
    pub scope: u32,

    /// The number of the function of that scope.
    pub function: u32,

    /// It is the own `arguments` of that function.
    pub own: bool,
}

impl<'i> Name<'i> {
    /// Whether the script declares it as a name of the global object.
    pub fn is_global(&self) -> bool
        ensures { result ≡ is_global_use (known_use self.now) }
    {
        self.scope == 0 && matches!(self.binding, Some(BindingKind::Var))
    }

    /// The function alone in which it is looked for, or None where it is looked for in those round it too.
    pub fn within(&self) -> Option<u32>
        ensures { result ≡ within_of (known_use self.now) }
    {
        self.own.then_some(self.function)
    }

    /// Where it is found if no scope declares it.
    pub fn undeclared(&self) -> Place
        ensures { result ≡ place_unfound (known_use self.now) }
    {
        if self.own {
            Place::Register
        } else {
            Place::Global
        }
    }
}
