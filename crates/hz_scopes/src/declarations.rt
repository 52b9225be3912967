use crate::starts::Starts;
use hz_early::Names;
use hz_list::Memory;
use hz_tree::BindingKind;
use std::alloc::Global;
use std::marker::Model;

/// A name and how it is declared.
#[derive(Clone, Copy)]
pub struct Declaration<'a> {
    pub binding: BindingKind,
    pub name: &'a [u8],
}

/// What open scopes declare.
#[derive(Drop)]
pub struct Declarations<'a> {
    entries: Vec<Declaration<'a>>,

    /// The same names again, for look-ups.
    names: Names<'a>,

    starts: Starts,
}

impl<'a> Model for Declarations<'a> {
    ghost use Rattle.std.specs.Prelude.{◌≡◌, length, map};
    ghost use Rattle.hz_tree.specs.trees.FunctionScopes.{Declared};
    ghost use Rattle.hz_scopes.specs.Layers.{Layers, layers_of, AreNested};
    ghost use Rattle.hz_scopes.specs.Entries.{declared_of, names_of};

    ghost Value = { Layers Declared };

    ghost view = { λ d. layers_of d.starts (declared_of d.entries.items) };

    ghost invariant = { λ d. (d.names ≡ names_of d.entries.items) × AreNested d.starts (length d.entries.items) };
}

impl<'a> Declarations<'a> {
    ghost use Rattle.std.specs.Prelude.{◌≡◌, ◌<◌, length, Some, OnOk};
    ghost use Rattle.std.specs.List.{slice_get};
    ghost use Rattle.hz_tree.specs.trees.FunctionScopes.{Declared, declares_name, with_declared};
    ghost use Rattle.hz_scopes.specs.Layers.{nothing, opened, closed, pushed};
    ghost use Rattle.hz_scopes.specs.Entries.{to_declared};

    /// The outermost scope, which declares nothing. No memory is taken.
    pub fn new(alloc: Global) -> Declarations<'a>
        ensures { result ≡ nothing }
    {
        Declarations {
            entries: Vec::new(alloc),
            names: Names::new(alloc),
            starts: Starts::new(alloc),
        }
    }

    /// How many names the innermost scope declares.
    pub fn len(&self) -> usize
        ensures { result ≡ length self.now.inner }
    {
        self.entries.len() - self.starts.innermost()
    }

    /// The name at this place among those of the innermost scope.
    pub fn get(&self, place: usize) -> Declaration<'a>
        requires { place < length self.now.inner }
        ensures { slice_get self.now.inner place ≡ Some (to_declared result) }
    {
        self.entries[self.starts.innermost() + place]
    }

    /// Whether the innermost scope declares the name.
    pub fn declares(&self, name: &[u8]) -> bool
        ensures { result ≡ declares_name name.now self.now.inner }
    {
        self.names.occurs_from(self.starts.innermost(), name)
    }

    /// The innermost scope declares a name, if it does not yet.
    pub fn declare(&mut self, binding: BindingKind, name: &'a [u8]) -> Result<(), Memory>
        ensures { OnOk result (self.new ≡ record self.old {
          inner = with_declared self.old.inner (record { binding = binding; name = name.now });
        }) }
    {
        if self.declares(name) {
            return Ok(());
        }
        self.push(Declaration { binding, name })
    }

    fn push(&mut self, declaration: Declaration<'a>) -> Result<(), Memory>
        ensures { OnOk result (self.new ≡ pushed (to_declared declaration.entry) self.old) }
    {
        self.entries.reserve(1)?;
        self.names.push(declaration.name)?;
        self.entries.push(declaration)?;
        Ok(())
    }

    /// A scope begins within the others.
    pub fn open(&mut self) -> Result<(), Memory>
        ensures { OnOk result (self.new ≡ opened self.old) }
    {
        self.starts.open(self.entries.len())
    }

    /// The innermost scope ends.
    pub fn close(&mut self)
        ensures { self.new ≡ closed self.old }
    {
        let start = self.starts.innermost();
        self.entries.truncate(start);
        self.names.truncate(start);
        self.starts.close();
    }
}
