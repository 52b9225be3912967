use crate::starts::Starts;
use hz_early::Names;
use hz_list::Memory;
use std::alloc::Global;
use std::marker::Model;

/// The names that are used directly in open scopes, each once in its scope.
#[derive(Drop)]
pub struct NamesHere<'a> {
    entries: Vec<&'a [u8]>,

    /// The same names again, for look-ups.
    names: Names<'a>,

    starts: Starts,
}

impl<'a> Model for NamesHere<'a> {
    ghost use Rattle.std.specs.Prelude.{◌≡◌, length};
    ghost use Rattle.hz_tree.specs.tokens.Text.{Text};
    ghost use Rattle.hz_scopes.specs.Layers.{Layers, layers_of, AreNested};
    ghost use Rattle.hz_scopes.specs.Entries.{texts_of};

    ghost Value = { Layers Text };

    ghost view = { λ h. layers_of h.starts (texts_of h.entries.items) };

    ghost invariant = { λ h. (h.names ≡ texts_of h.entries.items) × AreNested h.starts (length h.entries.items) };
}

impl<'a> NamesHere<'a> {
    ghost use Rattle.std.specs.Prelude.{◌≡◌, ◌<◌, length, Some, OnOk};
    ghost use Rattle.std.specs.List.{slice_get};
    ghost use Rattle.hz_tree.specs.trees.FunctionScopes.{with_name};
    ghost use Rattle.hz_tree.specs.errors.Scopes.{occurs};
    ghost use Rattle.hz_scopes.specs.Layers.{nothing, opened, closed, pushed};

    /// The outermost scope, which uses no name. No memory is taken.
    pub fn new(alloc: Global) -> NamesHere<'a>
        ensures { result ≡ nothing }
    {
        NamesHere {
            entries: Vec::new(alloc),
            names: Names::new(alloc),
            starts: Starts::new(alloc),
        }
    }

    /// How many names are used directly in the innermost scope.
    pub fn len(&self) -> usize
        ensures { result ≡ length self.now.inner }
    {
        self.entries.len() - self.starts.innermost()
    }

    /// The name at this place among those of the innermost scope.
    pub fn get(&self, place: usize) -> &'a [u8]
        requires { place < length self.now.inner }
        ensures { slice_get self.now.inner place ≡ Some result.now }
    {
        self.entries[self.starts.innermost() + place]
    }

    /// A name is used directly in the innermost scope.
    pub fn using(&mut self, name: &'a [u8]) -> Result<(), Memory>
        ensures { OnOk result (self.new ≡ record self.old { inner = with_name self.old.inner name.now }) }
    {
        if self.names.occurs_from(self.starts.innermost(), name) {
            return Ok(());
        }
        self.push(name)
    }

    fn push(&mut self, name: &'a [u8]) -> Result<(), Memory>
        ensures { OnOk result (self.new ≡ pushed name.now self.old) }
    {
        self.entries.reserve(1)?;
        self.names.push(name)?;
        self.entries.push(name)?;
        Ok(())
    }

    /// A scope begins within the others.
    pub fn open(&mut self) -> Result<(), Memory>
        ensures { OnOk result (self.new ≡ opened self.old) }
    {
        self.starts.open(self.entries.len())
    }

    /// The innermost scope ends.
    pub fn close(&mut self)
        ensures { self.new ≡ closed self.old }
    {
        let start = self.starts.innermost();
        self.entries.truncate(start);
        self.names.truncate(start);
        self.starts.close();
    }
}
