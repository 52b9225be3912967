use hz_list::Memory;
use std::alloc::Global;
use std::collections::HashMap;
use std::marker::Model;

/// A name of a list, and where in the list the same name stood last before it.
#[derive(Clone, Copy)]
pub struct Entry<'a> {
    pub name: &'a [u8],
    pub previous: Option<usize>,
}

/// A list of names, which grows and shrinks at its end. Whether a name stands behind some place is found by one
/// look-up.
#[derive(Drop)]
pub struct Names<'a> {
    entries: Vec<Entry<'a>>,

    /// For each name, the place of its last entry.
    last: HashMap<&'a [u8], usize>,
}

impl<'a> Model for Names<'a> {
    ghost use Rattle.std.specs.Prelude.{List, ℕ, reverse};
    ghost use Rattle.std.specs.HashMap.{get_by};
    ghost use Rattle.std.specs.Str.{bytes_eq};
    ghost use Rattle.hz_early.specs.Names.{names_of, IsIndexed};

    ghost Value = { List (List ℕ) };

    ghost view = { λ n. names_of n.entries.items };

    ghost invariant = { λ n. IsIndexed (reverse n.entries.items) (λ name. get_by (λ k. bytes_eq name k.now) n.last) };
}

impl<'a> Names<'a> {
    ghost use Rattle.std.specs.Prelude.{◌≡◌, ◌-◌, [], ◌∷◌, ◌++◌, length, take, drop, OnOk, OnErr};
    ghost use Rattle.hz_tree.specs.errors.Scopes.{occurs};

    /// No names.
    pub fn new(alloc: Global) -> Names<'a>
        ensures { result ≡ [] }
    {
        Names {
            entries: Vec::new(alloc),
            last: HashMap::new(alloc),
        }
    }

    /// How many names there are.
    pub fn len(&self) -> usize
        ensures { result ≡ length self.now }
    {
        self.entries.len()
    }

    /// Whether the name stands in the list from this place on.
    pub fn occurs_from(&self, place: usize, name: &[u8]) -> bool
        ensures { result ≡ occurs name.now (drop place self.now) }
    {
        if self.entries.len() <= place {
            return false;
        }
        match self.last.get(name) {
            Some(last) => place <= *last,
            None => false,
        }
    }

    /// Adds a name at the end. After Memory the list is as before.
    pub fn push(&mut self, name: &'a [u8]) -> Result<(), Memory>
        ensures ok { OnOk result (self.new ≡ self.old ++ name.now ∷ []) }
        ensures err { OnErr result (self.new ≡ self.old) }
    {
        self.entries.reserve(1)?;
        let place = self.entries.len();
        let previous = self.last.insert(name, place)?;
        self.entries.push(Entry { name, previous })?;
        Ok(())
    }

    /// Drops all names but the first `len` ones. Most scopes declare none of a sort, so the test stands where it is
    /// called.
    #[inline(always)]
    pub fn truncate(&mut self, len: usize)
        ensures { self.new ≡ take len self.old }
    {
        while len < self.len() {
            self.pop();
        }
    }

    /// Drops the last name.
    #[inline(never)]
    fn pop(&mut self)
        ensures { self.new ≡ take (length self.old - 1) self.old }
    {
        if let Some(entry) = self.entries.pop() {
            match entry.previous {
                Some(place) => {
                    let _ = self.last.insert(entry.name, place);
                }
                None => {
                    let _ = self.last.remove(entry.name);
                }
            }
        }
    }
}
