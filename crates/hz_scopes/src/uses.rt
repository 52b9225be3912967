use crate::numbers::stored_number;
use crate::starts::Starts;
use hz_list::Memory;
use std::alloc::Global;
use std::collections::HashMap;
use std::marker::Model;

/// A name that is used in an open scope, and that no scope within declares.
#[derive(Clone, Copy)]
pub struct Use<'a> {
    pub name: &'a [u8],

    /// A function within uses it.
    pub inner: bool,

    /// It was taken out.
    pub taken: bool,

    /// The last use of the same name before this one that was not taken out. Of a use that was taken out this says
    /// nothing.
    pub previous: Option<u32>,
}

/// The names that are used in open scopes. Uses are kept by name, so taking out those of a name passes over no others.
#[derive(Drop)]
pub struct Uses<'a> {
    entries: Vec<Use<'a>>,

    /// For each name, the place of its last use that was not taken out.
    last: HashMap<&'a [u8], u32>,

    starts: Starts,
}

impl<'a> Model for Uses<'a> {
    ghost use Rattle.std.specs.Prelude.{reverse, length};
    ghost use Rattle.std.specs.HashMap.{get_by};
    ghost use Rattle.std.specs.Str.{bytes_eq};
    ghost use Rattle.hz_tree.specs.trees.FunctionScopes.{Used};
    ghost use Rattle.hz_scopes.specs.Layers.{Layers, layers_of, each, AreNested};
    ghost use Rattle.hz_scopes.specs.Links.{left_of, IsIndexed};

    ghost Value = { Layers Used };

    ghost view = { λ u. each left_of (layers_of u.starts u.entries.items) };

    ghost invariant = { λ u. IsIndexed (reverse u.entries.items) (λ name. get_by (λ k. bytes_eq name k.now) u.last)
        × AreNested u.starts (length u.entries.items) };
}

impl<'a> Uses<'a> {
    ghost use Rattle.std.specs.Prelude.{◌≡◌, [], map, OnOk, IfOk};
    ghost use Rattle.hz_tree.specs.trees.FunctionScopes.{used_within, each_name};
    ghost use Rattle.hz_scopes.specs.Layers.{nothing, opened, closed, pushed, joined};
    ghost use Rattle.hz_scopes.specs.Links.{without, TakesOne};

    /// The outermost scope, in which nothing is used. No memory is taken.
    pub fn new(alloc: Global) -> Uses<'a>
        ensures { result ≡ nothing }
    {
        Uses {
            entries: Vec::new(alloc),
            last: HashMap::new(alloc),
            starts: Starts::new(alloc),
        }
    }

    /// A name is used in the innermost scope, by a function within or not. After Memory all is as before.
    pub fn push(&mut self, name: &'a [u8], inner: bool) -> Result<(), Memory>
        ensures { OnOk result (self.new ≡ pushed (record { name = name.now; inner = inner }) self.old) }
    {
        self.entries.reserve(1)?;
        let place = stored_number(self.entries.len())?;
        let previous = self.last.insert(name, place)?;
        self.entries.push(Use {
            name,
            inner,
            taken: false,
            previous,
        })?;
        Ok(())
    }

    /// Takes out all uses of a name in the innermost scope, and tells whether one of them was by a function within.
    pub fn take_out(&mut self, name: &[u8]) -> bool
        ensures found { result ≡ used_within self.old.inner name.now }
        ensures taken { self.new ≡ record self.old { inner = without name.now self.old.inner } }
    {
        let mut found = false;
        while let Some(inner) = self.take_one(name) {
            found = found || inner;
        }
        found
    }

    /// Takes out the last use of a name in the innermost scope, and tells whether it was by a function within. None
    /// where there is no use of the name.
    fn take_one(&mut self, name: &[u8]) -> Option<bool>
        ensures { TakesOne name.now result self.old self.new }
    {
        let place = match self.last.get(name) {
            Some(place) => *place as usize,
            None => return None,
        };
        if place < self.starts.innermost() {
            return None;
        }
        let entry = self.entries[place];
        self.entries[place] = Use {
            taken: true,
            ..entry
        };
        take_back(&mut self.last, entry.name, entry.previous);
        Some(entry.inner)
    }

    /// The names that are used in the innermost scope, each once, by their first use.
    pub fn names(&self, alloc: Global) -> Result<Vec<&'a [u8]>, Memory>
        ensures { IfOk result (λ names. map (λ name. name.now) names.items
            ≡ each_name [] (map (λ u. u.name) self.now.inner)) }
    {
        let start = self.starts.innermost();
        let mut names = Vec::new(alloc);
        for place in start..self.entries.len() {
            let entry = &self.entries[place];
            if is_first(entry, start) {
                names.push(entry.name)?;
            }
        }
        Ok(names)
    }

    /// A scope begins within the others.
    pub fn open(&mut self) -> Result<(), Memory>
        ensures { OnOk result (self.new ≡ opened self.old) }
    {
        self.starts.open(self.entries.len())
    }

    /// The innermost scope ends, and what is left in it is used in the scope round it.
    pub fn join(&mut self)
        ensures { self.new ≡ joined self.old }
    {
        self.starts.close();
    }

    /// The innermost scope ends, and its uses go.
    pub fn close(&mut self)
        ensures { self.new ≡ closed self.old }
    {
        let start = self.starts.innermost();
        truncate(&mut self.entries, &mut self.last, start);
        self.starts.close();
    }
}

ghost use Rattle.std.specs.Prelude.{◌≡◌, ◌-◌, List, ℕ, length, take, reverse, None, if◌then◌else◌};
ghost use Rattle.std.specs.HashMap.{get_by};
ghost use Rattle.std.specs.Str.{bytes_eq};
ghost use Rattle.hz_scopes.specs.Links.{IsIndexed, is_first as is_the_first};

/// Drops all uses but the first `len` ones.
fn truncate<'a>(entries: &mut Vec<Use<'a>>, last: &mut HashMap<&'a [u8], u32>, len: usize)
    requires { IsIndexed (reverse entries.old.items) (λ name. get_by (λ k. bytes_eq name k.now) last.old) }
    ensures fewer { entries.new.items ≡ take len entries.old.items }
    ensures indexed { IsIndexed (reverse entries.new.items) (λ name. get_by (λ k. bytes_eq name k.now) last.new) }
{
    while len < entries.len() {
        pop(entries, last);
    }
}

/// Drops the last use.
fn pop<'a>(entries: &mut Vec<Use<'a>>, last: &mut HashMap<&'a [u8], u32>)
    requires { IsIndexed (reverse entries.old.items) (λ name. get_by (λ k. bytes_eq name k.now) last.old) }
    ensures fewer { entries.new.items ≡ take (length entries.old.items - 1) entries.old.items }
    ensures indexed { IsIndexed (reverse entries.new.items) (λ name. get_by (λ k. bytes_eq name k.now) last.new) }
{
    if let Some(entry) = entries.pop() {
        if !entry.taken {
            take_back(last, entry.name, entry.previous);
        }
    }
}

/// The last use of the name is now the one at `previous`.
fn take_back<'a>(last: &mut HashMap<&'a [u8], u32>, name: &'a [u8], previous: Option<u32>)
    requires { get_by (λ k. bytes_eq name.now k.now) last.old ≡ None → ⊥ }
    ensures { (other : List ℕ) → get_by (λ k. bytes_eq other k.now) last.new
        ≡ if bytes_eq name.now other then previous else get_by (λ k. bytes_eq other k.now) last.old }
{
    match previous {
        Some(place) => {
            let _ = last.insert(name, place);
        }
        None => {
            let _ = last.remove(name);
        }
    }
}

/// Whether it is the first use of its name from this place on, of those that were not taken out.
fn is_first(entry: &Use, start: usize) -> bool
    ensures { result ≡ is_the_first start entry.now }
{
    match entry.previous {
        Some(place) => !entry.taken && (place as usize) < start,
        None => !entry.taken,
    }
}
