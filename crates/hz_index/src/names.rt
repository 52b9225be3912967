use hz_list::Memory;
use hz_tree::BindingKind;
use std::alloc::Global;
use std::marker::Model;

/// A name of a scope.
#[derive(Clone, Copy, Debug)]
pub struct ScopeName<'i> {
    /// Its text in the source.
    pub name: &'i [u8],

    /// How the scope declares it, or None where the scope only uses it.
    pub binding: Option<BindingKind>,
}

/// The names of a scope: those that it declares, by their first declaration, and then those that are used directly in
/// it, by their first use.
#[derive(Clone, Debug, Drop)]
pub struct ScopeNames<'i> {
    names: &'i [&'i [u8]],
    bindings: &'i [Option<BindingKind>],
}

impl<'i> Model for ScopeNames<'i> {
    ghost use Rattle.std.specs.Prelude.{◌≡◌, List, length};
    ghost use Rattle.hz_tree.specs.trees.FunctionScopes.{ScopeName as Name};
    ghost use Rattle.hz_index.specs.Names.{named};

    ghost Value = { List Name };

    ghost view = { λ s. named s.names.now s.bindings.now };

    ghost invariant = { λ s. length s.names.now ≡ length s.bindings.now };
}

#[tactic(auto, using(crate::proofs::NamesLemmas::names_laws))]
impl<'i> ScopeNames<'i> {
    ghost use Rattle.std.specs.Prelude.{◌≡◌, ◌↔◌, [], IsTrue, length, slice_get};
    ghost use Rattle.std.specs.Option.{option_map};
    ghost use Rattle.hz_index.specs.Names.{known_name};

    /// How many names there are.
    pub fn len(&self) -> usize
        ensures { result ≡ length self.now }
    {
        self.names.len()
    }

    /// Whether there is no name.
    pub fn is_empty(&self) -> bool
        ensures { IsTrue result ↔ (self.now ≡ []) }
    {
        self.len() == 0
    }

    /// The name with the number `i`, counted from 0; None exactly past the end.
    pub fn get(&self, i: usize) -> Option<ScopeName<'i>>
        ensures { option_map known_name result ≡ slice_get self.now i }
    {
        if i >= self.names.len() {
            return None;
        }
        Some(ScopeName {
            name: self.names[i],
            binding: self.bindings[i],
        })
    }
}

/// The names that are free in a function, by their first use.
#[derive(Clone, Debug, Drop)]
pub struct Names<'i> {
    names: &'i [&'i [u8]],
}

impl<'i> Model for Names<'i> {
    ghost use Rattle.std.specs.Prelude.{List};
    ghost use Rattle.hz_tree.specs.tokens.Text.{Text};
    ghost use Rattle.hz_index.specs.Names.{texts};

    ghost Value = { List Text };

    ghost view = { λ n. texts n.names.now };
}

#[tactic(auto, using(crate::proofs::NamesLemmas::names_laws))]
impl<'i> Names<'i> {
    ghost use Rattle.std.specs.Prelude.{◌≡◌, ◌↔◌, [], IsTrue, length, slice_get};
    ghost use Rattle.std.specs.Option.{option_copied};

    /// How many names there are.
    pub fn len(&self) -> usize
        ensures { result ≡ length self.now }
    {
        self.names.len()
    }

    /// Whether there is no name.
    pub fn is_empty(&self) -> bool
        ensures { IsTrue result ↔ (self.now ≡ []) }
    {
        self.len() == 0
    }

    /// The name with the number `i`, counted from 0; None exactly past the end.
    pub fn get(&self, i: usize) -> Option<&'i [u8]>
        ensures { option_copied result ≡ slice_get self.now i }
    {
        self.names.get(i).copied()
    }
}

/// Names one behind the other, each with its binding, in 17 bytes.
#[derive(Debug, Drop)]
pub(crate) struct NameList<'a> {
    names: Vec<&'a [u8]>,
    bindings: Vec<Option<BindingKind>>,
}

impl<'a> Model for NameList<'a> {
    ghost use Rattle.std.specs.Prelude.{◌≡◌, ◌≤◌, List, length};
    ghost use Rattle.hz_tree.specs.trees.FunctionScopes.{ScopeName as Name};
    ghost use Rattle.hz_index.specs.Names.{named};

    ghost Value = { List Name };

    ghost view = { λ l. named l.names.items l.bindings.items };

    ghost invariant = { λ l. (length l.names.items ≡ length l.bindings.items) × (length l.names.items ≤ 4294967295) };
}

#[tactic(auto, using(crate::proofs::NamesLemmas::names_laws))]
impl<'a> NameList<'a> {
    ghost use Rattle.std.specs.Prelude.{◌≡◌, ◌≤◌, [], ◌∷◌, ◌++◌, length, map, slice_range, OnOk, OnErr};

    /// No names. No memory is taken.
    pub(crate) fn new(alloc: Global) -> NameList<'a>
        ensures { result ≡ [] }
    {
        NameList {
            names: Vec::new(alloc),
            bindings: Vec::new(alloc),
        }
    }

    /// How many names there are.
    pub(crate) fn len(&self) -> u32
        ensures { result ≡ length self.now }
    {
        self.names.len() as u32
    }

    /// Adds a name at the end. After Memory the list is as before. Memory for more than 4294967295 names is never
    /// there.
    pub(crate) fn push(
        &mut self,
        name: &'a [u8],
        binding: Option<BindingKind>,
    ) -> Result<(), Memory>
        ensures ok { OnOk result (self.new ≡ self.old ++ record { name = name.now; binding = binding } ∷ []) }
        ensures err { OnErr result (self.new ≡ self.old) }
    {
        if self.names.len() >= 4294967295 {
            return Err(Memory);
        }
        self.names.reserve(1)?;
        self.bindings.push(binding)?;
        self.names.push(name)?;
        Ok(())
    }

    /// The names from one place to another.
    pub(crate) fn part(&self, first: u32, past: u32) -> ScopeNames<'_>
        requires ordered { first ≤ past }
        requires within { past ≤ length self.now }
        ensures { result ≡ slice_range self.now first past }
    {
        ScopeNames {
            names: &self.names[first as usize..past as usize],
            bindings: &self.bindings[first as usize..past as usize],
        }
    }

    /// The same without their bindings.
    pub(crate) fn texts(&self, first: u32, past: u32) -> Names<'_>
        requires ordered { first ≤ past }
        requires within { past ≤ length self.now }
        ensures { result ≡ map (λ n. n.name) (slice_range self.now first past) }
    {
        Names {
            names: &self.names[first as usize..past as usize],
        }
    }
}
