use crate::flat::{FlatFunction, FlatScope, Part};
use crate::names::{NameList, Names};
use crate::scopes::Scopes;
use hz_list::Memory;
use hz_tree::{BindingKind, ScopeAt, ScopeKind};
use std::alloc::Global;
use std::marker::Model;

/// The scopes and the free names of functions, while they become known. Contracts see a `Table`. A name takes 18
/// bytes, a scope 32 and a function 28.
#[derive(Debug, Drop)]
pub struct ScopeTable<'a> {
    names: NameList<'a>,

    /// How many of the names belong to scopes or functions that have ended.
    settled: u32,

    /// The scopes of the functions that have ended.
    scopes: Vec<FlatScope>,

    /// The scopes of those that have not.
    listed: Vec<FlatScope>,

    functions: Vec<FlatFunction>,
}

impl<'a> Model for ScopeTable<'a> {
    ghost use Rattle.hz_index.specs.Table.{Table};
    ghost use Rattle.hz_index.specs.Flat.{shown, IsFlat};

    ghost Value = { Table };

    ghost view = { λ t. shown t.names t.settled t.scopes.items t.listed.items t.functions.items };

    ghost invariant = { λ t. IsFlat t.names t.settled t.scopes.items t.listed.items t.functions.items };
}

impl<'a> ScopeTable<'a> {
    ghost use Rattle.std.specs.Prelude.{◌≡◌, ◌<◌, length, slice_get, Some, OnOk, OnErr};
    ghost use Rattle.std.specs.Option.{option_map};
    ghost use Rattle.hz_index.specs.Table.{empty, with_function, with_scope, with_name, with_end, with_function_end};

    /// Nothing is known. No memory is taken.
    pub fn new(alloc: Global) -> ScopeTable<'a>
        ensures { result ≡ empty }
    {
        ScopeTable {
            names: NameList::new(alloc),
            settled: 0,
            scopes: Vec::new(alloc),
            listed: Vec::new(alloc),
            functions: Vec::new(alloc),
        }
    }

    /// How many functions there are.
    pub fn functions(&self) -> u32
        ensures { result ≡ length self.now.functions }
    {
        self.functions.len() as u32
    }

    /// How many scopes are listed of functions that have not ended.
    pub fn listed(&self) -> usize
        ensures { result ≡ length self.now.listed }
    {
        self.listed.len()
    }

    /// A function begins. Memory for more than 4294967295 functions is never there.
    pub fn add_function(&mut self) -> Result<(), Memory>
        ensures { OnOk result (self.new ≡ with_function self.old) }
    {
        if self.functions.len() >= 4294967295 {
            return Err(Memory);
        }
        let none = Part { first: 0, past: 0 };
        self.functions.push(FlatFunction {
            around: nowhere(),
            binds: false,
            scopes: none,
            free: none,
        })?;
        Ok(())
    }

    /// A scope begins at a place in bytes, and is listed behind the others. `parent` is the number of the scope round
    /// it in its function. Memory for 4294967295 scopes is never there, so a parent with that number gives Memory: it
    /// stands for none where scopes are stored.
    pub fn list_scope(
        &mut self,
        kind: ScopeKind,
        start: usize,
        parent: Option<u32>,
    ) -> Result<(), Memory>
        ensures { OnOk result (self.new ≡ with_scope kind start parent self.old) }
    {
        let parent = stored_parent(parent)?;
        self.listed.push(FlatScope {
            start,
            end: start,
            names: Part { first: 0, past: 0 },
            parent,
            kind,
        })?;
        Ok(())
    }

    /// A name of the scope or the function that ends next: how the scope declares it, or None where the scope only
    /// uses it or the name is free in the function. Memory for more than 4294967295 names is never there.
    pub fn add_name(&mut self, name: &'a [u8], binding: Option<BindingKind>) -> Result<(), Memory>
        ensures { OnOk result (self.new ≡ with_name (record { name = name.now; binding = binding }) self.old) }
    {
        self.names.push(name, binding)
    }

    /// The scope at this place of those that are listed ends, and has the names that came last. Where none is listed
    /// there, only the names are gone.
    pub fn end_scope(&mut self, place: usize, end: usize)
        ensures { self.new ≡ with_end place end self.old }
    {
        let names = Part {
            first: self.settled,
            past: self.names.len(),
        };
        name_scope(&mut self.listed, place, end, names);
        self.settled = names.past;
    }

    /// The function with this number ends. It stands in the scope `around`, and binds `this`, `new.target` and
    /// `arguments` or not. Its scopes are those that are listed from the place `from` on, and the names that came last
    /// are free in it. Where there is no such function, the scopes and names are gone. Memory for more than 4294967295
    /// scopes, or for a function in one with the number 4294967295, is never there.
    pub fn end_function(
        &mut self,
        number: u32,
        from: usize,
        around: Option<ScopeAt>,
        binds: bool,
    ) -> Result<(), Memory>
        ensures { OnOk result (self.new ≡ with_function_end number from around binds self.old) }
    {
        let around = stored_around(around)?;
        let free = Part {
            first: self.settled,
            past: self.names.len(),
        };
        let first = from.min(self.listed.len());
        let scopes = settle(&mut self.scopes, &self.listed[first..])?;
        let function = FlatFunction {
            around,
            binds,
            scopes,
            free,
        };
        set_function(&mut self.functions, number, function);
        self.listed.truncate(from);
        self.settled = free.past;
        Ok(())
    }

    /// The scope in which the function with this number stands; None for the script, and where it has not ended.
    pub fn around(&self, number: u32) -> Option<ScopeAt>
        requires { number < length self.now.functions }
        ensures { option_map (λ f. f.around) (slice_get self.now.functions number) ≡ Some result }
    {
        shown_around(self.functions[number as usize].around)
    }

    /// Whether the function with this number binds `this`, `new.target` and `arguments`; false where it has not ended.
    pub fn binds(&self, number: u32) -> bool
        requires { number < length self.now.functions }
        ensures { option_map (λ f. f.binds) (slice_get self.now.functions number) ≡ Some result }
    {
        self.functions[number as usize].binds
    }

    /// The scopes of the function with this number, none where it has not ended.
    pub fn scopes(&self, number: u32) -> Scopes<'_>
        requires { number < length self.now.functions }
        ensures { option_map (λ f. f.scopes) (slice_get self.now.functions number) ≡ Some result }
    {
        let part = self.functions[number as usize].scopes;
        Scopes::new(
            &self.scopes[part.first as usize..part.past as usize],
            &self.names,
        )
    }

    /// The names that are free in the function with this number, none where it has not ended.
    pub fn free(&self, number: u32) -> Names<'_>
        requires { number < length self.now.functions }
        ensures { option_map (λ f. f.free) (slice_get self.now.functions number) ≡ Some result }
    {
        let part = self.functions[number as usize].free;
        self.names.texts(part.first, part.past)
    }
}

ghost use Rattle.std.specs.Prelude.{◌≡◌, ◌≤◌, ◌++◌, length, slice_set, IfOk, OnOk, OnErr};
ghost use Rattle.hz_index.specs.Flat.{parent_of, around_of, with_names};

/// A parent as it is stored.
fn stored_parent(parent: Option<u32>) -> Result<u32, Memory>
    ensures { IfOk result (λ stored. parent_of stored ≡ parent) }
{
    match parent {
        None => Ok(4294967295),
        Some(number) if number < 4294967295 => Ok(number),
        Some(_) => Err(Memory),
    }
}

/// No scope, as one is stored in which a function stands.
fn nowhere() -> ScopeAt
    ensures { result ≡ record { function = 4294967295; scope = 0 } }
{
    ScopeAt {
        function: 4294967295,
        scope: 0,
    }
}

/// The scope in which a function stands, as it is stored.
fn stored_around(around: Option<ScopeAt>) -> Result<ScopeAt, Memory>
    ensures { IfOk result (λ stored. around_of stored ≡ around) }
{
    match around {
        None => Ok(nowhere()),
        Some(at) if at.function < 4294967295 => Ok(at),
        Some(_) => Err(Memory),
    }
}

fn shown_around(stored: ScopeAt) -> Option<ScopeAt>
    ensures { result ≡ around_of stored }
{
    (stored.function != 4294967295).then_some(stored)
}

/// The scope at this place ends, and has these names.
fn name_scope(listed: &mut Vec<FlatScope>, place: usize, end: usize, names: Part)
    ensures { listed.new.items ≡ with_names place end names listed.old.items }
{
    if place < listed.len() {
        let known = listed[place];
        listed[place] = FlatScope {
            end,
            names,
            ..known
        };
    }
}

/// Adds scopes at the end, and tells which part of the list they are. After Memory the list is as before.
fn settle(scopes: &mut Vec<FlatScope>, ended: &[FlatScope]) -> Result<Part, Memory>
    requires { length scopes.old.items ≤ 4294967295 }
    ensures ok { OnOk result (scopes.new.items ≡ scopes.old.items ++ ended.now) }
    ensures part { IfOk result (λ part. part ≡ record {
      first = length scopes.old.items;
      past = length scopes.new.items;
    }) }
    ensures few { length scopes.new.items ≤ 4294967295 }
    ensures err { OnErr result (scopes.new.items ≡ scopes.old.items) }
{
    let known = scopes.len();
    if ended.len() > 4294967295 - known {
        return Err(Memory);
    }
    scopes.extend_from_slice(ended)?;
    Ok(Part {
        first: known as u32,
        past: scopes.len() as u32,
    })
}

/// Puts another function in the place of the one with this number, where there is one.
fn set_function(functions: &mut Vec<FlatFunction>, number: u32, function: FlatFunction)
    ensures { functions.new.items ≡ slice_set functions.old.items number function }
{
    if (number as usize) < functions.len() {
        functions[number as usize] = function;
    }
}
