use crate::name::Name;
use hz_index::{ScopeName, ScopeNames};
use hz_list::Memory;
use std::alloc::Global;
use std::collections::HashMap;
use std::marker::Model;

/// A scope, with its number among those of all functions.
#[derive(Drop)]
pub struct NumberedScope<'i> {
    number: u32,

    /// The number of its function.
    function: u32,

    /// Its function binds `arguments`.
    binds: bool,

    /// The number of the scope round it.
    around: Option<u32>,

    names: ScopeNames<'i>,

    /// The number of its first name among those of all scopes.
    first: u32,

    /// For each name that it declares, the number of the first declaration.
    declared: HashMap<&'i [u8], u32>,
}

impl<'i> Model for NumberedScope<'i> {
    ghost use Rattle.std.specs.Prelude.{◌≡◌, ◌+◌, ◌≤◌, List, ℕ, length, option_map};
    ghost use Rattle.std.specs.HashMap.{get_by};
    ghost use Rattle.std.specs.Str.{bytes_eq};
    ghost use Rattle.hz_resolve.specs.Numbered.{Numbered, declaration_among};

    ghost Value = { Numbered };

    ghost view = { λ s. record {
      scope = record {
        number = s.number;
        function = s.function;
        binds = s.binds;
        around = s.around;
        names = s.names;
      };
      first = s.first;
    } };

    ghost invariant = { λ s. (s.first + length s.names ≤ 4294967295)
        × ((name : List ℕ) → get_by (λ k. bytes_eq name k.now) s.declared
        ≡ option_map (λ i. s.first + i) (declaration_among name s.names)) };
}

impl<'i> NumberedScope<'i> {
    ghost use Rattle.std.specs.Prelude.{◌≡◌, ◌+◌, ◌≤◌, length, IfOk};
    ghost use Rattle.std.specs.Prelude.{slice_get, option_map};
    ghost use Rattle.hz_resolve.specs.Numbered.{declared_within, use_in};
    ghost use Rattle.hz_resolve.specs.Views.{known_use};

    /// The scope with this number and these names, of which the first has the number `first`.
    pub fn new(
        alloc: Global,
        number: u32,
        function: u32,
        binds: bool,
        around: Option<u32>,
        names: ScopeNames<'i>,
        first: u32,
    ) -> Result<NumberedScope<'i>, Memory>
        requires { first + length names ≤ 4294967295 }
        ensures { IfOk result (λ s. s ≡ record {
          scope = record {
            number = number;
            function = function;
            binds = binds;
            around = around;
            names = names.entry;
          };
          first = first;
        }) }
    {
        let declared = declarations(alloc, &names, first)?;
        Ok(NumberedScope {
            number,
            function,
            binds,
            around,
            names,
            first,
            declared,
        })
    }

    /// The number of the scope.
    pub fn number(&self) -> u32
        ensures { result ≡ self.now.scope.number }
    {
        self.number
    }

    /// The number of the scope round it.
    pub fn around(&self) -> Option<u32>
        ensures { result ≡ self.now.scope.around }
    {
        self.around
    }

    /// The number of its first name, and of the one behind its last.
    pub fn extent(&self) -> (usize, usize)
        ensures first { result.0 ≡ self.now.first }
        ensures past { result.1 ≡ self.now.first + length self.now.scope.names }
    {
        let first = self.first as usize;
        (first, first + self.names.len())
    }

    /// The name with the number `i` among its own, counted from 0; None exactly past the end.
    pub fn name(&self, i: usize) -> Option<Name<'i>>
        ensures { option_map known_use result
            ≡ option_map (use_in self.now.scope) (slice_get self.now.scope.names i) }
    {
        let name = self.names.get(i)?;
        Some(Name {
            text: name.name,
            binding: name.binding,
            scope: self.number,
            function: self.function,
            own: self.binds && is_arguments(name.name),
        })
    }

    /// Whether a name is looked for in it that is looked for in one function alone.
    pub fn is_within(&self, within: Option<u32>) -> bool
        ensures { result ≡ is_scope_within within self.now.scope }
    {
        match within {
            Some(function) => function == self.function,
            None => true,
        }
    }

    /// The number of the first declaration of a name that is looked for in it.
    pub fn declaration(&self, name: &[u8], within: Option<u32>) -> Option<u32>
        ensures { result ≡ declared_within within name.now self.now }
    {
        if !self.is_within(within) {
            return None;
        }
        self.declared.get(name).copied()
    }
}

ghost use Rattle.std.specs.Prelude.{◌≡◌, ◌+◌, ◌≤◌, ℕ, List, length, option_map, Some, None, IfOk, OnOk};
ghost use Rattle.std.specs.Prelude.{if◌then◌else◌, codes};
ghost use Rattle.std.specs.HashMap.{get_by};
ghost use Rattle.std.specs.Option.{option_or};
ghost use Rattle.std.specs.Str.{bytes_eq};
ghost use Rattle.hz_index.specs.Names.{known_name};
ghost use Rattle.hz_tree.specs.trees.Layout.{is_declaration};
ghost use Rattle.hz_resolve.specs.Numbered.{declaration_among, is_within as is_scope_within};

fn is_arguments(name: &[u8]) -> bool
    ensures { result ≡ bytes_eq name.now (codes "arguments") }
{
    name == b"arguments".as_slice()
}

/// The number of the first declaration of each name that is declared among these, of which the first has the number
/// `first`.
fn declarations<'i>(
    alloc: Global,
    names: &ScopeNames<'i>,
    first: u32,
) -> Result<HashMap<&'i [u8], u32>, Memory>
    requires { first + length names.now ≤ 4294967295 }
    ensures { IfOk result (λ declared. (name : List ℕ) → get_by (λ k. bytes_eq name k.now) declared
        ≡ option_map (λ i. first + i) (declaration_among name names.now)) }
{
    let mut declared = HashMap::new(alloc);
    let mut i = 0;
    while let Some(name) = names.get(i) {
        declare(&mut declared, &name, first + i as u32)?;
        i += 1;
    }
    Ok(declared)
}

/// The name gets this number, where it is declared and has none.
fn declare<'i>(
    declared: &mut HashMap<&'i [u8], u32>,
    name: &ScopeName<'i>,
    number: u32,
) -> Result<(), Memory>
    ensures { OnOk result ((other : List ℕ) → get_by (λ k. bytes_eq other k.now) declared.new
        ≡ option_or (get_by (λ k. bytes_eq other k.now) declared.old)
        (if is_declaration other (known_name name.now) then Some number else None)) }
{
    if name.binding.is_some() && !declared.contains_key(name.name) {
        let _ = declared.insert(name.name, number)?;
    }
    Ok(())
}
