use crate::flat::FlatScope;
use crate::names::{NameList, ScopeNames};
use hz_tree::ScopeKind;
use std::marker::Model;

/// A scope of a function, for which an environment record stands when the function runs (ECMA-262, 9.1).
#[derive(Debug, Drop)]
pub struct Scope<'i> {
    /// What it stands for.
    pub kind: ScopeKind,

    /// The place of its first byte.
    pub start: usize,

    /// The place behind its last byte.
    pub end: usize,

    /// The number of the scope round it among those of the same function; the function's own scope has none.
    pub parent: Option<u32>,

    /// What it declares and what is used directly in it.
    pub names: ScopeNames<'i>,
}

/// The scopes of a function in the order of their starts, outer ones first. Scope 0 is the function's own.
#[derive(Debug, Drop)]
pub struct Scopes<'i> {
    scopes: &'i [FlatScope],
    names: &'i NameList<'i>,
}

impl<'i> Model for Scopes<'i> {
    ghost use Rattle.std.specs.Prelude.{List, length, map};
    ghost use Rattle.std.specs.List.{All};
    ghost use Rattle.hz_tree.specs.trees.FunctionScopes.{Scope as Shown};
    ghost use Rattle.hz_index.specs.Flat.{shown_scope, HasNames};

    ghost Value = { List Shown };

    ghost view = { λ s. map (shown_scope s.names.now) s.scopes.now };

    ghost invariant = { λ s. All (HasNames (length s.names.now)) s.scopes.now };
}

impl<'i> Scopes<'i> {
    ghost use Rattle.std.specs.Prelude.{◌≡◌, ◌↔◌, [], IsTrue, length, map, slice_get};
    ghost use Rattle.std.specs.List.{All};
    ghost use Rattle.std.specs.Option.{option_map};
    ghost use Rattle.hz_index.specs.Flat.{shown_scope, HasNames};
    ghost use Rattle.hz_index.specs.Views.{known_scope};

    /// These scopes, whose names are parts of that list.
    pub(crate) fn new(scopes: &'i [FlatScope], names: &'i NameList<'i>) -> Scopes<'i>
        requires { All (HasNames (length names.now)) scopes.now }
        ensures { result ≡ map (shown_scope names.now) scopes.now }
    {
        Scopes { scopes, names }
    }

    /// How many scopes there are.
    pub fn len(&self) -> usize
        ensures { result ≡ length self.now }
    {
        self.scopes.len()
    }

    /// Whether there is no scope.
    pub fn is_empty(&self) -> bool
        ensures { IsTrue result ↔ (self.now ≡ []) }
    {
        self.len() == 0
    }

    /// The scope with the number `i`, counted from 0; None exactly past the end.
    pub fn get(&self, i: usize) -> Option<Scope<'i>>
        ensures { option_map known_scope result ≡ slice_get self.now i }
    {
        if i >= self.scopes.len() {
            return None;
        }
        let scope = self.scopes[i];
        Some(Scope {
            kind: scope.kind,
            start: scope.start,
            end: scope.end,
            parent: parent_of(scope.parent),
            names: self.names.part(scope.names.first, scope.names.past),
        })
    }
}

ghost use Rattle.std.specs.Prelude.{◌≡◌};
ghost use Rattle.hz_index.specs.Flat.{parent_of as parent};

fn parent_of(number: u32) -> Option<u32>
    ensures { result ≡ parent number }
{
    (number != 4294967295).then_some(number)
}
