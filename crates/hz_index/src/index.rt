use crate::names::Names;
use crate::scopes::Scopes;
use crate::table::ScopeTable;
use hz_tree::{FunctionInfo, FunctionInfos, ScopeAt};
use std::marker::Model;

/// A source that is not refused, and what is known of its functions. Function 0 is the script.
#[derive(Debug, Drop)]
pub struct Index<'a> {
    source: &'a [u8],
    strict: bool,
    functions: FunctionInfos,
    scopes: ScopeTable<'a>,
}

impl<'a> Model for Index<'a> {
    ghost use Rattle.std.specs.Prelude.{None};
    ghost use Rattle.hz_tree.specs.sources.Refusals.{Accepted};
    ghost use Rattle.hz_index.specs.Holds.{Holds};

    ghost Value = { Accepted };

    ghost view = { λ i. record { source = i.source.now; strict = i.strict } };

    ghost invariant = { λ i. Holds i.source.now i.strict i.functions i.scopes };
}

#[tactic(auto, using(crate::proofs::Standing::same_count))]
impl<'a> Index<'a> {
    ghost use Rattle.std.specs.Prelude.{◌≡◌, ◌<◌, length, slice_get, Some, None};
    ghost use Rattle.std.specs.Option.{option_map};
    ghost use Rattle.hz_tree.specs.sources.Refusals.{refusal_of, functions as functions_in, function_scopes};

    /// `strict` tells that the source is read as strict code whether it says so or not.
    pub fn new(
        source: &'a [u8],
        strict: bool,
        functions: FunctionInfos,
        scopes: ScopeTable<'a>,
    ) -> Index<'a>
        requires accepted { refusal_of source.now strict ≡ None }
        requires functions { functions ≡ functions_in source.now }
        requires scopes { scopes.functions ≡ function_scopes source.now }
        ensures source { result.source ≡ source.now }
        ensures strict { result.strict ≡ strict }
    {
        Index {
            source,
            strict,
            functions,
            scopes,
        }
    }

    /// The source.
    pub fn source(&self) -> &'a [u8]
        ensures { result.now ≡ self.now.source }
    {
        self.source
    }

    /// Whether the source is read as strict code whether it says so or not.
    pub fn strict(&self) -> bool
        ensures { result ≡ self.now.strict }
    {
        self.strict
    }

    /// How many functions the source has, the script among them.
    pub fn count(&self) -> u32
        ensures { result ≡ length (functions_in self.now.source) }
    {
        self.functions.len()
    }

    /// The function with this number. Functions are numbered by where they start; 0 is the script.
    pub fn function(&self, k: u32) -> &FunctionInfo
        requires { k < length (functions_in self.now.source) }
        ensures { slice_get (functions_in self.now.source) k ≡ Some result.now }
    {
        self.functions.at(k)
    }

    /// The scope in which the function with this number stands; None exactly for the script. A function expression with
    /// a name stands in the scope of that name.
    pub fn around(&self, k: u32) -> Option<ScopeAt>
        requires { k < length (functions_in self.now.source) }
        ensures { option_map (λ f. f.around) (slice_get (function_scopes self.now.source) k) ≡ Some result }
    {
        self.scopes.around(k)
    }

    /// Whether the function with this number binds `this`, `new.target` and `arguments` at its activation: each does
    /// but the script and an arrow (ECMA-262, 10.2.1.1 and 10.2.11).
    pub fn binds(&self, k: u32) -> bool
        requires { k < length (functions_in self.now.source) }
        ensures { option_map (λ f. f.binds) (slice_get (function_scopes self.now.source) k) ≡ Some result }
    {
        self.scopes.binds(k)
    }

    /// The scopes of the function with this number, in the order of their starts. A scope stands for an environment
    /// record (ECMA-262, 9.1): that of the script, of a function's parameters and body, of the own name of a function
    /// expression, of a block, or of a catch. Its places are in bytes.
    pub fn scopes(&self, k: u32) -> Scopes<'_>
        requires { k < length (functions_in self.now.source) }
        ensures { option_map (λ f. f.scopes) (slice_get (function_scopes self.now.source) k) ≡ Some result }
    {
        self.scopes.scopes(k)
    }

    /// The names that are free in the function with this number: those that it or a function in it uses and no scope
    /// within declares, by their first use. `this` and `new.target` are among them where an arrow uses them.
    pub fn free(&self, k: u32) -> Names<'_>
        requires { k < length (functions_in self.now.source) }
        ensures { option_map (λ f. f.free) (slice_get (function_scopes self.now.source) k) ≡ Some result }
    {
        self.scopes.free(k)
    }
}
