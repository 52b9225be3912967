// Laws of the functions of a source. Each is a function with nothing to do, whose contract is the law.
ghost use Rattle.std.specs.Prelude.{◌≡◌, ◌↔◌, ℕ, length, map, slice_get, Option, Some, None};
ghost use Rattle.std.specs.Option.{option_map};
ghost use Rattle.hz_tree.specs.declared.scope.ScopeAt.{ScopeAt};
ghost use Rattle.hz_tree.specs.sources.Refusals.{functions, function_scopes};
ghost use Rattle.hz_tree.specs.tokens.Text.{Text};
ghost use Rattle.hz_index.specs.Standing.{of_info, of_scopes};

/// The functions of a source and the functions whose scopes are told are as many.
#[tactic(auto, using(crate::proofs::Standing::same_count))]
pub fn scopes_of_each_function()
    ensures { (source : Text) → length (functions source) ≡ length (function_scopes source) }
{}

/// Each function of a source stands in a scope of its parent, and binds `this`, `new.target` and `arguments` exactly
/// where its kind does.
#[tactic(auto, using(crate::proofs::Standing::stand_alike))]
pub fn functions_stand_in_their_parents()
    ensures { (source : Text) → map of_info (functions source) ≡ map of_scopes (function_scopes source) }
{}

/// Of the functions of a source exactly the script, which has the number 0, stands in no scope.
#[tactic(auto, using(crate::proofs::Rooted::script_alone))]
pub fn script_alone_stands_in_no_scope()
    ensures { (source : Text) (k : ℕ) (around : Option ScopeAt)
        → option_map (λ f. f.around) (slice_get (function_scopes source) k) ≡ Some around
        → (around ≡ None) ↔ (k ≡ 0) }
{}
