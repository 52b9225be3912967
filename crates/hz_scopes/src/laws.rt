// Laws of what is known behind the events of a source. Each is a function with nothing to do, whose contract is the law.
ghost use Rattle.std.specs.Prelude.{◌≡◌, true, [], length, Some};
ghost use Rattle.hz_tree.specs.declared.tree.Tree.{Tree};
ghost use Rattle.hz_tree.specs.errors.Limits.{limit_errors};
ghost use Rattle.hz_tree.specs.tokens.Text.{Text};
ghost use Rattle.hz_tree.specs.trees.Events.{events_of};
ghost use Rattle.hz_tree.specs.trees.FunctionScopes.{function_scopes_of};
ghost use Rattle.hz_laws.specs.Sorts.{fits_of, script};
ghost use Rattle.hz_scopes.specs.Depth.{all_heard};
ghost use Rattle.hz_scopes.specs.State.{after, begun, finished};

/// What is known behind all events of a script is, for each function in order, its scopes with their names, and the
/// names that are free in it (ECMA-262, 8.2 and 9.1).
#[tactic(auto, using(crate::proofs::ScopesLaw::scopes_found))]
pub fn scopes_are_found()
    ensures { (source : Text) (tree : Tree)
        → finished (length source) (after begun (events_of tree)) ≡ function_scopes_of source tree }
{}

/// Where a script passes no limit, nothing that is known of its scopes is dropped.
#[tactic(auto, using(crate::proofs::KeptLaw::source_kept))]
pub fn scopes_are_kept()
    ensures { (tree : Tree) → fits_of tree script ≡ true → limit_errors tree ≡ []
        → all_heard (Some begun) (events_of tree) ≡ Some (after begun (events_of tree)) }
{}
