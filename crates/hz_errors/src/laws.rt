// Laws of what is found behind the events of a script: each part finds what the definition over the tree says. Each is a
// function with nothing to do, whose contract is the law.
ghost use Rattle.std.specs.Prelude.{◌≡◌, Bool, true, map};
ghost use Rattle.std.specs.List.{list_any};
ghost use Rattle.hz_tree.specs.declared.early.EarlyKind.TheVariants as early;
ghost use Rattle.hz_tree.specs.declared.profile.ProfileKind.TheVariants as profile;
ghost use Rattle.hz_tree.specs.declared.tree.Tree.{Tree, out-Tree};
ghost use Rattle.hz_tree.specs.errors.Declarations.{declaring_of};
ghost use Rattle.hz_tree.specs.errors.Jumps.{jumping_of};
ghost use Rattle.hz_tree.specs.errors.Limits.{limit_errors};
ghost use Rattle.hz_tree.specs.errors.Receivers.{receiving_of};
ghost use Rattle.hz_tree.specs.errors.Sources.{global_errors, script_declarations};
ghost use Rattle.hz_tree.specs.errors.Targets.{is_use_strict, meaning_of};
ghost use Rattle.hz_tree.specs.sources.EarlyErrors.{order_of_early};
ghost use Rattle.hz_tree.specs.sources.Kinds.{order_of_limit, order_of_profile};
ghost use Rattle.hz_tree.specs.sources.Least.{least_of};
ghost use Rattle.hz_tree.specs.sources.Refusals.{refusal_in};
ghost use Rattle.hz_tree.specs.trees.Events.{events_of};
ghost use Rattle.hz_laws.specs.Sorts.{fits_of, script};
ghost use Rattle.hz_errors.specs.Declarations as declarations;
ghost use Rattle.hz_errors.specs.Errors as errors;
ghost use Rattle.hz_errors.specs.Labels as labels;
ghost use Rattle.hz_errors.specs.Levels as levels;
ghost use Rattle.hz_errors.specs.Operands as operands;
ghost use Rattle.hz_errors.specs.Receivers as receivers;

/// What the events of a script tell of its refusal is what its tree says.
#[tactic(auto, using(crate::proofs::ErrorsLaw::refusal_same))]
pub fn refusal_of_events()
    ensures { (tree : Tree) → fits_of tree script ≡ true → (strict : Bool)
        → errors.refusal_found strict (errors.after errors.begun (events_of tree)) ≡ refusal_in strict tree }
{}

/// `Declarations` finds the least early error of declarations, and the first of the names that the script may not
/// declare.
#[tactic(auto, using(crate::proofs::DeclarationLaws::early_declared, crate::proofs::DeclarationLaws::globals_declared))]
pub fn declarations_are_found()
    ensures early { (tree : Tree) → fits_of tree script ≡ true
        → (declarations.after declarations.begun (events_of tree)).known.least
        ≡ least_of order_of_early (declaring_of tree).errors }
    ensures profile { (tree : Tree) → fits_of tree script ≡ true
        → (declarations.after declarations.begun (events_of tree)).profile
        ≡ least_of order_of_profile (global_errors (script_declarations (out-Tree tree))) }
{}

/// `Labels` finds the least error of the labels and jumps of a script.
#[tactic(auto, using(crate::proofs::LabelsLaw::labels_least))]
pub fn labels_are_found()
    ensures { (tree : Tree) → fits_of tree script ≡ true
        → (labels.after labels.begun (events_of tree)).least
        ≡ least_of order_of_early (jumping_of tree).errors }
{}

/// `Levels` finds the first place at which a script passes a limit.
#[tactic(auto, using(crate::proofs::LevelLaw::least_of_levels))]
pub fn limits_are_found()
    ensures { (tree : Tree) → fits_of tree script ≡ true
        → levels.least_in (levels.after levels.begun (events_of tree)) ≡ least_of order_of_limit (limit_errors tree) }
{}

/// `Operands` finds the least error of what operators ask of their operands, of literals and of directives, and whether
/// the script says that it is strict code.
#[tactic(auto, using(crate::proofs::OperandLaw::early_of_operands, crate::proofs::OperandLaw::profile_of_operands, crate::proofs::OperandLaw::strict_of_operands))]
pub fn operands_are_found()
    ensures early { (tree : Tree) → fits_of tree script ≡ true
        → (operands.after operands.begun (events_of tree)).early
        ≡ least_of order_of_early (meaning_of tree).errors.early }
    ensures profile { (tree : Tree) → fits_of tree script ≡ true
        → (operands.after operands.begun (events_of tree)).profile
        ≡ least_of order_of_profile (meaning_of tree).errors.profile }
    ensures strict { (tree : Tree) → fits_of tree script ≡ true
        → operands.is_strict (operands.after operands.begun (events_of tree))
        ≡ list_any (λ d. is_use_strict d.written) (meaning_of tree).directives }
{}

/// `Receivers` finds the first `new.target` and the first `this` that stand in no function but arrows.
#[tactic(auto, using(crate::proofs::ReceiversLaw::early_is, crate::proofs::ReceiversLaw::profile_is))]
pub fn receivers_are_found()
    ensures early { (tree : Tree)
        → (receivers.after receivers.begun (events_of tree)).early
        ≡ least_of order_of_early (map (λ at. (early.NewTarget, at)) (receiving_of tree).target_at) }
    ensures profile { (tree : Tree)
        → (receivers.after receivers.begun (events_of tree)).profile
        ≡ least_of order_of_profile (map (λ at. (profile.ScriptThis, at)) (receiving_of tree).this_at) }
{}
