// Laws of the evaluator over trees.

ghost use Rattle.std.specs.Prelude.{◌≡◌, ◌≤◌, ℕ, List, []};
ghost use Rattle.hz_tree.specs.tokens.Text.{Text};
ghost use Rattle.hz_value.specs.declared.values.Value.{Value};
ghost use Rattle.hz_value.specs.world.Descriptions.{describe};
ghost use Rattle.hz_value.specs.world.Start.{world0};
ghost use Rattle.hz_value.specs.world.World.{World, Line};
ghost use Rattle.hz_value.specs.system.System.{Meaning, System, Event, Ending};
ghost use Rattle.hz_value.specs.system.Runs.{start, after, TakesTurns};
ghost use Rattle.hz_value.specs.world.Valid.{IsValid};
ghost use Rattle.hz_ecma.specs.evaluator.Activations.{Activation};
ghost use Rattle.hz_ecma.specs.evaluator.Steps.{Trees, tree_step, tree_meaning};
ghost use Rattle.hz_ecma.specs.agreement.Agreement.{Matching, Agree};
ghost use Rattle.hz_ecma.specs.agreement.Contents.{SameValue};
ghost use Rattle.hz_ecma.specs.agreement.Layouts.{Layout};
ghost use Rattle.hz_ecma.specs.agreement.Correct.{CorrectSource};
ghost use Rattle.hz_ecma.specs.agreement.Endings.{EndAlike};
ghost use Rattle.hz_ecma.specs.runs.Meant.{IsMeant, IsMeantState};
ghost use Rattle.hz_ecma.specs.runs.Outcomes.{Outcome, tree_start, after_steps};

/// Law: no step of an activation of a tree is bad code.
#[tactic(auto, using(crate::proofs::StepLaws::step_meant))]
pub fn never_bad_code()
    ensures { (a : Activation) (w : World) → IsMeant (tree_step a w) }
{}

/// Law: no run over trees ends as bad code.
#[tactic(auto, using(crate::proofs::NoBadCode::no_bad_code))]
pub fn no_bad_ending()
    ensures { (trees : Trees) (lines : List Line) (turns n : ℕ)
        → IsMeantState (after_steps trees lines turns n).state }
{}

/// Law: no step of an activation of a tree leaves more turns than there were.
#[tactic(auto, using(crate::proofs::StepLaws::trees_take_turns))]
pub fn trees_take_turns()
    ensures { (trees : Trees) → TakesTurns (tree_meaning trees) }
{}

/// Law: no run over trees leaves more turns than there were.
#[tactic(auto, using(crate::proofs::OutcomeLaws::run_turns))]
pub fn tree_turns_fall()
    ensures { (trees : Trees) (n : ℕ) (s : System Activation)
        → (after (tree_meaning trees) n s).world.turns ≤ s.world.turns }
{}

/// Law: the run of a source over its tree has at most one outcome.
#[tactic(auto, using(crate::proofs::OutcomeLaws::source_outcome))]
pub fn one_outcome_of_source()
    ensures { (source : Text) (lines : List Line) (turns : ℕ) (events events1 : List Event) (e e1 : Ending)
        → Outcome source lines turns events e → Outcome source lines turns events1 e1
        → (events ≡ events1) × (e ≡ e1) }
{}

/// Law: the worlds at the start of two runs agree, where they have the same lines and turns.
#[tactic(auto, using(crate::proofs::AgreeLaws::starts_agree))]
pub fn starts_agree()
    ensures { (layout : Layout) (lines : List Line) (turns : ℕ)
        → Agree layout [] (world0 lines turns) (world0 lines turns) }
{}

/// Law: the world at the start of a run is a valid one.
pub fn start_valid()
    ensures { (lines : List Line) (turns : ℕ) → IsValid (world0 lines turns) }
{}

/// Law: where the code of a script, and of each other function of its source, does what its tree does, the run over
/// the code ends exactly where the run over the trees ends, as that ends, with the same events.
pub fn runs_end_alike<T>()
    ensures { (other : Meaning T) (layout : Layout) (trees : Trees) (count : ℕ) (script : T)
        (lines : List Line) (turns : ℕ) → CorrectSource T other layout trees count script
        → EndAlike layout (tree_meaning trees) other (tree_start trees lines turns)
        (start script (world0 lines turns)) }
{}

/// Law: values that are the same in worlds that agree are described alike.
pub fn same_description()
    ensures { (layout : Layout) (m : Matching) (w w1 : World) (v v1 : Value) → Agree layout m w w1
        → SameValue w.store w1.store v v1 → describe w.store v ≡ describe w1.store v1 }
{}
