// The evaluator over syntax trees: what ECMA-262 says that a script does, restated as steps of activations.
//
// The layers above rely on the definitions in `specs/`: `specs/evaluator` has one clause for each node and for each
// part of its evaluation that waits, `specs/runs` the run of a script over its tree, and `specs/agreement` what it
// means that other code does the same. `laws` says that no step is bad code and no run ends so, that no step
// leaves more turns than there were, that the run of a source has one outcome, and that where the code of each
// function does what its tree does, the run over the code ends exactly where the run over the trees ends; what
// nobody caught is then described alike.
#![tactic(auto)]

mod laws;

pub use laws::{
    never_bad_code, no_bad_ending, one_outcome_of_source, runs_end_alike, same_description,
    start_valid, starts_agree, tree_turns_fall, trees_take_turns,
};
