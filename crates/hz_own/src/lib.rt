// Laws of the tokens that are a function's own, for a reader of one function that passes over inner functions by their
// extents, and takes one step for each own token.
//
// The layers above rely on the definitions in `specs/`: terminals in line (`Lined`), functions by their numbers
// (`Known`), arrows (`Arrows`), a reading with counts in the place of trees (`Owned`), what stands between two places
// of the terminals (`Stretch`), and how many tokens are read where a function stands (`OwnCounts`).
#![tactic(auto)]

mod laws;

pub use laws::{
    arrows_are_told, functions_are_found, functions_nest, functions_rise, own_is_counted,
    terminals_are_lined,
};
