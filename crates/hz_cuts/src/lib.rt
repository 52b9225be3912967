// Laws of the trees in which functions are their numbers, for a reader that makes the tree of one function and passes
// over the functions in it.
//
// The layers above rely on the definitions in `specs/` and on the lemmas in `proofs/`: what a nonterminal gives, with
// the functions in it cut out (`Cuts`), the rows of the grammar in which a function stands (`Skips`), and what each row
// makes of parts that are cut (`Rows`, `RowCuts`). The functions here are laws of all rows, and of whole readings.
#![tactic(auto)]

mod laws;

pub use laws::{cut_stays_in_place, functions_are_left, reading_is_cut, rows_are_cut};
