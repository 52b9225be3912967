// Laws of the grammar's table, for the readers of the grammar.
//
// The layers above rely on the lemmas in `proofs/`: what a stack of the table's symbols makes of tokens, symbol by
// symbol (`StackLaws`) and in how many moves (`MoveLaws`); that the events of a reading are those of its tree
// (`RowLaws`), and that they build the functions of the tree (`Tied`). The functions here are laws of whole readings,
// and laws for a reader that begins in the middle of a source.
#![tactic(auto)]

mod middle;
mod readings;

pub use middle::{first_mark_is_not_asked, reading_balances};
pub use readings::{reading_ends, reading_fits, reading_tells};
