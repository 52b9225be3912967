// The rows of the grammar for a reader with a stack of symbols.
//
// The layer above relies on `expand`: what it puts onto the stack, or the cause with which it refuses, is the row that
// the table in hz_tree's `specs/grammar/Table.antt` has for the nonterminal and the next two tokens (`specs/Pushed.antt`).
// The files are grouped as the table is, with one function for each nonterminal's row.
#![tactic(auto)]

mod contexts;
mod declarations;
mod expressions;
mod functions;
mod heads;
mod operators;
mod primaries;
mod properties;
mod stack;
mod statements;
mod stop;
mod table;

pub use stack::Stack;
pub use stop::Stop;
pub use table::expand;
