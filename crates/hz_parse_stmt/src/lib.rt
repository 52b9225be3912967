// What the grammar's rows of statements make of their parts: the makers, grouped as the table is.
//
// The layer above relies on the contract of each maker, `Makes` of hz_parts: where the parts of a row stand on top of
// the stacks, its value stands in their place afterwards, and only memory can fail.
#![tactic(auto)]

mod for_loop;
mod handlers;
mod heads;
mod items;
mod make;
mod shapes;
mod statements;
mod variables;

pub use make::make_row;
