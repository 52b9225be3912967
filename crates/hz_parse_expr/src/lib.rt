// What the grammar's rows of expressions make of their parts: the makers, grouped as the table is.
//
// The layer above relies on the contract of `make_expression`, and of each maker below it, `Makes` of hz_parts: where
// the parts of a row stand on top of the stacks, its value stands in their place afterwards, and only memory can fail.
#![tactic(auto)]

mod functions;
mod make;
pub mod operated;
mod operations;
pub mod operators;
mod place;
mod primaries;
mod properties;
pub mod shapes;

pub use make::make_expression;
