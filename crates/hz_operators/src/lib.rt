// Conversions and operators on values, as they are carried out.
//
// A value is seen by its content: a text is a slice of its units. The layer above relies on this: each call gives
// what the operator of `hz_value`'s definitions gives, throws or leaves the run for. A call that makes a text may answer
// that memory ran out in its place; the others take none.
#![tactic(auto)]

mod bits;
mod comparisons;
mod contents;
mod conversions;
mod halt;
mod numbers;
mod sums;

pub use comparisons::{Order, compare, loosely_equal, strictly_equal};
pub use contents::Content;
pub use conversions::{push_text, to_boolean, to_number};
pub use halt::{Halt, TextHalt};
pub use numbers::{NumberOperator, UnaryOperator, on_number, on_numbers};
pub use sums::add;
