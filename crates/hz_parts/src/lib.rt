// What a reader with a stack of symbols has made so far, and what the grammar's rows make of it.
//
// The crates of makers and the reader rely on this. A reader puts a mark behind the symbols of each row that it expands
// (`Mark`), and lays what it reads onto stacks of parts (`Parts`; `specs/Values.antt` says what goes where). Where the
// mark comes up, the parts of its row lie on top, and a maker puts the row's value in their place: that is the condition
// `Makes` of `specs/Makes.antt`, the contract of each maker. In the place of an inner function stands its number.
#![tactic(auto)]

mod backwards;
mod heads;
mod mark;
mod numbers;
mod parts;
mod shapes;

pub use backwards::Backwards;
pub use heads::{AfterFor, AfterLeft, AfterName};
pub use mark::Mark;
pub use numbers::Numbers;
pub use parts::{Behind, Parts, Seen};
pub use shapes::{boxed_tree, first_item, no_items, past_token};
