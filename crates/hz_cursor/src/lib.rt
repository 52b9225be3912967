// The terminals of a source one after the other, as the reader without trees takes them.
//
// The layer above relies on this: a `Cursor` is the list of terminals that are left, hz_tree's `terminals source`
// at first. `look` gives what the rules of the grammar test of the list, and `eat` takes its first terminal where the
// grammar takes it for a token of some class. Each token is scanned once: one pass stores the tokens without their
// texts and finds whether a `(` begins the parameters of an arrow, so that all calls together take time linear in the
// source, however brackets nest.
#![tactic(auto)]

mod arrows;
mod cursor;
mod mark;
mod reading;
mod store;
mod stored;
mod tally;

pub use cursor::Cursor;
