// The terminals of a source from a place in its middle, with the next two in view.
//
// The layer above relies on this: a `Middle` is a place of a source with the braces that were opened since the reader
// began (`specs/Place.antt`), and `left` of it is the list of terminals before it. `look` gives what the rules of the
// grammar test of that list, `eat` takes its first terminal where the grammar takes it for a token of some class, with
// one step, and `skip` goes on behind a part of the source that closes the braces that it opens, as a function does.
// Each token is scanned twice at most; what is skipped is not scanned.
#![tactic(auto)]

mod laws;
mod middle;

pub use laws::skipping_is_reading;
pub use middle::Middle;
