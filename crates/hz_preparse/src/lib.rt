// The reader of a source without trees: it says why a source is refused, or where its functions are.
//
// The layer above relies on `preparse`: it refuses a source exactly for the reason that hz_tree's `refusal_of`
// (`specs/sources/Refusals.antt`) gives, and else answers with the index of the source, whose functions are hz_tree's
// `functions`. It reads the source from left to right with a stack of the grammar's symbols, and hands what the grammar
// tells to the list of functions and to hz_errors: how deep a source nests costs memory alone.
#![tactic(auto)]

mod draft;
mod fault;
mod heard;
mod index;
mod laws;
mod recogniser;

pub use fault::PreFault;
pub use index::preparse;
pub use laws::starts_rise;
