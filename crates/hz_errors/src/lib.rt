// The errors of a source as the events of its reading tell them: early errors, rules of the profile and limits.
//
// Each part hears what concerns it and keeps the least of the errors that it finds; `Errors` has all parts, and hands a
// signal to those that it changes. The layer above relies on `Errors::tell`, which goes on by one event, on
// `Errors::refusal`, and on the law `refusal_of_events`: behind the events of a script, that is the refusal of its tree.
// How deep a source nests costs memory alone.
#![tactic(auto)]

mod declarations;
mod entries;
mod errors;
mod eval;
mod functions;
mod labels;
mod laws;
mod least;
mod levels;
mod limit;
mod open_body;
mod open_labels;
mod operand_entries;
mod operands;
mod proto;
mod receivers;
mod told;

pub use errors::Errors;
pub use laws::{
    declarations_are_found, labels_are_found, limits_are_found, operands_are_found,
    receivers_are_found, refusal_of_events,
};
pub use told::Told;
