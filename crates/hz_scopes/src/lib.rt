// The scopes of a source's functions as the events of its reading tell them.
//
// The layer above relies on this: contracts see a `ScopeDraft` as what is known of the scopes behind some events
// (`State` of `specs/State.antt`), or as None once functions stand deeper than the limit. `tell` is `heard` of
// `specs/Depth.antt`, and `finish` gives the table of all functions. Uses are kept by name, so the end of a scope takes
// out those of what it declares and passes over no others; what stands in a scope goes to the one round it without a
// copy. Names are hashed, so the work that is expected is linear in the events, in what functions list and in what is
// free in them; names that all fall together under the hash cost more. `scopes_are_found` is the law that what is known
// behind the events of a script is what its tree says, and `scopes_are_kept` that it is kept where no limit is passed.
#![tactic(auto)]

mod body;
mod declarations;
mod draft;
mod here;
mod laws;
mod naming;
mod numbers;
mod scopes;
mod starts;
mod uses;

pub use draft::ScopeDraft;
pub use laws::{scopes_are_found, scopes_are_kept};
