// The early errors that declarations make, found while scopes open and close.
//
// The layer above relies on this: contracts see an `EarlySet` as the scopes that are open, each with what it declares
// so far, and the least error found (`Known` of `specs/Events.antt`). `event` is `happens` of that file, and `least`
// gives the least. `least_of_events` is the law that this is, behind every list of events, the least of all errors
// that the events tell. Work for an event does not depend on how many scopes are open or on how much they declare: a
// name is looked up, and where a scope ends each name that it declared is taken back once.
#![tactic(auto)]

mod bindings;
mod event;
mod laws;
mod names;
mod set;

pub use event::ScopeEvent;
pub use laws::least_of_events;
pub use names::Names;
pub use set::EarlySet;
