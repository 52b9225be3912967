// What is known of a source that is not refused: its functions, their scopes and names.
//
// The layer above relies on this: an `Index` exists only of a source that is not refused, and gives exactly the
// functions, scopes and free names that the definitions of `hz_tree` list. A `ScopeTable` is built before, and each of
// its calls is an operation on a `Table` of `specs/Table.antt`. All is kept in flat lists, a name in 18 bytes, a scope
// in 32 and a function in 28, and what the calls give are views: reading them takes no memory.
// `scopes_of_each_function` is the law that the functions of a source and their scopes are as many, and
// `functions_stand_in_their_parents` that both tell the same of where a function stands and of what it binds;
// `script_alone_stands_in_no_scope` says which function stands nowhere.
#![tactic(auto)]

mod flat;
mod index;
mod laws;
mod names;
mod scopes;
mod table;

pub use index::Index;
pub use laws::{
    functions_stand_in_their_parents, scopes_of_each_function, script_alone_stands_in_no_scope,
};
pub use names::{Names, ScopeName, ScopeNames};
pub use scopes::{Scope, Scopes};
pub use table::ScopeTable;
