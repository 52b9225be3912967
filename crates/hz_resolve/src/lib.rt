// Where the code of each function finds the names of its scopes: in a register, in a slot of an environment, or among
// the names of the global object.
//
// The layer above relies on this: `resolve` gives the places that the layout of the index's source has, for each name
// of each scope of each function (`hz_tree/specs/trees/Layout.antt`), and answers nothing else but want of memory;
// `place` takes no memory and constant time; and the layout keeps the laws of `laws.rt`. Scopes and names are numbered
// one behind the other over all functions. The scope that declares a name is found by one look-up for each scope on the
// way outwards, so expected time is linear but for the depth of scopes, which the limit on nesting bounds.
#![tactic(auto)]

mod build;
mod functions;
mod laws;
mod layout;
mod name;
mod passes;
mod places;
mod resolution;
mod scope;
mod search;
mod table;

pub use laws::{
    declared_name_is_found_here, each_listed_name_has_a_place, global_is_undeclared_or_script_var,
    layout_keeps_laws, numbers_are_places, register_is_its_functions, scopes_nest, slot_is_found,
    ways_lead_outwards,
};
pub use layout::Layout;
pub use resolution::resolve;
