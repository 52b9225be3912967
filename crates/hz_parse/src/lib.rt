// The parser: the tree of one function or of one expression, in which the functions within stand by their numbers.
//
// The layer above relies on `parse_function` and `parse_expression`: what they give is the definition's tree
// (`specs/Parsed.antt`), with one step for each token that stands in no function within, and want of memory is the only
// fault. A reader begins where a function starts. It puts a mark behind the symbols of each row that it expands, and lays
// what it reads onto stacks (hz_parts), where the row's maker finds its parts when the mark comes up; a function within
// is passed over by its extent. `specs/Leads.antt` says what symbols, marks and stacks lead to where the whole is read,
// and the laws say so of each turn: that no row refuses and no token misfits, that a mark makes its row's value, and that
// a function is passed over by its extent.
#![tactic(auto)]

mod arrows;
mod expanding;
mod expression;
mod function;
mod given;
mod laws;
mod numbered;
mod passing;
mod reader;
mod script;
mod shapes;
mod symbols;
mod token;
mod told;
mod turns;

pub use expanding::expand;
pub use expression::parse_expression;
pub use function::parse_function;
pub use laws::{functions_are_passed, marks_lead, readings_lead, rows_lead, tokens_lead};
pub use numbered::Numbered;
pub use passing::pass;
pub use token::take;
pub use told::tell;
