// The scanner: it gives the tokens of a source one after the other, the class by which the grammar knows each, and the
// look of two.
//
// The layer above relies on this: a `Scanner` is a source and a place in it, and `next` gives the token that
// hz_tree's `specs/tokens/Tokens.antt` has behind the place; it takes no memory. `Tokens` is the list of the source's
// tokens that are left, with memory for the braces that are open (`Braces`). The text of a token is the source's slice at its
// place. `laws.rt` says that tokens lie one behind the other, and what comes where a scan starts in the middle.
// `has_value` compares the value of a string literal with bytes, and takes no memory either.
#![tactic(auto)]

mod braces;
mod bytes;
mod characters;
mod class;
mod escapes;
mod first;
mod front;
mod laws;
mod list;
mod literals;
mod look;
mod names;
mod numbers;
mod punctuators;
mod run;
mod scanner;
mod signs;
mod spaces;
mod tokens;
mod values;
mod words;

pub use braces::Braces;
pub use class::class_of;
pub use first::first_token_len;
pub use laws::{tokens_from_the_middle, tokens_in_order};
pub use list::list_tokens;
pub use look::{Seen, look_at};
pub use scanner::Scanner;
pub use tokens::Tokens;
pub use values::has_value;
