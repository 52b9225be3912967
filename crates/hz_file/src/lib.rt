//! The bytecode file: writes the file of a script, opens a file, and shows what it holds.
//!
//! The layer above relies on this. `File::open` answers `Malformed` exactly where a rule of
//! `specs/Rules.antt` fails, with the first one and its place. Contracts see an opened `File` as its
//! bytes: its calls show `module_of` them (`specs/Module.antt`), and what they show is a part of the bytes
//! at the place that `specs/Layout.antt` states. `write_small` gives `image` of what it is passed
//! (`specs/Image.antt`): a file that opens, and whose module is the one that was written.
//!
//! No call of a file or a view takes memory or copies bytes, and no view outlives the bytes.
#![tactic(auto)]

mod appending;
mod file;
mod function;
mod kind;
mod layout;
mod malformed;
mod numbers;
mod rules;
mod sections;
mod string;
mod writing;

pub use file::{File, has_magic};
pub use function::FunctionView;
pub use malformed::{
    CODE_RULE, EDITION_RULE, ENTRIES_RULE, FOOTER_RULE, FUNCTIONS_RULE, LENGTH_RULE, Malformed,
    SECTIONS_RULE, SIZE_RULE, TEXTS_RULE, ZERO_RULE,
};
pub use string::StringView;
pub use writing::{Texts, write_small};
