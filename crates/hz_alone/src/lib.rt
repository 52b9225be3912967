// Laws of readings that begin in the middle of a source, where a function stands.
//
// A reader of one function begins at its first token, with no brace counted as open. `Middle` says what it sees of the
// source's terminals, and what it reads of them; `Walks`, that symbols end no brace and no hole of before them.
#![tactic(auto)]

mod laws;

pub use laws::{
    arrows_are_told_alone, functions_are_read_alone, functions_within_are_known,
    holes_end_like_blocks, own_tokens_are_counted_alone, reading_begins_anywhere,
    scripts_are_read_from_the_start, sources_are_seen_from_the_start, the_source_is_seen,
};
