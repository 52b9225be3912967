//! The rules of a file: each function gives the place where its rule fails, None where it holds.

mod footer;
mod functions;
mod header;
mod texts;

pub(crate) use footer::footer_fault;
pub(crate) use functions::{code_fault, functions_fault};
pub(crate) use header::{edition_fault, length_fault, sections_fault, size_fault, zero_fault};
pub(crate) use texts::{entries_fault, texts_fault};
