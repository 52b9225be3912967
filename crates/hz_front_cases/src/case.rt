use crate::deep::{Shape, long_source};
use crate::functions::reading;
use crate::source::source_of;
use crate::tokens::{first_token, token_line};
use std::alloc::{AllocError, Global};

/// The answer to the case on a line.
pub fn answer(alloc: Global, line: &str) -> Result<String, AllocError> {
    let (word, rest) = parted(line);
    match word {
        "tokens" => token_line(alloc, &source_of(alloc, rest)?),
        "from" => from_place(alloc, rest),
        "read" => read(alloc, rest),
        "deep" => deep(alloc, rest),
        _ => String::from_str(alloc, line),
    }
}

/// The first word, and what stands behind the blank that follows it.
fn parted(text: &str) -> (&str, &str) {
    text.split_once(' ').unwrap_or((text, ""))
}

/// The functions of a source, or why it is refused: `SOURCE`, or `-strict SOURCE`.
fn read(alloc: Global, rest: &str) -> Result<String, AllocError> {
    match parted(rest) {
        ("-strict", source) => reading(alloc, &source_of(alloc, source)?, true),
        _ => reading(alloc, &source_of(alloc, rest)?, false),
    }
}

/// The token behind a place: `PLACE SOURCE`, or `PLACE -hole SOURCE`.
fn from_place(alloc: Global, rest: &str) -> Result<String, AllocError> {
    let (place, text) = parted(rest);
    let place = place.parse().unwrap_or(0);
    match parted(text) {
        ("-hole", source) => first_token(alloc, &source_of(alloc, source)?, place, true),
        _ => first_token(alloc, &source_of(alloc, text)?, place, false),
    }
}

/// The functions of a long source, or why it is refused: `SHAPE N`.
fn deep(alloc: Global, rest: &str) -> Result<String, AllocError> {
    let (name, number) = parted(rest);
    match (Shape::named(name), number.parse()) {
        (Some(shape), Ok(times)) => reading(alloc, &long_source(alloc, shape, times)?, true),
        _ => String::from_str(alloc, "no shape, or no number"),
    }
}
