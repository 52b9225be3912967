//! A reader of one function.

use crate::numbered::Numbered;
use hz_parts::{Backwards, Mark, Parts};
use hz_rows::Stack;

/// What a reader of one function has in hand.
#[derive(Drop)]
pub struct Reader<'i, 'a> {
    pub numbers: Numbered<'i, 'a>,

    /// The symbols that are still to be read.
    pub symbols: Stack,

    /// The rows of which symbols are still to be read, the last one on top.
    pub marks: Backwards<Mark>,

    /// What was made so far.
    pub parts: Parts<'a>,

    /// Whether a function is opened, whose tokens are not counted.
    pub opened: bool,
}
