use crate::token::TokenKind;

/// What stands at the front of a text and may repeat there, such as a digit or an escape.
#[derive(Clone, Copy, Debug)]
pub struct Stretch {
    /// Its length in bytes, 0 where nothing of the kind stands there.
    pub len: usize,

    /// Between tokens, that a line ends in it; in a string literal, that it is a legacy octal escape.
    pub marked: bool,
}

/// The token at the front of a text.
#[derive(Clone, Copy, Debug)]
pub struct Front {
    /// What it is.
    pub kind: TokenKind,

    /// Its length in bytes.
    pub len: usize,
}
