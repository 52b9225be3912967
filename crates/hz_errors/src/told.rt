use std::marker::Model;

/// What stands where a signal is told.
#[derive(Debug, Drop)]
pub struct Told<'a> {
    /// The place of the next token.
    pub at: usize,

    /// The text of the next token.
    pub text: &'a [u8],

    /// Whether the next token is a string literal with a legacy octal escape.
    pub octal: bool,

    /// The place at which the token before it ends.
    pub behind: usize,
}

impl<'a> Model for Told<'a> {
    ghost use Rattle.hz_tree.specs.grammar.Signals.{Told as Seen};

    ghost Value = { Seen };

    ghost view = { λ t. record { at = t.at; text = t.text.now; octal = t.octal; behind = t.behind } };
}
