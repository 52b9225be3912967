use crate::outside::BadKind;

/// A token of a source, ECMA-262's CommonToken and its kin (12.6 to 12.9).
#[derive(Clone, Copy, Debug)]
pub struct Token<'a> {
    /// What it is.
    pub kind: TokenKind,

    /// The place of its first byte, counted in bytes from 0.
    pub at: usize,

    /// Its bytes, the source's slice at its place. `End` and `Bad` have none.
    pub text: &'a [u8],

    /// Whether a line terminator stands before it, behind the token before it.
    pub newline: bool,
}

/// What a token is.
#[derive(Clone, Copy, Debug, PartialEq, Eq)]
pub enum TokenKind {
    /// An identifier's name that is no reserved word.
    Name,

    /// A reserved word, those of strict code among them.
    Word,

    /// A punctuator.
    Punct,

    /// A numeric literal with its value, at most `MAX_SAFE` of `hz_list`.
    Number(u64),

    /// A string literal. `octal` tells of a legacy octal escape, `\8` or `\9` in it.
    Text { octal: bool },

    /// `0` and decimal digits: a literal of sloppy code alone. It has no value here.
    OctalNumber,

    /// A template or a part of one. It is the `first` part where it begins with a backquote, else with `}`,
    /// and the `last` where it ends with a backquote, else with `${`.
    Template { first: bool, last: bool },

    /// The end of the source.
    End,

    /// No token begins here. The list of tokens ends with this.
    Bad(BadKind),
}

impl TokenKind {
    ghost use Rattle.std.specs.Prelude.{◌≡◌};
    ghost use Rattle.hz_tree.specs.tokens.Tokens.{is_last};

    /// Whether the list of tokens ends with such a token: `End` or `Bad`.
    pub fn is_last(self) -> bool
        ensures { result ≡ is_last self }
    {
        matches!(self, TokenKind::End | TokenKind::Bad(_))
    }
}
