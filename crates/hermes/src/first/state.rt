// The states of the reader of first texts.

use crate::first::language::{Sign, Sum};

/// What stands between two numbers of a sum.
#[derive(Clone, Copy, Debug, PartialEq, Eq)]
pub(crate) enum Operator {
    Sign(Sign),
    Times,
}

/// What comes behind the tokens that are read.
#[derive(Debug, Drop)]
pub(crate) enum Next {
    /// A call, or the end of the text.
    Call,
    /// `(`
    Open,
    /// A text, or the first number of a sum.
    Argument,
    /// `)` behind a text.
    Close,
    /// `;`
    End,
    /// An operator or `)`, behind this sum.
    Operator(Sum),
    /// A number behind this sum and an operator.
    Number(Sum, Operator),
}

/// Where the reader stands.
#[derive(Debug, Drop)]
pub(crate) enum State {
    /// Before the rest of a token, and what comes behind it.
    Token(&'static [u8], Next),
    /// In a text whose bytes begin there in the source.
    Text(usize),
    /// In a number, behind this sum and an operator, or first in a sum. This is the value of its digits so far.
    Number(Option<(Sum, Operator)>, u64),
}
