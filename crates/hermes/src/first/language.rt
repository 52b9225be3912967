// The trees of a first text.

ghost use Rattle.std.specs.Prelude.{◌≡◌};

use hz_value::{Memory, Series};
use std::marker::Model;

/// The sign in front of a term.
#[derive(Clone, Copy, Debug, PartialEq, Eq)]
pub enum Sign {
    Plus,
    Minus,
}

/// A product of numbers.
#[derive(Debug, Drop)]
pub struct Term {
    pub first: u64,
    pub others: Series<u64>,
}

/// A term behind a sign.
#[derive(Debug, Drop)]
pub struct Addend {
    pub sign: Sign,
    pub term: Term,
}

/// A sum of terms.
#[derive(Debug, Drop)]
pub struct Sum {
    pub first: Term,
    pub others: Series<Addend>,
}

/// The bytes between the quotes of a text, where they stand in the source.
#[derive(Debug, Drop)]
pub struct Text<'a> {
    bytes: &'a [u8],
}

impl<'a> Model for Text<'a> {
    ghost use Rattle.std.specs.Prelude.{List, ℕ};

    ghost Value = { List ℕ };

    ghost view = { λ t. t.bytes.now };
}

impl<'a> Text<'a> {
    pub fn new(bytes: &'a [u8]) -> Self
        ensures { result ≡ bytes.entry.now }
    {
        Text { bytes }
    }

    pub fn bytes(&self) -> &'a [u8]
        ensures { result.now ≡ self.now }
    {
        self.bytes
    }
}

/// What is printed by a call.
#[derive(Debug, Drop)]
pub enum Argument<'a> {
    Text(Text<'a>),
    Sum(Sum),
}

/// A first text: the arguments of its calls.
pub type Calls<'a> = Series<Argument<'a>>;

/// Why no first text was read.
#[derive(Clone, Copy, Debug, PartialEq, Eq)]
pub enum FirstFault {
    /// The bytes are none. This is the length of their longest prefix that begins one.
    NotYet(usize),
    /// Memory ran out.
    Memory,
}

impl From<Memory> for FirstFault {
    ghost use Rattle.hermes.specs.declared.first.language.FirstFault.TheVariants as fault;

    ghost from_gives = { λ _ f. f ≡ fault.Memory };

    fn from(_memory: Memory) -> FirstFault {
        FirstFault::Memory
    }
}
