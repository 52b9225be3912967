ghost use Rattle.std.specs.Prelude.{◌≡◌};
ghost use Rattle.hz_operators.specs.declared.halt.TextHalt.TheVariants as text_halt;

use hz_value::{Left, Memory};
use thiserror::Error;

/// Why a conversion or an operator has no result.
#[derive(Clone, Copy, Debug, PartialEq, Eq, Error)]
pub enum Halt {
    /// A symbol would become a text or a number: a TypeError is thrown.
    #[error("symbol cannot be converted")]
    Symbol,

    /// The run is left.
    #[error("left: {0}")]
    Leaves(Left),
}

/// Why a conversion or an operator that makes a text gives none.
#[derive(Clone, Copy, Debug, PartialEq, Eq, Error)]
pub enum TextHalt {
    /// It has no result.
    #[error("{0}")]
    Halt(Halt),

    /// Memory ran out.
    #[error("out of memory")]
    Memory,
}

impl From<Halt> for TextHalt {
    ghost from_gives = { λ cause halt. halt ≡ text_halt.Halt cause };

    fn from(cause: Halt) -> TextHalt {
        TextHalt::Halt(cause)
    }
}

impl From<Memory> for TextHalt {
    ghost from_gives = { λ _ halt. halt ≡ text_halt.Memory };

    fn from(_memory: Memory) -> TextHalt {
        TextHalt::Memory
    }
}
