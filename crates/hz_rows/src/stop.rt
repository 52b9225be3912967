ghost use Rattle.std.specs.Prelude.{◌≡◌, Err};
ghost use Rattle.hz_tree.specs.grammar.Look as spec;

use hz_list::Memory;
use hz_tree::{BadKind, Look, OutsideKind};

/// Why a nonterminal was not expanded.
#[derive(Clone, Copy, Debug, PartialEq, Eq)]
pub enum Stop {
    /// No memory is left for the stack.
    Memory,

    /// No right-hand side begins with the next tokens.
    Refused(BadKind),
}

impl From<Memory> for Stop {
    ghost use Rattle.std.specs.Prelude.{◌≡◌};
    ghost use Rattle.hz_rows.specs.declared.stop.Stop.TheVariants.{Memory as wanting};

    ghost from_gives = { λ _ stop. stop ≡ wanting };

    fn from(_memory: Memory) -> Stop {
        Stop::Memory
    }
}

/// Refuses a part of the language that is left out.
pub fn left_out(kind: OutsideKind) -> Result<(), Stop>
    ensures { result ≡ Err (Stop.Refused (BadKind.Outside kind)) }
{
    Err(Stop::Refused(BadKind::Outside(kind)))
}

/// Refuses the first of the next tokens, where no rule says otherwise.
pub fn stuck(look: Look) -> Result<(), Stop>
    ensures { result ≡ Err (Stop.Refused (spec.stuck look)) }
{
    Err(Stop::Refused(look.cause()))
}
