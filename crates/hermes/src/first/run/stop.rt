// How a run ends.
use hz_value::{Left, Memory};

/// How the run of a file's code ended.
#[derive(Clone, Copy, Debug, PartialEq, Eq)]
pub enum FirstEnd {
    /// The script returned.
    Done,
    /// The run was left for a reason.
    Left(Left),
    /// The code is no code.
    BadCode,
    /// A line could not be sent.
    WriteFault,
    /// Memory ran out.
    Memory,
}

/// Why no instruction follows.
#[derive(Clone, Copy, Debug, PartialEq, Eq)]
pub(crate) enum Stop {
    End(FirstEnd),
    /// The rows of instructions that there are say nothing of this operator, global or call.
    Unbuilt,
}

impl From<Memory> for Stop {
    ghost use Rattle.std.specs.Prelude.{◌≡◌};
    ghost use Rattle.hermes.specs.declared.first.run.stop.FirstEnd.TheVariants as end;
    ghost use Rattle.hermes.specs.declared.first.run.stop.Stop.TheVariants as stop;

    ghost from_gives = { λ _ s. s ≡ stop.End end.Memory };

    fn from(_error: Memory) -> Stop {
        Stop::End(FirstEnd::Memory)
    }
}
