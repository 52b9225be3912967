use hz_list::Memory;
use hz_tree::Refusal;

/// Why a source has no index.
#[derive(Clone, Copy, Debug, PartialEq, Eq)]
pub enum PreFault {
    /// The source is refused.
    Refused(Refusal),

    /// Memory ran out.
    Memory,
}

impl From<Memory> for PreFault {
    ghost use Rattle.std.specs.Prelude.{◌≡◌};
    ghost use Rattle.hz_preparse.specs.declared.fault.PreFault.TheVariants.{Memory as wanting};

    ghost from_gives = { λ _ fault. fault ≡ wanting };

    fn from(_memory: Memory) -> PreFault {
        PreFault::Memory
    }
}
