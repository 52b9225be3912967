ghost use Rattle.std.specs.Prelude.{◌≡◌};
ghost use Rattle.hz_io.specs.declared.faults.FileFault.TheVariants.{Memory as wanting};

use hz_list::Memory;
use thiserror::Error;

/// A read or a write of a file that did not succeed.
#[derive(Clone, Copy, Debug, PartialEq, Eq, Error)]
pub enum FileFault {
    /// The file, or the device under it, failed.
    #[error("the file failed")]
    Failed,
    /// Memory ran out.
    #[error("out of memory")]
    Memory,
}

impl From<Memory> for FileFault {
    ghost from_gives = { λ _ fault. fault ≡ wanting };

    fn from(_memory: Memory) -> FileFault {
        FileFault::Memory
    }
}

/// A stream failed.
#[derive(Clone, Copy, Debug, PartialEq, Eq, Error)]
#[error("the stream failed")]
pub struct Failed;
