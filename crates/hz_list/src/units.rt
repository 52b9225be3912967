ghost use Rattle.std.specs.Prelude.{◌≡◌, [], IfOk};

use crate::out_of_memory::Memory;
use crate::series::Series;
use std::alloc::Global;

/// A text: a list of UTF-16 units, which need not be well-formed (ECMA-262, 6.1.4).
pub type Units = Series<u16>;

impl Series<u16> {
    /// The empty text. No memory is taken.
    pub fn empty(alloc: Global) -> Units
        ensures { result ≡ [] }
    {
        Series::new(alloc)
    }

    /// The text of one unit for each byte.
    pub fn from_bytes(alloc: Global, bytes: &[u8]) -> Result<Units, Memory>
        ensures { IfOk result (λ text. text ≡ bytes.now) }
    {
        let mut units = Vec::with_capacity(alloc, bytes.len())?;
        for byte in bytes {
            units.push(*byte as u16)?;
        }
        Ok(Series::from_vec(units))
    }
}
