// What every layer takes: the list of items, the want of memory, texts as lists of units, the count of steps, and the
// greatest safe integer.
//
// The layer above relies on this: a `Series` is the list of its items, and each list type is one or has one inside.
// What a list or a `Vec` answers where memory runs out becomes `Memory` here, so a fault of a higher layer needs one
// way alone: an `impl From<Memory>`. `Steps` is a number for contracts alone, to which `tick` adds one.
#![tactic(auto)]

mod limits;
mod out_of_memory;
mod series;
mod steps;
mod units;

pub use limits::MAX_SAFE;
pub use out_of_memory::Memory;
pub use series::Series;
pub use steps::Steps;
pub use units::Units;
