// The values of a script: safe integers with their operators, texts of UTF-16 units, and the reasons for
// which a run is left. What `hz_list` has can be had from here too.
//
// The layer above relies on this: each operator is the one of `specs/Numbers.antt` over the integers, and
// gives None exactly where that has no result. No operator takes memory. A text is the list of its units.
//
// The definitions of what a script does begin here too: `specs/operators` has conversions and operators on all
// values, `specs/world` what a run works on, and `specs/system` how it goes on, whatever a function's meaning is.
// `laws` says that a run has one outcome, that its events only grow, and that its turns only fall where no step of a
// function raises them.
#![tactic(auto)]

mod integers;
mod laws;
mod leaving;
mod number_texts;
mod powers;
mod values;

pub use hz_list::{MAX_SAFE, Memory, Series, Steps, Units};
pub use integers::{
    Safe, add, div, floor_quot, int32, mul, quot_or_zero, rem, sub, trunc_quot, uint32,
};
pub use laws::{ended_stays, events_grow, one_outcome, turns_fall};
pub use leaving::Left;
pub use number_texts::{number_text, text_number, units_number};
pub use powers::pow;
pub use values::{Key, Property, Value};
