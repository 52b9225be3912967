// The machine that runs code.
//
// The layer above relies on this: the machine is the system of `hz_value` over the meaning of code of `hz_ops`, and a
// step of it is one step of that system. The layer hands in code by the trait `Code`, and calls `Machine::start`, `step`,
// `line` and `leave` where a step asked for a line, `turns_left` and `describe`.
#![tactic(auto)]

mod act;
mod code;
mod descriptions;
mod effects;
mod errors;
mod frame;
mod globals;
mod input;
mod kept;
mod machine;
mod met;
mod routine;
mod rows;
mod start;
mod steps;
mod texts;

pub use code::{Code, Entry};
pub use machine::{Answer, Ending, Machine};
