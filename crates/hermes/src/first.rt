// First texts: the scripts that are built so far, from their bytes to their run.

pub mod compile;
pub mod generate;
pub mod language;
pub mod reader;
pub mod run;
mod state;
mod steps;
mod sums;
