// Tests of the machine on code that is written out by hand.
#![tactic(auto)]

#[cfg(test)]
mod bad_code;
#[cfg(test)]
mod lines;
#[cfg(test)]
mod met;
#[cfg(test)]
mod programs;
#[cfg(test)]
mod rows;
#[cfg(test)]
mod runs;
mod script;

pub use script::Script;
