// Tests of values, streams, instructions and files, over what their crates make public.
//
// What each call answers is proved in its own crate. Here each one succeeds once, and each fault comes once.
#![tactic(auto)]

#[cfg(test)]
mod data;
#[cfg(test)]
mod files;
#[cfg(test)]
mod instructions;
#[cfg(test)]
mod streams;
#[cfg(test)]
mod values;
