// Tests of the crates of the front end: their public calls with memory in plenty, and what no case of
// hz_front_cases can say.
#![tactic(auto)]

#[cfg(test)]
mod cursor;
#[cfg(test)]
mod early;
#[cfg(test)]
mod layout;
#[cfg(test)]
mod middle;
#[cfg(test)]
mod rows;
#[cfg(test)]
mod scan;
#[cfg(test)]
mod tree;
