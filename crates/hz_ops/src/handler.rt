/// Where the throws of a stretch of code are caught. A throw at a place from `from` on, before `to`, goes on at `target`.
#[derive(Clone, Copy, Debug, PartialEq, Eq)]
pub struct Handler {
    /// The first place.
    pub from: u64,

    /// The place behind the last.
    pub to: u64,

    /// Where it goes on.
    pub target: u64,
}
