/// What a token says of the parentheses.
#[derive(Clone, Copy, Debug)]
pub enum Mark {
    /// It is a `(`.
    Opens,

    /// It closes the innermost `(` that is open, or leaves it open for good. Whether `=>` stands behind it.
    Closes(bool),
}
