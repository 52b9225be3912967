//! The next two tokens, as the rules of the grammar test them.

ghost use Rattle.std.specs.Prelude.{◌≡◌};
ghost use Rattle.hz_scan.specs.Look as spec;

use hz_tree::{Class, Look};

/// What the rules of the grammar test of one token.
#[derive(Clone, Copy, Debug)]
pub struct Seen {
    /// What the grammar asks of it (`class_of`).
    pub class: Class,

    /// Whether a line ends before it.
    pub newline: bool,
}

/// What is seen where no token is left.
const NONE: Seen = Seen {
    class: Class::End,
    newline: false,
};

/// The look of the next two tokens, where there are so many. `arrow` tells whether the first of the two that is a `(`
/// begins the parameters of an arrow; where none is, it says nothing.
#[inline]
pub fn look_at(one: Option<Seen>, two: Option<Seen>, arrow: bool) -> Look
    ensures { result ≡ spec.look_at one two arrow }
{
    look_of(one.unwrap_or(NONE), two.unwrap_or(NONE), arrow)
}

#[inline]
fn look_of(one: Seen, two: Seen, arrow: bool) -> Look
    ensures { result ≡ spec.look_of one two arrow }
{
    Look {
        one: one.class,
        one_newline: one.newline,
        two: two.class,
        two_newline: two.newline,
        arrow: (one.class.is_paren() || two.class.is_paren()) && arrow,
    }
}
