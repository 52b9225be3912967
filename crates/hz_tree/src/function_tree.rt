use crate::tree::{FunctionKind, Slice, Tree};
use sqlite_items::Items;

/// The tree of one function, in which the functions within stand by their numbers.
#[derive(Drop)]
pub struct FunctionTree<'a> {
    /// Its number: that of the script is 0, the others are numbered by where they start.
    pub number: u32,
    pub kind: FunctionKind,

    /// The names of its parameters but for the rest one, in order.
    pub parameters: Items<Slice<'a>>,

    /// The name of its rest parameter.
    pub rest: Option<Slice<'a>>,

    /// A `Script`, a `Body`, or the expression of an arrow.
    pub body: Tree<'a>,
}
