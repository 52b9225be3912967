use crate::backwards::Backwards;
use crate::heads::{AfterFor, AfterLeft, AfterName};
use hz_tree::{AssignOperator, BinaryOperator, Bound, Rest, Slice, Tree, UpdateOperator};
use sqlite_items::Boxed;
use std::alloc::Global;

/// What was seen of a token that was read, or of the place where something was told.
#[derive(Drop)]
pub struct Seen<'a> {
    /// The place of the token, or of the next one.
    pub at: usize,

    /// The text of that token.
    pub text: Slice<'a>,

    /// The value of a numeric literal that was read, else 0.
    pub number: u64,

    /// Whether a string literal with a legacy octal escape stands where something was told.
    pub octal: bool,

    /// The place at which the token before it ends, where something was told, else 0.
    pub behind: usize,
}

/// An operator behind an operand, with its other operands.
#[derive(Drop)]
pub enum Behind<'a> {
    Updates(UpdateOperator),
    Joins(BinaryOperator, Boxed<Tree<'a>>),
    Chooses(Boxed<Tree<'a>>, Boxed<Tree<'a>>),
    Assigns(AssignOperator, Boxed<Tree<'a>>),
}

/// What was made so far and waits to be a part of something, in stacks: the last one that was made is on top.
#[derive(Drop)]
pub struct Parts<'a> {
    pub seen: Backwards<Seen<'a>>,

    /// The places at which functions were opened.
    pub opened: Backwards<usize>,
    pub trees: Backwards<Tree<'a>>,
    pub lists: Backwards<Backwards<Tree<'a>>>,

    /// Trees that may be absent.
    pub options: Backwards<Option<Boxed<Tree<'a>>>>,
    pub flags: Backwards<bool>,
    pub behind: Backwards<Backwards<Behind<'a>>>,

    /// The texts of templates.
    pub texts: Backwards<Backwards<Slice<'a>>>,

    /// Names, or labels that may be absent.
    pub names: Backwards<Option<Bound<'a>>>,

    /// Parameters, and the rest behind them.
    pub bounds: Backwards<Backwards<Bound<'a>>>,
    pub rests: Backwards<Option<Rest<'a>>>,

    // What stands in the head of a `for`.
    pub after_names: Backwards<AfterName<'a>>,
    pub after_lefts: Backwards<AfterLeft<'a>>,
    pub after_fors: Backwards<AfterFor<'a>>,
}

impl<'a> Parts<'a> {
    ghost use Rattle.std.specs.Prelude.{◌≡◌};
    ghost use Rattle.hz_parts.specs.Values.{nothing};

    /// Nothing was made.
    pub fn new(alloc: Global) -> Parts<'a>
        ensures { result ≡ nothing }
    {
        Parts {
            seen: Backwards::new(alloc),
            opened: Backwards::new(alloc),
            trees: Backwards::new(alloc),
            lists: Backwards::new(alloc),
            options: Backwards::new(alloc),
            flags: Backwards::new(alloc),
            behind: Backwards::new(alloc),
            texts: Backwards::new(alloc),
            names: Backwards::new(alloc),
            bounds: Backwards::new(alloc),
            rests: Backwards::new(alloc),
            after_names: Backwards::new(alloc),
            after_lefts: Backwards::new(alloc),
            after_fors: Backwards::new(alloc),
        }
    }
}
