use crate::backwards::Backwards;
use crate::parts::Behind;
use hz_tree::{Bound, DeclarationWord, Iteration, Tree};
use sqlite_items::Boxed;

/// What follows the first name of a declaration in the head of a `for` (ECMA-262, 14.7.4 and 14.7.5).
#[derive(Drop)]
pub enum AfterName<'a> {
    GoesOver(Iteration, Boxed<Tree<'a>>),
    Initialised {
        value: Option<Boxed<Tree<'a>>>,
        more: Backwards<Tree<'a>>,
        test: Option<Boxed<Tree<'a>>>,
        update: Option<Boxed<Tree<'a>>>,
    },
}

/// What follows a left-hand side in the head of a `for`.
#[derive(Drop)]
pub enum AfterLeft<'a> {
    TargetOf(Iteration, Boxed<Tree<'a>>),
    ExpressionOf {
        operators: Backwards<Behind<'a>>,
        more: Backwards<Tree<'a>>,
        test: Option<Boxed<Tree<'a>>>,
        update: Option<Boxed<Tree<'a>>>,
    },
}

/// What follows the `(` of a `for`.
#[derive(Drop)]
pub enum AfterFor<'a> {
    Declares {
        word: DeclarationWord,
        bound: Bound<'a>,
        after: AfterName<'a>,
        body: Boxed<Tree<'a>>,

        /// Where the scope of the head ends, where it has one.
        end: Option<usize>,
    },
    BeginsLeft {
        left: Boxed<Tree<'a>>,
        after: AfterLeft<'a>,
        body: Boxed<Tree<'a>>,
    },
    BeginsExpr {
        first: Option<Boxed<Tree<'a>>>,
        test: Option<Boxed<Tree<'a>>>,
        update: Option<Boxed<Tree<'a>>>,
        body: Boxed<Tree<'a>>,
    },
}
