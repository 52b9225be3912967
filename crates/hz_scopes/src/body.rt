use hz_tree::{FunctionKind, ScopeAt, ScopeKind};
use std::alloc::Global;

/// A scope of a function that has begun within its outermost one, and has not ended.
#[derive(Clone, Copy)]
pub struct Block {
    /// Its number among the scopes of its function.
    pub number: u32,

    pub kind: ScopeKind,
    pub start: usize,

    /// The number of the scope round it.
    pub parent: u32,
}

/// A function whose scope has begun, and that has not ended.
#[derive(Drop)]
pub struct OpenBody {
    /// Its number among the functions of the source.
    pub number: u32,

    /// The scope in which it stands; the script stands in none.
    pub around: Option<ScopeAt>,

    /// It binds `this`, `new.target` and `arguments`.
    pub binds: bool,

    /// A scope of its own name stands round it.
    pub named: bool,

    /// The kind and the start of its outermost scope.
    pub kind: ScopeKind,
    pub start: usize,

    /// The scopes that are open within, the innermost last.
    pub blocks: Vec<Block>,
}

/// A function of which the name may come yet.
#[derive(Clone, Copy)]
pub struct WaitingFunction {
    pub number: u32,
    pub start: usize,
    pub kind: FunctionKind,
    pub named: bool,
}

ghost use Rattle.std.specs.Prelude.{◌≡◌, []};
ghost use Rattle.hz_tree.specs.trees.FunctionScopes.{binds_this as does_bind_this};

/// Whether a function of this kind binds `this`, `new.target` and `arguments`.
fn binds_this(kind: FunctionKind) -> bool
    ensures { result ≡ does_bind_this kind }
{
    !matches!(kind, FunctionKind::Script | FunctionKind::Arrow)
}

/// The function that waits, where its scope begins within the scope `around`.
pub fn body_of(
    alloc: Global,
    kind: ScopeKind,
    waiting: WaitingFunction,
    around: Option<ScopeAt>,
) -> OpenBody
    ensures number { result.number ≡ waiting.number }
    ensures around { result.around ≡ around }
    ensures binds { result.binds ≡ does_bind_this waiting.kind }
    ensures named { result.named ≡ waiting.named }
    ensures kind { result.kind ≡ kind }
    ensures start { result.start ≡ waiting.start }
    ensures blocks { result.blocks.items ≡ [] }
{
    OpenBody {
        number: waiting.number,
        around,
        binds: binds_this(waiting.kind),
        named: waiting.named,
        kind,
        start: waiting.start,
        blocks: Vec::new(alloc),
    }
}
