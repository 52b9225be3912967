use hz_tree::{ScopeAt, ScopeKind};

/// A part of a list: from the item with the number `first` to that before the number `past`.
#[derive(Clone, Copy, Debug)]
pub(crate) struct Part {
    pub(crate) first: u32,
    pub(crate) past: u32,
}

/// A scope as it is stored, in 32 bytes.
#[derive(Clone, Copy, Debug)]
pub(crate) struct FlatScope {
    pub(crate) start: usize,
    pub(crate) end: usize,
    pub(crate) names: Part,

    /// 4294967295 where it has none.
    pub(crate) parent: u32,

    pub(crate) kind: ScopeKind,
}

/// A function as it is stored, in 28 bytes.
#[derive(Clone, Copy, Debug)]
pub(crate) struct FlatFunction {
    /// The scope in which it stands. Its function is 4294967295 where there is none.
    pub(crate) around: ScopeAt,

    /// It binds `this`, `new.target` and `arguments`.
    pub(crate) binds: bool,

    pub(crate) scopes: Part,
    pub(crate) free: Part,
}
