use hz_tree::{BindingKind, EarlyKind, ScopeKind};

/// What happens to scopes and names along a source.
#[derive(Clone, Copy, Debug)]
pub enum ScopeEvent<'a> {
    /// A scope begins, within those that are open.
    Open(ScopeKind),

    /// The innermost scope ends.
    Close,

    /// The innermost scope declares a name. A `Var` is declared by the scopes round it too, out to its function's.
    Declare {
        /// How it is declared.
        kind: BindingKind,

        /// The name.
        name: &'a [u8],

        /// The place of the name, in bytes.
        at: usize,
    },

    /// An error of another kind was found at this place.
    Found(EarlyKind, usize),
}
