use hz_tree::{Look, Nonterminal};

/// A row in hand, whose symbols are read: that of a nonterminal for the tokens that stood before it.
#[derive(Clone, Copy)]
pub struct Mark {
    pub nonterminal: Nonterminal,

    /// The two tokens before which the row was taken.
    pub look: Look,
}
