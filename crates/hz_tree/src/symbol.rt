use crate::class::Class;
use crate::nonterminal::Nonterminal;
use crate::signal::Signal;

/// A symbol of a right-hand side of the grammar.
#[derive(Clone, Copy, Debug, PartialEq, Eq)]
pub enum Symbol {
    /// A token of this class; `Name` stands for every name.
    Take(Class),

    Read(Nonterminal),

    /// It takes no token.
    Tell(Signal),
}
