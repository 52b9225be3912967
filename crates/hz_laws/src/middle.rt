//! Laws for a reader that begins in the middle of a source, and skips inner functions by their extents.

ghost use Rattle.std.specs.Prelude.{◌≡◌, ℕ, true, List};
ghost use Rattle.hz_tree.specs.declared.nonterminal.Nonterminal.{Nonterminal};
ghost use Rattle.hz_tree.specs.grammar.Look.{Terminal, terminals_from};
ghost use Rattle.hz_tree.specs.grammar.Symbols.{Value};
ghost use Rattle.hz_tree.specs.reading.Reading.{Got, reads};
ghost use Rattle.hz_tree.specs.tokens.Tokens.{Lexeme};
ghost use Rattle.hz_laws.specs.Middle.{Balances, Classed, begins, hole, unmarked};

/// Law: what is left of a reading is a suffix of the terminals that it began with, and where terminals are of the
/// classes of their tokens, the braces that are open behind the reading are those that were open before it. What
/// follows the hole of a template closes the brace of that hole too. The terminals of tokens are of their classes.
#[tactic(auto, using(crate::proofs::Balance::reading_balance, crate::proofs::Balance::terminals_classed))]
pub fn reading_balances()
    ensures balances { (m : Nonterminal) (ts rest : List Terminal) (v : Value m) → reads m ts ≡ Got v rest →
        Balances (hole m) ts rest }
    ensures classed { (ts : List Lexeme) (behind : ℕ) → Classed (terminals_from behind ts) }
{}

/// Law: what an expression or a function is read as does not depend on whether a line ends before its first token.
#[tactic(auto, using(crate::proofs::Marks::unmarked_same))]
pub fn first_mark_is_not_asked()
    ensures { (m : Nonterminal) (ts rest : List Terminal) (v : Value m) → begins m ≡ true → reads m ts ≡ Got v rest →
        reads m (unmarked ts) ≡ Got v rest }
{}
