//! A nonterminal gives way to its row, behind whose symbols its mark comes up.

ghost use Rattle.std.specs.Prelude.{◌≡◌, List, ◌∷◌, ◌++◌, OnOk};
ghost use Rattle.hz_tree.specs.declared.symbol.Symbol.{Symbol as Entry};
ghost use Rattle.hz_tree.specs.grammar.Table.{step, pushes};
ghost use Rattle.hz_parse.specs.Leads.{mark_symbol};

use hz_list::Memory;
use hz_parts::{Backwards, Mark};
use hz_rows::{Stack, Stop, expand as push_row};
use hz_tree::{Class, Look, Nonterminal, Symbol};

/// Puts the symbols of the nonterminal's row, where the next two tokens are as in `look`, onto the stack, with that of
/// a mark below them, and the mark onto its own. The row refuses nothing.
pub fn expand(
    symbols: &mut Stack,
    marks: &mut Backwards<Mark>,
    nonterminal: Nonterminal,
    look: Look,
) -> Result<(), Memory>
    requires { (right : List Entry) × (step nonterminal look ≡ pushes right) }
    ensures { OnOk result ((right : List Entry) → step nonterminal look ≡ pushes right →
        (symbols.new ≡ right ++ mark_symbol ∷ symbols.old)
        × (marks.new ≡ record { nonterminal = nonterminal; look = look } ∷ marks.old)) }
{
    push_mark(symbols)?;
    push_symbols(symbols, nonterminal, look)?;
    marks.push(Mark { nonterminal, look })
}

/// The symbol in place of a mark.
fn push_mark(symbols: &mut Stack) -> Result<(), Memory>
    ensures { OnOk result (symbols.new ≡ mark_symbol ∷ symbols.old) }
{
    match symbols.push(&[Symbol::Take(Class::Malformed)]) {
        Ok(()) => Ok(()),
        Err(_) => Err(Memory),
    }
}

/// The symbols of a row that refuses nothing.
fn push_symbols(symbols: &mut Stack, nonterminal: Nonterminal, look: Look) -> Result<(), Memory>
    requires { (right : List Entry) × (step nonterminal look ≡ pushes right) }
    ensures { OnOk result ((right : List Entry) → step nonterminal look ≡ pushes right →
        symbols.new ≡ right ++ symbols.old) }
{
    match push_row(symbols, nonterminal, look) {
        Ok(()) => Ok(()),
        Err(Stop::Memory) => Err(Memory),
        Err(Stop::Refused(_)) => unreachable!(),
    }
}
