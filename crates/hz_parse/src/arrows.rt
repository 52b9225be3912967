//! Where a `(` begins the parameters of an arrow: the index tells.

ghost use Rattle.std.specs.Prelude.{◌≡◌};
ghost use Rattle.hz_tree.specs.grammar.Look.{look};
ghost use Rattle.hz_tree.specs.grammar.OperatorRows as rows;
ghost use Rattle.hz_middle.specs.Place.{left};
ghost use Rattle.hz_tree.specs.sources.Refusals.{functions as functions_in};
ghost use Rattle.hz_parse.specs.Asked as spec;
ghost use Rattle.hz_parse.specs.Asked.{turned};
ghost use Rattle.hz_parse.specs.Turns.{arrow_told};

use crate::numbered::Numbered;
use hz_middle::Middle;
use hz_tree::{Level, Look, Nonterminal};

/// The next two tokens, with the answer whether an arrow begins, where the nonterminal's row asks that of a `(`.
pub fn look_for(numbers: &Numbered<'_, '_>, place: &Middle<'_>, nonterminal: Nonterminal) -> Look
    ensures { result ≡ turned (look (left place.now))
        (arrow_told (functions_in numbers.now.index.now.source) nonterminal (left place.now)) }
{
    let seen = place.look(false);
    let arrow = asks(nonterminal) && seen.one.is_paren() && numbers.is_arrow(place.place());
    Look { arrow, ..seen }
}

/// Whether the nonterminal's row asks whether an arrow begins.
fn asks(nonterminal: Nonterminal) -> bool
    ensures { result ≡ spec.asks nonterminal }
{
    match nonterminal {
        Nonterminal::Operation(loosest, _) => is_loosest(loosest),
        Nonterminal::Head(_) => true,
        _ => false,
    }
}

fn is_loosest(level: Level) -> bool
    ensures { result ≡ rows.is_loosest level }
{
    match level {
        Level::Assignment => true,
        _ => false,
    }
}
