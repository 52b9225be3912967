//! A token is taken, and laid onto the stacks.

ghost use Rattle.std.specs.Prelude.{◌≡◌, ◌+◌, ◌≤◌, List, ◌∷◌, length, OnOk};
ghost use Rattle.hz_tree.specs.grammar.Look.{Terminal};
ghost use Rattle.hz_tree.specs.grammar.PrimaryRows as spec;
ghost use Rattle.hz_tree.specs.reading.Reading.{Got, takes};
ghost use Rattle.hz_middle.specs.Place.{left};
ghost use Rattle.hz_own.specs.Owned.{taken, unless_open};
ghost use Rattle.hz_parts.specs.Values.{push_seen, seen_token};

use hz_list::{Memory, Steps};
use hz_middle::Middle;
use hz_parts::{Parts, Seen};
use hz_tree::{Class, Slice, TokenKind};
use std::sync::ledger::Ledger;

/// Takes the next token, which is of this class, with one step where no function is open: there it is one of the
/// function that is read. The end of the source is no token of a function.
pub fn take<'a, L: Ledger>(
    place: &mut Middle<'a>,
    parts: &mut Parts<'a>,
    opened: bool,
    wanted: Class,
    steps: &mut Steps<L>,
) -> Result<(), Memory>
    requires inside { place.old.at ≤ length place.old.source }
    requires here { (x : Terminal) × (rest : List Terminal) × (takes wanted (left place.old) ≡ Got x rest) }
    ensures { OnOk result ((x : Terminal) (rest : List Terminal) → takes wanted (left place.old) ≡ Got x rest →
        (left place.new ≡ rest) × ((place.new.source ≡ place.old.source) × ((place.new.at ≤ length place.old.source)
        × ((parts.new ≡ push_seen (seen_token x) parts.old)
        × (steps.new ≡ steps.old + unless_open opened (taken wanted)))))) }
{
    let seen = token_ahead(place);
    if !place.eat(wanted)? {
        unreachable!();
    }
    count(opened, wanted, steps);
    parts.seen.push(seen)
}

/// One step for a token of this class, where it is one of the function that is read.
fn count<L: Ledger>(opened: bool, wanted: Class, steps: &mut Steps<L>)
    ensures { steps.new ≡ steps.old + unless_open opened (taken wanted) }
{
    match wanted {
        Class::End => {}
        _ => {
            if !opened {
                steps.tick();
            }
        }
    }
}

/// What is seen of the next token.
fn token_ahead<'a>(place: &Middle<'a>) -> Seen<'a>
    ensures { (x : Terminal) (rest : List Terminal) → left place.now ≡ x ∷ rest → result ≡ seen_token x }
{
    Seen {
        at: place.place(),
        text: Slice::new(place.text()),
        number: number_value(place.kind()),
        octal: false,
        behind: 0,
    }
}

/// The value of a numeric literal, 0 of another token.
fn number_value(kind: TokenKind) -> u64
    ensures { result ≡ spec.number_value kind }
{
    match kind {
        TokenKind::Number(value) => value,
        _ => 0,
    }
}
