//! A function within is passed over by its extent.

ghost use Rattle.std.specs.Prelude.{◌≡◌, ◌≢◌, ℕ, ◌≤◌, List, [], ◌∷◌, length, true};
ghost use Rattle.hz_tree.specs.sources.Refusals.{functions as functions_in};
ghost use Rattle.hz_cuts.specs.Rows.{is_close, left_at_close, some_symbol};
ghost use Rattle.hz_middle.specs.Place.{left};
ghost use Rattle.hz_own.specs.Known.{Known};
ghost use Rattle.hz_parts.specs.declared.parts.Parts.{Parts as Stacks};
ghost use Rattle.hz_parse.specs.Leads.{Skipping};

use crate::numbered::Numbered;
use hz_middle::Middle;
use hz_parts::Numbers;
use hz_rows::Stack;
use hz_tree::{Signal, Symbol};

/// Goes on behind the function that was opened last, at this place: at the end of its extent, with the symbols behind
/// its own.
#[tactic(auto, using(crate::proofs::Behind::passed))]
pub fn pass(numbers: &Numbered<'_, '_>, place: &mut Middle<'_>, symbols: &mut Stack, opened: usize)
    requires source { place.old.source ≡ numbers.now.index.now.source }
    requires inside { place.old.at ≤ length place.old.source }
    requires here { (p : Stacks) × (others : List ℕ) × (p.opened ≡ opened ∷ others)
        × Skipping (Known (functions_in numbers.now.index.now.source)) symbols.old (left place.old) p
        (λ rest. rest ≢ []) }
    ensures { (p : Stacks) (others : List ℕ) → p.opened ≡ opened ∷ others →
        (l : Skipping (Known (functions_in numbers.now.index.now.source)) symbols.old (left place.old) p
        (λ rest. rest ≢ [])) → (left place.new ≡ l.rest) × ((place.new.source ≡ place.old.source)
        × ((place.new.at ≤ length place.old.source) × (symbols.new ≡ l.behind))) }
{
    let number = numbers.number_at(opened);
    place.skip(numbers.end(number));
    drop_to_close(symbols);
}

/// Drops the symbols up to the end of a function.
fn drop_to_close(symbols: &mut Stack)
    requires { some_symbol is_close symbols.old ≡ true }
    ensures { symbols.new ≡ left_at_close symbols.old }
{
    while let Some(symbol) = symbols.pop() {
        match symbol {
            Symbol::Tell(Signal::Close) => return,
            _ => {}
        }
    }
    unreachable!()
}
