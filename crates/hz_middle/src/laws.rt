//! Laws of places. Each is a function with nothing to do, whose contract is the law.

ghost use Rattle.std.specs.Prelude.{◌≡◌, false, List, ◌∷◌};
ghost use Rattle.hz_tree.specs.declared.nonterminal.Nonterminal.{Nonterminal};
ghost use Rattle.hz_tree.specs.grammar.Look.{Terminal};
ghost use Rattle.hz_tree.specs.grammar.Symbols.{Value};
ghost use Rattle.hz_tree.specs.reading.Reading.{Got, reads};
ghost use Rattle.hz_laws.specs.Middle.{closes_hole};
ghost use Rattle.hz_middle.specs.Place.{Place, left};

/// Law: what is left of a reading, where that is something, is what is left at the place at which the last token of the
/// reading ends, with the braces of before. So a reader may go on behind a construct without reading it. The rest of a
/// template alone closes a brace that was opened before it.
#[tactic(auto, using(crate::proofs::SkipLaws::skip_law))]
pub fn skipping_is_reading()
    ensures { (p : Place) (m : Nonterminal) (v : Value m) (x : Terminal) (rest : List Terminal) →
        closes_hole m ≡ false → reads m (left p) ≡ Got v (x ∷ rest) →
        left (record p { at = x.behind; ended = false }) ≡ x ∷ rest }
{}
