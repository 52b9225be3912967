// Laws of tokens. Each is a function with nothing to do, whose contract is the law.
ghost use Rattle.std.specs.Prelude.{◌≡◌, List, [], ◌∷◌, ◌++◌, false, drop, codes};
ghost use Rattle.hz_tree.specs.tokens.Text.{Text, begins};
ghost use Rattle.hz_tree.specs.tokens.Tokens.{Lexeme, is_last, tokens, tokens_from};
ghost use Rattle.hz_scan.specs.Order.{InOrder, end_of, braces_behind};

/// The tokens of a source lie in it one behind the other, each with the text that stands at its place.
#[tactic(auto, using(crate::proofs::OrderLemmas::in_order))]
pub fn tokens_in_order()
    ensures { (source : Text) → InOrder source 0 (tokens source) }
{}

/// Where a token of a source ended, the tokens from there on are the source's. So they are where one begins, but
/// that the newline mark of that one counts from its own place, and so is none; a `-->` that begins there would be
/// a token of its own kind only where it leads its line, and is left out.
#[tactic(auto, using(crate::proofs::OrderLemmas::behind_token, crate::proofs::OrderLemmas::at_token))]
pub fn tokens_from_the_middle()
    ensures ended { (source : Text) (before after : List Lexeme) (t : Lexeme)
        → tokens source ≡ before ++ t ∷ after
        → is_last t.kind ≡ false
        → tokens_from (braces_behind (before ++ t ∷ []) []) source (end_of t) ≡ after }
    ensures begun { (source : Text) (before after : List Lexeme) (t : Lexeme)
        → tokens source ≡ before ++ t ∷ after
        → begins (codes "-->") (drop t.at source) ≡ false
        → tokens_from (braces_behind before []) source t.at ≡ record t { newline = false } ∷ after }
{}
