//! Laws of what a reader finds that begins in the middle of a source. Each is a function with nothing to do, whose
//! contract is the law.

ghost use Rattle.std.specs.Prelude.{◌≡◌, ℕ, List, [], ◌∷◌, ◌++◌, All, Some, true, false, drop, codes};
ghost use Rattle.std.specs.List.{slice_get};
ghost use Rattle.hz_tree.specs.declared.nonterminal.Nonterminal.{Nonterminal};
ghost use Rattle.hz_tree.specs.declared.nonterminal.Nonterminal.TheVariants.{Script};
ghost use Rattle.hz_tree.specs.declared.symbol.Symbol.{Symbol};
ghost use Rattle.hz_tree.specs.declared.tree.Tree.{Tree};
ghost use Rattle.hz_tree.specs.grammar.Look.{Terminal, terminals};
ghost use Rattle.hz_tree.specs.grammar.Symbols.{Parts, Value};
ghost use Rattle.hz_tree.specs.reading.Reading.{Got, read_all, reads};
ghost use Rattle.hz_tree.specs.tokens.Text.{Text, begins};
ghost use Rattle.hz_tree.specs.trees.Functions.{functions_of};
ghost use Rattle.hz_tree.specs.trees.FunctionTrees.{own_tokens};
ghost use Rattle.hz_middle.specs.Place.{beginning, left};
ghost use Rattle.hz_stands.specs.Nodes.{nodes_of};
ghost use Rattle.hz_own.specs.OwnCounts.{script_info};
ghost use Rattle.hz_own.specs.Owned.{owns};
ghost use Rattle.hz_alone.specs.Alone.{ArrowsAlone, KnownWithin, OwnAlone, ToldBefore};
ghost use Rattle.hz_alone.specs.Functions.{ReadAlone};
ghost use Rattle.hz_alone.specs.Middle.{EndsHole, ReadsAlike, SeenAs, begun, opens, untold};
ghost use Rattle.hz_alone.specs.Walks.{walks_all};

/// Law: what is read before a hole of a template ends is read, by the same rows, where a block ends in its place,
/// whatever stands behind that. A reading that ends there, or before it, takes neither of the two, and gives the same.
#[tactic(auto, using(crate::proofs::Readings::reads_same))]
pub fn holes_end_like_blocks()
    ensures { (e f : Terminal) (more others before left : List Terminal) (m : Nonterminal) (v : Value m) →
        EndsHole e f → reads m (before ++ e ∷ more) ≡ Got v (left ++ e ∷ more) →
        reads m (before ++ f ∷ others) ≡ Got v (left ++ f ∷ others) }
{}

/// Law: a reader that begins at a token, and counts no brace of before, sees the terminals of the source, but for
/// what stands before the first; or it sees them up to the end of the hole of a template in which it began, and there
/// the end of a block. No token but `--` and a comment begins with `-->`.
#[tactic(auto, using(crate::proofs::Terminals::seen_left))]
pub fn the_source_is_seen()
    ensures { (source : Text) (before behind : List Terminal) (x : Terminal) →
        terminals source ≡ before ++ x ∷ behind → begins (codes "-->") (drop x.token.at source) ≡ false →
        SeenAs [] (begun (x ∷ behind)) (left (beginning source x.token.at)) }
{}

/// Law: symbols that are read at a token of a source, as those of a function are, are read by a reader that begins
/// there, and give the same, up to the same place.
#[tactic(auto, using(crate::proofs::Places::reads_there))]
pub fn reading_begins_anywhere()
    ensures { (source : Text) (before behind rest : List Terminal) (x : Terminal) (right : List Symbol)
        (parts : Parts Value right) → terminals source ≡ before ++ x ∷ behind →
        begins (codes "-->") (drop x.token.at source) ≡ false → opens right ≡ true → untold right ≡ true →
        walks_all [] right ≡ true → read_all reads right (x ∷ behind) ≡ Got parts rest →
        ReadsAlike right parts rest (left (beginning source x.token.at)) }
{}

/// Law: where a source is read as a script, each function in its tree is read by a reader that begins where it starts,
/// and knows of nothing that stands before: its parameters and its body, up to where it ends. The function's kind and
/// the first token tell which symbols it reads.
#[tactic(auto, using(crate::proofs::Functions::all_alone))]
pub fn functions_are_read_alone()
    ensures { (source : Text) (script : Tree) (rest : List Terminal) →
        reads Script (terminals source) ≡ Got script rest → All (ReadAlone source) (nodes_of script) }
{}

/// Law: the functions within each of them are known by their numbers: the entry there has their extent and their kind.
pub fn functions_within_are_known()
    ensures { (source : Text) (script : Tree) (rest : List Terminal) → reads Script (terminals source) ≡
        Got script rest → All (KnownWithin (functions_of source script) source) (nodes_of script) }
{}

/// Law: each of them is read with counts of as many tokens as are its own, up to the place where its tree ends.
#[tactic(auto, using(crate::proofs::OwnAlone::all_counted))]
pub fn own_tokens_are_counted_alone()
    ensures { (source : Text) (script : Tree) (rest : List Terminal) → reads Script (terminals source) ≡
        Got script rest → All (λ f. (a : ReadAlone source f) → OwnAlone (functions_of source script) source f a)
        (nodes_of script) }
{}

/// Law: where an arrow of the source starts, before the function ends, the reader of the function sees that an arrow
/// begins, as the grammar does.
pub fn arrows_are_told_alone()
    ensures { (source : Text) (script : Tree) (rest : List Terminal) → reads Script (terminals source) ≡
        Got script rest → All (ArrowsAlone (functions_of source script) source) (nodes_of script) }
{}

/// Law: a reader that begins at the start of a source sees all its terminals, and the entry with the number 0 is the
/// script's.
#[tactic(auto, using(crate::proofs::Scripts::all_seen, crate::proofs::Scripts::script_found))]
pub fn sources_are_seen_from_the_start()
    ensures seen { (source : Text) → left (beginning source 0) ≡ terminals source }
    ensures found { (source : Text) (script : Tree) → slice_get (functions_of source script) 0 ≡
        Some (script_info source) }
{}

/// Law: so it reads the script with counts of as many tokens as are the script's own, and sees where arrows begin.
#[tactic(auto, using(crate::proofs::Scripts::counted_alone, crate::proofs::Scripts::told_alone))]
pub fn scripts_are_read_from_the_start()
    ensures counted { (source : Text) (script : Tree) (rest : List Terminal) → reads Script (terminals source) ≡
        Got script rest → owns Script (left (beginning source 0)) ≡
        Got (own_tokens (functions_of source script) source 0 (script_info source)) rest }
    ensures told { (source : Text) (script : Tree) (rest : List Terminal) (end : ℕ) →
        reads Script (terminals source) ≡ Got script rest →
        All (ToldBefore (left (beginning source 0)) end) (functions_of source script) }
{}
