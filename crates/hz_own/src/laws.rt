ghost use Rattle.std.specs.Prelude.{◌≡◌, List, All};
ghost use Rattle.hz_tree.specs.declared.nonterminal.Nonterminal.{Nonterminal};
ghost use Rattle.hz_tree.specs.declared.nonterminal.Nonterminal.TheVariants.{Script};
ghost use Rattle.hz_tree.specs.declared.tree.Tree.{Tree};
ghost use Rattle.hz_tree.specs.grammar.Look.{Terminal, terminals};
ghost use Rattle.hz_tree.specs.grammar.Symbols.{Value};
ghost use Rattle.hz_tree.specs.reading.Reading.{Got, reads};
ghost use Rattle.hz_tree.specs.tokens.Text.{Text};
ghost use Rattle.hz_tree.specs.trees.Functions.{functions_of};
ghost use Rattle.hz_tree.specs.trees.FunctionTrees.{own_tokens};
ghost use Rattle.hz_stands.specs.Nodes.{nodes_of, value_nodes};
ghost use Rattle.hz_stands.specs.Stands.{Standing};
ghost use Rattle.hz_own.specs.Arrows.{ToldArrow};
ghost use Rattle.hz_own.specs.Known.{Known, Rises, node_starts};
ghost use Rattle.hz_own.specs.Lined.{Lined};
ghost use Rattle.hz_own.specs.OwnCounts.{OwnCounted, script_info};
ghost use Rattle.hz_own.specs.Owned.{owns};
ghost use Rattle.hz_own.specs.Stretch.{Inside, Nested, Passing};

/// Law: the terminals of a source stand in line: each begins at or behind the place at which the one before it ends,
/// and has a text, but the last.
#[tactic(auto, using(crate::proofs::Lines::terminals_lined))]
pub fn terminals_are_lined()
    ensures { (source : Text) → Lined source 0 (terminals source) }
{}

/// Law: the functions in a script that is read from a source start one behind the other.
#[tactic(auto, using(crate::proofs::Rise::nodes_rise))]
pub fn functions_rise()
    ensures { (source : Text) (script : Tree) (rest : List Terminal) →
        reads Script (terminals source) ≡ Got script rest → Rises 0 (node_starts (nodes_of script)) }
{}

/// Law: each of them is known by its number: the entry there has its extent and its kind.
#[tactic(auto, using(crate::proofs::Rise::nodes_known))]
pub fn functions_are_found()
    ensures { (source : Text) (script : Tree) (rest : List Terminal) →
        reads Script (terminals source) ≡ Got script rest → All (Known (functions_of source script)) (nodes_of script) }
{}

/// Law: where an arrow of the source starts, the grammar sees that an arrow begins.
#[tactic(auto, using(crate::proofs::Arrows::arrows_told))]
pub fn arrows_are_told()
    ensures { (source : Text) (script : Tree) (rest : List Terminal) →
        reads Script (terminals source) ≡ Got script rest →
        All (ToldArrow (terminals source)) (functions_of source script) }
{}

/// Law: what a reading passes are tokens, and functions that stand one behind the other, each with those within it;
/// read with counts it gives how many tokens these are. Each of the functions stands between where the reading begins
/// and what is left of it. In a script that is read from a source each function ends at or before the start of a later
/// one, or has it within.
#[tactic(auto, using(crate::proofs::Nested::nest_laws))]
pub fn functions_nest()
    ensures passed { (m : Nonterminal) (ts rest : List Terminal) (v : Value m) → reads m ts ≡ Got v rest →
        Passing m ts rest v }
    ensures inside { (m : Nonterminal) (ts rest : List Terminal) (v : Value m) → reads m ts ≡ Got v rest →
        All (λ f. Inside f ts rest) (value_nodes m v) }
    ensures nested { (source : Text) (script : Tree) (rest : List Terminal) →
        reads Script (terminals source) ≡ Got script rest → Nested (nodes_of script) }
{}

/// Law: where a function stands among the terminals of a source, it is read with counts of as many tokens as are its
/// own; and so is the script.
#[tactic(auto, using(crate::proofs::OwnTokens::functions_counted, crate::proofs::OwnTokens::script_counted))]
pub fn own_is_counted()
    ensures functions { (source : Text) (script : Tree) (rest : List Terminal) → reads Script (terminals source) ≡
        Got script rest → All (λ f. (h : Standing f (terminals source)) →
        OwnCounted (functions_of source script) source f h) (nodes_of script) }
    ensures script { (source : Text) (script : Tree) (rest : List Terminal) → reads Script (terminals source) ≡
        Got script rest → owns Script (terminals source) ≡
        Got (own_tokens (functions_of source script) source 0 (script_info source)) rest }
{}
