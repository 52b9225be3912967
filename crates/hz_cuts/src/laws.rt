ghost use Rattle.std.specs.Prelude.{◌≡◌, false, List, ◌∷◌, ◌++◌};
ghost use Rattle.hz_tree.specs.declared.index.FunctionInfo.{FunctionInfo};
ghost use Rattle.hz_tree.specs.declared.look.Look.{Look};
ghost use Rattle.hz_tree.specs.declared.nonterminal.Nonterminal.{Nonterminal};
ghost use Rattle.hz_tree.specs.declared.signal.Signal.TheVariants.{Close};
ghost use Rattle.hz_tree.specs.declared.symbol.Symbol.{Symbol};
ghost use Rattle.hz_tree.specs.declared.symbol.Symbol.TheVariants.{Tell};
ghost use Rattle.hz_tree.specs.declared.tree.Tree.{Tree};
ghost use Rattle.hz_tree.specs.grammar.Look.{Terminal};
ghost use Rattle.hz_tree.specs.grammar.Table.{row};
ghost use Rattle.hz_tree.specs.reading.Reading.{reads, reads_by};
ghost use Rattle.hz_tree.specs.trees.FunctionTrees.{cut};
ghost use Rattle.hz_tree.specs.trees.Places.{place};
ghost use Rattle.hz_cuts.specs.Cuts.{cut_tree};
ghost use Rattle.hz_cuts.specs.Rows.{CutsRow, cut_reading, cut_row, is_close, left_at_close, some_symbol};
ghost use Rattle.hz_cuts.specs.Skips.{skip_of};

/// Law: what a row makes, cut, is what it makes of parts that are cut, where no function stands in its right-hand side.
/// In the row of a function it is made of the parts before the function, with the number of the function in its place.
#[tactic(auto, using(crate::proofs::RowCuts::rows_cut))]
pub fn rows_are_cut()
    ensures { (functions : List FunctionInfo) (m : Nonterminal) (l : Look) →
        CutsRow functions m (row m l) (skip_of functions m l) }
{}

/// Law: by the rows in which functions are left out, tokens are read as by the grammar's own rows, up to the same token
/// or the same refusal, and what is read is what the grammar gives, cut.
#[tactic(auto, using(crate::proofs::Readings::reads_cut))]
pub fn reading_is_cut()
    ensures { (functions : List FunctionInfo) (m : Nonterminal) (ts : List Terminal) →
        reads_by (cut_row functions) m ts ≡ cut_reading functions m (reads m ts) }
{}

/// Law: a tree from which functions are cut out stands where it stood.
#[tactic(auto, using(crate::proofs::TreeCuts::cut_place))]
pub fn cut_stays_in_place()
    ensures { (functions : List FunctionInfo) (tree : Tree) → place (cut_tree functions tree) ≡ place tree }
{}

/// Law: a stack of symbols that is left at the first `Close` behind a function's symbols has left just those.
#[tactic(auto, using(crate::proofs::Left::middle_left))]
pub fn functions_are_left()
    ensures { (middle others : List Symbol) → some_symbol is_close middle ≡ false →
        left_at_close (middle ++ Tell Close ∷ others) ≡ others }
{}
