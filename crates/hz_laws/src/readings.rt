ghost use Rattle.std.specs.Prelude.{◌≡◌, ◌≢◌, true, List};
ghost use Rattle.hz_tree.specs.declared.nonterminal.Nonterminal.{Nonterminal};
ghost use Rattle.hz_tree.specs.declared.nonterminal.Nonterminal.TheVariants.{Script};
ghost use Rattle.hz_tree.specs.declared.tree.Tree.{Tree};
ghost use Rattle.hz_tree.specs.grammar.Look.{Terminal};
ghost use Rattle.hz_tree.specs.reading.Reading.{Got, Deeper, reads, tells};
ghost use Rattle.hz_tree.specs.trees.Events.{events_of};
ghost use Rattle.hz_laws.specs.Sorts.{fits_of, script};

/// Law: a reading never runs out of depth.
#[tactic(auto, using(crate::proofs::ReadingLaws::reads_not_deeper))]
pub fn reading_ends()
    ensures { (nonterminal : Nonterminal) (ts : List Terminal) → reads nonterminal ts ≢ Deeper }
{}

/// Law: where tokens are read as a script, the reading tells what the tree of the script tells.
#[tactic(auto, using(crate::proofs::RowLaws::script_tells))]
pub fn reading_tells()
    ensures { (ts rest : List Terminal) (tree : Tree) → reads Script ts ≡ Got tree rest →
        tells Script ts ≡ Got (events_of tree) rest }
{}

/// Law: what is read as a script is one, and each tree in it stands where its sort can stand.
#[tactic(auto, using(crate::proofs::RowLaws::script_fits))]
pub fn reading_fits()
    ensures { (ts rest : List Terminal) (tree : Tree) → reads Script ts ≡ Got tree rest → fits_of tree script ≡ true }
{}
