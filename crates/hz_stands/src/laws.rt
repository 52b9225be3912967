ghost use Rattle.std.specs.Prelude.{◌≡◌, true, List, ◌∷◌, map, All};
ghost use Rattle.hz_tree.specs.declared.index.FunctionInfo.{FunctionInfo};
ghost use Rattle.hz_tree.specs.declared.nonterminal.Nonterminal.{Nonterminal};
ghost use Rattle.hz_tree.specs.declared.tree.Tree.{Tree};
ghost use Rattle.hz_tree.specs.grammar.Look.{Terminal, look};
ghost use Rattle.hz_tree.specs.grammar.Symbols.{Parts, Value};
ghost use Rattle.hz_tree.specs.reading.Reading.{Got, read_all, reads};
ghost use Rattle.hz_tree.specs.tokens.Text.{Text};
ghost use Rattle.hz_tree.specs.trees.Functions.{functions_of};
ghost use Rattle.hz_tree.specs.trees.FunctionTrees.{function_trees};
ghost use Rattle.hz_stands.specs.Heads.{anywhere, anywhere_value, settled};
ghost use Rattle.hz_stands.specs.Nodes.{FunctionNode, extent_of_info, extent_of_node, function_tree_of, nodes_of};
ghost use Rattle.hz_stands.specs.Nodes.{script_extent, script_tree, value_nodes};
ghost use Rattle.hz_stands.specs.Plain.{StandingPlain, is_plain, shape_by};
ghost use Rattle.hz_stands.specs.Stands.{Shape, Standing, written};

/// Law: what is read in the head of a `for`, where `in` is no operator, is read outside of heads, with the same value
/// and up to the same token, unless `in` stands there.
#[tactic(auto, using(crate::proofs::MovedReadings::read_anywhere))]
pub fn heads_are_read_anywhere()
    ensures { (m : Nonterminal) (ts rest : List Terminal) (v : Value m) → settled m rest ≡ true →
        reads m ts ≡ Got v rest → reads (anywhere m) ts ≡ Got (anywhere_value m v) rest }
{}

/// Law: each function in what is read stands among the terminals: at the place where it starts, its parameters and its
/// body are read, up to the place where it ends. Where the reading is settled, as that of a script is, a declaration is
/// read there as an expression is, a getter or a setter as a method, and an arrow outside of generators and of heads.
#[tactic(auto, using(crate::proofs::PlainReadings::all_stand, crate::proofs::PlainReadings::functions_stand_plainly))]
pub fn functions_stand()
    ensures standing { (m : Nonterminal) (ts rest : List Terminal) (v : Value m) → reads m ts ≡ Got v rest →
        All (λ f. Standing f ts) (value_nodes m v) }
    ensures plain { (m : Nonterminal) (ts rest : List Terminal) (v : Value m) → settled m rest ≡ true →
        reads m ts ≡ Got v rest → All (λ f. StandingPlain f ts) (value_nodes m v) }
{}

/// Law: in which of the plainer ways a function is read, its kind and its first token tell.
#[tactic(auto, using(crate::proofs::PlainShapes::shapes_told, crate::proofs::PlainShapes::standing_told))]
pub fn plain_shapes_are_told()
    ensures read { (shape : Shape) (from left : List Terminal) (parts : Parts Value (written shape).symbols) →
        is_plain shape ≡ true → read_all reads (written shape).symbols from ≡ Got parts left →
        shape ≡ shape_by (written shape).kind (look from).one }
    ensures standing { (f : FunctionNode) (ts : List Terminal) (h : StandingPlain f ts) →
        h.standing.shape ≡ shape_by f.kind (look h.standing.from).one }
{}

/// Law: the trees of the functions of a script are that of the script and those of the functions in its tree, in the
/// order of the places at which they start.
#[tactic(auto, using(crate::proofs::Trees::trees_are))]
pub fn trees_are_theirs()
    ensures { (functions : List FunctionInfo) (script : Tree) → function_trees functions script
        ≡ script_tree functions script ∷ map (function_tree_of functions) (nodes_of script) }
{}

/// Law: what the index has of the functions of a script is what it has of the script and of the functions in its tree,
/// in the same order.
#[tactic(auto, using(crate::proofs::Trees::extents_are))]
pub fn index_tells_of_them()
    ensures { (source : Text) (script : Tree) → map extent_of_info (functions_of source script)
        ≡ script_extent source ∷ map extent_of_node (nodes_of script) }
{}
