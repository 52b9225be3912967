// Where the functions of a source stand, and what is read there: for a reader that begins at the start of a function.
//
// The layers above rely on the definitions in `specs/`: the functions in a tree with their trees (`Nodes`), how
// functions are written, what it is to stand among terminals (`Stands`, `Plain`), and the heads of a `for`, in which
// `in` is no operator (`Heads`). The laws say that each function in the tree of a script stands among its terminals,
// that it is read in a way that its kind and its first token tell, and that these are the functions of which the index
// tells and whose trees the stages behind the parser take.
#![tactic(auto)]

mod laws;

pub use laws::{
    functions_stand, heads_are_read_anywhere, index_tells_of_them, plain_shapes_are_told,
    trees_are_theirs,
};
