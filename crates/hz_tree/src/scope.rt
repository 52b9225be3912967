/// What a scope stands for. Scopes nest as ECMA-262's environment records do (9.1).
#[derive(Clone, Copy, Debug, PartialEq, Eq)]
pub enum ScopeKind {
    /// The whole source.
    Script,

    /// The parameters and the body of a function.
    Function,

    /// The scope round a function expression for its own name. It belongs to the outer function and has the extent
    /// of the inner one.
    Own,

    /// A block, a switch, or a `for` with `let` or `const`.
    Block,

    /// A catch with its block.
    Catch,
}

/// A scope of a source.
#[derive(Clone, Copy, Debug, PartialEq, Eq)]
pub struct ScopeAt {
    /// The number of its function.
    pub function: u32,

    /// Its number among the scopes of that function.
    pub scope: u32,
}

/// How a scope declares a name.
#[derive(Clone, Copy, Debug, PartialEq, Eq)]
pub enum BindingKind {
    /// By `var`, or by a function declaration at the top of a function or of the script. The scope of the function or of
    /// the script declares it; in a block that holds its `var` it is a name that is used.
    Var,

    /// By `let`.
    Let,

    /// By `const`.
    Const,

    /// By a function declaration in a block or a switch.
    BlockFunction,

    /// As a parameter, the rest parameter among them.
    Parameter,

    /// As the name that a catch binds.
    Caught,

    /// As the own name of a function expression.
    Own,

    /// `this`, `new.target` and `arguments`. The scope of a function that is no arrow declares them first, in this
    /// order, each where an inner arrow uses it.
    Activation,
}
