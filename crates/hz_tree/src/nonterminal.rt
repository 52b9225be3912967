use crate::operator::{DeclarationWord, Level};
use crate::signal::{Jump, Role};

/// The parameters of a rule, ECMA-262's \[Return\], \[Yield\] and \[In\] (5.1.5).
#[derive(Clone, Copy, Debug, PartialEq, Eq)]
pub struct Context {
    /// `return` is a statement: the innermost function is not the script.
    pub returns: bool,

    /// `yield` is an operator: the innermost function is a generator.
    pub yields: bool,

    /// `in` is no operator: this is the head of a `for`, outside brackets.
    pub no_in: bool,
}

/// The symbols that the grammar defines. A list is a rule of its own, and so is what may follow a common beginning.
#[derive(Clone, Copy, Debug, PartialEq, Eq)]
pub enum Nonterminal {
    Script,

    // Statements.
    Items(Context),
    Item(Context),
    Statement(Context),
    Block(Context),
    // The names that a declaration binds.
    Binds(DeclarationWord, Context),
    Bind(DeclarationWord, Context),
    MoreBinds(DeclarationWord, Context),

    /// `= value`, or nothing.
    Initial(DeclarationWord, Context),

    /// A name that is bound.
    Bound(Role),
    Semi,

    /// The semicolon behind a do-while, which may always be missing.
    LooseSemi,
    Else(Context),

    /// The label of a `break` or `continue`, or none.
    Label(Jump),
    ReturnValue(Context),
    ThrowValue(Context),

    /// The clauses of a switch. The flag tells that a `default` came before.
    Clauses(Context, bool),

    /// What follows the block of a `try`.
    Handlers(Context),
    CatchClause(Context),
    CatchName,
    Finally(Context),

    // The head of a `for`.
    ForOpen,

    /// What follows the `(` of a head, with the body.
    Head(Context),

    /// What follows `let name` in a head.
    DeclaredHead(DeclarationWord, Context),

    /// What follows a left-hand side in a head.
    LeftHead(Context),
    OptionalExpr(Context),

    // Expressions.
    Expr(Context),

    /// The expressions behind a comma. The flag tells that one came before.
    ExprRest(bool, Context),

    /// An expression of operators that bind at least as tightly as the level; an arrow and a `yield` are of the loosest.
    Operation(Level, Context),

    /// The members and calls behind an operand, and then the operators from the level on. The flag tells that one of
    /// the former came before.
    Tails(bool, Level, Context),

    /// The operators behind an operand and what they stand before: those from the first level to the second.
    Rests(Level, Level, Context),
    ArrowSign,
    ArrowBody(Context),
    YieldValue(Context),

    // Primary expressions.
    /// A primary expression, or a `new` with what it constructs.
    Primary(Context),

    /// What follows `?.`.
    OptionalTail(Context),
    Word,
    Members(Context),
    NewArgs(Context),
    Args(Context),
    Arguments(Context),
    MoreArguments(Context),
    Argument(Context),
    TemplateRest(Context),
    Elements(Context),
    MoreElements(Context),

    // Object literals.
    Props(Context),
    MoreProps(Context),
    Prop(Context),

    /// What follows a name that is a whole property.
    ShorthandEnd,

    /// What follows the key of a property.
    KeyRest(Context),
    Key(Context),

    // Functions.
    OwnName,
    Params,
    Parameters,
    MoreParameters,
    ParameterEnd,

    /// The body of a generator, or of another function.
    Body(bool),
}
