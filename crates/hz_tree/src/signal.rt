use crate::operator::{DeclarationWord, UnaryOperator};
use crate::scope::ScopeKind;
use crate::tree::FunctionKind;

/// How a node of a tree stands among the others.
#[derive(Clone, Copy, Debug, PartialEq, Eq)]
pub enum NodeKind {
    Statement,

    /// The statement of an expression. It ends as a `Statement`.
    Expression,
    Loop,
    Switch,
    Label,

    /// An expression.
    Operand,

    /// A part of an expression that is none itself: a property, the function of a property, a hole, or `...`.
    Part,

    /// The body of a function, or the script.
    Body,
}

/// What a node is for the operators round it.
#[derive(Clone, Copy, Debug, PartialEq, Eq)]
pub enum NodeShape {
    /// The literal of an array or an object, which a pattern could be in its place.
    Pattern,

    /// What its last part is.
    Same,
    Other,
}

/// The statements that leave a loop, a switch or a labelled statement.
#[derive(Clone, Copy, Debug, PartialEq, Eq)]
pub enum Jump {
    Break,
    Continue,
}

/// What a name is bound as.
#[derive(Clone, Copy, Debug, PartialEq, Eq)]
pub enum Role {
    /// By a declaration with `var`, `let` or `const`.
    Variable(DeclarationWord),

    /// By the declaration of a function.
    Function,
    Parameter,
    RestParameter,

    /// By a `catch`.
    Caught,

    /// The name of a function expression.
    Own,
}

/// What the grammar tells between two tokens. What is told beside a signal, as a place or a name, comes from the next
/// token, or is the end of the last one.
///
/// The picture behind it is a stack of entries: one for each node in hand, and one for each operand and part that is
/// complete until a node takes it in.
#[derive(Clone, Copy, Debug, PartialEq, Eq)]
pub enum Signal {
    // Nodes.
    /// A node begins at the next token.
    Begin(NodeKind),

    /// The statement in hand is whole, and goes into the entry below it.
    End(NodeKind),

    /// The uppermost entry goes into the one below it.
    Join,

    /// The uppermost entry is one node more.
    Node(NodeShape),

    /// The uppermost entry is what was last read, in parentheses.
    Parentheses,

    // Operands that the next token is.
    Name,
    This,
    NewTarget,
    Literal,
    Octal,
    Text,

    // What is told of the uppermost operand.
    /// It is the target of an assignment, an update or a `for`. The flag tells that a pattern could stand in its place.
    Target(bool),

    /// It is the operand of this operator, which is the entry below it.
    Unary(UnaryOperator),

    /// It is the whole expression of a statement.
    Directive,

    /// It is followed by `.word` or `[key]`, by arguments, or by what `?.` stood before.
    Member,
    Call,
    Chain,

    // Arguments.
    /// A list of arguments begins.
    Arguments,

    /// The uppermost entry is an argument, and goes into the one below it.
    Argument,

    // Names.
    /// The next token is bound.
    Declare(Role),

    /// The name that was just bound is a `const` without a value.
    Bare,

    /// The next token is the `...` of a rest parameter.
    Rest,

    /// The next token is a property with the value of that name.
    Use,

    // Scopes and functions.
    /// The scope of a block or of a `for` begins where the node in hand began.
    Scope,

    /// A scope of this kind begins at the next token.
    ScopeHere(ScopeKind),

    /// The innermost scope ends with the last token.
    EndScope,

    /// A function of this kind begins at the next token, as a node of this kind.
    Open(NodeKind, FunctionKind),

    /// The scope of the function begins. Its name stands before it, in the scope round the function.
    Enter,

    /// The innermost function ends with the last token.
    Close,

    // Labels and jumps.
    /// The next token is the label of the statement in hand.
    Label,

    /// The statement in hand is this jump, without a label.
    Jump(Jump),

    /// The statement in hand is this jump, and the next token is its label.
    JumpTo(Jump),

    // Keys of properties.
    WordKey,
    TextKey,
    OctalKey,

    /// A `:` stands behind the key.
    Valued,
}
