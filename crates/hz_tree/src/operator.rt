/// The word that begins a declaration of variables.
#[derive(Clone, Copy, Debug, PartialEq, Eq)]
pub enum DeclarationWord {
    Var,
    Let,
    Const,
}

/// What a `for` with one value goes over: the keys of an object, or the values of an iterable.
#[derive(Clone, Copy, Debug, PartialEq, Eq)]
pub enum Iteration {
    In,
    Of,
}

/// Words and signs before their operand.
#[derive(Clone, Copy, Debug, PartialEq, Eq)]
pub enum UnaryOperator {
    Delete,
    Void,
    TypeOf,
    Plus,
    Minus,
    Tilde,
    Not,
    Increment,
    Decrement,
}

/// Signs behind their operand.
#[derive(Clone, Copy, Debug, PartialEq, Eq)]
pub enum UpdateOperator {
    Increment,
    Decrement,
}

/// Operators between two operands.
#[derive(Clone, Copy, Debug, PartialEq, Eq)]
pub enum BinaryOperator {
    Nullish,
    OrOr,
    AndAnd,
    Or,
    Xor,
    And,
    Equal,
    NotEqual,
    StrictEqual,
    StrictNotEqual,
    Less,
    Greater,
    LessEqual,
    GreaterEqual,
    In,
    InstanceOf,
    ShiftLeft,
    ShiftRight,
    ShiftRightZero,
    Add,
    Subtract,
    Multiply,
    Divide,
    Remainder,
    Power,
}

/// Operators of assignment.
#[derive(Clone, Copy, Debug, PartialEq, Eq)]
pub enum AssignOperator {
    Assign,
    Add,
    Subtract,
    Multiply,
    Divide,
    Remainder,
    Power,
    ShiftLeft,
    ShiftRight,
    ShiftRightZero,
    And,
    Or,
    Xor,
    AndAnd,
    OrOr,
    Nullish,
}

/// How tightly an operator binds, or what else stands behind an operand; the loosest first.
#[derive(Clone, Copy, Debug, PartialEq, Eq)]
pub enum Level {
    Assignment,
    Conditional,
    Nullish,
    OrOr,
    AndAnd,
    Or,
    Xor,
    And,
    Equality,
    Relation,
    Shift,
    Sum,
    Product,
    Power,
    Update,

    /// A member, a call or a template.
    Member,
}
