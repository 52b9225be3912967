use crate::operator::{
    AssignOperator, BinaryOperator, DeclarationWord, Iteration, UnaryOperator, UpdateOperator,
};
use sqlite_items::{Boxed, Items};
use std::marker::Model;

/// The kinds of functions. Getters and setters are methods.
#[derive(Clone, Copy, Debug, PartialEq, Eq)]
pub enum FunctionKind {
    /// The script as a whole.
    Script,

    /// A declaration or an expression that begins with `function`.
    Function,

    /// An arrow function.
    Arrow,

    /// A method, a getter or a setter.
    Method,

    /// A generator: a declaration, an expression or a method with `*`.
    Generator,
}

/// How a function stands in the source.
#[derive(Debug, Drop)]
pub enum FunctionForm<'a> {
    /// As a declaration of its name.
    Declaration(Bound<'a>),

    /// As an expression that begins with `function`, with the name behind that.
    Expression(Option<Bound<'a>>),
    Arrow,

    /// As a method, a getter or a setter.
    Method,
}

/// A slice of the source, which contracts see as its bytes.
#[derive(Debug, Drop)]
pub struct Slice<'a> {
    bytes: &'a [u8],
}

impl<'a> Model for Slice<'a> {
    ghost use Rattle.std.specs.Prelude.{ℕ, List};

    ghost Value = { List ℕ };

    ghost view = { λ s. s.bytes.now };
}

impl<'a> Slice<'a> {
    ghost use Rattle.std.specs.Prelude.{◌≡◌};

    /// These bytes.
    pub fn new(bytes: &'a [u8]) -> Slice<'a>
        ensures { result ≡ bytes.now }
    {
        Slice { bytes }
    }

    /// Its bytes.
    pub fn bytes(&self) -> &'a [u8]
        ensures { result.now ≡ self.now }
    {
        self.bytes
    }
}

/// A name that is bound, with its place.
#[derive(Debug, Drop)]
pub struct Bound<'a> {
    /// The place of the name, counted in bytes.
    pub at: usize,

    /// The name as it is written.
    pub name: Slice<'a>,
}

/// A rest parameter.
#[derive(Debug, Drop)]
pub struct Rest<'a> {
    /// The place of its `...`, counted in bytes.
    pub at: usize,

    /// The name behind it.
    pub bound: Bound<'a>,
}

/// A syntax tree: a variant for each alternative of the grammar, with what that alternative leaves open.
/// An alternative that is one tree and nothing else makes no node, but for the statement of an expression.
/// `at` is the place of the first token.
#[derive(Drop)]
pub enum Tree<'a> {
    Script {
        at: usize,
        items: Items<Tree<'a>>,
    },

    // Functions, or an `Inner` in the place of each.
    Function {
        at: usize,

        /// The place behind its last token.
        end: usize,
        form: FunctionForm<'a>,
        kind: FunctionKind,
        parameters: Items<Bound<'a>>,
        rest: Option<Rest<'a>>,

        /// A `Body`, or the expression of an arrow.
        body: Boxed<Tree<'a>>,
    },

    /// A function that stands elsewhere, by its number.
    Inner {
        at: usize,
        number: u32,
        form: FunctionForm<'a>,
    },
    Body {
        at: usize,
        items: Items<Tree<'a>>,
    },

    // Items and statements.
    /// `let` or `const`.
    Lexical {
        at: usize,
        word: DeclarationWord,
        binds: Items<Tree<'a>>,
    },
    Var {
        at: usize,
        binds: Items<Tree<'a>>,
    },

    /// A name of a declaration, and its value.
    Bind {
        at: usize,
        word: DeclarationWord,
        name: Slice<'a>,
        value: Option<Boxed<Tree<'a>>>,
    },
    Block {
        at: usize,
        items: Items<Tree<'a>>,

        /// The place behind its `}`.
        end: usize,
    },
    Empty {
        at: usize,
    },
    Debugger {
        at: usize,
    },
    If {
        at: usize,
        test: Boxed<Tree<'a>>,
        then: Boxed<Tree<'a>>,
        otherwise: Option<Boxed<Tree<'a>>>,
    },
    DoWhile {
        at: usize,
        body: Boxed<Tree<'a>>,
        test: Boxed<Tree<'a>>,
    },
    While {
        at: usize,
        test: Boxed<Tree<'a>>,
        body: Boxed<Tree<'a>>,
    },

    /// `for (let name of values) body`.
    ForDeclared {
        at: usize,
        word: DeclarationWord,
        bound: Bound<'a>,
        iteration: Iteration,
        over: Boxed<Tree<'a>>,
        body: Boxed<Tree<'a>>,

        /// The place behind the last token of a scope: of one with `let` or `const`.
        end: Option<usize>,
    },

    /// `for (let name = value; test; update) body`.
    ForBinds {
        at: usize,
        word: DeclarationWord,
        binds: Items<Tree<'a>>,
        test: Option<Boxed<Tree<'a>>>,
        update: Option<Boxed<Tree<'a>>>,
        body: Boxed<Tree<'a>>,

        /// The place behind the last token of a scope: of one with `let` or `const`.
        end: Option<usize>,
    },

    /// `for (target of values) body`.
    ForLeft {
        at: usize,
        target: Boxed<Tree<'a>>,
        iteration: Iteration,
        over: Boxed<Tree<'a>>,
        body: Boxed<Tree<'a>>,
    },

    /// `for (first; test; update) body`.
    ForExpr {
        at: usize,
        first: Option<Boxed<Tree<'a>>>,
        test: Option<Boxed<Tree<'a>>>,
        update: Option<Boxed<Tree<'a>>>,
        body: Boxed<Tree<'a>>,
    },
    Continue {
        at: usize,
        label: Option<Bound<'a>>,
    },
    Break {
        at: usize,
        label: Option<Bound<'a>>,
    },
    Return {
        at: usize,
        value: Option<Boxed<Tree<'a>>>,
    },
    Throw {
        at: usize,
        value: Boxed<Tree<'a>>,
    },
    Switch {
        at: usize,
        value: Boxed<Tree<'a>>,

        /// The place of the `{` before its clauses, where their scope begins.
        brace: usize,
        clauses: Items<Tree<'a>>,

        /// The place behind its `}`.
        end: usize,
    },
    Case {
        at: usize,
        value: Boxed<Tree<'a>>,
        items: Items<Tree<'a>>,
    },
    Default {
        at: usize,
        items: Items<Tree<'a>>,
    },
    Try {
        at: usize,
        block: Boxed<Tree<'a>>,
        handler: Option<Boxed<Tree<'a>>>,
        finally: Option<Boxed<Tree<'a>>>,
    },
    Catch {
        at: usize,
        bound: Option<Bound<'a>>,

        /// The place of the `{` of its block.
        brace: usize,
        items: Items<Tree<'a>>,

        /// The place behind its `}`.
        end: usize,
    },
    Label {
        at: usize,
        name: Slice<'a>,
        body: Boxed<Tree<'a>>,
    },

    /// The statement of an expression.
    Expression {
        at: usize,
        value: Boxed<Tree<'a>>,
    },

    // Expressions with operators.
    Comma {
        at: usize,
        values: Items<Tree<'a>>,
    },
    Assign {
        at: usize,
        target: Boxed<Tree<'a>>,
        operator: AssignOperator,
        value: Boxed<Tree<'a>>,
    },
    Yield {
        at: usize,

        /// Whether a `*` stands behind the word.
        delegates: bool,
        value: Option<Boxed<Tree<'a>>>,
    },
    Cond {
        at: usize,
        test: Boxed<Tree<'a>>,
        then: Boxed<Tree<'a>>,
        otherwise: Boxed<Tree<'a>>,
    },
    Binary {
        at: usize,
        left: Boxed<Tree<'a>>,
        operator: BinaryOperator,
        right: Boxed<Tree<'a>>,
    },
    Unary {
        at: usize,
        operator: UnaryOperator,
        operand: Boxed<Tree<'a>>,
    },
    Postfix {
        at: usize,
        operand: Boxed<Tree<'a>>,
        operator: UpdateOperator,
    },

    // Left-hand sides.
    /// A primary expression or a `new` with what stands behind it.
    Left {
        at: usize,
        head: Boxed<Tree<'a>>,
        tails: Items<Tree<'a>>,
    },
    NewTarget {
        at: usize,
    },
    New {
        at: usize,
        callee: Boxed<Tree<'a>>,
        members: Items<Tree<'a>>,
        args: Option<Boxed<Tree<'a>>>,
    },

    /// `.word`.
    Dot {
        at: usize,
        word: Slice<'a>,
    },

    /// `[key]`.
    Index {
        at: usize,
        key: Boxed<Tree<'a>>,
    },
    Args {
        at: usize,
        values: Items<Tree<'a>>,
    },

    /// `?.` and one of the three.
    Optional {
        at: usize,
        tail: Boxed<Tree<'a>>,
    },
    Spread {
        at: usize,
        value: Boxed<Tree<'a>>,
    },

    // Primary expressions.
    This {
        at: usize,
    },
    Identifier {
        at: usize,
        name: Slice<'a>,
    },
    Null {
        at: usize,
    },
    Truth {
        at: usize,
        value: bool,
    },
    Number {
        at: usize,
        value: u64,
    },
    OctalNumber {
        at: usize,
    },

    /// A string literal, as it is written.
    Text {
        at: usize,
        written: Slice<'a>,

        /// Whether a legacy octal escape stands in it.
        octal: bool,
    },
    Parentheses {
        at: usize,
        value: Boxed<Tree<'a>>,
    },

    /// A template: its parts as they are written, and what stands in its holes.
    Template {
        at: usize,
        parts: Items<Slice<'a>>,
        holes: Items<Tree<'a>>,
    },
    Array {
        at: usize,
        elements: Items<Tree<'a>>,
    },

    /// An element of an array that is not there.
    Hole {
        at: usize,
    },
    Object {
        at: usize,
        props: Items<Tree<'a>>,
    },

    // Properties and their keys.
    /// A name that is a property with the value of that name.
    Shorthand {
        at: usize,
        name: Slice<'a>,
    },
    Property {
        at: usize,
        key: Boxed<Tree<'a>>,
        value: Boxed<Tree<'a>>,
    },
    Method {
        at: usize,
        key: Boxed<Tree<'a>>,
        function: Boxed<Tree<'a>>,
    },
    Getter {
        at: usize,
        key: Boxed<Tree<'a>>,
        function: Boxed<Tree<'a>>,
    },
    Setter {
        at: usize,
        key: Boxed<Tree<'a>>,
        function: Boxed<Tree<'a>>,
    },
    WordKey {
        at: usize,
        word: Slice<'a>,
    },
    TextKey {
        at: usize,
        written: Slice<'a>,
        octal: bool,
    },
    NumberKey {
        at: usize,
        value: u64,
    },
    OctalKey {
        at: usize,
    },
    ComputedKey {
        at: usize,
        key: Boxed<Tree<'a>>,
    },
}
