/// What the grammar asks of a token: one class for each reserved word and each punctuator that a rule names.
#[derive(Clone, Copy, Debug, PartialEq, Eq)]
pub enum Class {
    /// A name that no rule spells out.
    Name,

    // Names that a rule spells out. They are names all the same.
    Async,
    Await,
    Get,
    Of,
    Set,
    Target,

    // Reserved words.
    Break,
    Case,
    Catch,
    Class,
    Const,
    Continue,
    Debugger,
    Default,
    Delete,
    Do,
    Else,
    Export,
    False,
    Finally,
    For,
    Function,
    If,
    Import,
    In,
    InstanceOf,
    Let,
    New,
    Null,
    Return,
    Super,
    Switch,
    This,
    Throw,
    True,
    Try,
    TypeOf,
    Var,
    Void,
    While,
    With,
    Yield,

    /// A reserved word that no rule spells out.
    Reserved,

    // Literals.
    Number,
    OctalNumber,
    Text,

    /// A template without a hole.
    TemplateWhole,

    /// A template up to its first `${`.
    TemplateHead,

    /// From `}` to `${`.
    TemplateMiddle,

    /// From `}` to the template's end.
    TemplateTail,

    // Punctuators that enclose, separate and lead.
    LeftBrace,
    RightBrace,
    LeftParen,
    RightParen,
    LeftBracket,
    RightBracket,
    Dot,
    OptionalDot,
    Ellipsis,
    Semicolon,
    Comma,
    Question,
    Colon,
    Arrow,

    // Operators.
    Less,
    Greater,
    LessEqual,
    GreaterEqual,
    Equal,
    NotEqual,
    StrictEqual,
    StrictNotEqual,
    Plus,
    Minus,
    Star,
    Slash,
    Percent,
    StarStar,
    PlusPlus,
    MinusMinus,
    ShiftLeft,
    ShiftRight,
    ShiftRightZero,
    And,
    Or,
    Xor,
    Not,
    Tilde,
    AndAnd,
    OrOr,
    Nullish,

    // Operators of assignment.
    Assign,
    PlusAssign,
    MinusAssign,
    StarAssign,
    SlashAssign,
    PercentAssign,
    StarStarAssign,
    ShiftLeftAssign,
    ShiftRightAssign,
    ShiftRightZeroAssign,
    AndAssign,
    OrAssign,
    XorAssign,
    AndAndAssign,
    OrOrAssign,
    NullishAssign,

    /// The end of the source.
    End,

    // No token begins here.
    Malformed,
    BigInt,
    NumberForm,
    PrivateName,
    IdentifierEscape,
    HtmlComment,
    Character,
}

impl Class {
    ghost use Rattle.std.specs.Prelude.{◌≡◌};
    ghost use Rattle.hz_tree.specs.grammar.Classes as spec;

    /// A token of the class `found` stands where the grammar wants one of this class.
    pub fn fits(self, found: Class) -> bool
        ensures { result ≡ spec.fits self found }
    {
        match self {
            Class::Name => found.is_name(),
            _ => self.is_same(found),
        }
    }

    #[tactic(auto, unfolding(crate::specs::grammar::Classes::same_class))]
    fn is_same(self, other: Class) -> bool
        ensures { result ≡ spec.same_class self other }
    {
        self == other
    }

    /// A name, those among them that a rule spells out.
    pub fn is_name(self) -> bool
        ensures { result ≡ spec.is_name self }
    {
        matches!(
            self,
            Class::Name
                | Class::Async
                | Class::Await
                | Class::Get
                | Class::Of
                | Class::Set
                | Class::Target
        )
    }

    /// A reserved word.
    pub fn is_reserved_word(self) -> bool
        ensures { result ≡ spec.is_reserved_word self }
    {
        match self {
            Class::Break
            | Class::Case
            | Class::Catch
            | Class::Class
            | Class::Const
            | Class::Continue
            | Class::Debugger
            | Class::Default
            | Class::Delete => true,
            Class::Do
            | Class::Else
            | Class::Export
            | Class::False
            | Class::Finally
            | Class::For
            | Class::Function
            | Class::If
            | Class::Import => true,
            Class::In
            | Class::InstanceOf
            | Class::Let
            | Class::New
            | Class::Null
            | Class::Return
            | Class::Super
            | Class::Switch
            | Class::This => true,
            Class::Throw
            | Class::True
            | Class::Try
            | Class::TypeOf
            | Class::Var
            | Class::Void
            | Class::While
            | Class::With
            | Class::Yield => true,
            Class::Reserved => true,
            _ => false,
        }
    }

    /// IdentifierName (ECMA-262, 12.7): a name or any reserved word.
    pub fn is_word(self) -> bool
        ensures { result ≡ spec.is_word self }
    {
        self.is_name() || self.is_reserved_word()
    }

    pub fn is_paren(self) -> bool
        ensures { result ≡ spec.is_paren self }
    {
        matches!(self, Class::LeftParen)
    }

    pub fn is_async_word(self) -> bool
        ensures { result ≡ spec.is_async_word self }
    {
        matches!(self, Class::Async)
    }

    pub fn is_colon(self) -> bool
        ensures { result ≡ spec.is_colon self }
    {
        matches!(self, Class::Colon)
    }

    pub fn is_in(self) -> bool
        ensures { result ≡ spec.is_in self }
    {
        matches!(self, Class::In)
    }

    pub fn is_of(self) -> bool
        ensures { result ≡ spec.is_of self }
    {
        matches!(self, Class::Of)
    }

    pub fn is_yield(self) -> bool
        ensures { result ≡ spec.is_yield self }
    {
        matches!(self, Class::Yield)
    }

    /// The key of a property.
    pub fn begins_key(self) -> bool
        ensures { result ≡ spec.begins_key self }
    {
        match self {
            Class::Text | Class::Number | Class::OctalNumber | Class::LeftBracket => true,
            _ => self.is_word(),
        }
    }
}

/// The brackets that enclose.
#[derive(Clone, Copy, Debug, PartialEq, Eq)]
pub enum Bracket {
    /// `(` and `)`.
    Round,

    /// `[` and `]`.
    Square,

    /// `{` and `}`.
    Curly,

    /// `${` and the `}` that ends the hole of a template.
    Hole,
}

/// What a token does to the brackets that are open.
#[derive(Clone, Copy, Debug, PartialEq, Eq)]
pub enum Bracketing {
    Opens(Bracket),
    Closes(Bracket),

    /// It closes a hole and opens one.
    Reopens,

    /// It is the last token.
    Ends,

    /// It leaves them as they are.
    Keeps,
}
