use crate::class::Class;
use crate::outside::{BadKind, OutsideKind};

/// The next two tokens, as the rules of the grammar test them. Where none stands there, the class is `End`.
#[derive(Clone, Copy, Debug)]
pub struct Look {
    /// The class of the first.
    pub one: Class,

    /// Whether a line ends before the first of them.
    pub one_newline: bool,

    /// The class of the second.
    pub two: Class,

    /// Whether a line ends before the second of them.
    pub two_newline: bool,

    /// Whether the first of the two that is a `(` begins the parameters of an arrow.
    pub arrow: bool,
}

impl Look {
    ghost use Rattle.std.specs.Prelude.{◌≡◌};
    ghost use Rattle.hz_tree.specs.grammar.Look as grammar;

    /// `async`, and behind it on the same line `function`, a name, or the parameters of an arrow.
    pub fn is_async(self) -> bool
        ensures { result ≡ grammar.is_async self }
    {
        matches!(self.one, Class::Async)
            && !self.two_newline
            && match self.two {
                Class::Function => true,
                Class::LeftParen => self.arrow,
                other => other.is_name(),
            }
    }

    /// An arrow function: a name or parameters, and `=>`.
    pub fn begins_arrow(self) -> bool
        ensures { result ≡ grammar.begins_arrow self }
    {
        match self.one {
            Class::LeftParen => self.arrow,
            other => other.is_name() && matches!(self.two, Class::Arrow),
        }
    }

    /// Why the grammar is stuck at the first of the two, where no rule says otherwise.
    pub fn cause(self) -> BadKind
        ensures { result ≡ grammar.stuck self }
    {
        match self.one {
            Class::Class => BadKind::Outside(OutsideKind::Class),
            Class::Import | Class::Export => BadKind::Outside(OutsideKind::Module),
            Class::With => BadKind::Outside(OutsideKind::With),
            Class::Super => BadKind::Outside(OutsideKind::Super),
            Class::Async if self.is_async() => BadKind::Outside(OutsideKind::Async),
            Class::BigInt => BadKind::Outside(OutsideKind::BigInt),
            Class::NumberForm => BadKind::Outside(OutsideKind::NumberForm),
            Class::PrivateName => BadKind::Outside(OutsideKind::PrivateName),
            Class::IdentifierEscape => BadKind::Outside(OutsideKind::IdentifierEscape),
            Class::HtmlComment => BadKind::Outside(OutsideKind::HtmlComment),
            Class::Character => BadKind::Outside(OutsideKind::Character),
            _ => BadKind::Syntax,
        }
    }
}
