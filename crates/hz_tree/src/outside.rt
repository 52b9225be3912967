ghost use Rattle.std.specs.Prelude.{◌≡◌, ◌≤◌, length};
ghost use Rattle.hz_tree.specs.sources.Shown.{name_of_kind};

use std::fmt;

/// Why no token begins at a place.
#[derive(Clone, Copy, Debug, PartialEq, Eq)]
pub enum BadKind {
    /// An error of syntax.
    Syntax,

    /// A part of ECMAScript that this compiler leaves out.
    Outside(OutsideKind),
}

/// The parts of ECMAScript's syntax that this compiler leaves out.
#[derive(Clone, Copy, Debug, PartialEq, Eq)]
pub enum OutsideKind {
    /// `class`.
    Class,

    /// Async functions, arrows and loops, and `await`.
    Async,

    /// `import` and `export`.
    Module,

    /// `with`.
    With,

    /// A regular expression literal.
    RegExp,

    /// A numeric literal that ends with `n`.
    BigInt,

    /// A numeric literal with a fraction or an exponent, or above `MAX_SAFE` of `hz_list`.
    NumberForm,

    /// A template behind an expression.
    TaggedTemplate,

    /// A pattern that takes an array or an object apart.
    Pattern,

    /// A parameter with a default value.
    DefaultParameter,

    /// `super`.
    Super,

    /// A name that begins with `#`.
    PrivateName,

    /// A name with an escape in it.
    IdentifierEscape,

    /// `<!--`, or `-->` as the first token on its line.
    HtmlComment,

    /// A character past ASCII that neither begins a name nor separates tokens.
    Character,
}

impl OutsideKind {
    /// The kind's name, as it is printed. It takes no memory.
    pub fn name(&self) -> &'static str
        ensures name { result.now ≡ name_of_kind self.now }
        ensures short { length result.now ≤ 16 }
    {
        match self {
            OutsideKind::Class => "Class",
            OutsideKind::Async => "Async",
            OutsideKind::Module => "Module",
            OutsideKind::With => "With",
            OutsideKind::RegExp => "RegExp",
            OutsideKind::BigInt => "BigInt",
            OutsideKind::NumberForm => "NumberForm",
            OutsideKind::TaggedTemplate => "TaggedTemplate",
            OutsideKind::Pattern => "Pattern",
            OutsideKind::DefaultParameter => "DefaultParameter",
            OutsideKind::Super => "Super",
            OutsideKind::PrivateName => "PrivateName",
            OutsideKind::IdentifierEscape => "IdentifierEscape",
            OutsideKind::HtmlComment => "HtmlComment",
            OutsideKind::Character => "Character",
        }
    }
}

impl fmt::Display for OutsideKind {
    ghost use Rattle.std.specs.Prelude.{Some};

    ghost output = { λ kind. Some (name_of_kind kind) };

    fn fmt<W: fmt::Write>(&self, f: &mut fmt::Formatter<W>) -> fmt::Result {
        f.write_str(self.name())
    }
}
