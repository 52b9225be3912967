ghost use Rattle.std.specs.Prelude.{◌≡◌, ◌≤◌, length};
ghost use Rattle.hz_tree.specs.sources.EarlyErrors.{name_of_early, order_of_early};

use std::fmt;

/// The early errors: what ECMA-262 asks of a source beside its grammar. The order is that of this list; of several
/// errors at one place the first one in it is told.
#[derive(Clone, Copy, Debug, PartialEq, Eq, PartialOrd, Ord)]
pub enum EarlyKind {
    /// The target of an assignment, an update, a for-in or a for-of is no name and no property, in parentheses or not.
    /// An optional chain is none (13.15.1, 13.4.1, 14.7.5.1).
    Target,

    /// A binding or a target is named `eval` or `arguments` (13.1.1, 8.6.4).
    EvalOrArguments,

    /// A second lexical name in one scope (14.2.1, 14.12.1, 15.2.1, 16.1.1), or a second name of one catch (14.15.1).
    DuplicateLexical,

    /// A lexical name is also a var name of its scope (14.2.1, 14.12.1, 15.2.1, 16.1.1).
    LexicalVarClash,

    /// A second parameter of a name (15.1.1).
    DuplicateParameter,

    /// A `const` without a value, outside for-in and for-of (14.3.1.1).
    ConstWithoutValue,

    /// A `break` without a label outside loop and switch, or with a label that does not enclose it (14.9.1, 8.3.2).
    BadBreak,

    /// A `continue` outside a loop, or with a label that encloses it on no loop (14.8.1, 8.3.3).
    BadContinue,

    /// A label inside a statement of that label (8.3.1).
    DuplicateLabel,

    /// `delete` of a name, also in parentheses (13.5.1.1).
    DeleteName,

    /// A legacy octal number, or a text with a legacy octal escape (12.9.3.1, 12.9.4.1).
    LegacyOctal,

    /// `new.target` in no function other than arrows (16.1.1).
    NewTarget,

    /// `yield` in the parameters of a generator (15.5.1).
    YieldInParameters,

    /// `"use strict"` in the prologue of a function whose parameters are not simple (15.2.1).
    UseStrictInBody,

    /// A lexical name of a function's body is a parameter (15.2.1).
    ParameterClash,

    /// The name that a catch binds is lexical or var in its block (14.15.1).
    CatchClash,
}

impl EarlyKind {
    /// The kind's name, as it is printed. It takes no memory.
    pub fn name(&self) -> &'static str
        ensures name { result.now ≡ name_of_early self.now }
        ensures short { length result.now ≤ 18 }
    {
        match self {
            EarlyKind::Target => "Target",
            EarlyKind::EvalOrArguments => "EvalOrArguments",
            EarlyKind::DuplicateLexical => "DuplicateLexical",
            EarlyKind::LexicalVarClash => "LexicalVarClash",
            EarlyKind::DuplicateParameter => "DuplicateParameter",
            EarlyKind::ConstWithoutValue => "ConstWithoutValue",
            EarlyKind::BadBreak => "BadBreak",
            EarlyKind::BadContinue => "BadContinue",
            EarlyKind::DuplicateLabel => "DuplicateLabel",
            EarlyKind::DeleteName => "DeleteName",
            EarlyKind::LegacyOctal => "LegacyOctal",
            EarlyKind::NewTarget => "NewTarget",
            EarlyKind::YieldInParameters => "YieldInParameters",
            EarlyKind::UseStrictInBody => "UseStrictInBody",
            EarlyKind::ParameterClash => "ParameterClash",
            EarlyKind::CatchClash => "CatchClash",
        }
    }
}

impl fmt::Display for EarlyKind {
    ghost use Rattle.std.specs.Prelude.{Some};

    ghost output = { λ kind. Some (name_of_early kind) };

    fn fmt<W: fmt::Write>(&self, f: &mut fmt::Formatter<W>) -> fmt::Result {
        f.write_str(self.name())
    }
}
