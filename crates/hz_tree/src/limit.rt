ghost use Rattle.std.specs.Prelude.{◌≡◌, ◌≤◌, length};
ghost use Rattle.hz_tree.specs.sources.Kinds.{name_of_limit};

use std::fmt;

/// The most statements and expressions that stand within each other, the outermost one among them.
pub const MAX_DEPTH: usize = 400;

/// The most parameters of a function, and the most arguments of a call or a `new`.
pub const MAX_LISTED: usize = 254;

/// The limits of a source. The order is that of this list; of several that are passed at one place the first one in it
/// is told.
#[derive(Clone, Copy, Debug, PartialEq, Eq, PartialOrd, Ord)]
pub enum LimitKind {
    /// A statement or an expression is within more than 399 others.
    Nesting,

    /// A function has 255 parameters, the rest one among them.
    Parameters,

    /// A call or a `new` has 255 arguments.
    Arguments,
}

impl LimitKind {
    /// The kind's name, as it is printed. It takes no memory.
    pub fn name(&self) -> &'static str
        ensures name { result.now ≡ name_of_limit self.now }
        ensures short { length result.now ≤ 18 }
    {
        match self {
            LimitKind::Nesting => "Nesting",
            LimitKind::Parameters => "Parameters",
            LimitKind::Arguments => "Arguments",
        }
    }
}

impl fmt::Display for LimitKind {
    ghost use Rattle.std.specs.Prelude.{Some};

    ghost output = { λ kind. Some (name_of_limit kind) };

    fn fmt<W: fmt::Write>(&self, f: &mut fmt::Formatter<W>) -> fmt::Result {
        f.write_str(self.name())
    }
}
