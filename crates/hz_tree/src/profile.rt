ghost use Rattle.std.specs.Prelude.{◌≡◌, ◌≤◌, length};
ghost use Rattle.hz_tree.specs.sources.Kinds.{name_of_profile};

use std::fmt;

/// The rules of the profile: what this compiler asks of a source beside ECMA-262. The order is that of this list; of
/// several at one place the first one in it is told.
#[derive(Clone, Copy, Debug, PartialEq, Eq, PartialOrd, Ord)]
pub enum ProfileKind {
    /// `this` stands in no function other than arrows.
    ScriptThis,

    /// A property of an object literal is written `__proto__:`, as a word or as a text.
    Proto,

    /// A declaration of the script names `undefined`, `NaN` or `Infinity`.
    GlobalName,

    /// An array or object literal without parentheses is the target of `=` or of a `for`.
    Pattern,
}

impl ProfileKind {
    /// The kind's name, as it is printed. It takes no memory.
    pub fn name(&self) -> &'static str
        ensures name { result.now ≡ name_of_profile self.now }
        ensures short { length result.now ≤ 18 }
    {
        match self {
            ProfileKind::ScriptThis => "ScriptThis",
            ProfileKind::Proto => "Proto",
            ProfileKind::GlobalName => "GlobalName",
            ProfileKind::Pattern => "Pattern",
        }
    }
}

impl fmt::Display for ProfileKind {
    ghost use Rattle.std.specs.Prelude.{Some};

    ghost output = { λ kind. Some (name_of_profile kind) };

    fn fmt<W: fmt::Write>(&self, f: &mut fmt::Formatter<W>) -> fmt::Result {
        f.write_str(self.name())
    }
}
