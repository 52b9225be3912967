ghost use Rattle.std.specs.Prelude.{◌≡◌, ◌≤◌, length};
ghost use Rattle.hz_value.specs.Leaving.{name_of_left};

use std::fmt;

/// Why a run was left: it met something that this compiler does not carry out.
#[derive(Clone, Copy, Debug, PartialEq, Eq)]
pub enum Left {
    /// An operator or a conversion whose result is no safe integer.
    NotSafe,
    /// A built-in name or property that is not there.
    Missing,
    /// A primitive that would be wrapped into an object.
    Wrapper,
    /// Two zeros that would have to be told apart.
    ZeroSign,
    /// The other case of a unit of 128 or more.
    CaseMapping,
    /// A call that would make 10,001 calls active at once.
    TooDeep,
    /// A line of input of more than 16,777,215 bytes.
    LongLine,
    /// A construct, or a built-in name, that this compiler will carry out and does not yet.
    NotBuilt,
}

impl Left {
    /// The reason's name, as it is printed. It takes no memory.
    pub fn name(&self) -> &'static str
        ensures name { result.now ≡ name_of_left self.now }
        ensures short { length result.now ≤ 11 }
    {
        match self {
            Left::NotSafe => "NotSafe",
            Left::Missing => "Missing",
            Left::Wrapper => "Wrapper",
            Left::ZeroSign => "ZeroSign",
            Left::CaseMapping => "CaseMapping",
            Left::TooDeep => "TooDeep",
            Left::LongLine => "LongLine",
            Left::NotBuilt => "NotBuilt",
        }
    }
}

impl fmt::Display for Left {
    ghost use Rattle.std.specs.Prelude.{Some};

    ghost output = { λ left. Some (name_of_left left) };

    fn fmt<W: fmt::Write>(&self, f: &mut fmt::Formatter<W>) -> fmt::Result {
        f.write_str(self.name())
    }
}
