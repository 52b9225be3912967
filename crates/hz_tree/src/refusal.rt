use crate::early::EarlyKind;
use crate::limit::LimitKind;
use crate::outside::OutsideKind;
use crate::profile::ProfileKind;
use std::fmt;

/// The greatest length of a source, in bytes.
pub const MAX_LENGTH: usize = 16_777_215;

/// Why a source is refused.
#[derive(Clone, Copy, Debug, PartialEq, Eq)]
pub enum Refusal {
    /// It has more than `MAX_LENGTH` bytes.
    TooLong,

    /// At this place, counted in bytes, no well-formed UTF-8 sequence stands.
    NotUtf8(usize),

    /// The grammar is stuck at the token at this place.
    Syntax(usize),

    /// A part of the language that this compiler leaves out stands at this place.
    Outside(OutsideKind, usize),

    /// It does not say that it is strict code.
    Sloppy,

    /// The first early error of the script (ECMA-262, 16.1.1), called or not, stands at this place.
    Early(EarlyKind, usize),

    /// The first place at which the script is outside the profile.
    Profile(ProfileKind, usize),

    /// The first place at which the script passes a limit.
    Limit(LimitKind, usize),

    /// It goes past what is built so far. This is the place, in bytes, up to which it does not.
    NotYet(usize),
}

impl fmt::Display for Refusal {
    ghost use Rattle.std.specs.Prelude.{Some};
    ghost use Rattle.hz_tree.specs.sources.Shown.{text_of_refusal};

    ghost output = { λ refusal. Some (text_of_refusal refusal) };

    fn fmt<W: fmt::Write>(&self, f: &mut fmt::Formatter<W>) -> fmt::Result {
        match self {
            Refusal::TooLong => write!(f, "TooLong"),
            Refusal::NotUtf8(at) => write!(f, "NotUtf8 at {}", at),
            Refusal::Syntax(at) => write!(f, "Syntax at {}", at),
            Refusal::Outside(kind, at) => write!(f, "Outside({}) at {}", kind, at),
            Refusal::Sloppy => write!(f, "Sloppy"),
            Refusal::Early(kind, at) => write!(f, "Early({}) at {}", kind, at),
            Refusal::Profile(kind, at) => write!(f, "Profile({}) at {}", kind, at),
            Refusal::Limit(kind, at) => write!(f, "Limit({}) at {}", kind, at),
            Refusal::NotYet(at) => write!(f, "NotYet at {}", at),
        }
    }
}
