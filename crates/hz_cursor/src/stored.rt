ghost use Rattle.std.specs.Prelude.{◌≡◌};

use hz_scan::Seen;
use hz_tree::Class;

/// A token without its text, as it is stored: in five bytes.
#[derive(Clone, Copy, Debug)]
pub struct Stored {
    /// What the grammar asks of it.
    pub class: Class,

    /// Whether a line ends before it.
    pub newline: bool,

    /// Whether it is a string literal with a legacy octal escape.
    pub octal: bool,

    /// How many bytes stand between it and the token before it, or 255 where that number is kept apart.
    pub gap: u8,

    /// How many bytes it has, or 255 where that number is kept apart.
    pub len: u8,
}

impl Stored {
    ghost use Rattle.hz_cursor.specs.Stored.{seen};

    /// What the rules of the grammar test of it.
    pub fn seen(self) -> Seen
        ensures { result ≡ seen self }
    {
        Seen {
            class: self.class,
            newline: self.newline,
        }
    }
}
