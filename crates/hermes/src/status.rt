// How a call of the command ends: its status, the code that the process ends with, and the line on standard error.

ghost use Rattle.std.specs.Prelude.{◌≡◌, ◌+◌, ◌≤◌, [], ◌∷◌, ◌++◌, codes, decimal, length};
ghost use Rattle.hz_tree.specs.sources.Shown.{text_of_refusal};
ghost use Rattle.hermes.specs.Statuses.{behind_front, code_of, line_of};

use arrayvec::ArrayVec;
use hz_tree::Refusal;
use hz_value::{Left, Units};
use itoa::Buffer;

/// How a call of the command ended.
#[derive(Debug, Drop)]
pub enum Status {
    /// The script ran to its end.
    Done,

    /// The script threw a value that nothing caught, which has this description.
    Uncaught(Units),

    /// The words are no command. This is the number of the first word at which they stop beginning one.
    Usage(usize),

    /// The source is no script of the language, or holds what is not built yet: it was not compiled.
    Refused(Refusal),

    /// The run met something that this compiler does not carry out.
    Left(Left),

    /// The source could not be read.
    ReadFault,

    /// Output could not be written.
    WriteFault,

    /// Memory ran out.
    Memory,
}

/// A line on standard error, but for a description.
type Front = ArrayVec<u8, 128>;

impl Status {
    /// The code that the process ends with.
    pub fn code(&self) -> u8
        ensures { result ≡ code_of self.now }
    {
        match self {
            Status::Done => 0,
            Status::Uncaught(_) => 1,
            Status::Usage(_) => 2,
            Status::Refused(_) => 3,
            Status::Left(_) => 5,
            Status::ReadFault => 7,
            Status::WriteFault => 8,
            Status::Memory => 70,
        }
    }

    /// The line on standard error with its newline, or nothing where there is none. Where it has a description, what
    /// stands before that. It takes no memory.
    pub fn front(&self) -> Front
        ensures { line_of self.now ≡ result.items ++ behind_front self.now }
    {
        match self {
            Status::Done => ArrayVec::new(),
            Status::Uncaught(_) => begun(b"Uncaught "),
            Status::Usage(word) => numbered(b"usage error at word ", *word),
            Status::Refused(refusal) => refused(*refusal),
            Status::Left(reason) => sentence(b"left: ", reason.name().as_bytes()),
            Status::ReadFault => sentence(b"read ", b"fault"),
            Status::WriteFault => sentence(b"write ", b"fault"),
            Status::Memory => sentence(b"out of ", b"memory"),
        }
    }
}

// A refusal, with its place where it has one.
fn refused(refusal: Refusal) -> Front
    ensures { result.items ≡ codes "refused: " ++ text_of_refusal refusal ++ 10 ∷ [] }
{
    match refusal {
        Refusal::TooLong => sentence(b"refused: ", b"TooLong"),
        Refusal::NotUtf8(at) => numbered(b"refused: NotUtf8 at ", at),
        Refusal::Syntax(at) => numbered(b"refused: Syntax at ", at),
        Refusal::Outside(kind, at) => placed(b"refused: Outside(", kind.name(), at),
        Refusal::Sloppy => sentence(b"refused: ", b"Sloppy"),
        Refusal::Early(kind, at) => placed(b"refused: Early(", kind.name(), at),
        Refusal::Profile(kind, at) => placed(b"refused: Profile(", kind.name(), at),
        Refusal::Limit(kind, at) => placed(b"refused: Limit(", kind.name(), at),
        Refusal::NotYet(at) => numbered(b"refused: NotYet at ", at),
    }
}

// The words with a kind's name and its place behind them.
fn placed(words: &[u8], name: &str, at: usize) -> Front
    requires words { length words.now ≤ 20 }
    requires name { length name.now ≤ 18 }
    ensures { result.items ≡ words.now ++ name.now ++ codes ") at " ++ decimal at ++ 10 ∷ [] }
{
    let mut digits = Buffer::new();
    let mut line = begun(words);
    add(&mut line, name.as_bytes());
    add(&mut line, b") at ");
    add(&mut line, digits.format(at).as_bytes());
    line.push(b'\n');
    line
}

// The words, and a number behind them.
fn numbered(words: &[u8], number: usize) -> Front
    requires { length words.now ≤ 20 }
    ensures { result.items ≡ words.now ++ decimal number ++ 10 ∷ [] }
{
    let mut digits = Buffer::new();
    sentence(words, digits.format(number).as_bytes())
}

// The words, and these bytes behind them.
fn sentence(words: &[u8], more: &[u8]) -> Front
    requires words { length words.now ≤ 20 }
    requires more { length more.now ≤ 40 }
    ensures { result.items ≡ words.now ++ more.now ++ 10 ∷ [] }
{
    let mut line = begun(words);
    add(&mut line, more);
    line.push(b'\n');
    line
}

// The words alone.
fn begun(words: &[u8]) -> Front
    requires { length words.now ≤ 20 }
    ensures { result.items ≡ words.now }
{
    let mut line = ArrayVec::new();
    add(&mut line, words);
    line
}

fn add(line: &mut Front, bytes: &[u8])
    requires { length line.old.items + length bytes.now ≤ 128 }
    ensures { line.new.items ≡ line.old.items ++ bytes.now }
{
    match line.try_extend_from_slice(bytes) {
        Ok(()) => {}
        Err(_) => unreachable!(),
    }
}
