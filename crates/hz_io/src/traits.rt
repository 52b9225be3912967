ghost use Rattle.std.specs.Prelude.{◌≡◌, ◌+◌, ◌<◌, ◌≤◌, ℕ, List, Option, length, IfOk};
ghost use Rattle.std.specs.Io.{ReadsAtMost};
ghost use Rattle.std.specs.Io.KnownBytes.{ReadConsumes};
ghost use Rattle.hz_io.specs.Causes.{HasCause, HasFileCause};
ghost use Rattle.hz_io.specs.Contents.{Contents, ReadsFile, WritesFile, Told, Puts};

use crate::faults::{Failed, FileFault};
use std::alloc::Global;

/// Files by name.
///
/// `held` is what they hold, where the implementation tells it. A count of faults never falls, and stays at
/// the last value of its type.
pub trait Files {
    ghost held: { Self → Option Contents };

    ghost read_count: { Self → List ℕ → ℕ };

    ghost write_count: { Self → List ℕ → ℕ };

    /// How many reads of the file failed so far; an implementation may count all names together.
    fn read_faults(&self, name: &str) -> u64
        ensures { result ≡ read_count self.now name.now };

    /// How many writes of the file failed so far; an implementation may count all names together.
    fn write_faults(&self, name: &str) -> u64
        ensures { result ≡ write_count self.now name.now };

    /// The first `max + 1` bytes of the file, or all where there are fewer. `Failed` comes only where the
    /// file's count of reads rose; a file that is not there is such a fault. No file changes, and after
    /// `Memory` nothing did.
    fn read(&mut self, alloc: Global, name: &str, max: u64) -> Result<Vec<u8>, FileFault>
        ensures length { IfOk result (λ bytes. length bytes.items ≤ max + 1) }
        ensures bytes { IfOk result
            (λ bytes. ReadsFile (held self.old) name.now (max + 1) bytes.items) }
        ensures same { held self.new ≡ held self.old }
        ensures cause { HasFileCause (read_count self.old) (read_count self.new) name.now result }
        ensures writes { (q : List ℕ) → write_count self.new q ≡ write_count self.old q };

    /// Makes these the bytes of the file. `Failed` comes only where the file's count of writes rose; the
    /// file then has its old bytes or a front of the new ones. No other file changes, and after `Memory`
    /// nothing did.
    fn write(&mut self, name: &str, bytes: &[u8]) -> Result<(), FileFault>
        ensures bytes { WritesFile (held self.old) (held self.new) name.now bytes.now result }
        ensures cause { HasFileCause (write_count self.old) (write_count self.new) name.now result }
        ensures reads { (q : List ℕ) → read_count self.new q ≡ read_count self.old q };
}

/// A stream that gives bytes.
///
/// `left` is what it has left, where the implementation tells it. The count of faults never falls, and
/// stays at the last value of its type.
pub trait Source {
    ghost left: { Self → Option (List ℕ) };

    ghost count: { Self → ℕ };

    /// How many calls of `take` failed so far.
    fn faults(&self) -> u64
        ensures { result ≡ count self.now };

    /// Puts the next bytes into the front of the buffer, which is not empty, and says how many: 0 exactly
    /// at the end. `Failed` comes only where the count of faults rose, and nothing is taken then.
    fn take(&mut self, buf: &mut [u8]) -> Result<usize, Failed>
        requires { 0 < length buf.old }
        ensures bound { ReadsAtMost result buf.new }
        ensures bytes { ReadConsumes (left self.old) (left self.new) result buf.new }
        ensures cause { HasCause (count self.old) (count self.new) result };
}

/// A stream that gets bytes.
///
/// `told` is what it has got, where the implementation tells it: the bytes, and how many calls of `put` there
/// were, failed ones too. The count of faults never falls, and stays at the last value of its type.
pub trait Sink {
    ghost told: { Self → Told };

    ghost count: { Self → ℕ };

    /// How many calls of `put` failed so far.
    fn faults(&self) -> u64
        ensures { result ≡ count self.now };

    /// Sends the bytes. `Failed` comes only where the count of faults rose, and a front of the bytes was
    /// sent then. Either way this is one put more.
    fn put(&mut self, bytes: &[u8]) -> Result<(), Failed>
        ensures bytes { Puts (told self.old) (told self.new) bytes.now result }
        ensures cause { HasCause (count self.old) (count self.new) result };
}
