// The command: reads its words, reads the source, compiles and runs it, and tells how that ended.

ghost use Rattle.std.specs.Prelude.{◌≡◌, ℕ, List, length, Some, None, Ok, map, string_bytes};
ghost use Rattle.hz_io.specs.Causes.{Rose};
ghost use Rattle.hermes.specs.Effects.{WriteCause, GetsLine};
ghost use Rattle.hermes.specs.Outcomes.{OutcomeOf};
ghost use Rattle.hermes.specs.Statuses.{line_of};
ghost use Rattle.hermes.specs.Words.{usage_fault, file_of, strict_of};

use crate::source::run_source;
use crate::status::Status;
use crate::telling::tell;
use crate::words::{Command, command_of};
use hz_io::{FileFault, Files, Sink, Source};
use hz_tree::MAX_LENGTH;
use hz_value::Steps;
use std::alloc::Global;
use std::sync::ledger::Ledger;

/// Does what the words command, and sends the line of the status to `err`.
///
/// `words` are the program's arguments without its own name: `run`, then `-strict` or not, then `--` or not, then
/// the name of a file. It reads the file as a script, compiles it to a bytecode file in memory, opens that file and
/// runs it. With `-strict` the script is strict code without a directive too.
///
/// - `Done`: the script ran to its end, and `out` got its lines.
/// - `Left`: the run met what this compiler does not carry out, and `out` got the lines before.
/// - `Usage`: the words are no command. Nothing else was touched.
/// - `Refused`: the file is no script of the language, or holds what is not built yet. `out` got nothing.
/// - `ReadFault`: the file could not be read. `out` got nothing.
/// - `WriteFault`: `out` failed in this call, and got a front of the script's lines.
/// - `Memory`: memory ran out, and `out` got a front of the script's lines. This can come in the place of any but
///   `Usage`.
pub fn hermes<F: Files, S: Source, K: Sink, E: Sink, L: Ledger>(
    alloc: Global,
    words: &[String],
    files: &mut F,
    input: &mut S,
    out: &mut K,
    err: &mut E,
    steps: &mut Steps<L>,
) -> Status
    // Words that are no command are answered so, and nothing but err is touched.
    ensures usage { (word : ℕ) → usage_fault (map string_bytes words.now) ≡ Some word
        → (result ≡ Status.Usage word) × (files.new ≡ files.old) × (out.new ≡ out.old) }

    // Words that are a command: the status, and what went out.
    ensures outcome { usage_fault (map string_bytes words.now) ≡ None
        → OutcomeOf (F.held files.old) (file_of (map string_bytes words.now))
        (strict_of (map string_bytes words.now)) result (K.told out.old) (K.told out.new) }

    // A fault of reading is one of this file in this call, and one of writing is one of out in this call.
    ensures read_fault { result ≡ Status.ReadFault
        → Rose (F.read_count files.old (file_of (map string_bytes words.now)))
        (F.read_count files.new (file_of (map string_bytes words.now))) }
    ensures write_fault { WriteCause result (K.count out.old) (K.count out.new) }

    // Standard error gets the line of the status, or a front of it after a fault of its own.
    ensures line { GetsLine (E.told err.old).got (E.told err.new).got (E.count err.old) (E.count err.new)
        (line_of result) }

    // No file changes, and neither do the input and the count of steps.
    ensures held { F.held files.new ≡ F.held files.old }
    ensures writes { (name : List ℕ) → F.write_count files.new name ≡ F.write_count files.old name }
    ensures input { input.new ≡ input.old }
    ensures steps { steps.new ≡ steps.old }
{
    let status = run_words(alloc, words, files, out);
    tell(&status, err);
    status
}

// All but the line on standard error.
fn run_words<F: Files, K: Sink>(
    alloc: Global,
    words: &[String],
    files: &mut F,
    out: &mut K,
) -> Status
    ensures usage { (word : ℕ) → usage_fault (map string_bytes words.now) ≡ Some word
        → (result ≡ Status.Usage word) × (files.new ≡ files.old) × (out.new ≡ out.old) }
    ensures outcome { usage_fault (map string_bytes words.now) ≡ None
        → OutcomeOf (F.held files.old) (file_of (map string_bytes words.now))
        (strict_of (map string_bytes words.now)) result (K.told out.old) (K.told out.new) }
    ensures read_fault { result ≡ Status.ReadFault
        → Rose (F.read_count files.old (file_of (map string_bytes words.now)))
        (F.read_count files.new (file_of (map string_bytes words.now))) }
    ensures write_fault { WriteCause result (K.count out.old) (K.count out.new) }
    ensures held { F.held files.new ≡ F.held files.old }
    ensures writes { (name : List ℕ) → F.write_count files.new name ≡ F.write_count files.old name }
{
    match command_of(words) {
        Ok(Command { strict, file }) => read_and_run(alloc, strict, file, files, out),
        Err(word) => Status::Usage(word),
    }
}

// Reads the file and runs it.
#[tactic(auto, using(crate::proofs::Sources::read_whole, crate::proofs::Sources::unread, crate::proofs::Outputs::prints_nothing))]
fn read_and_run<F: Files, K: Sink>(
    alloc: Global,
    strict: bool,
    name: &str,
    files: &mut F,
    out: &mut K,
) -> Status
    ensures outcome { OutcomeOf (F.held files.old) name.now strict result (K.told out.old)
        (K.told out.new) }
    ensures read_fault { result ≡ Status.ReadFault
        → Rose (F.read_count files.old name.now) (F.read_count files.new name.now) }
    ensures write_fault { WriteCause result (K.count out.old) (K.count out.new) }
    ensures held { F.held files.new ≡ F.held files.old }
    ensures writes { (q : List ℕ) → F.write_count files.new q ≡ F.write_count files.old q }
{
    match files.read(alloc, name, MAX_LENGTH as u64) {
        Ok(source) => run_source(alloc, strict, source.as_slice(), out),
        Err(FileFault::Failed) => Status::ReadFault,
        Err(FileFault::Memory) => Status::Memory,
    }
}
