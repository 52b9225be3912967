// Hermes: compiles a script to a bytecode file in memory, opens that file and runs it.
//
// All that the program does with its arguments is `top::hermes`, over the files and streams of the system. Its
// contract says how each call ends, what it prints, and when it may answer a fault.
#![tactic(auto)]

ghost use Rattle.std.specs.Prelude.{◌≡◌, ◌<◌, ℕ, List, [], IfOk, IsUtf8, Some, None, map, string_bytes};
ghost use Rattle.hz_io.specs.Causes.{Rose};
ghost use Rattle.hermes.specs.Effects.{WriteCause, GetsLine};
ghost use Rattle.hermes.specs.Outcomes.{OutcomeOf};
ghost use Rattle.hermes.specs.Statuses.{line_of};
ghost use Rattle.hermes.specs.Words.{usage_fault, file_of, strict_of};

mod disk;
mod first;
mod source;
mod status;
mod telling;
mod top;
mod words;

use disk::{DiskFiles, Reading, Writing};
use hz_io::{Files, Sink, Source};
use hz_value::Steps;
use status::Status;
use std::alloc::{AllocError, Global};
use std::env::{Env, FillError};
use std::marker::Brand;
use std::process::ExitCode;
use std::sync::ledger::{Blank, Ledger};

fn main(rt: HostRuntime) -> ExitCode {
    ExitCode::from(run_program(&rt).code())
}

/// The room for an argument, in bytes: Linux passes no longer one to a program.
const MAX_ARGUMENT: usize = 131_072;

// The command on the system's files and streams. Where memory does not suffice for the arguments, there is none.
fn run_program(rt: &HostRuntime) -> Status {
    let mut err = Writing::new(rt.stderr());
    match arguments(rt) {
        Ok(words) => uncounted::<_, _, _, _, Brand>(
            rt.alloc(),
            words.as_slice(),
            &mut DiskFiles::new(*rt),
            &mut Reading::new(rt.stdin()),
            &mut Writing::new(rt.stdout()),
            &mut err,
            Blank::new(1),
        ),
        Err(AllocError) => {
            telling::tell(&Status::Memory, &mut err);
            Status::Memory
        }
    }
}

// The arguments of the program without its own name.
fn arguments(rt: &HostRuntime) -> Result<Vec<String>, AllocError> {
    let mut words = Vec::new(rt.alloc());
    let mut room = [0; MAX_ARGUMENT];
    for i in 1..usize::MAX {
        match rt.arg(i, &mut room) {
            Ok(length) => words.push(word_of(rt.alloc(), &room[..length])?)?,
            Err(FillError::TooLong) => words.push(String::new(rt.alloc()))?,
            Err(FillError::NotPresent) => break,
        }
    }
    Ok(words)
}

// The word that an argument is. One that is not UTF-8 is the empty word, which no command has.
fn word_of(alloc: Global, bytes: &[u8]) -> Result<String, AllocError>
    ensures text { IsUtf8 bytes.now → IfOk result (λ word. string_bytes word ≡ bytes.now) }
    ensures other { (IsUtf8 bytes.now → ⊥) → IfOk result (λ word. string_bytes word ≡ []) }
{
    match str::from_utf8(bytes) {
        Ok(text) => String::from_str(alloc, text),
        Err(_) => Ok(String::new(alloc)),
    }
}

// The command, with a count of steps that nobody reads. But for the steps it promises what `top::hermes` does.
fn uncounted<F: Files, S: Source, K: Sink, E: Sink, L: Ledger>(
    alloc: Global,
    words: &[String],
    files: &mut F,
    input: &mut S,
    out: &mut K,
    err: &mut E,
    blank: Blank,
) -> Status
    requires name { blank.name ≡ L.name }
    requires parts { blank.parts ≡ L.parts }
    requires some { 0 < blank.parts }

    // Words that are no command are answered so, and nothing but err is touched.
    ensures usage { (word : ℕ) → usage_fault (map string_bytes words.now) ≡ Some word
        → (result ≡ Status.Usage word) × (files.new ≡ files.old) × (out.new ≡ out.old) }

    // Words that are a command: the status, and what went out.
    ensures outcome { usage_fault (map string_bytes words.now) ≡ None
        → OutcomeOf (F.held files.old) (file_of (map string_bytes words.now))
        (strict_of (map string_bytes words.now)) result (K.told out.old) (K.told out.new) }

    // A fault of reading is one of this file in this call, and one of writing is one of out in this call.
    ensures read_fault { result ≡ Status.ReadFault
        → Rose (F.read_count files.old (file_of (map string_bytes words.now)))
        (F.read_count files.new (file_of (map string_bytes words.now))) }
    ensures write_fault { WriteCause result (K.count out.old) (K.count out.new) }

    // Standard error gets the line of the status, or a front of it after a fault of its own.
    ensures line { GetsLine (E.told err.old).got (E.told err.new).got (E.count err.old) (E.count err.new)
        (line_of result) }

    // No file changes, and neither does the input.
    ensures held { F.held files.new ≡ F.held files.old }
    ensures writes { (name : List ℕ) → F.write_count files.new name ≡ F.write_count files.old name }
    ensures input { input.new ≡ input.old }
{
    let mut steps: Steps<L> = Steps::new(blank);
    top::hermes(alloc, words, files, input, out, err, &mut steps)
}
