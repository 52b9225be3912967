// Reads a file without trees some times over, as strict code, and prints how many functions it has, or why it is
// refused: hz_preparse_bench FILE ROUNDS. The script bench/preparse measures it.
#![tactic(auto)]

ghost use Rattle.std.specs.Prelude.{◌≡◌, ◌++◌, Some, None, IfOk, true, codes, decimal, length, string_bytes};
ghost use Rattle.hz_tree.specs.declared.refusal.Refusal.{Refusal};
ghost use Rattle.hz_tree.specs.sources.Refusals.{refusal_of, functions};
ghost use Rattle.hz_tree.specs.sources.Shown.{text_of_refusal};

use hz_preparse::{PreFault, preparse};
use std::alloc::{AllocError, Global};
use std::{env, fs, io};

/// How many functions the source has, or why it is refused as strict code.
fn finding(alloc: Global, source: &[u8]) -> Result<String, AllocError>
    ensures read { refusal_of source.now true ≡ None → IfOk result
        (λ text. string_bytes text ≡ decimal (length (functions source.now)) ++ codes " functions") }
    ensures refused { (why : Refusal) → refusal_of source.now true ≡ Some why → IfOk result
        (λ text. string_bytes text ≡ codes "refused: " ++ text_of_refusal why) }
{
    match preparse(alloc, source, true) {
        Ok(index) => {
            let count = index.count();
            format!(in alloc; "{count} functions")
        }
        Err(PreFault::Refused(refusal)) => format!(in alloc; "refused: {refusal}"),
        Err(PreFault::Memory) => Err(AllocError),
    }
}

/// The number that a word on the command line says, or 1.
fn number(word: &Option<String>) -> u32 {
    match word {
        Some(text) => text.parse().unwrap_or(1),
        None => 1,
    }
}

fn main(rt: HostRuntime) -> io::Result<()> {
    let mut words = env::args(&rt)?;
    let _program = words.next();
    let Some(path) = words.next() else {
        return Ok(());
    };
    let rounds = number(&words.next());
    let source = fs::read(&rt, path.as_str())?;
    let mut found = String::new(rt.alloc());
    for _ in 0..rounds {
        found = finding(rt.alloc(), source.as_slice())?;
    }
    println!(rt; "{found}")
}
