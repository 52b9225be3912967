// Scans each of some copies of a file some times over, and prints how many tokens it has:
// hz_scan_bench FILE COPIES ROUNDS. The script bench/scanner measures it.
#![tactic(auto)]

ghost use Rattle.std.specs.Prelude.{◌≡◌, IfOk, length};
ghost use Rattle.hz_tree.specs.tokens.Tokens.{tokens};

use hz_list::Memory;
use hz_scan::Tokens;
use std::alloc::Global;
use std::{env, fs, io};

/// How many tokens the source has, the last one included.
#[tactic(auto, using(hz_scan::proofs::OrderLemmas::few))]
fn count_tokens(alloc: Global, source: &[u8]) -> Result<usize, Memory>
    ensures { IfOk result (λ count. count ≡ length (tokens source.now)) }
{
    let mut left = Tokens::new(alloc, source);
    let mut count = 0;
    while let Some(_token) = left.next()? {
        count += 1;
    }
    Ok(count)
}

/// The number that a word on the command line says, or 1.
fn number(word: &Option<String>) -> u32 {
    match word {
        Some(text) => text.parse().unwrap_or(1),
        None => 1,
    }
}

fn main(rt: HostRuntime) -> io::Result<()> {
    let mut words = env::args(&rt)?;
    let _program = words.next();
    let Some(path) = words.next() else {
        return Ok(());
    };
    let copies = number(&words.next());
    let rounds = number(&words.next());
    let mut sources = Vec::new(rt.alloc());
    for _ in 0..copies {
        sources.push(fs::read(&rt, path.as_str())?)?;
    }
    let mut tokens = 0;
    for _ in 0..rounds {
        for source in &sources {
            tokens = count_tokens(rt.alloc(), source).map_err(|_| io::ErrorKind::OutOfMemory)?;
        }
    }
    println!(rt; "{tokens} tokens")
}
