// Prints what a compiler knows of a script before it compiles it: hz_front_dump [-strict] FILE. With `-strict` the
// script is read as strict code whether it says so or not. Where it is refused, the line is
//
//     refused: REFUSAL
//
// and else there are for each function, with places in bytes and `-` for what is not there, the lines
//
//     function K START END KIND LENGTH PARENT OWN      OWN: how many tokens are in its extent and in no inner one
//     free NAME                                        for each name that is free in it
//     scope I KIND START END PARENT                    for each scope, from 0, and behind it
//     name NAME BINDING PLACE                          for each name of the scope; PLACE is `register`,
//                                                      `slot HOPS SLOT` or `global`
#![tactic(auto)]

ghost use Rattle.std.specs.Prelude.{◌≡◌, Some, None, IfOk};
ghost use Rattle.hz_tree.specs.declared.refusal.Refusal.{Refusal};
ghost use Rattle.hz_tree.specs.sources.Refusals.{refusal_of};
ghost use Rattle.hz_front_dump.specs.Dump.{dump_of, refused_line as line_of_refusal};

mod dump;
mod lines;
mod own;
mod places;
mod scopes;

use dump::dump_index;
use hz_list::Memory;
use hz_preparse::{PreFault, preparse};
use hz_tree::Refusal;
use std::alloc::Global;
use std::io::{Error, ErrorKind, Write};
use std::{env, fs, io};

/// What is printed of a source.
fn printed(alloc: Global, source: &[u8], strict: bool) -> Result<Vec<u8>, Memory>
    ensures read { refusal_of source.now strict ≡ None → IfOk result
        (λ text. text.items ≡ dump_of source.now) }
    ensures refused { (why : Refusal) → refusal_of source.now strict ≡ Some why → IfOk result
        (λ text. text.items ≡ line_of_refusal why) }
{
    match preparse(alloc, source, strict) {
        Ok(index) => dump_index(alloc, &index),
        Err(PreFault::Refused(refusal)) => refused_line(alloc, refusal),
        Err(PreFault::Memory) => Err(Memory),
    }
}

fn refused_line(alloc: Global, refusal: Refusal) -> Result<Vec<u8>, Memory>
    ensures { IfOk result (λ text. text.items ≡ line_of_refusal refusal) }
{
    let line = format!(in alloc; "refused: {refusal}\n")?;
    Ok(line.into_bytes())
}

fn main(rt: HostRuntime) -> io::Result<()> {
    let mut words = env::args(&rt)?;
    let _program = words.next();
    let Some(first) = words.next() else {
        return Ok(());
    };
    let strict = first.as_str() == "-strict";
    let file = if strict { words.next() } else { Some(first) };
    let Some(path) = file else {
        return Ok(());
    };
    let source = fs::read(&rt, path.as_str())?;
    match printed(rt.alloc(), source.as_slice(), strict) {
        Ok(text) => rt.stdout().write_all(text.as_slice()),
        Err(Memory) => Err(Error::from(ErrorKind::OutOfMemory)),
    }
}
