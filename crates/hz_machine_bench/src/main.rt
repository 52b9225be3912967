// Runs a script that is written out by hand: hz_machine_bench SHAPE ROUNDS, where the shape is loop, texts or globals.
// It prints how many steps the run took, and how it ended. The script bench/machine measures it.
#![tactic(auto)]

mod scripts;

use crate::scripts::script_of;
use hz_machine::{Answer, Ending, Machine};
use hz_machine_tests::Script;
use hz_value::Memory;
use std::alloc::Global;
use std::{env, io};

/// How a run ended.
fn name_of(ending: &Ending) -> &'static str {
    match ending {
        Ending::Done => "done",
        Ending::Uncaught(_) => "uncaught",
        Ending::Left(_) => "left",
        Ending::TurnsSpent => "turns spent",
        Ending::BadCode => "bad code",
    }
}

/// Runs the machine to its end, over so many steps at most: how many it took, and how it ended.
fn run(machine: &mut Machine, script: &Script, most: u64) -> (u64, &'static str) {
    for steps in 1..=most {
        match machine.step(script) {
            Answer::Ended(ending) => return (steps, name_of(&ending)),
            Answer::Memory => return (steps, "out of memory"),
            _ => {}
        }
    }
    (most, "running")
}

/// Runs the script of this shape over so many rounds.
fn measure(alloc: Global, shape: &str, rounds: u32) -> Result<String, Memory> {
    let script = script_of(alloc, shape, rounds)?;
    let turns = rounds as u64 + 1;
    let mut machine = Machine::start(alloc, &script, turns)?;
    let (steps, end) = run(&mut machine, &script, 16 * turns);
    Ok(format!(in alloc; "{steps} steps, {end}")?)
}

/// The number that a word on the command line says, or 1.
fn number(word: &Option<String>) -> u32 {
    match word {
        Some(text) => text.parse().unwrap_or(1),
        None => 1,
    }
}

fn main(rt: HostRuntime) -> io::Result<()> {
    let mut words = env::args(&rt)?;
    let _program = words.next();
    let Some(shape) = words.next() else {
        return Ok(());
    };
    let rounds = number(&words.next());
    match measure(rt.alloc(), shape.as_str(), rounds) {
        Ok(told) => println!(rt; "{told}"),
        Err(_) => println!(rt; "out of memory"),
    }
}
