// The run of a file's code.
ghost use Rattle.std.specs.Prelude.{◌≡◌, ℕ, List, map};
ghost use Rattle.hz_file.specs.Module.{module_of};
ghost use Rattle.hz_ops.specs.Activations.{code_of, entered};
ghost use Rattle.hz_ops.specs.Runs.{End, Ends, start_of, IsBuilt};
ghost use Rattle.hermes.specs.FileCode.{code_module};
ghost use Rattle.hermes.specs.first.Rows.{content_of};
ghost use Rattle.hermes.specs.first.Runs.{Agrees, RunsTo, Counts, StopsTo, CountsStop};

mod code;
mod held;
mod line;
mod operands;
mod rows;
mod sending;
mod step;
mod stop;

use held::Held;
use hz_file::File;
use hz_io::Sink;
use sending::send_step;
use std::alloc::Global;
pub use stop::FirstEnd;
use stop::Stop;

/// Runs the script of a file, and sends each line that it prints to `out`: its text in UTF-8, with
/// U+FFFD for a surrogate that has no partner, and a newline.
///
/// `Done`, `Left` and `BadCode` come exactly where the code ends so, and `out` got exactly its lines.
/// After `WriteFault`, which comes only where a write to `out` failed, and after `Memory`, `out` got a
/// front of what the code prints. Each line is one put. The code must not come to what no row says: an
/// operator on other than two numbers, a global other than `print`, and a call of anything else.
#[tactic(auto, using(crate::proofs::Outputs::prints_nothing))]
pub fn run_first<K: Sink>(alloc: Global, file: &File<'_>, out: &mut K) -> FirstEnd
    requires built { let m = code_module (module_of file.now) in IsBuilt m (start_of m) }
    ensures outcome { RunsTo (code_module (module_of file.now)) (K.told out.old)
        (K.told out.new) result }
    ensures cause { Counts (K.count out.old) (K.count out.new) result }

    // Where the code is known to end, the answer is that end.
    ensures agrees { let m = code_module (module_of file.now) in
        (lines : List (List ℕ)) (end : End) → Ends m (start_of m) lines end
        → Agrees lines end (K.told out.old) (K.told out.new) result }
{
    let (code, count) = code::script(file);
    match code::entered(alloc, count) {
        Ok(mut registers) => match run_code(alloc, file, code, registers.as_mut_slice(), out) {
            Stop::End(end) => end,
            Stop::Unbuilt => unreachable!(),
        },
        Err(_) => FirstEnd::Memory,
    }
}

/// Runs the script's code from its entry.
fn run_code<'a, K: Sink>(
    alloc: Global,
    file: &File<'a>,
    code: &[u8],
    registers: &mut [Held<'a>],
    out: &mut K,
) -> Stop
    requires built { IsBuilt (code_module (module_of file.now))
        (start_of (code_module (module_of file.now))) }
    requires code { code.now ≡ code_of (code_module (module_of file.now)) 0 }
    requires entered { map content_of registers.old
        ≡ (entered (code_module (module_of file.now)) 0).registers }
    ensures outcome { StopsTo (code_module (module_of file.now)) (K.told out.old)
        (K.told out.new) result }
    ensures cause { CountsStop (K.count out.old) (K.count out.new) result }
{
    let mut place = 0;
    loop {
        match send_step(alloc, file, code, registers, place, out) {
            Ok(next) => place = next,
            Err(stop) => return stop,
        }
    }
}
