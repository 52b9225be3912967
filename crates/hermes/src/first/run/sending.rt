// One instruction, whose line goes out.
ghost use Rattle.std.specs.Prelude.{◌≡◌, ◌<◌, ◌≤◌, [], length, IfOk, MatchResult};
ghost use Rattle.hz_file.specs.Module.{module_of};
ghost use Rattle.hz_io.specs.Causes.{Rose};
ghost use Rattle.hz_io.specs.Contents.{Gets, GetsFront};
ghost use Rattle.hz_ops.specs.Activations.{code_of};
ghost use Rattle.hz_ops.specs.Step.{cstep};
ghost use Rattle.hz_ops.specs.Runs.{next_system};
ghost use Rattle.hermes.specs.FileCode.{code_module};
ghost use Rattle.hermes.specs.first.Rows.{activation, bytes_of, count_of};
ghost use Rattle.hermes.specs.first.Runs.{Sent, CountsSent};

use crate::first::run::held::Held;
use crate::first::run::step::step;
use crate::first::run::stop::{FirstEnd, Stop};
use hz_file::File;
use hz_io::Sink;
use std::alloc::Global;

/// Sends the line, if there is one.
fn send<K: Sink>(out: &mut K, line: &Option<String>) -> Result<(), Stop>
    ensures bytes { MatchResult result
        (λ _. Gets (K.told out.old) (K.told out.new) (bytes_of line.now) (count_of line.now))
        (λ stop. (stop ≡ Stop.End FirstEnd.WriteFault)
        × GetsFront (K.told out.old) (K.told out.new) (bytes_of line.now) (count_of line.now)) }
    ensures cause { MatchResult result (λ _. K.count out.new ≡ K.count out.old)
        (λ _. Rose (K.count out.old) (K.count out.new) × (K.count out.old ≤ K.count out.new)) }
{
    match line {
        None => Ok(()),
        Some(line) => match out.put(line.as_bytes()) {
            Ok(()) => Ok(()),
            Err(_) => Err(Stop::End(FirstEnd::WriteFault)),
        },
    }
}

/// Carries out the instruction at a place of the script's code, and gives the place of the next one.
#[tactic(auto, using(crate::proofs::Outputs::prints_nothing))]
pub(crate) fn send_step<'a, K: Sink>(
    alloc: Global,
    file: &File<'a>,
    code: &[u8],
    registers: &mut [Held<'a>],
    place: usize,
    out: &mut K,
) -> Result<usize, Stop>
    requires { code.now ≡ code_of (code_module (module_of file.now)) 0 }
    ensures sent { Sent
        (next_system [] (cstep (code_module (module_of file.now)) (activation place registers.old)))
        result registers.new (K.told out.old) (K.told out.new) }
    ensures progress { IfOk result (λ next. (place < next) × (next ≤ length code.now)) }
    ensures cause { CountsSent (K.count out.old) (K.count out.new) result }
{
    let done = step(alloc, file, code, registers, place)?;
    send(out, &done.line)?;
    Ok(done.next)
}
