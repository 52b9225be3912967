// A source from its bytes to the end of its run, by way of a file in memory.

ghost use Rattle.std.specs.Prelude.{◌≡◌, ℕ, List, None};
ghost use Rattle.hz_file.specs.Layout.{HasMagic};
ghost use Rattle.hz_file.specs.Opening.{rule};
ghost use Rattle.hz_ops.specs.Runs.{End, start_of, Ends, IsBuilt};
ghost use Rattle.hz_tree.specs.sources.Refusals.{refusal_of};
ghost use Rattle.hermes.specs.first.Compiled.{Compiles, code_in};
ghost use Rattle.hermes.specs.Effects.{WriteCause};
ghost use Rattle.hermes.specs.first.Runs.{Agrees, Counts};
ghost use Rattle.hermes.specs.Outcomes.{Outcome};

use crate::first::compile::compile_first;
use crate::first::language::FirstFault;
use crate::first::run::{FirstEnd, run_first};
use crate::status::Status;
use hz_file::File;
use hz_io::Sink;
use hz_preparse::{PreFault, preparse};
use hz_tree::Refusal;
use std::alloc::Global;

/// Refuses the source, or compiles it to the bytes of a file with this flag, opens that file, and runs it.
#[tactic(auto, using(crate::proofs::Refused::by_language, crate::proofs::Outputs::prints_nothing))]
pub fn run_source<K: Sink>(alloc: Global, strict: bool, source: &[u8], out: &mut K) -> Status
    ensures outcome { Outcome result strict source.now (K.told out.old) (K.told out.new) }
    ensures read { result ≡ Status.ReadFault → ⊥ }
    ensures cause { WriteCause result (K.count out.old) (K.count out.new) }
{
    match preparse(alloc, source, strict) {
        Ok(_index) => run_read(alloc, strict, source, out),
        Err(PreFault::Refused(refusal)) => Status::Refused(refusal),
        Err(PreFault::Memory) => Status::Memory,
    }
}

// Compiles a source that is not refused, and runs it.
#[tactic(auto, using(crate::proofs::Outputs::prints_nothing))]
fn run_read<K: Sink>(alloc: Global, strict: bool, source: &[u8], out: &mut K) -> Status
    requires { refusal_of source.now strict ≡ None }
    ensures outcome { Outcome result strict source.now (K.told out.old) (K.told out.new) }
    ensures read { result ≡ Status.ReadFault → ⊥ }
    ensures cause { WriteCause result (K.count out.old) (K.count out.new) }
{
    match compile_first(alloc, strict, source) {
        Ok(file) => run_compiled(alloc, strict, source, file.as_slice(), out),
        Err(FirstFault::NotYet(at)) => Status::Refused(Refusal::NotYet(at)),
        Err(FirstFault::Memory) => Status::Memory,
    }
}

// Runs the file that a source was compiled to.
fn run_compiled<K: Sink>(
    alloc: Global,
    _strict: bool,
    _source: &[u8],
    bytes: &[u8],
    out: &mut K,
) -> Status
    requires read { refusal_of _source.now _strict ≡ None }
    requires compiled { Compiles _strict _source.now bytes.now }
    ensures outcome { Outcome result _strict _source.now (K.told out.old) (K.told out.new) }
    ensures read { result ≡ Status.ReadFault → ⊥ }
    ensures cause { WriteCause result (K.count out.old) (K.count out.new) }
{
    match run_opened(alloc, bytes, out) {
        FirstEnd::Done => Status::Done,
        FirstEnd::Left(reason) => Status::Left(reason),
        FirstEnd::BadCode => unreachable!(),
        FirstEnd::WriteFault => Status::WriteFault,
        FirstEnd::Memory => Status::Memory,
    }
}

// Opens a file that breaks no rule, and runs its code.
fn run_opened<K: Sink>(alloc: Global, bytes: &[u8], out: &mut K) -> FirstEnd
    requires magic { HasMagic bytes.now }
    requires opens { rule bytes.now ≡ None }
    requires built { IsBuilt (code_in bytes.now) (start_of (code_in bytes.now)) }
    ensures agrees { (lines : List (List ℕ)) (end : End)
        → Ends (code_in bytes.now) (start_of (code_in bytes.now)) lines end
        → Agrees lines end (K.told out.old) (K.told out.new) result }
    ensures cause { Counts (K.count out.old) (K.count out.new) result }
{
    match File::open(bytes) {
        Ok(file) => run_first(alloc, &file, out),
        Err(_) => unreachable!(),
    }
}
