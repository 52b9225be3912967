// Compiles a source to the bytes of a file.

ghost use Rattle.std.specs.Prelude.{MatchResult};
ghost use Rattle.hermes.specs.first.Compiled.{Compiles, FaultOf};

use crate::first::generate::generate;
use crate::first::language::FirstFault;
use crate::first::reader::read_first;
use hz_file::write_small;
use std::alloc::Global;

/// The greatest length of a source, in bytes.
pub const MAX_SOURCE: usize = 4095;

/// The bytes of the file of this source: a bytecode file with this flag and one function, the script, whose
/// code prints what the source says. The flag says whether the source is read as strict code without a
/// directive.
///
/// `NotYet` comes exactly where the source is longer than 4,095 bytes, with the place 4095, or is no first text,
/// with the length of its longest prefix that begins one. `Memory` comes where memory runs out.
#[tactic(auto, using(crate::proofs::first_texts::Ascii::first_below, crate::proofs::first_texts::Compiling::compiled))]
pub fn compile_first(alloc: Global, strict: bool, source: &[u8]) -> Result<Vec<u8>, FirstFault>
    ensures { MatchResult result (λ file. Compiles strict source.now file.items)
        (λ fault. FaultOf strict source.now fault) }
{
    if source.len() > MAX_SOURCE {
        return Err(FirstFault::NotYet(MAX_SOURCE));
    }
    let calls = read_first(alloc, strict, source)?;
    let script = generate(alloc, &calls)?;
    let file = write_small(
        alloc,
        strict,
        source,
        &script.texts,
        script.registers,
        script.code.as_slice(),
    )?;
    Ok(file)
}
