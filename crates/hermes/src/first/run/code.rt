// The script's code in a file, and the registers at its entry.
ghost use Rattle.std.specs.Prelude.{◌≡◌, map, replicate, IfOk};
ghost use Rattle.hz_file.specs.Module.{module_of};
ghost use Rattle.hz_ops.specs.Activations.{code_of, register_count};
ghost use Rattle.hz_ops.specs.Contents as content;
ghost use Rattle.hermes.specs.FileCode.{code_module};
ghost use Rattle.hermes.specs.first.Rows.{content_of};

use crate::first::run::held::Held;
use hz_file::File;
use hz_value::Memory;
use std::alloc::Global;

/// The bytes of the script's instructions, and how many registers it has; a stub has no instruction.
pub(crate) fn script<'a>(file: &File<'a>) -> (&'a [u8], u64)
    ensures code { result.0.now ≡ code_of (code_module (module_of file.entry.now)) 0 }
    ensures registers { result.1 ≡ register_count (code_module (module_of file.entry.now)) 0 }
{
    if file.count() == 0 {
        return (&[], 0);
    }
    let script = file.function(0);
    match script.code {
        Some(code) => (code, script.registers),
        None => (&[], script.registers),
    }
}

/// So many registers, each of which holds undefined.
pub(crate) fn entered<'a>(alloc: Global, count: u64) -> Result<Vec<Held<'a>>, Memory>
    ensures { IfOk result
        (λ registers. map content_of registers.items ≡ replicate count content.Undefined) }
{
    let mut registers = Vec::with_capacity(alloc, count as usize)?;
    for _ in 0..count {
        registers.push(Held::Undefined)?;
    }
    Ok(registers)
}
