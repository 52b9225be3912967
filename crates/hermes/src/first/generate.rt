// The code generator of first texts.
//
// The code of a call of `print` loads the function, `this` and the argument into registers and calls. A
// sum is added up in the argument's register. A script has one function, without branches: the calls in
// order, and a return.
ghost use Rattle.std.specs.Prelude.{◌≤◌, ◌<◌, IsTrue, IfOk, length, All};
ghost use Rattle.std.specs.List.{list_all, concat};
ghost use Rattle.hz_file.specs.Image.{IsShortText};
ghost use Rattle.hz_ops.specs.Runs.{start_of, Ends, IsBuilt};
ghost use Rattle.hermes.specs.first.Texts.{is_argument, weight};
ghost use Rattle.hermes.specs.first.Saying.{lines_of, end_of};
ghost use Rattle.hermes.specs.first.Scripts.{script};

mod calls;
mod instructions;
mod sums;

use crate::first::generate::calls::{push_calls, push_return};
use crate::first::generate::instructions::REGISTERS;
use crate::first::language::Calls;
use hz_file::Texts;
use hz_value::{Memory, Units};
use std::alloc::Global;

/// The code of a script, its texts by their ids, and how many registers it has.
#[derive(Debug, Drop)]
pub struct Generated {
    pub code: Vec<u8>,
    pub texts: Texts,
    pub registers: u16,
}

/// Code that prints what the first text says, and ends as it ends. Text 0 is `print`, and the text
/// arguments follow in order. The code has from 1 to 65,535 bytes. There are at most 65,536 texts, each of
/// at most 254 units below 128, all together at most 8,388,607 units. `Memory` comes where memory runs out.
pub fn generate(alloc: Global, calls: &Calls<'_>) -> Result<Generated, Memory>
    requires parts { IsTrue (list_all is_argument calls.now) }
    requires small { weight calls.now ≤ 4095 }
    ensures says { IfOk result (λ g.
        let m = script g.code.items g.texts g.registers in
        Ends m (start_of m) (lines_of calls.now) (end_of calls.now)) }
    ensures built { IfOk result (λ g.
        let m = script g.code.items g.texts g.registers in
        IsBuilt m (start_of m)) }

    // What a file of one function takes.
    ensures code { IfOk result (λ g. 1 ≤ length g.code.items) }
    ensures code_fits { IfOk result (λ g. length g.code.items ≤ 65535) }
    ensures texts { IfOk result (λ g. length g.texts ≤ 65536) }
    ensures short { IfOk result (λ g. All IsShortText g.texts) }
    ensures storage { IfOk result (λ g. length (concat g.texts) ≤ 8388607) }
{
    let mut code = Vec::new(alloc);
    let mut texts = Texts::new(alloc);
    texts.push(Units::from_bytes(alloc, b"print")?)?;
    push_calls(alloc, calls.as_slice(), &mut code, &mut texts)?;
    push_return(&mut code)?;
    Ok(Generated {
        code,
        texts,
        registers: REGISTERS,
    })
}
