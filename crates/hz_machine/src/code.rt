ghost use Rattle.std.specs.Prelude.{◌≡◌, ◌+◌, ◌<◌, ◌^◌, ◌↔◌, IfOk, IfSome, IsTrue, Some, is_some, option_map};
ghost use Rattle.hz_ops.specs.code.Activations.{Program};
ghost use Rattle.hz_machine.specs.Entries.{entry_of};

use hz_ops::Instr;
use hz_tree::FunctionKind;
use hz_value::Memory;
use std::alloc::Global;

/// Whether a function has code.
#[derive(Clone, Copy, Debug, PartialEq, Eq)]
pub enum Entry {
    /// It has none yet.
    Stub,

    /// It has.
    Code,
}

/// The code that a machine runs. Contracts see the program that it stands for.
pub trait Code {
    ghost program: { Self → Program };

    /// How many functions there are. The script is function 0.
    fn count(&self) -> u32
        ensures { result ≡ (program self.now).count };

    /// Whether the function has code.
    fn entry(&self, f: u32) -> Entry
        requires { f < (program self.now).count }
        ensures { result ≡ entry_of ((program self.now).has_code f) };

    /// What the function is.
    fn kind(&self, f: u32) -> FunctionKind
        requires { f < (program self.now).count }
        ensures { result ≡ (program self.now).kind f };

    /// How many arguments the function expects, as its property `length` says.
    fn length(&self, f: u32) -> u8
        requires { f < (program self.now).count }
        ensures { result ≡ (program self.now).length f };

    /// How many registers the function has.
    fn registers(&self, f: u32) -> u64
        requires { f < (program self.now).count }
        ensures { result ≡ (program self.now).registers f };

    /// The instruction at this place of the function, and its length in bytes; None for a stub, and where no whole
    /// instruction stands there. Code has fewer than 2^63 bytes.
    fn fetch(&self, f: u32, pc: u64) -> Option<(Instr, u64)>
        requires { f < (program self.now).count }
        ensures value { result ≡ (program self.now).fetch f pc }
        ensures bound { IfSome result (λ r. pc + r.1 < 2 ^ 63) };

    /// Where a throw at this place of the function is caught; None where no handler holds the place.
    fn handler(&self, f: u32, pc: u64) -> Option<u64>
        requires { f < (program self.now).count }
        ensures { result ≡ (program self.now).handler f pc };

    /// Whether there is a text with this number.
    fn has_string(&self, id: u64) -> bool
        ensures { result ≡ is_some ((program self.now).text id) };

    /// Whether there is a text with this number, and these are its units.
    fn is_string(&self, id: u64, units: &[u16]) -> bool
        ensures { IsTrue result ↔ ((program self.now).text id ≡ Some units.now) };

    /// The units of the text with this number, None where there is none.
    fn string(&self, alloc: Global, id: u64) -> Result<Option<Vec<u16>>, Memory>
        ensures { IfOk result
            (λ text. option_map (λ t. t.items) text ≡ (program self.now).text id) };
}
