ghost use Rattle.std.specs.Prelude.{◌≡◌, [], ◌∷◌, map, IfOk};
ghost use Rattle.hz_ops.specs.code.Bytes.{holds, program_of, script_module, target_at};

use hz_machine::{Code, Entry};
use hz_ops::{Handler, Instr, decode};
use hz_tree::FunctionKind;
use hz_value::Memory;
use std::alloc::Global;

/// A script whose instructions are these bytes, with its handlers and its texts.
#[derive(Debug, Drop)]
pub struct Script {
    /// The bytes of its instructions.
    pub code: Vec<u8>,

    /// How many registers it has.
    pub registers: u64,

    /// Its handlers, inner ones first.
    pub handlers: Vec<Handler>,

    /// Its texts, as units.
    pub texts: Vec<Vec<u16>>,
}

/// Whether the handler holds the place.
fn holds(handler: &Handler, place: u64) -> bool
    ensures { result ≡ holds handler.now place }
{
    handler.from <= place && place < handler.to
}

/// The target of the first handler that holds the place.
fn target_at(handlers: &[Handler], place: u64) -> Option<u64>
    ensures { result ≡ target_at handlers.now place }
{
    let mut left = handlers;
    while let [handler, rest @ ..] = left {
        if holds(handler, place) {
            return Some(handler.target);
        }
        left = rest;
    }
    None
}

#[tactic(auto, using(crate::proofs::Within::decoded_within))]
impl Code for Script {
    ghost use Rattle.std.specs.Prelude.{map};
    ghost use Rattle.hz_ops.specs.code.Bytes.{program_of, script_module};

    ghost program = { λ s. program_of
        (script_module s.code.items s.registers s.handlers.items (map (λ t. t.items) s.texts.items)) };

    fn count(&self) -> u32 {
        1
    }

    fn entry(&self, _f: u32) -> Entry {
        Entry::Code
    }

    fn kind(&self, _f: u32) -> FunctionKind {
        FunctionKind::Script
    }

    fn length(&self, _f: u32) -> u8 {
        0
    }

    fn registers(&self, _f: u32) -> u64 {
        self.registers
    }

    fn fetch(&self, _f: u32, pc: u64) -> Option<(Instr, u64)> {
        match decode(self.code.as_slice(), pc as usize) {
            Some((instr, length)) => Some((instr, length as u64)),
            None => None,
        }
    }

    fn handler(&self, _f: u32, pc: u64) -> Option<u64> {
        target_at(self.handlers.as_slice(), pc)
    }

    fn has_string(&self, id: u64) -> bool {
        (id as usize) < self.texts.len()
    }

    fn is_string(&self, id: u64, units: &[u16]) -> bool {
        match self.texts.get(id as usize) {
            Some(text) => text.as_slice() == units,
            None => false,
        }
    }

    fn string(&self, alloc: Global, id: u64) -> Result<Option<Vec<u16>>, Memory> {
        let Some(text) = self.texts.get(id as usize) else {
            return Ok(None);
        };
        let mut copy = Vec::new(alloc);
        copy.extend_from_slice(text.as_slice())?;
        Ok(Some(copy))
    }
}
