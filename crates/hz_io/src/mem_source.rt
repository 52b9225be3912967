ghost use Rattle.std.specs.Prelude.{
  ◌≡◌,
  ◌<◌,
  ◌≤◌,
  ◌↔◌,
  [],
  ◌∷◌,
  ◌++◌,
  length,
  drop,
  min,
  Contains,
  IsErr,
  IfOk,
  OnOk,
  OnErr,
  Some,
};
ghost use Rattle.std.specs.Io.{ReadsAtMost};
ghost use Rattle.std.specs.Io.KnownBytes.{ReadConsumes};
ghost use Rattle.hz_io.specs.Causes.{HasCause, next};

use crate::faults::Failed;
use crate::traits::Source;
use hz_list::Memory;
use std::alloc::Global;
use std::marker::Model;

/// A stream of given bytes in memory. It fails exactly at the calls that were chosen.
#[derive(Debug, Drop)]
pub struct MemSource {
    bytes: Vec<u8>,
    place: usize,
    piece: usize,
    calls: u64,
    failing: Vec<u64>,
    faults: u64,
}

impl Model for MemSource {
    ghost use Rattle.std.specs.Prelude.{◌<◌, ◌≤◌, drop, vec_len};
    ghost use Rattle.hz_io.specs.InMemory.{Supply};

    ghost Value = { Supply };

    ghost view = { λ s. record {
      left = drop s.place s.bytes.items;
      piece = s.piece;
      calls = s.calls;
      failing = s.failing.items;
      faults = s.faults;
    } };

    ghost invariant = { λ s. (s.place ≤ vec_len s.bytes) × (0 < s.piece) };
}

impl MemSource {
    /// A stream that has these bytes left and gives at most `piece` of them in one call. No memory is taken.
    pub fn new(alloc: Global, bytes: Vec<u8>, piece: usize) -> MemSource
        requires { 1 ≤ piece }
        ensures { result
            ≡ record { left = bytes.items; piece = piece; calls = 0; failing = []; faults = 0 } }
    {
        MemSource {
            bytes,
            place: 0,
            piece,
            calls: 0,
            failing: Vec::new(alloc),
            faults: 0,
        }
    }

    /// Chooses a call of `take` that is to fail, by its number, counted from 0. After Memory nothing changed.
    pub fn fail_at(&mut self, call: u64) -> Result<(), Memory>
        ensures ok { OnOk result
            (self.new ≡ record self.old { failing = self.old.failing ++ call ∷ [] }) }
        ensures err { OnErr result (self.new ≡ self.old) }
    {
        self.failing.push(call)?;
        Ok(())
    }
}

impl Source for MemSource {
    ghost left = { λ s. Some s.left };

    ghost count = { λ s. s.faults };

    fn faults(&self) -> u64 {
        self.faults
    }

    fn take(&mut self, buf: &mut [u8]) -> Result<usize, Failed>
        requires { 0 < length buf.old }
        ensures bound { ReadsAtMost result buf.new }
        ensures bytes { ReadConsumes (Some self.old.left) (Some self.new.left) result buf.new }
        ensures cause { HasCause self.old.faults self.new.faults result }

        // the exact answer and what follows it
        ensures fails { IsErr result ↔ Contains self.old.failing self.old.calls }
        ensures given { IfOk result
            (λ n. n ≡ min (min self.old.piece (length buf.old)) (length self.old.left)) }
        ensures ok { IfOk result
            (λ n. self.new
            ≡ record self.old { left = drop n self.old.left; calls = next self.old.calls }) }
        ensures err { OnErr result
            (self.new
            ≡ record self.old { calls = next self.old.calls; faults = next self.old.faults }) }
    {
        let fails = self.failing.contains(&self.calls);
        self.calls = self.calls.saturating_add(1);
        if fails {
            self.faults = self.faults.saturating_add(1);
            return Err(Failed);
        }
        let left = self.bytes.len() - self.place;
        let count = self.piece.min(buf.len()).min(left);
        let end = self.place + count;
        buf[..count].copy_from_slice(&self.bytes[self.place..end]);
        self.place = end;
        Ok(count)
    }
}
