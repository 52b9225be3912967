ghost use Rattle.std.specs.Prelude.{
  ◌≡◌,
  ◌<◌,
  ◌-◌,
  ◌⊎◌,
  ◌↔◌,
  [],
  ◌∷◌,
  ◌++◌,
  length,
  Contains,
  IsErr,
  IfOk,
  OnOk,
  OnErr,
  Some,
};
ghost use Rattle.hz_io.specs.Causes.{HasCause, next};
ghost use Rattle.hz_io.specs.Contents.{Puts};
ghost use Rattle.hz_io.specs.InMemory.{told_of};

use crate::faults::Failed;
use crate::traits::Sink;
use hz_list::Memory;
use std::alloc::Global;
use std::marker::Model;

/// A stream into memory. It fails exactly at the calls that were chosen and where its room is too small.
#[derive(Debug, Drop)]
pub struct MemSink {
    bytes: Vec<u8>,
    room: usize,
    calls: u64,
    failing: Vec<u64>,
    faults: u64,
}

impl Model for MemSink {
    ghost use Rattle.std.specs.Prelude.{◌+◌, ◌≤◌, vec_len, vec_capacity};
    ghost use Rattle.hz_io.specs.InMemory.{Receipt};

    ghost Value = { Receipt };

    ghost view = { λ s. record {
      got = s.bytes.items;
      room = s.room;
      calls = s.calls;
      failing = s.failing.items;
      faults = s.faults;
    } };

    ghost invariant = { λ s. vec_len s.bytes + s.room ≤ vec_capacity s.bytes };
}

impl MemSink {
    /// A stream that has got nothing and has room for `room` bytes, which is taken at once.
    pub fn new(alloc: Global, room: usize) -> Result<MemSink, Memory>
        ensures { IfOk result
            (λ sink. sink ≡ record { got = []; room = room; calls = 0; failing = []; faults = 0 }) }
    {
        let bytes = Vec::with_capacity(alloc, room)?;
        Ok(MemSink {
            bytes,
            room,
            calls: 0,
            failing: Vec::new(alloc),
            faults: 0,
        })
    }

    /// Chooses a call of `put` that is to fail, by its number, counted from 0. After Memory nothing changed.
    pub fn fail_at(&mut self, call: u64) -> Result<(), Memory>
        ensures ok { OnOk result
            (self.new ≡ record self.old { failing = self.old.failing ++ call ∷ [] }) }
        ensures err { OnErr result (self.new ≡ self.old) }
    {
        self.failing.push(call)?;
        Ok(())
    }

    /// The bytes that came.
    pub fn bytes(&self) -> &[u8]
        ensures { result.now ≡ self.now.got }
    {
        self.bytes.as_slice()
    }
}

impl Sink for MemSink {
    ghost told = { told_of };

    ghost count = { λ s. s.faults };

    fn faults(&self) -> u64 {
        self.faults
    }

    fn put(&mut self, bytes: &[u8]) -> Result<(), Failed>
        ensures bytes { Puts (told_of self.old) (told_of self.new) bytes.now result }
        ensures cause { HasCause self.old.faults self.new.faults result }

        // the exact answer and what follows it
        ensures fails { IsErr result ↔ (Contains self.old.failing self.old.calls
            ⊎ (self.old.room < length bytes.now)) }
        ensures ok { OnOk result
            (self.new
            ≡ record self.old {
              got = self.old.got ++ bytes.now;
              room = self.old.room - length bytes.now;
              calls = next self.old.calls;
            }) }
        ensures err { OnErr result
            (self.new
            ≡ record self.old { calls = next self.old.calls; faults = next self.old.faults }) }
    {
        let fails = self.failing.contains(&self.calls) || self.room < bytes.len();
        self.calls = self.calls.saturating_add(1);
        if fails {
            self.faults = self.faults.saturating_add(1);
            return Err(Failed);
        }
        match self.bytes.extend_from_slice(bytes) {
            Ok(()) => {}
            Err(_) => unreachable!(),
        }
        self.room -= bytes.len();
        Ok(())
    }
}
