// The files, the input and the outputs of the system. Each loops over the system's calls and counts its
// faults. A stream tells the bytes that the stream below it tells; the system's own tell none, and of files
// nothing is told. A call that was interrupted is made again.

ghost use Rattle.std.specs.Prelude.{◌≡◌, ◌+◌, ◌≤◌, ◌<◌, length, None, [], false, IfOk, OnOk, MatchResult};
ghost use Rattle.std.specs.Io.{ReadsAtMost, WritesAtMost};
ghost use Rattle.std.specs.Io.KnownBytes.{Appends, Keeps, ReadConsumes, WriteAppends};
ghost use Rattle.hermes.specs.Printing.{AppendsPrefix};
ghost use Rattle.hermes.specs.Fronts.{IsFront, ReadsPiece};

use hz_io::{Failed, FileFault, Files, Sink, Source};
use std::alloc::Global;
use std::fs;
use std::io::{ErrorKind, Read, Result as IoResult, Write};
use std::rt::Files as System;

/// How many bytes are asked of a file at a time.
const PIECE: usize = 4096;

/// The files of the system.
#[derive(Drop)]
pub struct DiskFiles<R: System> {
    rt: R,
    reads: u64,
    writes: u64,
}

impl<R: System> DiskFiles<R> {
    pub fn new(rt: R) -> Self
        ensures reads { result.reads ≡ 0 }
        ensures writes { result.writes ≡ 0 }
    {
        DiskFiles {
            rt,
            reads: 0,
            writes: 0,
        }
    }
}

impl<R: System> Files for DiskFiles<R> {
    ghost held = { λ _. None };

    ghost read_count = { λ s _. s.reads };

    ghost write_count = { λ s _. s.writes };

    fn read_faults(&self, _name: &str) -> u64 {
        self.reads
    }

    fn write_faults(&self, _name: &str) -> u64 {
        self.writes
    }

    fn read(&mut self, alloc: Global, name: &str, max: u64) -> Result<Vec<u8>, FileFault> {
        match read_file(&self.rt, alloc, name, max) {
            Err(FileFault::Failed) => {
                self.reads = self.reads.saturating_add(1);
                Err(FileFault::Failed)
            }
            read => read,
        }
    }

    fn write(&mut self, name: &str, bytes: &[u8]) -> Result<(), FileFault> {
        match write_file(&self.rt, name, bytes) {
            Ok(()) => Ok(()),
            Err(Failed) => {
                self.writes = self.writes.saturating_add(1);
                Err(FileFault::Failed)
            }
        }
    }
}

/// A stream of the system that gives bytes.
#[derive(Drop)]
pub struct Reading<R: Read> {
    stream: R,
    faults: u64,
}

impl<R: Read> Reading<R> {
    pub fn new(stream: R) -> Self
        ensures stream { result.stream ≡ stream }
        ensures faults { result.faults ≡ 0 }
    {
        Reading { stream, faults: 0 }
    }
}

impl<R: Read> Source for Reading<R> {
    ghost left = { λ s. R.remaining s.stream };

    ghost count = { λ s. s.faults };

    fn faults(&self) -> u64 {
        self.faults
    }

    fn take(&mut self, buf: &mut [u8]) -> Result<usize, Failed> {
        match read_some(&mut self.stream, buf) {
            Ok(n) => Ok(n),
            Err(Failed) => {
                self.faults = self.faults.saturating_add(1);
                Err(Failed)
            }
        }
    }
}

/// A stream of the system that gets bytes.
#[derive(Drop)]
pub struct Writing<W: Write> {
    stream: W,
    puts: u64,
    faults: u64,
}

impl<W: Write> Writing<W> {
    pub fn new(stream: W) -> Self
        ensures stream { result.stream ≡ stream }
        ensures puts { result.puts ≡ 0 }
        ensures faults { result.faults ≡ 0 }
    {
        Writing {
            stream,
            puts: 0,
            faults: 0,
        }
    }
}

impl<W: Write> Sink for Writing<W> {
    ghost use Rattle.std.specs.Prelude.{Some};

    ghost told = { λ s. record { got = W.contents s.stream; puts = Some s.puts } };

    ghost count = { λ s. s.faults };

    fn faults(&self) -> u64 {
        self.faults
    }

    fn put(&mut self, bytes: &[u8]) -> Result<(), Failed> {
        self.puts = self.puts.saturating_add(1);
        match write_all(&mut self.stream, bytes) {
            Ok(()) => Ok(()),
            Err(Failed) => {
                self.faults = self.faults.saturating_add(1);
                Err(Failed)
            }
        }
    }
}

// The first `max + 1` bytes of the file, or all where there are fewer.
fn read_file<R: System>(rt: &R, alloc: Global, name: &str, max: u64) -> Result<Vec<u8>, FileFault>
    ensures { IfOk result (λ bytes. length bytes.items ≤ max + 1) }
{
    match fs::open(rt, name) {
        Ok(mut file) => read_front(&mut file, alloc, max),
        Err(_) => Err(FileFault::Failed),
    }
}

// The same of what the stream has left.
#[tactic(auto, using(crate::proofs::Fronts::consumes_nothing, crate::proofs::Fronts::consumes_more, crate::proofs::Fronts::front_behind))]
fn read_front<R: Read>(stream: &mut R, alloc: Global, max: u64) -> Result<Vec<u8>, FileFault>
    ensures length { IfOk result (λ bytes. length bytes.items ≤ max + 1) }
    ensures bytes { IfOk result
        (λ bytes. IsFront [] (R.remaining stream.old) (max + 1) bytes.items) }
{
    let mut bytes = Vec::new(alloc);
    for _ in 0..u64::MAX {
        if read_piece(stream, &mut bytes, max)? {
            return Ok(bytes);
        }
    }
    Err(FileFault::Failed)
}

// Reads a piece behind the bytes, but for what is more than `max + 1` of all. Whether it is the last.
#[tactic(auto, using(crate::proofs::Fronts::front_at_end, crate::proofs::Fronts::front_cut))]
fn read_piece<R: Read>(stream: &mut R, bytes: &mut Vec<u8>, max: u64) -> Result<bool, FileFault>
    requires { length bytes.old.items ≤ max }
    ensures length { OnOk result (length bytes.new.items ≤ max + 1) }
    ensures going { result ≡ Ok false → length bytes.new.items ≤ max }
    ensures piece { IfOk result
        (λ last. ReadsPiece bytes.old.items bytes.new.items (R.remaining stream.old)
        (R.remaining stream.new) (max + 1) last) }
{
    let mut piece = [0u8; PIECE];
    let Ok(n) = read_some(stream, &mut piece) else {
        return Err(FileFault::Failed);
    };
    if n == 0 {
        return Ok(true);
    }
    let room = (max - bytes.len() as u64).saturating_add(1);
    let taken = (n as u64).min(room) as usize;
    if bytes.extend_from_slice(&piece[..taken]).is_err() {
        return Err(FileFault::Memory);
    }
    if bytes.len() as u64 > max {
        return Ok(true);
    }
    Ok(false)
}

// One read that was not interrupted.
#[tactic(auto, using(crate::proofs::Streams::keeps_more, crate::proofs::Streams::reads_kept))]
fn read_some<R: Read>(stream: &mut R, buf: &mut [u8]) -> Result<usize, Failed>
    ensures bound { ReadsAtMost result buf.new }
    ensures bytes { ReadConsumes (R.remaining stream.old) (R.remaining stream.new) result buf.new }
{
    for _ in 0..u64::MAX {
        match stream.read(buf) {
            Ok(n) => return Ok(n),
            Err(error) => {
                if error.kind() != ErrorKind::Interrupted {
                    return Err(Failed);
                }
            }
        }
    }
    Err(Failed)
}

fn write_file<R: System>(rt: &R, name: &str, bytes: &[u8]) -> Result<(), Failed> {
    match fs::create(rt, name) {
        Ok(mut file) => write_all(&mut file, bytes),
        Err(_) => Err(Failed),
    }
}

// One write that was not interrupted.
#[tactic(auto, using(crate::proofs::Streams::keeps_more, crate::proofs::Streams::writes_kept))]
fn write_some<W: Write>(stream: &mut W, bytes: &[u8]) -> Result<usize, Failed>
    ensures bound { WritesAtMost result bytes.now }
    ensures bytes { WriteAppends (W.contents stream.old) (W.contents stream.new) result bytes.now }
{
    for _ in 0..u64::MAX {
        match stream.write(bytes) {
            Ok(n) => return Ok(n),
            Err(error) => {
                if error.kind() != ErrorKind::Interrupted {
                    return Err(Failed);
                }
            }
        }
    }
    Err(Failed)
}

// Writes all of the bytes, and hands them on to the system. A write that takes nothing is a fault.
#[tactic(auto, using(crate::proofs::Streams::appends_at, crate::proofs::Streams::appends_kept))]
fn write_all<W: Write>(stream: &mut W, bytes: &[u8]) -> Result<(), Failed>
    ensures { MatchResult result
        (λ _. Appends (W.contents stream.old) (W.contents stream.new) bytes.now)
        (λ _. AppendsPrefix (W.contents stream.old) (W.contents stream.new) bytes.now) }
{
    let mut at = 0;
    for _ in 0..u64::MAX {
        if at == bytes.len() {
            return flush(stream);
        }
        let n = write_some(stream, &bytes[at..])?;
        if n == 0 {
            return Err(Failed);
        }
        at += n;
    }
    Err(Failed)
}

fn flush<W: Write>(stream: &mut W) -> Result<(), Failed>
    ensures { Keeps (W.contents stream.old) (W.contents stream.new) }
{
    match stream.flush() {
        Ok(()) => Ok(()),
        Err(_) => Err(Failed),
    }
}
