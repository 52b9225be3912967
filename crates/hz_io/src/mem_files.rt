ghost use Rattle.std.specs.Prelude.{
  ◌≡◌,
  ◌+◌,
  ◌≤◌,
  ◌⊎◌,
  ◌↔◌,
  ℕ,
  List,
  [],
  ◌∷◌,
  ◌++◌,
  length,
  take,
  Contains,
  IsErrOf,
  IfOk,
  OnOk,
  OnErr,
  Some,
  None,
};
ghost use Rattle.std.specs.Option.{option_copied};
ghost use Rattle.hz_io.specs.Causes.{HasFileCause, next};
ghost use Rattle.hz_io.specs.Contents.{OthersStay, ReadsFile, WritesFile};
ghost use Rattle.hz_io.specs.InMemory.{file_in, files_of, after_read, after_write};

use crate::faults::FileFault;
use crate::traits::Files;
use hz_list::Memory;
use std::alloc::Global;
use std::collections::BTreeMap;
use std::marker::Model;

/// Files in memory. Reads and writes are numbered together, from 0; one fails exactly where its number was
/// chosen, and a read further where the file is not there. Faults of all names are counted together.
#[derive(Debug, Drop)]
pub struct MemFiles {
    files: BTreeMap<String, Vec<u8>>,
    alloc: Global,
    calls: u64,
    failing: Vec<u64>,
    read_faults: u64,
    write_faults: u64,
}

impl Model for MemFiles {
    ghost use Rattle.hz_io.specs.InMemory.{Folder, files_of};

    ghost Value = { Folder };

    ghost view = { λ f. record {
      files = files_of f.files.entries;
      calls = f.calls;
      failing = f.failing.items;
      read_faults = f.read_faults;
      write_faults = f.write_faults;
    } };
}

impl MemFiles {
    /// No files. No memory is taken.
    pub fn new(alloc: Global) -> MemFiles
        ensures { result
            ≡ record { files = []; calls = 0; failing = []; read_faults = 0; write_faults = 0 } }
    {
        MemFiles {
            files: BTreeMap::new(alloc),
            alloc,
            calls: 0,
            failing: Vec::new(alloc),
            read_faults: 0,
            write_faults: 0,
        }
    }

    /// Chooses a read or a write that is to fail, by its number, counted from 0. After Memory nothing changed.
    pub fn fail_at(&mut self, call: u64) -> Result<(), Memory>
        ensures ok { OnOk result
            (self.new ≡ record self.old { failing = self.old.failing ++ call ∷ [] }) }
        ensures err { OnErr result (self.new ≡ self.old) }
    {
        self.failing.push(call)?;
        Ok(())
    }

    // Counts a read that fails.
    fn failed_read(&mut self) -> FileFault
        ensures answer { result ≡ FileFault.Failed }
        ensures later { self.old.read_faults ≤ self.new.read_faults }
        ensures after { self.new
            ≡ record self.old
            { calls = next self.old.calls; read_faults = next self.old.read_faults } }
    {
        self.calls = self.calls.saturating_add(1);
        self.read_faults = self.read_faults.saturating_add(1);
        FileFault::Failed
    }
}

impl Files for MemFiles {
    ghost use Rattle.std.specs.Prelude.{Some};
    ghost use Rattle.hz_io.specs.InMemory.{file_in};

    ghost held = { λ f. Some (file_in f.files) };

    ghost read_count = { λ f _. f.read_faults };

    ghost write_count = { λ f _. f.write_faults };

    fn read_faults(&self, _name: &str) -> u64 {
        self.read_faults
    }

    fn write_faults(&self, _name: &str) -> u64 {
        self.write_faults
    }

    fn read(&mut self, alloc: Global, name: &str, max: u64) -> Result<Vec<u8>, FileFault>
        ensures length { IfOk result (λ bytes. length bytes.items ≤ max + 1) }
        ensures bytes { IfOk result
            (λ bytes. ReadsFile (Some (file_in self.old.files)) name.now (max + 1) bytes.items) }
        ensures same { Some (file_in self.new.files) ≡ Some (file_in self.old.files) }
        ensures cause { HasFileCause (λ _. self.old.read_faults)
            (λ _. self.new.read_faults) name.now result }
        ensures writes { (q : List ℕ) → self.new.write_faults ≡ self.old.write_faults }

        // the exact answer and what follows it
        ensures fails { IsErrOf result FileFault.Failed ↔ (Contains self.old.failing self.old.calls
            ⊎ (file_in self.old.files name.now ≡ None)) }
        ensures after { self.new ≡ after_read self.old result }
    {
        if self.failing.contains(&self.calls) {
            return Err(self.failed_read());
        }
        match bytes_of(&self.files, name) {
            Some(bytes) => {
                let copy = copy_of(alloc, front(bytes, max))?;
                self.calls = self.calls.saturating_add(1);
                Ok(copy)
            }
            None => Err(self.failed_read()),
        }
    }

    fn write(&mut self, name: &str, bytes: &[u8]) -> Result<(), FileFault>
        ensures bytes { WritesFile (Some (file_in self.old.files))
            (Some (file_in self.new.files)) name.now bytes.now result }
        ensures cause { HasFileCause (λ _. self.old.write_faults)
            (λ _. self.new.write_faults) name.now result }
        ensures reads { (q : List ℕ) → self.new.read_faults ≡ self.old.read_faults }

        // the exact answer and what follows it; a write that fails changes no file
        ensures fails { IsErrOf result FileFault.Failed ↔ Contains self.old.failing self.old.calls }
        ensures after { self.new ≡ record (after_write self.old result) { files = self.new.files } }
        ensures err { OnErr result (self.new.files ≡ self.old.files) }
    {
        if self.failing.contains(&self.calls) {
            self.calls = self.calls.saturating_add(1);
            self.write_faults = self.write_faults.saturating_add(1);
            return Err(FileFault::Failed);
        }
        put_bytes(&mut self.files, self.alloc, name, bytes)?;
        self.calls = self.calls.saturating_add(1);
        Ok(())
    }
}

// The bytes of the file with that name.
#[tactic(auto, using(crate::proofs::FileEntries::file_in_entries))]
fn bytes_of<'a>(files: &'a BTreeMap<String, Vec<u8>>, name: &str) -> Option<&'a [u8]>
    ensures { option_copied result ≡ file_in (files_of files.now.entries) name.now }
{
    match files.get(name) {
        Some(bytes) => Some(bytes.as_slice()),
        None => None,
    }
}

// Makes these the bytes of the file with that name. After Memory the files are as before.
fn put_bytes(
    files: &mut BTreeMap<String, Vec<u8>>,
    alloc: Global,
    name: &str,
    bytes: &[u8],
) -> Result<(), Memory>
    ensures others { OnOk result
        (OthersStay (file_in (files_of files.old.entries)) (file_in (files_of files.new.entries)) name.now) }
    ensures bytes { OnOk result (file_in (files_of files.new.entries) name.now ≡ Some bytes.now) }
    ensures err { OnErr result (files.new.entries ≡ files.old.entries) }
{
    let key = String::from_str(alloc, name)?;
    let value = Vec::from_slice(alloc, bytes)?;
    files.insert(key, value)?;
    Ok(())
}

fn copy_of(alloc: Global, bytes: &[u8]) -> Result<Vec<u8>, Memory>
    ensures { IfOk result (λ copy. copy.items ≡ bytes.now) }
{
    Ok(Vec::from_slice(alloc, bytes)?)
}

// The first `max + 1` bytes, or all where there are fewer.
fn front(bytes: &[u8], max: u64) -> &[u8]
    ensures { result.now ≡ take (max + 1) bytes.now }
{
    if max as usize >= bytes.len() {
        return bytes;
    }
    &bytes[..max as usize + 1]
}
