// The global record (ECMA-262, 9.1.1.4).
ghost use Rattle.std.specs.Prelude.{◌≡◌, ℕ, List, [], ◌∷◌, OnOk, OnErr, IfOk, IfSome, Some, None, codes, bytes_eq, option_map};
ghost use Rattle.std.specs.Map.{lookup};
ghost use Rattle.hz_value.specs.world.Globals.{is_among, missing_names, unbuilt_names, resolve_global, read_absent};
ghost use Rattle.hz_value.specs.world.Globals.{put_global, write_global, write_absent, declare_global, ordinary};
ghost use Rattle.hz_machine.specs.Globals.{texts_of, resolution, global_of, name_at, put_slot, Permits, Writes};

use hz_value::{Left, Memory, Value};
use indexmap::IndexMap;
use std::alloc::Global as Allocator;
use std::marker::Model;

/// Built-ins of ECMA-262 that this project leaves out.
const MISSING: [&str; 43] = [
    "globalThis",
    "eval",
    "isFinite",
    "isNaN",
    "parseFloat",
    "decodeURI",
    "decodeURIComponent",
    "encodeURI",
    "encodeURIComponent",
    "escape",
    "unescape",
    "AggregateError",
    "ArrayBuffer",
    "Atomics",
    "BigInt",
    "BigInt64Array",
    "BigUint64Array",
    "DataView",
    "Date",
    "EvalError",
    "FinalizationRegistry",
    "Float32Array",
    "Float64Array",
    "Int8Array",
    "Int16Array",
    "Int32Array",
    "Iterator",
    "JSON",
    "Map",
    "Promise",
    "Proxy",
    "Reflect",
    "RegExp",
    "Set",
    "SharedArrayBuffer",
    "Uint8Array",
    "Uint8ClampedArray",
    "Uint16Array",
    "Uint32Array",
    "URIError",
    "WeakMap",
    "WeakRef",
    "WeakSet",
];

/// Built-ins that are still to be built.
const UNBUILT: [&str; 15] = [
    "readline",
    "Object",
    "Function",
    "Array",
    "String",
    "Number",
    "Boolean",
    "Symbol",
    "Math",
    "Error",
    "TypeError",
    "RangeError",
    "ReferenceError",
    "SyntaxError",
    "parseInt",
];

/// A global: None stands for a value that is no safe integer.
#[derive(Clone, Copy, Debug, PartialEq, Eq)]
pub struct Slot {
    pub value: Option<Value>,
    pub writable: bool,
}

/// Whether the units spell this ASCII text.
fn is_spelled(units: &[u16], text: &str) -> bool
    ensures { result ≡ bytes_eq units.now text.now }
{
    let mut left = units;
    let mut right = text.as_bytes();
    while let [byte, behind @ ..] = right {
        let [unit, rest @ ..] = left else {
            return false;
        };
        if *unit != *byte as u16 {
            return false;
        }
        left = rest;
        right = behind;
    }
    left.is_empty()
}

/// Whether the name is one of these.
fn is_among(name: &[u16], names: &[&str]) -> bool
    ensures { result ≡ is_among name.now (texts_of names.now) }
{
    for text in names {
        if is_spelled(name, text) {
            return true;
        }
    }
    false
}

fn is_missing(name: &[u16]) -> bool
    ensures { result ≡ is_among name.now missing_names }
{
    is_among(name, &MISSING)
}

fn is_unbuilt(name: &[u16]) -> bool
    ensures { result ≡ is_among name.now unbuilt_names }
{
    is_among(name, &UNBUILT)
}

/// Why a global was not written.
#[derive(Clone, Copy, Debug, PartialEq, Eq)]
pub enum Refused {
    /// The name cannot be resolved.
    NotDefined,
    /// The global is read-only.
    IsConstant,
    /// The run is left.
    Leaves(Left),
    /// Memory ran out.
    Memory,
}

impl From<Memory> for Refused {
    ghost use Rattle.std.specs.Prelude.{◌≡◌};
    ghost use Rattle.hz_machine.specs.declared.globals.Refused.TheVariants.{Memory as wanting};

    ghost from_gives = { λ _ refused. refused ≡ wanting };

    fn from(_memory: Memory) -> Refused {
        Refused::Memory
    }
}

/// A name that is not there is read.
fn read_absent(name: &[u16]) -> Result<Option<Value>, Left>
    ensures { resolution result ≡ read_absent name.now }
{
    if is_missing(name) {
        return Err(Left::Missing);
    }
    if is_unbuilt(name) {
        return Err(Left::NotBuilt);
    }
    Ok(None)
}

fn copied(alloc: Allocator, units: &[u16]) -> Result<Vec<u16>, Memory>
    ensures { IfOk result (λ copy. copy.items ≡ units.now) }
{
    let mut copy = Vec::new(alloc);
    copy.extend_from_slice(units)?;
    Ok(copy)
}

/// The globals in the order of their creation. Contracts see each with the units of its name.
#[derive(Debug, Drop)]
pub struct Globals {
    alloc: Allocator,
    slots: IndexMap<Vec<u16>, Slot>,
}

impl Model for Globals {
    ghost use Rattle.std.specs.Prelude.{map};
    ghost use Rattle.hz_value.specs.world.Globals.{Globals as GlobalRecord};
    ghost use Rattle.hz_machine.specs.Globals.{global_of};

    ghost Value = { GlobalRecord };

    ghost view = { λ g. map (λ e. ((e.0).items, global_of e.1)) g.slots.entries };
}

impl Globals {
    /// No globals. No memory is taken.
    pub fn new(alloc: Allocator) -> Globals
        ensures { result ≡ [] }
    {
        Globals {
            alloc,
            slots: IndexMap::new(alloc),
        }
    }

    /// The global under the name.
    fn slot(&self, name: &[u16]) -> Option<Slot>
        ensures { option_map global_of result ≡ lookup (bytes_eq name.now) self.now }
    {
        self.slots.get(name).copied()
    }

    /// Puts the global under the name: one that is there keeps its place, a new one goes last. After Memory nothing
    /// changed.
    pub(crate) fn put(&mut self, name: Vec<u16>, slot: Slot) -> Result<(), Memory>
        ensures ok { OnOk result (self.new ≡ put_slot name.items (global_of slot) self.old) }
        ensures err { OnErr result (self.new ≡ self.old) }
    {
        self.slots.insert(name, slot)?;
        Ok(())
    }

    /// What the name stands for, None where it cannot be resolved; or why the run is left.
    pub fn resolve(&self, name: &[u16]) -> Result<Option<Value>, Left>
        ensures { resolution result ≡ resolve_global self.now name.now }
    {
        let Some(slot) = self.slot(name) else {
            return read_absent(name);
        };
        match slot.value {
            Some(value) => Ok(Some(value)),
            None => Err(Left::NotSafe),
        }
    }

    /// The place of the global under the name.
    pub(crate) fn place(&self, name: &[u16]) -> Option<u64> {
        let place = self.slots.get_index_of(name)?;
        Some(place as u64)
    }

    /// The name of the global at this place, None where there are fewer globals.
    pub(crate) fn name(&self, place: u64) -> Option<&[u16]>
        ensures { IfSome result (λ name. name_at self.now place ≡ Some name.now) }
    {
        let (name, _) = self.slots.get_index(place as usize)?;
        Some(name.as_slice())
    }

    /// The global at this place.
    pub(crate) fn at(&self, place: u64) -> Option<Slot>
        ensures { (name : List ℕ) → name_at self.now place ≡ Some name
            → option_map global_of result ≡ lookup (bytes_eq name) self.now }
    {
        let (_, slot) = self.slots.get_index(place as usize)?;
        Some(*slot)
    }

    /// The global at this place gets the value.
    pub(crate) fn set(&mut self, place: u64, value: Value)
        ensures { (name : List ℕ) → name_at self.old place ≡ Some name → self.new ≡ put_global name value self.old }
    {
        let place = place as usize;
        if place >= self.slots.len() {
            return;
        }
        self.slots[place] = Slot {
            value: Some(value),
            writable: true,
        };
    }

    /// Whether the name may be written.
    fn may_write(&self, name: &[u16]) -> Result<(), Refused>
        ensures { Permits self.now name.now result }
    {
        if let Some(slot) = self.slot(name) {
            if slot.writable {
                return Ok(());
            }
            return Err(Refused::IsConstant);
        }
        if is_missing(name) {
            return Ok(());
        }
        if is_unbuilt(name) {
            return Err(Refused::Leaves(Left::NotBuilt));
        }
        Err(Refused::NotDefined)
    }

    /// Writes the value under the name, in strict code (6.2.5.6). Where it is refused nothing changed.
    #[tactic(auto, using(crate::proofs::Interning::same_put))]
    pub fn write(&mut self, name: &[u16], value: Value) -> Result<(), Refused>
        ensures written { Writes self.old self.new name.now value result }
        ensures err { OnErr result (self.new ≡ self.old) }
    {
        self.may_write(name)?;
        let name = copied(self.alloc, name)?;
        let slot = Slot {
            value: Some(value),
            writable: true,
        };
        self.put(name, slot)?;
        Ok(())
    }

    /// Makes the global of this name, where there is none (9.1.1.4.17).
    #[tactic(auto, using(crate::proofs::Interning::same_put))]
    pub fn declare(&mut self, name: &[u16]) -> Result<(), Memory>
        ensures { OnOk result (self.new ≡ declare_global name.now self.old) }
    {
        if self.slot(name).is_some() {
            return Ok(());
        }
        if is_missing(name) || is_unbuilt(name) {
            return Ok(());
        }
        let name = copied(self.alloc, name)?;
        let slot = Slot {
            value: Some(Value::Undefined),
            writable: true,
        };
        self.put(name, slot)
    }
}
