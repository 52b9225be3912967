use crate::tree::FunctionKind;
use hz_list::{Memory, Series};
use std::alloc::Global;
use std::marker::Model;

/// What is known of a function before it is compiled.
#[derive(Clone, Copy, Debug, PartialEq, Eq)]
pub struct FunctionInfo {
    /// The place of its first byte: a function with `function` starts at that word, a method, getter or setter at
    /// its `(`, an arrow at its first token, and the script at 0.
    pub start: usize,

    /// The place behind its last byte; of the script, the source's length.
    pub end: usize,

    /// What kind of function it is.
    pub kind: FunctionKind,

    /// The number of its parameters but for the rest one. 255 stands for all greater numbers too.
    pub length: u8,

    /// The number of the function round it; the script has none.
    pub parent: Option<u32>,
}

/// A list of functions, in the order of their numbers.
#[derive(Debug, Drop)]
pub struct FunctionInfos {
    items: Series<FunctionInfo>,
}

impl Model for FunctionInfos {
    ghost use Rattle.std.specs.Prelude.{◌≤◌, List, length};
    ghost use Rattle.hz_tree.specs.declared.index.FunctionInfo.{FunctionInfo};

    ghost Value = { List FunctionInfo };

    ghost view = { λ f. f.items };

    ghost invariant = { λ f. length f.items ≤ 4294967295 };
}

impl FunctionInfos {
    ghost use Rattle.std.specs.Prelude.{◌≡◌, ◌<◌, [], ◌∷◌, ◌++◌, length, slice_get, slice_set, Some, OnOk, OnErr};
    ghost use Rattle.std.specs.Option.{option_copied};

    /// An empty list.
    pub fn new(alloc: Global) -> FunctionInfos
        ensures { result ≡ [] }
    {
        FunctionInfos {
            items: Series::new(alloc),
        }
    }

    /// How many functions there are.
    pub fn len(&self) -> u32
        ensures { result ≡ length self.now }
    {
        self.items.len() as u32
    }

    /// The function with this number, or none past the end.
    pub fn get(&self, k: u32) -> Option<&FunctionInfo>
        ensures value { option_copied result ≡ slice_get self.now k }
    {
        self.items.get(k as usize)
    }

    /// The function with this number.
    pub fn at(&self, k: u32) -> &FunctionInfo
        requires { k < length self.now }
        ensures { slice_get self.now k ≡ Some result.now }
    {
        &self.items.as_slice()[k as usize]
    }

    /// Adds a function at the end. After Memory the list is as before. Memory for more than 4294967295 functions,
    /// more than a hundred GB, is never there.
    pub fn push(&mut self, info: FunctionInfo) -> Result<(), Memory>
        ensures ok { OnOk result (self.new ≡ self.old ++ info ∷ []) }
        ensures err { OnErr result (self.new ≡ self.old) }
    {
        if self.items.len() >= 4294967295 {
            return Err(Memory);
        }
        self.items.push(info)
    }

    /// Puts another function in the place of the one with this number.
    pub fn set(&mut self, k: u32, info: FunctionInfo)
        requires { k < length self.old }
        ensures { self.new ≡ slice_set self.old k info }
    {
        self.items.set(k as usize, info);
    }
}
