ghost use Rattle.std.specs.Prelude.{◌≡◌};
ghost use Rattle.hz_tree.specs.trees.Drafts.{change, counted, ended};

use hz_errors::Told;
use hz_list::Memory;
use hz_tree::{FunctionInfo, FunctionInfos, FunctionKind, Role, Signal};
use std::alloc::Global;
use std::marker::Model;

/// The functions that begin before a place, as far as they are known there.
#[derive(Debug, Drop)]
pub struct Draft {
    functions: FunctionInfos,

    /// The numbers of the functions that have not ended, the innermost one last.
    opened: Vec<u32>,
}

impl Model for Draft {
    ghost use Rattle.std.specs.Prelude.{reverse};
    ghost use Rattle.hz_tree.specs.trees.Drafts.{Draft as Known};

    ghost Value = { Known };

    ghost view = { λ d. record { functions = d.functions; opened = reverse d.opened.items } };
}

impl Draft {
    ghost use Rattle.std.specs.Prelude.{◌≡◌, IfOk, OnOk};
    ghost use Rattle.hz_tree.specs.grammar.Signals.{event};
    ghost use Rattle.hz_tree.specs.trees.Drafts.{begun, happens, opens, counts, closes, innermost as innermost_of};

    /// The script alone.
    pub fn new(alloc: Global, source: &[u8]) -> Result<Draft, Memory>
        ensures { IfOk result (λ draft. draft ≡ begun source.now) }
    {
        let mut functions = FunctionInfos::new(alloc);
        functions.push(FunctionInfo {
            start: 0,
            end: source.len(),
            kind: FunctionKind::Script,
            length: 0,
            parent: None,
        })?;
        let mut opened = Vec::new(alloc);
        opened.push(0)?;
        Ok(Draft { functions, opened })
    }

    /// Goes on by what the grammar tells.
    pub fn tell(&mut self, signal: Signal, told: &Told<'_>) -> Result<(), Memory>
        ensures { OnOk result (self.new ≡ happens self.old (event signal told.now)) }
    {
        match signal {
            Signal::Open(_, kind) => self.open(kind, told.at)?,
            Signal::Declare(Role::Parameter) => self.count(),
            Signal::Close => self.close(told.behind),
            _ => {}
        }
        Ok(())
    }

    /// A function starts at a place. Its end is set when it ends.
    fn open(&mut self, kind: FunctionKind, at: usize) -> Result<(), Memory>
        ensures { OnOk result (self.new ≡ opens kind at self.old) }
    {
        let number = self.functions.len();
        let parent = self.innermost();
        self.opened.push(number)?;
        self.functions.push(FunctionInfo {
            start: at,
            end: at,
            kind,
            length: 0,
            parent,
        })?;
        Ok(())
    }

    /// The innermost function has one more parameter.
    fn count(&mut self)
        ensures { self.new ≡ counts self.old }
    {
        if let Some(number) = self.innermost() {
            count_parameter(&mut self.functions, number);
        }
    }

    /// The innermost function ends.
    fn close(&mut self, end: usize)
        ensures { self.new ≡ closes end self.old }
    {
        if let Some(number) = self.opened.pop() {
            end_function(&mut self.functions, number, end);
        }
    }

    pub fn into_functions(self) -> FunctionInfos
        ensures { result ≡ self.functions }
    {
        let Draft {
            functions,
            opened: _,
        } = self;
        functions
    }

    fn innermost(&self) -> Option<u32>
        ensures { result ≡ innermost_of self.now.opened }
    {
        self.opened.last().copied()
    }
}

fn count_parameter(functions: &mut FunctionInfos, number: u32)
    ensures { functions.new ≡ change number counted functions.old }
{
    if let Some(known) = functions.get(number) {
        let length = known.length.saturating_add(1);
        let more = FunctionInfo { length, ..*known };
        functions.set(number, more);
    }
}

fn end_function(functions: &mut FunctionInfos, number: u32, end: usize)
    ensures { functions.new ≡ change number (ended end) functions.old }
{
    if let Some(known) = functions.get(number) {
        let whole = FunctionInfo { end, ..*known };
        functions.set(number, whole);
    }
}
