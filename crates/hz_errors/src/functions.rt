use hz_list::Memory;
use std::alloc::Global;
use std::marker::Model;

/// A function that has not ended, or the script.
#[derive(Clone, Copy, Debug)]
pub struct Opened {
    /// The next statement can be a directive.
    pub prologue: bool,

    /// It has a rest parameter.
    pub rest: bool,

    /// One of its directives says "use strict".
    pub strict: bool,
}

/// The functions that have not ended.
#[derive(Debug, Drop)]
pub struct OpenFunctions {
    functions: Vec<Opened>,
}

impl Model for OpenFunctions {
    ghost use Rattle.std.specs.Prelude.{List, reverse};
    ghost use Rattle.hz_errors.specs.declared.functions.Opened.{Opened as Function};

    ghost Value = { List Function };

    ghost view = { λ f. reverse f.functions.items };
}

impl OpenFunctions {
    ghost use Rattle.std.specs.Prelude.{◌≡◌, [], ◌∷◌, drop, OnOk};
    ghost use Rattle.hz_errors.specs.Operands.{innermost_of, change_innermost};

    /// None is open. No memory is taken.
    pub fn new(alloc: Global) -> OpenFunctions
        ensures { result ≡ [] }
    {
        OpenFunctions {
            functions: Vec::new(alloc),
        }
    }

    /// A function begins.
    pub fn open(&mut self, function: Opened) -> Result<(), Memory>
        ensures { OnOk result (self.new ≡ function ∷ self.old) }
    {
        self.functions.push(function)?;
        Ok(())
    }

    /// The innermost function ends.
    pub fn close(&mut self)
        ensures { self.new ≡ drop 1 self.old }
    {
        let _ = self.functions.pop();
    }

    /// The innermost function.
    pub fn innermost(&self) -> Option<Opened>
        ensures { result ≡ innermost_of self.now }
    {
        self.functions.last().copied()
    }

    /// The innermost function becomes this one.
    #[tactic(auto, using(crate::proofs::LastLemmas::set_innermost))]
    pub fn replace(&mut self, function: Opened)
        ensures { self.new ≡ change_innermost (λ _. function) self.old }
    {
        let count = self.functions.len();
        if 0 < count {
            self.functions[count - 1] = function;
        }
    }
}
