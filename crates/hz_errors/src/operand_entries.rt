ghost use Rattle.std.specs.Prelude.{◌≡◌, false};
ghost use Rattle.hz_tree.specs.errors.Targets.{plain as plain_operand, member, call, chained};
ghost use Rattle.hz_errors.specs.Operands.{as_shape, as_tailed, as_marked, as_enclosing};
ghost use Rattle.hz_errors.specs.OperandEntries.{shape_seen, entry_seen};

use hz_list::Memory;
use std::alloc::Global;
use std::marker::Model;

/// What an operand is for the operators round it, in parentheses or not.
#[derive(Clone, Copy, Debug)]
pub enum KeptShape<'a> {
    /// A name, with its own place.
    Name(usize, &'a [u8]),
    Property,

    /// An optional chain.
    Chain,

    /// The literal of an array or an object.
    Pattern,

    /// A string literal, as it is written.
    Text(&'a [u8]),
    Other,
}

/// A node in hand, or an operand that is complete.
#[derive(Clone, Copy, Debug)]
pub struct Entry<'a> {
    /// The place of its first token.
    pub at: usize,

    pub shape: KeptShape<'a>,
    pub parenthesised: bool,

    /// It is a property whose key says `__proto__`.
    pub proto: bool,
}

impl<'a> Entry<'a> {
    /// Without parentheses.
    pub fn plain(at: usize, shape: KeptShape<'a>) -> Entry<'a>
        ensures { entry_seen result ≡ record { operand = plain_operand at (shape_seen shape.entry); proto = false } }
    {
        Entry {
            at,
            shape,
            parenthesised: false,
            proto: false,
        }
    }

    /// Another node at its place.
    pub fn shaped(self, shape: KeptShape<'a>) -> Entry<'a>
        ensures { entry_seen result ≡ as_shape (shape_seen shape.entry) (entry_seen self.entry) }
    {
        Entry {
            shape,
            parenthesised: false,
            ..self
        }
    }

    /// With a member behind it.
    pub fn member(self) -> Entry<'a>
        ensures { entry_seen result ≡ as_tailed member (entry_seen self.entry) }
    {
        match self.shape {
            KeptShape::Chain if !self.parenthesised => self.shaped(KeptShape::Chain),
            _ => self.shaped(KeptShape::Property),
        }
    }

    /// With a call behind it.
    pub fn call(self) -> Entry<'a>
        ensures { entry_seen result ≡ as_tailed call (entry_seen self.entry) }
    {
        match self.shape {
            KeptShape::Chain if !self.parenthesised => self.shaped(KeptShape::Chain),
            _ => self.shaped(KeptShape::Other),
        }
    }

    /// With an optional member or call behind it.
    pub fn chain(self) -> Entry<'a>
        ensures { entry_seen result ≡ as_tailed chained (entry_seen self.entry) }
    {
        self.shaped(KeptShape::Chain)
    }

    /// With what a key says.
    pub fn marked(self, proto: bool) -> Entry<'a>
        ensures { entry_seen result ≡ as_marked proto (entry_seen self.entry) }
    {
        Entry {
            proto: self.proto || proto,
            ..self
        }
    }

    /// As parentheses round an expression of this shape.
    pub fn enclosing(self, shape: KeptShape<'a>) -> Entry<'a>
        ensures { entry_seen result ≡ as_enclosing (shape_seen shape.entry) (entry_seen self.entry) }
    {
        Entry {
            shape,
            parenthesised: true,
            ..self
        }
    }
}

/// The entries, of which the last is the uppermost.
#[derive(Debug, Drop)]
pub struct Entries<'a> {
    entries: Vec<Entry<'a>>,
}

impl<'a> Model for Entries<'a> {
    ghost use Rattle.std.specs.Prelude.{List};
    ghost use Rattle.hz_errors.specs.Operands.{Entry as Seen};
    ghost use Rattle.hz_errors.specs.OperandEntries.{entries_seen};

    ghost Value = { List Seen };

    ghost view = { λ e. entries_seen e.entries.items };
}

impl<'a> Entries<'a> {
    ghost use Rattle.std.specs.Prelude.{◌≡◌, [], ◌∷◌, drop, OnOk};
    ghost use Rattle.std.specs.Option.{option_map};
    ghost use Rattle.hz_tree.specs.errors.Targets.{member, call, chained};
    ghost use Rattle.hz_errors.specs.Operands.{first_of, change_first, place_below, enclosed};
    ghost use Rattle.hz_errors.specs.Operands.{as_shape, as_tailed, as_marked};
    ghost use Rattle.hz_errors.specs.OperandEntries.{shape_seen, entry_seen};

    /// No entry. No memory is taken.
    pub fn new(alloc: Global) -> Entries<'a>
        ensures { result ≡ [] }
    {
        Entries {
            entries: Vec::new(alloc),
        }
    }

    pub fn push(&mut self, entry: Entry<'a>) -> Result<(), Memory>
        ensures { OnOk result (self.new ≡ entry_seen entry.entry ∷ self.old) }
    {
        self.entries.push(entry)?;
        Ok(())
    }

    pub fn pop(&mut self)
        ensures { self.new ≡ drop 1 self.old }
    {
        let _ = self.entries.pop();
    }

    /// The uppermost entry.
    pub fn top(&self) -> Option<Entry<'a>>
        ensures { option_map entry_seen result ≡ first_of self.now }
    {
        self.entries.last().copied()
    }

    /// The place of the entry below the uppermost one.
    #[tactic(auto, using(crate::proofs::LastLemmas::below_top, crate::proofs::LastLemmas::below_none))]
    pub fn place_below(&self) -> Option<usize>
        ensures { result ≡ place_below self.now }
    {
        let count = self.entries.len();
        if count < 2 {
            None
        } else {
            Some(self.entries[count - 2].at)
        }
    }

    /// The uppermost entry becomes this one.
    #[tactic(auto, using(crate::proofs::LastLemmas::set_top))]
    pub fn replace(&mut self, entry: Entry<'a>)
        ensures { self.new ≡ change_first (λ _. entry_seen entry.entry) self.old }
    {
        let count = self.entries.len();
        if 0 < count {
            self.entries[count - 1] = entry;
        }
    }

    /// The uppermost entry becomes another node.
    pub fn shape(&mut self, shape: KeptShape<'a>)
        ensures { self.new ≡ change_first (as_shape (shape_seen shape.entry)) self.old }
    {
        if let Some(top) = self.top() {
            self.replace(top.shaped(shape));
        }
    }

    /// A member stands behind the uppermost entry.
    pub fn member(&mut self)
        ensures { self.new ≡ change_first (as_tailed member) self.old }
    {
        if let Some(top) = self.top() {
            self.replace(top.member());
        }
    }

    /// A call stands behind the uppermost entry.
    pub fn call(&mut self)
        ensures { self.new ≡ change_first (as_tailed call) self.old }
    {
        if let Some(top) = self.top() {
            self.replace(top.call());
        }
    }

    /// An optional member or call stands behind the uppermost entry.
    pub fn chain(&mut self)
        ensures { self.new ≡ change_first (as_tailed chained) self.old }
    {
        if let Some(top) = self.top() {
            self.replace(top.chain());
        }
    }

    /// The key of the uppermost entry, a property, says `__proto__` or not.
    pub fn mark(&mut self, proto: bool)
        ensures { self.new ≡ change_first (as_marked proto) self.old }
    {
        if let Some(top) = self.top() {
            self.replace(top.marked(proto));
        }
    }

    /// The uppermost entry goes into the parentheses that the one below it stands for.
    pub fn enclose(&mut self)
        ensures { self.new ≡ enclosed self.old }
    {
        if let Some(top) = self.top() {
            self.pop();
            if let Some(below) = self.top() {
                self.replace(below.enclosing(top.shape));
            }
        }
    }
}
