use crate::entries::Entries;
use crate::limit::with_limit;
use hz_list::Memory;
use hz_tree::{LimitKind, MAX_LISTED};
use std::alloc::Global;
use std::marker::Model;

/// Finds what passes the limits of a source: nodes that are nested too deep, and lists of parameters or of arguments
/// that are too long.
#[derive(Debug, Drop)]
pub struct Levels {
    entries: Entries,

    /// For each function and each list of arguments that has not ended, the innermost last, how many parameters or
    /// arguments stand in it. What is more than 255 counts as 255.
    counts: Vec<u8>,

    least: Option<(LimitKind, usize)>,
}

impl Model for Levels {
    ghost use Rattle.std.specs.Prelude.{reverse};
    ghost use Rattle.hz_errors.specs.Levels.{State};

    ghost Value = { State };

    ghost view = { λ l. record { entries = l.entries; counts = reverse l.counts.items; least = l.least } };
}

impl Levels {
    ghost use Rattle.std.specs.Prelude.{◌≡◌, [], ◌∷◌, OnOk};
    ghost use Rattle.hz_errors.specs.Levels.{begun, least_in, pushed, joined, one_node, opened, closed};
    ghost use Rattle.hz_errors.specs.Levels.{counted, argument_at};

    /// No node is in hand, and nothing is found. No memory is taken.
    pub fn new(alloc: Global) -> Levels
        ensures { result ≡ begun }
    {
        Levels {
            entries: Entries::new(alloc),
            counts: Vec::new(alloc),
            least: None,
        }
    }

    /// The least place at which a limit is passed, where the events are those of a whole source.
    pub fn least(&self) -> Option<(LimitKind, usize)>
        ensures { result ≡ least_in self.now }
    {
        self.entries.nesting(self.least)
    }

    /// A node begins.
    pub fn begin(&mut self, at: usize) -> Result<(), Memory>
        ensures { OnOk result (self.new ≡ pushed at [] self.old) }
    {
        self.entries.push(at)
    }

    /// An operand is one token.
    pub fn leaf(&mut self, at: usize) -> Result<(), Memory>
        ensures { OnOk result (self.new ≡ pushed at (at ∷ []) self.old) }
    {
        self.entries.leaf(at)
    }

    /// The uppermost entry is one node more.
    pub fn node(&mut self) -> Result<(), Memory>
        ensures { OnOk result (self.new ≡ one_node self.old) }
    {
        self.entries.node()
    }

    /// The uppermost entry goes into the one below it.
    pub fn join(&mut self)
        ensures { self.new ≡ joined self.old }
    {
        self.entries.join();
    }

    /// The uppermost entry is one node more, and goes into the one below it.
    pub fn end(&mut self) -> Result<(), Memory>
        ensures { OnOk result (self.new ≡ joined (one_node self.old)) }
    {
        self.entries.node()?;
        self.entries.join();
        Ok(())
    }

    /// The uppermost entry goes into the one below it, which is one node more.
    pub fn parentheses(&mut self) -> Result<(), Memory>
        ensures { OnOk result (self.new ≡ one_node (joined self.old)) }
    {
        self.entries.join();
        self.entries.node()
    }

    /// A list of arguments or of parameters begins.
    pub fn open(&mut self) -> Result<(), Memory>
        ensures { OnOk result (self.new ≡ opened self.old) }
    {
        self.counts.push(0)?;
        Ok(())
    }

    /// A function begins.
    pub fn open_function(&mut self, at: usize) -> Result<(), Memory>
        ensures { OnOk result (self.new ≡ opened (pushed at [] self.old)) }
    {
        self.entries.push(at)?;
        self.open()
    }

    /// The innermost list ends.
    pub fn close(&mut self)
        ensures { self.new ≡ closed self.old }
    {
        let _ = self.counts.pop();
    }

    /// The innermost list has one more, at this place.
    pub fn count(&mut self, kind: LimitKind, at: usize)
        ensures { self.new ≡ counted kind at self.old }
    {
        if count_one(&mut self.counts) {
            self.least = with_limit(self.least, kind, at);
        }
    }

    /// The uppermost entry is one more argument.
    pub fn argument(&mut self)
        ensures { self.new ≡ joined (argument_at (top_place self.old.entries) self.old) }
    {
        if let Some(at) = self.entries.top() {
            self.count(LimitKind::Arguments, at);
        }
        self.entries.join();
    }
}

ghost use Rattle.std.specs.Prelude.{◌≡◌, reverse};
ghost use Rattle.hz_errors.specs.Levels.{more_counts, is_full, top_place};

/// One more in the innermost list. Whether it is the first one that is too many.
fn count_one(counts: &mut Vec<u8>) -> bool
    ensures counted { reverse counts.new.items ≡ more_counts (reverse counts.old.items) }
    ensures full { result ≡ is_full (reverse counts.old.items) }
{
    let len = counts.len();
    if len == 0 {
        return false;
    }
    let count = counts[len - 1];
    counts[len - 1] = count.saturating_add(1);
    usize::from(count) == MAX_LISTED
}
