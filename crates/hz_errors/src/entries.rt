use crate::limit::with_limit;
use hz_list::Memory;
use hz_tree::{LimitKind, MAX_DEPTH};
use std::alloc::Global;
use std::marker::Model;

/// An entry: its place, and where the least places on its levels stand.
#[derive(Clone, Copy, Debug)]
pub struct Run {
    pub at: usize,

    /// The levels are this many places, up to `end`. The outermost one stands last.
    pub len: usize,
    pub end: usize,
}

/// The stack of nodes in hand and of operands, each with the least place of a node on each level of it.
///
/// The levels of all entries stand in one list, those of an inner entry behind those of the outer ones. Where an entry
/// goes into the one below it, the shorter list of levels is merged into the longer one, which stays where it is. What
/// stood in the shorter one is never looked at again, so all joins together take no more steps than there are nodes.
#[derive(Debug, Drop)]
pub struct Entries {
    places: Vec<usize>,

    /// The innermost one last.
    runs: Vec<Run>,
}

impl Model for Entries {
    ghost use Rattle.std.specs.Prelude.{List, reverse, length};
    ghost use Rattle.hz_errors.specs.Levels.{Entry};
    ghost use Rattle.hz_errors.specs.Runs.{shown, AreStacked};

    ghost Value = { List Entry };

    ghost view = { λ e. shown (reverse e.runs.items) e.places.items };

    ghost invariant = { λ e. AreStacked (length e.places.items) (reverse e.runs.items) };
}

impl Entries {
    ghost use Rattle.std.specs.Prelude.{◌≡◌, [], ◌∷◌, OnOk};
    ghost use Rattle.hz_tree.specs.errors.Limits.{deeper};
    ghost use Rattle.hz_tree.specs.sources.Kinds.{order_of_limit};
    ghost use Rattle.hz_errors.specs.Found.{noted};
    ghost use Rattle.hz_errors.specs.Levels.{joined_entries, node_entries, top_levels, top_place};

    /// No entries. No memory is taken.
    pub fn new(alloc: Global) -> Entries
        ensures { result ≡ [] }
    {
        Entries {
            places: Vec::new(alloc),
            runs: Vec::new(alloc),
        }
    }

    /// The place of the uppermost entry.
    pub fn top(&self) -> Option<usize>
        ensures { result ≡ top_place self.now }
    {
        match self.runs.last() {
            Some(run) => Some(run.at),
            None => None,
        }
    }

    /// With the errors of nodes that are nested too deep in the uppermost entry.
    pub fn nesting(&self, least: Option<(LimitKind, usize)>) -> Option<(LimitKind, usize)>
        ensures { result ≡ noted order_of_limit (deeper (top_levels self.now)) least }
    {
        match self.runs.last() {
            Some(run) => nesting(&self.places, *run, least),
            None => least,
        }
    }

    /// One more entry, with no levels.
    pub fn push(&mut self, at: usize) -> Result<(), Memory>
        ensures { OnOk result (self.new ≡ record { at = at; levels = [] } ∷ self.old) }
    {
        let end = self.places.len();
        self.runs.push(Run { at, len: 0, end })?;
        Ok(())
    }

    /// One more entry, of one node.
    pub fn leaf(&mut self, at: usize) -> Result<(), Memory>
        ensures { OnOk result (self.new ≡ record { at = at; levels = at ∷ [] } ∷ self.old) }
    {
        self.places.push(at)?;
        let end = self.places.len();
        self.runs.push(Run { at, len: 1, end })?;
        Ok(())
    }

    /// The uppermost entry is one node more, at its place.
    pub fn node(&mut self) -> Result<(), Memory>
        ensures { OnOk result (self.new ≡ node_entries self.old) }
    {
        let Some(run) = self.runs.pop() else {
            return Ok(());
        };
        self.places.truncate(run.end);
        self.places.push(run.at)?;
        let end = self.places.len();
        self.runs.push(Run {
            at: run.at,
            len: run.len + 1,
            end,
        })?;
        Ok(())
    }

    /// The uppermost entry goes into the one below it.
    pub fn join(&mut self)
        ensures { self.new ≡ joined_entries self.old }
    {
        if let Some(top) = self.runs.pop() {
            let count = self.runs.len();
            if 0 < count {
                let below = self.runs[count - 1];
                self.runs[count - 1] = merge(&mut self.places, below, top);
            }
        }
    }
}

ghost use Rattle.std.specs.Prelude.{◌≡◌, ℕ, ◌+◌, ◌-◌, ◌<◌, ◌≤◌, length, slice_index, vec_len};
ghost use Rattle.hz_tree.specs.errors.Limits.{least_each, deeper};
ghost use Rattle.hz_tree.specs.sources.Kinds.{order_of_limit};
ghost use Rattle.hz_errors.specs.Found.{noted};
ghost use Rattle.hz_errors.specs.Runs.{run_levels, lowered, KeepsBelow};

/// With the errors of what stands deeper than the most levels.
fn nesting(
    places: &[usize],
    run: Run,
    mut least: Option<(LimitKind, usize)>,
) -> Option<(LimitKind, usize)>
    requires end_in { run.end ≤ length places.now }
    requires len_in { run.len ≤ run.end }
    ensures { result ≡ noted order_of_limit (deeper (run_levels run.len run.end places.now)) least }
{
    for k in MAX_DEPTH..run.len {
        least = with_limit(least, LimitKind::Nesting, places[run.end - 1 - k]);
    }
    least
}

/// The levels of two entries, of which the upper one goes into the lower one.
fn merge(places: &mut Vec<usize>, below: Run, top: Run) -> Run
    requires top_in { top.end ≤ length places.old.items }
    requires top_len { top.len ≤ top.end }
    requires below_in { below.end ≤ top.end - top.len }
    requires below_len { below.len ≤ below.end }
    ensures at { result.at ≡ below.at }
    ensures levels { run_levels result.len result.end places.new.items ≡
        least_each (run_levels below.len below.end places.old.items) (run_levels top.len top.end places.old.items) }
    ensures within { result.end ≤ length places.new.items }
    ensures len { result.len ≤ result.end }
    ensures start { below.end - below.len ≤ result.end - result.len }
    ensures below { KeepsBelow (below.end - below.len) places.old.items places.new.items }
{
    if top.len <= below.len {
        lower(places, below.end, top.end, top.len);
        places.truncate(below.end);
        below
    } else {
        lower(places, top.end, below.end, below.len);
        Run {
            at: below.at,
            len: top.len,
            end: top.end,
        }
    }
}

/// Lowers the last places before `end` to the last ones before `other`, as many as `count`.
fn lower(places: &mut Vec<usize>, end: usize, other: usize, count: usize)
    requires in_end { count ≤ end }
    requires in_other { count ≤ other }
    requires end_in { end ≤ length places.old.items }
    requires other_in { other ≤ length places.old.items }
    ensures { places.new.items ≡ lowered count end other places.old.items }
{
    for k in 0..count {
        let own = places[end - 1 - k];
        let found = places[other - 1 - k];
        if found < own {
            places[end - 1 - k] = found;
        }
    }
}
