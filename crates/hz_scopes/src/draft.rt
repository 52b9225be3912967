use crate::scopes::OpenScopes;
use hz_index::ScopeTable;
use hz_list::Memory;
use hz_tree::{MAX_DEPTH, Signal};
use std::alloc::Global;
use std::marker::Model;

/// The scopes of a source's functions while the source is read. A source whose functions stand in each other deeper
/// than the limit on nesting is refused, so from there on nothing is kept of it.
#[derive(Drop)]
pub struct ScopeDraft<'a> {
    /// Apart, so that what is known is not moved where it goes on.
    scopes: Option<Box<OpenScopes<'a>>>,
}

impl<'a> Model for ScopeDraft<'a> {
    ghost use Rattle.std.specs.Box.{box_value};
    ghost use Rattle.std.specs.Prelude.{Option, option_map, IfSome};
    ghost use Rattle.hz_scopes.specs.State.{State};
    ghost use Rattle.hz_scopes.specs.Stored.{shown, IsWhole};

    ghost Value = { Option State };

    ghost view = { λ d. option_map (λ b. shown (box_value b)) d.scopes };

    ghost invariant = { λ d. IfSome d.scopes (λ b. IsWhole (box_value b)) };
}

impl<'a> ScopeDraft<'a> {
    ghost use Rattle.std.specs.Prelude.{◌≡◌, Bool, Some, None, option_map, OnOk, OnErr, IfOk};
    ghost use Rattle.hz_tree.specs.grammar.Signals.{event};
    ghost use Rattle.hz_scopes.specs.State.{begun, finished};
    ghost use Rattle.hz_scopes.specs.Depth.{heard};

    /// What is known at the start of a source.
    pub fn new(alloc: Global) -> Result<ScopeDraft<'a>, Memory>
        ensures { IfOk result (λ draft. draft ≡ Some begun) }
    {
        let scopes = OpenScopes::new(alloc)?;
        Ok(ScopeDraft {
            scopes: Some(Box::new(alloc, scopes)?),
        })
    }

    /// Goes on by what the grammar tells between two tokens: `at` and `text` are the place and the text of the next
    /// one, and the last one ends at `behind`. Work beside what a scope or a function declares and leaves free does not
    /// depend on what is open. After Memory nothing is kept.
    pub fn tell(
        &mut self,
        signal: Signal,
        at: usize,
        text: &'a [u8],
        behind: usize,
    ) -> Result<(), Memory>
        ensures ok { OnOk result ((octal : Bool) → self.new
            ≡ heard self.old (event signal (record { at = at; text = text.now; octal = octal; behind = behind }))) }
        ensures err { OnErr result (self.new ≡ None) }
    {
        let Some(mut scopes) = self.scopes.take() else {
            return Ok(());
        };
        scopes.tell(signal, at, text, behind)?;
        self.scopes = as_deep(scopes);
        Ok(())
    }

    /// The scopes and the free names of all functions of a source of so many bytes, in the order of their starts. None
    /// where functions stood deeper than the limit.
    pub fn finish(self, length: usize) -> Result<Option<ScopeTable<'a>>, Memory>
        ensures { IfOk result (λ table. option_map (λ t. t.functions) table
            ≡ option_map (finished length) self.entry) }
    {
        let Some(scopes) = self.scopes else {
            return Ok(None);
        };
        let table = Box::into_inner(scopes).finish(length)?;
        Ok(Some(table))
    }
}

ghost use Rattle.std.specs.Prelude.{◌≡◌, nat_le, length, if◌then◌else◌, option_map, Some, None, IfSome};
ghost use Rattle.std.specs.Box.{box_value};
ghost use Rattle.hz_tree.specs.errors.Limits.{max_depth};
ghost use Rattle.hz_scopes.specs.Stored.{shown, IsWhole};

/// The same, unless functions stand too deep in each other.
fn as_deep(scopes: Box<OpenScopes<'_>>) -> Option<Box<OpenScopes<'_>>>
    requires { IsWhole (box_value scopes) }
    ensures same { option_map (λ b. shown (box_value b)) result ≡ (let s = shown (box_value scopes.entry) in
        if nat_le (length s.known.outer) max_depth then Some s else None) }
    ensures whole { IfSome result (λ b. IsWhole (box_value b)) }
{
    if scopes.depth() <= MAX_DEPTH {
        Some(scopes)
    } else {
        None
    }
}
