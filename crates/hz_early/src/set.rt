use crate::bindings::{Bindings, OpenScope, holds_vars};
use crate::event::ScopeEvent;
use hz_list::Memory;
use hz_tree::{BindingKind, EarlyKind, ScopeKind};
use std::alloc::Global;
use std::marker::Model;

/// The scopes that are open at a place of a source, and the least of the early errors found up to there: the first by
/// place, and at one place by the order of the kinds.
#[derive(Drop)]
pub struct EarlySet<'a> {
    names: Bindings<'a>,

    /// The innermost one last.
    scopes: Vec<OpenScope>,

    least: Option<(EarlyKind, usize)>,
}

impl<'a> Model for EarlySet<'a> {
    ghost use Rattle.std.specs.Prelude.{reverse};
    ghost use Rattle.hz_early.specs.Events.{Known};
    ghost use Rattle.hz_early.specs.Stack.{shown, marks_of, AreNested};

    ghost Value = { Known };

    ghost view = { λ s. record { scopes = shown (reverse s.scopes.items) s.names; least = s.least } };

    ghost invariant = { λ s. AreNested (reverse s.scopes.items) (marks_of s.names) };
}

impl<'a> EarlySet<'a> {
    ghost use Rattle.std.specs.Prelude.{◌≡◌, OnOk, OnErr};
    ghost use Rattle.hz_early.specs.Events.{happens, nothing_known, opened, closed, with_declaration};

    /// No scope is open, and no error is found. No memory is taken.
    pub fn new(alloc: Global) -> EarlySet<'a>
        ensures { result ≡ nothing_known }
    {
        EarlySet {
            names: Bindings::new(alloc),
            scopes: Vec::new(alloc),
            least: None,
        }
    }

    /// Goes on by one event. Where no scope is open, `Close` and `Declare` do nothing. Declarations make the errors
    /// DuplicateLexical, LexicalVarClash, DuplicateParameter, ParameterClash and CatchClash (ECMA-262, 14.2.1, 14.12.1,
    /// 14.15.1, 15.1.1, 15.2.1, 16.1.1), each at the later of two names; `Found` tells all others. After Memory the
    /// set is as before.
    pub fn event(&mut self, e: ScopeEvent<'a>) -> Result<(), Memory>
        ensures ok { OnOk result (self.new ≡ happens self.old e.entry) }
        ensures err { OnErr result (self.new ≡ self.old) }
    {
        match e {
            ScopeEvent::Open(kind) => self.open(kind),
            ScopeEvent::Close => {
                self.close();
                Ok(())
            }
            ScopeEvent::Declare { kind, name, at } => self.declare(kind, name, at),
            ScopeEvent::Found(kind, at) => {
                self.least = lesser(self.least, Some((kind, at)));
                Ok(())
            }
        }
    }

    /// The least error of all events so far, with its place in bytes; None exactly where they tell no error.
    pub fn least(&self) -> Option<(EarlyKind, usize)>
        ensures { result ≡ self.now.least }
    {
        self.least
    }

    fn open(&mut self, kind: ScopeKind) -> Result<(), Memory>
        ensures ok { OnOk result (self.new ≡ opened kind self.old) }
        ensures err { OnErr result (self.new ≡ self.old) }
    {
        let start = self.names.marks();
        let function = match self.scopes.last() {
            Some(outer) if !holds_vars(kind) => outer.function,
            _ => start,
        };
        self.scopes.push(OpenScope {
            kind,
            start,
            function,
        })?;
        Ok(())
    }

    fn close(&mut self)
        ensures { self.new ≡ closed self.old }
    {
        if let Some(scope) = self.scopes.pop() {
            self.names.take_back(&scope);
        }
    }

    fn declare(&mut self, kind: BindingKind, name: &'a [u8], at: usize) -> Result<(), Memory>
        ensures ok { OnOk result (self.new ≡ with_declaration kind name.now at self.old) }
        ensures err { OnErr result (self.new ≡ self.old) }
    {
        let Some(scope) = self.scopes.last() else {
            return Ok(());
        };
        let error = self.names.error(scope, kind, name);
        self.names.push(kind, name)?;
        self.least = lesser(self.least, error.map(|error| (error, at)));
        Ok(())
    }
}

ghost use Rattle.std.specs.Prelude.{◌≡◌};
ghost use Rattle.hz_tree.specs.sources.EarlyErrors.{order_of_early};
ghost use Rattle.hz_tree.specs.sources.Least.{lesser as the_lesser};

/// The lesser of two errors, as far as they are there.
fn lesser(
    known: Option<(EarlyKind, usize)>,
    found: Option<(EarlyKind, usize)>,
) -> Option<(EarlyKind, usize)>
    ensures { result ≡ the_lesser order_of_early known found }
{
    match (known, found) {
        (Some((kind, at)), Some((other, place))) if (at, kind) <= (place, other) => known,
        (_, None) => known,
        _ => found,
    }
}
