use crate::least::{with_early, with_profile};
use hz_list::Memory;
use hz_tree::{EarlyKind, FunctionKind, ProfileKind};
use std::alloc::Global;
use std::marker::Model;

/// Finds where `this` and `new.target` stand in no function but arrows.
#[derive(Debug, Drop)]
pub struct Receivers {
    /// For each function that has not ended, the innermost last: whether it or one round it is no arrow.
    opened: Vec<bool>,

    early: Option<(EarlyKind, usize)>,
    profile: Option<(ProfileKind, usize)>,
}

impl Model for Receivers {
    ghost use Rattle.std.specs.Prelude.{reverse};
    ghost use Rattle.hz_errors.specs.Receivers.{Receiving};

    ghost Value = { Receiving };

    ghost view = { λ r. record { opened = reverse r.opened.items; early = r.early; profile = r.profile } };
}

impl Receivers {
    ghost use Rattle.std.specs.Prelude.{◌≡◌, OnOk};
    ghost use Rattle.hz_errors.specs.Receivers.{begun, opens, closes, finds_this, finds_target};
    ghost use Rattle.hz_errors.specs.Receivers.{is_received as does_receive};

    /// No function is open, and nothing is found. No memory is taken.
    pub fn new(alloc: Global) -> Receivers
        ensures { result ≡ begun }
    {
        Receivers {
            opened: Vec::new(alloc),
            early: None,
            profile: None,
        }
    }

    /// The least early error that was found.
    pub fn early(&self) -> Option<(EarlyKind, usize)>
        ensures { result ≡ self.now.early }
    {
        self.early
    }

    /// The least place at which the profile is left.
    pub fn profile(&self) -> Option<(ProfileKind, usize)>
        ensures { result ≡ self.now.profile }
    {
        self.profile
    }

    /// A function of this kind begins.
    pub fn open(&mut self, kind: FunctionKind) -> Result<(), Memory>
        ensures { OnOk result (self.new ≡ opens kind self.old) }
    {
        let received = kind != FunctionKind::Arrow || self.is_received();
        self.opened.push(received)?;
        Ok(())
    }

    /// The innermost function ends.
    pub fn close(&mut self)
        ensures { self.new ≡ closes self.old }
    {
        let _ = self.opened.pop();
    }

    /// `this` stands here.
    pub fn find_this(&mut self, at: usize)
        ensures { self.new ≡ finds_this at self.old }
    {
        if !self.is_received() {
            self.profile = with_profile(self.profile, ProfileKind::ScriptThis, at);
        }
    }

    /// `new.target` stands here.
    pub fn find_target(&mut self, at: usize)
        ensures { self.new ≡ finds_target at self.old }
    {
        if !self.is_received() {
            self.early = with_early(self.early, EarlyKind::NewTarget, at);
        }
    }

    fn is_received(&self) -> bool
        ensures { result ≡ does_receive self.now.opened }
    {
        self.opened.last().copied().unwrap_or(false)
    }
}
