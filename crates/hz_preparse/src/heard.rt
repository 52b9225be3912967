use crate::draft::Draft;
use hz_errors::{Errors, Told};
use hz_index::ScopeTable;
use hz_list::Memory;
use hz_scopes::ScopeDraft;
use hz_tree::{FunctionInfos, Refusal, Signal};
use std::alloc::Global;
use std::marker::Model;

/// What is known of a source at a place: the functions that begin before it, their scopes, and the errors found up to
/// there.
#[derive(Drop)]
pub struct Heard<'a> {
    draft: Draft,
    scopes: ScopeDraft<'a>,
    errors: Errors<'a>,
}

impl<'a> Model for Heard<'a> {
    ghost use Rattle.hz_preparse.specs.Heard.{Heard as Known};

    ghost Value = { Known };

    ghost view = { λ h. record { draft = h.draft; scopes = h.scopes; errors = h.errors } };
}

impl<'a> Heard<'a> {
    ghost use Rattle.std.specs.Prelude.{◌≡◌, IfOk, OnOk, option_map};
    ghost use Rattle.hz_tree.specs.grammar.Signals.{event};
    ghost use Rattle.hz_errors.specs.Errors.{refusal_found};
    ghost use Rattle.hz_scopes.specs.State.{finished};
    ghost use Rattle.hz_preparse.specs.Heard.{begun, happens};

    /// At the start of a source.
    pub fn new(alloc: Global, source: &[u8]) -> Result<Heard<'a>, Memory>
        ensures { IfOk result (λ heard. heard ≡ begun source.now) }
    {
        Ok(Heard {
            draft: Draft::new(alloc, source)?,
            scopes: ScopeDraft::new(alloc)?,
            errors: Errors::new(alloc)?,
        })
    }

    /// Goes on by what the grammar tells.
    pub fn tell(&mut self, signal: Signal, told: &Told<'a>) -> Result<(), Memory>
        ensures { OnOk result (self.new ≡ happens self.old (event signal told.now)) }
    {
        self.draft.tell(signal, told)?;
        self.scopes.tell(signal, told.at, told.text, told.behind)?;
        self.errors.tell(signal, told)?;
        Ok(())
    }

    /// Why a source of which this is all is refused, or None. `strict` tells that it is strict code whether it says so
    /// or not.
    pub fn refusal(&self, strict: bool) -> Option<Refusal>
        ensures { result ≡ refusal_found strict self.now.errors }
    {
        self.errors.refusal(strict)
    }

    /// The functions, and their scopes where these are kept, of a source of so many bytes of which this is all.
    pub fn finish(self, length: usize) -> Result<(FunctionInfos, Option<ScopeTable<'a>>), Memory>
        ensures { IfOk result (λ known. (known.0 ≡ self.entry.draft.functions)
            × (option_map (λ t. t.functions) known.1 ≡ option_map (finished length) self.entry.scopes)) }
    {
        let Heard {
            draft,
            scopes,
            errors: _,
        } = self;
        let table = scopes.finish(length)?;
        Ok((draft.into_functions(), table))
    }
}
