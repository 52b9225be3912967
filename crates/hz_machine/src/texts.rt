ghost use Rattle.std.specs.Prelude.{◌≡◌, [], OnOk, OnErr, IfOk, IfSome, slice_index_or};
ghost use Rattle.hz_value.specs.world.Store.{number_of, interned};

use hz_value::Memory;
use indexmap::IndexSet;
use std::alloc::Global;
use std::marker::Model;

/// The texts of a run by number, each of them once. Contracts see the list of their units.
#[derive(Debug, Drop)]
pub struct Texts {
    texts: IndexSet<Vec<u16>>,
}

impl Model for Texts {
    ghost use Rattle.std.specs.Prelude.{List, ℕ, map};

    ghost Value = { List (List ℕ) };

    ghost view = { λ t. map (λ v. v.items) t.texts.keys };
}

impl Texts {
    /// No texts. No memory is taken.
    pub fn new(alloc: Global) -> Texts
        ensures { result ≡ [] }
    {
        Texts {
            texts: IndexSet::new(alloc),
        }
    }

    /// The number of the text, which is kept from then on. After Memory nothing changed.
    pub fn intern(&mut self, text: Vec<u16>) -> Result<u64, Memory>
        ensures number { IfOk result (λ n. n ≡ number_of self.old text.items) }
        ensures ok { OnOk result (self.new ≡ interned self.old text.items) }
        ensures err { OnErr result (self.new ≡ self.old) }
    {
        let (number, _) = self.texts.insert_full(text)?;
        Ok(number as u64)
    }

    /// The units of the text with this number, None where no text has it. No other number has the same text.
    pub fn kept(&self, number: u64) -> Option<&[u16]>
        ensures number { IfSome result (λ t. number_of self.now t.now ≡ number) }
        ensures kept { IfSome result (λ t. interned self.now t.now ≡ self.now) }
    {
        let text = self.texts.as_slice().get(number as usize)?;
        Some(text.as_slice())
    }

    /// The units of the text with this number; there are none where no text has it.
    pub fn units(&self, number: u64) -> &[u16]
        ensures { result.now ≡ slice_index_or self.now number [] }
    {
        match self.texts.get_index(number as usize) {
            Some(text) => text.as_slice(),
            None => &[],
        }
    }
}
