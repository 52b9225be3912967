use hz_list::Memory;
use sqlite_items::Items;
use std::alloc::Global;
use std::marker::Model;

/// A list that grows at its front. Contracts see its items in order, the last one that was put in first.
#[derive(Drop)]
pub struct Backwards<T> {
    items: Vec<T>,
}

impl<T> Model for Backwards<T> {
    ghost use Rattle.std.specs.Prelude.{List, reverse};

    ghost Value = { List T };

    ghost view = { λ b. reverse b.items.items };
}

impl<T> Backwards<T> {
    ghost use Rattle.std.specs.Prelude.{◌≡◌, ◌↔◌, [], ◌∷◌, drop, IsTrue, MatchOption};

    /// The empty list. No memory is taken.
    pub fn new(alloc: Global) -> Backwards<T>
        ensures { result ≡ [] }
    {
        Backwards {
            items: Vec::new(alloc),
        }
    }

    /// Takes the first item. None where there is none.
    pub fn pop(&mut self) -> Option<T>
        ensures { MatchOption result ((self.old ≡ []) × (self.new ≡ [])) (λ item. self.old ≡ item ∷ self.new) }
    {
        self.items.pop()
    }

    /// The first item. None where there is none.
    pub fn first(&self) -> Option<&T>
        ensures { MatchOption result (self.now ≡ []) (λ item. self.now ≡ item.now ∷ drop 1 self.now) }
    {
        self.items.last()
    }

    /// Whether there is no item.
    pub fn is_empty(&self) -> bool
        ensures { IsTrue result ↔ (self.now ≡ []) }
    {
        self.items.is_empty()
    }
}

impl<T: Drop> Backwards<T> {
    ghost use Rattle.std.specs.Prelude.{◌≡◌, ◌∷◌, OnOk};

    /// Puts an item in front of the others. Only memory can fail.
    pub fn push(&mut self, item: T) -> Result<(), Memory>
        ensures { OnOk result (self.new ≡ item ∷ self.old) }
    {
        self.items.push(item)?;
        Ok(())
    }

    /// The items in order. No memory is taken.
    pub fn into_items(self) -> Items<T>
        ensures { result ≡ self }
    {
        let Backwards { mut items } = self;
        items.reverse();
        Items::from_vec(items)
    }
}
