use hz_list::Memory;
use std::alloc::Global;
use std::marker::Model;

/// The places at which the layers of a list start. The outermost layer starts at 0 and is not kept.
#[derive(Drop)]
pub struct Starts {
    /// The innermost one last.
    places: Vec<usize>,
}

impl Model for Starts {
    ghost use Rattle.std.specs.Prelude.{List, ℕ, reverse};

    ghost Value = { List ℕ };

    ghost view = { λ s. reverse s.places.items };
}

impl Starts {
    ghost use Rattle.std.specs.Prelude.{◌≡◌, ◌∷◌, [], drop, OnOk, OnErr};
    ghost use Rattle.hz_scopes.specs.Layers.{first_start};

    /// The outermost layer alone. No memory is taken.
    pub fn new(alloc: Global) -> Starts
        ensures { result ≡ [] }
    {
        Starts {
            places: Vec::new(alloc),
        }
    }

    /// Where the innermost layer starts.
    #[tactic(auto, using(crate::proofs::LayersLemmas::last_start))]
    pub fn innermost(&self) -> usize
        ensures { result ≡ first_start self.now }
    {
        match self.places.last() {
            Some(place) => *place,
            None => 0,
        }
    }

    /// A layer starts here. After Memory all is as before.
    pub fn open(&mut self, place: usize) -> Result<(), Memory>
        ensures ok { OnOk result (self.new ≡ place ∷ self.old) }
        ensures err { OnErr result (self.new ≡ self.old) }
    {
        self.places.push(place)?;
        Ok(())
    }

    /// The innermost layer goes, but the outermost one.
    pub fn close(&mut self)
        ensures { self.new ≡ drop 1 self.old }
    {
        let _ = self.places.pop();
    }
}
