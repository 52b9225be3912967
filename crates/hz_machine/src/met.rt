// What is remembered of the texts of the code, so that a text that was met is found at once.
//
// Nothing is proved of it: whoever uses a number that stands here compares the texts.
use std::alloc::Global;

/// Where a text of the code was met: its number among the texts of the run, and the place of the global of this name.
#[derive(Clone, Copy, Debug, Default)]
struct Place {
    text: Option<u64>,
    global: Option<u64>,
}

/// The places of texts by their numbers in the code.
#[derive(Debug, Drop)]
pub(crate) struct Met {
    places: Vec<Place>,
}

/// No place is kept of texts with greater numbers: no source has so many texts.
const MOST: u64 = 16777216;

impl Met {
    /// No text was met. No memory is taken.
    pub(crate) fn new(alloc: Global) -> Met {
        Met {
            places: Vec::new(alloc),
        }
    }

    fn place(&self, id: u64) -> Place {
        self.places.get(id as usize).copied().unwrap_or_default()
    }

    /// The number of the text among the texts of the run.
    #[inline(always)]
    pub(crate) fn text(&self, id: u64) -> Option<u64> {
        self.place(id).text
    }

    /// The place of the global of this name.
    #[inline(always)]
    pub(crate) fn global(&self, id: u64) -> Option<u64> {
        self.place(id).global
    }

    /// Keeps the place, where there is memory for it.
    fn keep(&mut self, id: u64, place: Place) {
        if id >= MOST {
            return;
        }
        let length = self.places.len();
        if id as usize >= length
            && self
                .places
                .resize(id as usize + 1, Place::default())
                .is_err()
        {
            return;
        }
        if let Some(there) = self.places.get_mut(id as usize) {
            *there = place;
        }
    }

    /// The text has this number among the texts of the run.
    pub(crate) fn note_text(&mut self, id: u64, number: u64) {
        let place = self.place(id);
        self.keep(
            id,
            Place {
                text: Some(number),
                ..place
            },
        );
    }

    /// The global of this name stands at this place.
    pub(crate) fn note_global(&mut self, id: u64, index: u64) {
        let place = self.place(id);
        self.keep(
            id,
            Place {
                global: Some(index),
                ..place
            },
        );
    }
}
