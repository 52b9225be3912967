//! The numbers of functions by the places at which they start.

ghost use Rattle.std.specs.Prelude.{◌≡◌, ◌<◌, length, slice_get, Some};
ghost use Rattle.std.specs.Option.{option_map};
ghost use Rattle.hz_tree.specs.sources.Refusals.{functions as functions_in};
ghost use Rattle.hz_parse.specs.Turns as spec;
ghost use Rattle.hz_parse.specs.Turns.{arrow_at};

use hz_index::Index;
use hz_parts::Numbers;
use hz_tree::FunctionKind;

/// The functions of an index.
#[derive(Drop)]
pub struct Numbered<'i, 'a> {
    index: &'i Index<'a>,
}

impl<'i, 'a> Numbered<'i, 'a> {
    /// The functions of this index.
    pub fn new(index: &'i Index<'a>) -> Numbered<'i, 'a>
        ensures { result.index.now ≡ index.now }
    {
        Numbered { index }
    }

    /// The place in bytes at which the function with this number ends.
    pub fn end(&self, number: u32) -> usize
        requires { number < length (functions_in self.now.index.now.source) }
        ensures { option_map (λ f. f.end) (slice_get (functions_in self.now.index.now.source) number) ≡ Some result }
    {
        self.index.function(number).end
    }

    /// Whether a function that starts at this place, in bytes, is an arrow.
    pub fn is_arrow(&self, place: usize) -> bool
        ensures { result ≡ arrow_at (functions_in self.now.index.now.source) place }
    {
        let number = self.number_at(place);
        if number >= self.index.count() {
            return false;
        }
        let function = self.index.function(number);
        function.start == place && is_arrow_kind(function.kind)
    }
}

impl<'i, 'a> Numbers for Numbered<'i, 'a> {
    ghost functions = { λ n. functions_in n.index.now.source };

    /// Found by halving the list, since functions are numbered by where they start.
    fn number_at(&self, place: usize) -> u32 {
        let mut high = self.index.count();
        let mut low = if high == 0 { 0 } else { 1 };
        while low < high {
            let middle = low + (high - low) / 2;
            if self.index.function(middle).start < place {
                low = middle + 1;
            } else {
                high = middle;
            }
        }
        low
    }
}

fn is_arrow_kind(kind: FunctionKind) -> bool
    ensures { result ≡ spec.is_arrow_kind kind }
{
    match kind {
        FunctionKind::Arrow => true,
        _ => false,
    }
}
