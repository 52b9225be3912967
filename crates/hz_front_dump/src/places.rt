use hz_list::Memory;
use hz_scan::list_tokens;
use std::alloc::Global;
use std::marker::Model;

/// Where the tokens of a source begin. Contracts see the source.
#[derive(Drop)]
pub struct TokenPlaces<'a> {
    source: &'a [u8],

    /// For each place of the source, its end, and one place more: how many tokens begin before it.
    before: Vec<usize>,
}

impl<'a> Model for TokenPlaces<'a> {
    ghost use Rattle.std.specs.Prelude.{◌+◌, length};
    ghost use Rattle.hz_tree.specs.tokens.Text.{Text};
    ghost use Rattle.hz_tree.specs.tokens.Tokens.{tokens};
    ghost use Rattle.hz_front_dump.specs.Places.{HasBefore};

    ghost Value = { Text };

    ghost view = { λ p. p.source.now };

    ghost invariant = { λ p. HasBefore (tokens p.source.now) (length p.source.now + 1) p.before.items };
}

impl<'a> TokenPlaces<'a> {
    ghost use Rattle.std.specs.Prelude.{◌≡◌, IfOk};
    ghost use Rattle.hz_tree.specs.tokens.Tokens.{tokens};
    ghost use Rattle.hz_tree.specs.trees.FunctionTrees.{tokens_within};
    ghost use Rattle.hz_front_dump.specs.Places.{begin_before};

    /// The tokens of this source.
    pub fn new(alloc: Global, source: &'a [u8]) -> Result<TokenPlaces<'a>, Memory>
        ensures { IfOk result (λ places. places ≡ source.entry.now) }
    {
        let starts = starts(alloc, source)?;
        let before = sums(alloc, &starts, source)?;
        Ok(TokenPlaces { source, before })
    }

    /// How many tokens begin in a part of the source.
    pub fn within(&self, start: usize, end: usize) -> usize
        ensures { result ≡ tokens_within self.now start end }
    {
        self.before(end).saturating_sub(self.before(start))
    }

    fn before(&self, place: usize) -> usize
        ensures { result ≡ begin_before place (tokens self.now) }
    {
        let last = self.before.len() - 1;
        self.before[place.min(last)]
    }
}

ghost use Rattle.std.specs.Prelude.{◌≡◌, ◌+◌, length, IfOk};
ghost use Rattle.hz_tree.specs.tokens.Tokens.{tokens};
ghost use Rattle.hz_front_dump.specs.Places.{HasStarts, HasBefore};

/// How many tokens begin at each place of a source and at its end.
fn starts(alloc: Global, source: &[u8]) -> Result<Vec<usize>, Memory>
    ensures long { IfOk result (λ starts. length starts.items ≡ length source.now + 1) }
    ensures each { IfOk result (λ starts. HasStarts (tokens source.now) starts.items) }
{
    let tokens = list_tokens(alloc, source)?;
    let mut starts = vec![in alloc; 0; source.len() + 1]?;
    for token in &tokens {
        starts[token.at] += 1;
    }
    Ok(starts)
}

/// How many begin before each place, its end, and one place more, from how many begin at each.
fn sums(alloc: Global, starts: &[usize], source: &[u8]) -> Result<Vec<usize>, Memory>
    requires long { length starts.now ≡ length source.now + 1 }
    requires each { HasStarts (tokens source.now) starts.now }
    ensures { IfOk result (λ before. HasBefore (tokens source.now) (length source.now + 1) before.items) }
{
    let mut before = Vec::new(alloc);
    let mut total = 0;
    before.push(total)?;
    for count in starts {
        total += *count;
        before.push(total)?;
    }
    Ok(before)
}
