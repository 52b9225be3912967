ghost use Rattle.std.specs.Prelude.{◌≡◌, ◌≤◌, [], false, IfOk, length, map};
ghost use Rattle.hz_tree.specs.grammar.Classes as spec;
ghost use Rattle.hz_tree.specs.sources.Refusals.{max_length};
ghost use Rattle.hz_tree.specs.tokens.Tokens.{tokens};
ghost use Rattle.hz_cursor.specs.Marks.{marks_from};
ghost use Rattle.hz_cursor.specs.Stored.{stored, longs};

use crate::mark::Mark;
use crate::store::Store;
use crate::tally::Tally;
use hz_list::Memory;
use hz_scan::{Tokens, class_of};
use std::alloc::Global;

/// The tokens of a source, and the marks of its parentheses.
#[tactic(auto, using(hz_scan::proofs::OrderLemmas::in_order))]
pub fn read_tokens(alloc: Global, source: &[u8]) -> Result<(Store, Vec<Mark>), Memory>
    requires { length source.now ≤ max_length }
    ensures tokens { IfOk result (λ read. read.0.tokens ≡ stored 0 (tokens source.now)) }
    ensures long { IfOk result (λ read. read.0.long ≡ longs 0 (tokens source.now)) }
    ensures marks { IfOk result
        (λ read. read.1.items ≡ marks_from false [] (map spec.class_of (tokens source.now))) }
{
    let mut left = Tokens::new(alloc, source);
    let mut store = Store::new(alloc);
    let mut tally = Tally::new(alloc);
    while let Some(token) = left.next()? {
        let class = class_of(&token);
        tally.follow(class)?;
        store.push(&token, class)?;
    }
    Ok((store, tally.into_marks()?))
}
