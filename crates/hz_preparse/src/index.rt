ghost use Rattle.std.specs.Prelude.{◌≡◌, Bool, IfOk, IfErr, OnOk, None};
ghost use Rattle.hz_tree.specs.sources.Refusals as spec;
ghost use Rattle.hz_preparse.specs.Outcome.{Refuses, IsText, Kept, Reads};

use crate::fault::PreFault;
use crate::heard::Heard;
use crate::recogniser::recognise;
use hz_cursor::Cursor;
use hz_index::Index;
use hz_list::Memory;
use hz_tree::{MAX_LENGTH, Refusal};
use std::alloc::Global;

/// Reads a source, ECMA-262's Script in strict code without what `OutsideKind` lists, and gives its index. `strict`
/// tells that it is strict code whether it says so or not.
///
/// - `Ok`: the source is not refused. The index holds the source, the flag, the source's functions, and their scopes and
///   free names.
/// - `Refused`: the source is refused, and this is the reason. The first that holds counts: it is too long, it is no
///   UTF-8, the grammar is stuck in it, it is not strict code, it has an early error, it is outside the profile, or it
///   passes a limit. Of early errors the first by place counts, and at one place the first in the order of their kinds;
///   so too of the others. Functions that are never called count like all others. Places are counted in bytes.
/// - `Memory`: memory ran out. This can come in the place of either.
///
/// The expected time is linear in the source's length and the size of the answer; names are found by hashing. A construct within others takes memory and no recursion.
pub fn preparse<'a>(alloc: Global, source: &'a [u8], strict: bool) -> Result<Index<'a>, PreFault>
    ensures index { IfOk result (λ index. index ≡ record { source = source.now; strict = strict }) }
    ensures accepted { OnOk result (spec.refusal_of source.now strict ≡ None) }
    ensures refused { IfErr result (Refuses (spec.refusal_of source.now strict)) }
{
    check_text(source)?;
    index_of(alloc, source, strict)
}

/// Whether the grammar can read the bytes at all.
#[tactic(auto, unfolding(hz_tree::specs::sources::Refusals::refusal_of))]
fn check_text(source: &[u8]) -> Result<(), PreFault>
    ensures text { OnOk result (IsText source.now) }
    ensures refused { IfErr result
        (λ fault. (strict : Bool) → Refuses (spec.refusal_of source.now strict) fault) }
{
    if source.len() > MAX_LENGTH {
        return Err(PreFault::Refused(Refusal::TooLong));
    }
    match str::from_utf8(source) {
        Ok(_) => Ok(()),
        Err(error) => Err(PreFault::Refused(Refusal::NotUtf8(error.valid_up_to()))),
    }
}

/// The index of a text that is not refused.
fn index_of<'a>(alloc: Global, source: &'a [u8], strict: bool) -> Result<Index<'a>, PreFault>
    requires { IsText source.now }
    ensures { Reads source.now strict result }
{
    let mut cursor = Cursor::new(alloc, source)?;
    let begun = Heard::new(alloc, source)?;
    let heard = recognise(alloc, &mut cursor, begun)?;
    match heard.refusal(strict) {
        Some(refusal) => Err(PreFault::Refused(refusal)),
        None => Ok(finish(heard, source, strict)?),
    }
}

/// The index of a source that is not refused, of which this is what was heard.
fn finish<'a>(heard: Heard<'a>, source: &'a [u8], strict: bool) -> Result<Index<'a>, Memory>
    requires accepted { spec.refusal_of source.now strict ≡ None }
    requires functions { heard.draft.functions ≡ spec.functions source.now }
    requires scopes { Kept source.now heard.scopes }
    ensures { IfOk result (λ index. index ≡ record { source = source.now; strict = strict }) }
{
    let (functions, kept) = heard.finish(source.len())?;
    match kept {
        Some(scopes) => Ok(Index::new(source, strict, functions, scopes)),
        None => unreachable!(),
    }
}
