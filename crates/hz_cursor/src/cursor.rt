ghost use Rattle.std.specs.Prelude.{◌≡◌, ◌≤◌, drop, length, option_map, reverse};
ghost use Rattle.std.specs.List.{slice_get};
ghost use Rattle.hz_cursor.specs.Marks.{first_or_false};
ghost use Rattle.hz_cursor.specs.Stored as spec;
ghost use Rattle.hz_cursor.specs.Stored.{Taken};

use crate::arrows::flags_of;
use crate::reading::read_tokens;
use crate::store::{lengthen, lengthened, lengthened_behind};
use crate::stored::Stored;
use hz_list::Memory;
use hz_scan::{Seen, look_at};
use hz_tree::{Class, Look};
use std::alloc::Global;
use std::marker::Model;

/// The terminals of a source that are left, of which the next two can be seen.
///
/// It takes five bytes for each token, one for each parenthesis, and eight for each token and each gap of more than
/// 254 bytes. Each token is scanned once.
#[derive(Drop)]
pub struct Cursor<'a> {
    source: &'a [u8],

    /// All tokens, the last one included.
    tokens: Vec<Stored>,

    /// How many of them were taken.
    taken: usize,

    /// The place at which the last one of these ends.
    end: usize,

    /// The long numbers of those that are left, the next one last.
    long: Vec<usize>,

    /// For each `(` that is left, whether it begins the parameters of an arrow. The next one comes last.
    arrows: Vec<bool>,

    look: Look,
}

impl<'a> Model for Cursor<'a> {
    ghost use Rattle.std.specs.Prelude.{List, reverse};
    ghost use Rattle.hz_tree.specs.grammar.Look as grammar;
    ghost use Rattle.hz_cursor.specs.Cursor.{left, IsCursor};

    ghost Value = { List grammar.Terminal };

    ghost view = { λ c. left c.source.now c.taken c.end };

    ghost invariant = { λ c. IsCursor c.source.now c.taken c.end c.tokens.items (reverse c.long.items) (reverse c.arrows.items) c.look };
}

impl<'a> Cursor<'a> {
    ghost use Rattle.std.specs.Prelude.{◌≡◌, ◌≤◌, IfOk, length, drop};
    ghost use Rattle.hz_tree.specs.grammar.Look.{look, terminals};
    ghost use Rattle.hz_tree.specs.reading.Reading.{place_ahead, text_ahead, octal_ahead, end_behind};
    ghost use Rattle.hz_tree.specs.sources.Refusals.{max_length};
    ghost use Rattle.hz_cursor.specs.Cursor.{Eats};

    /// A cursor at the start of a source.
    pub fn new(alloc: Global, source: &'a [u8]) -> Result<Cursor<'a>, Memory>
        requires { length source.now ≤ max_length }
        ensures { IfOk result (λ cursor. cursor ≡ terminals source.now) }
    {
        let (store, marks) = read_tokens(alloc, source)?;
        let arrows = flags_of(alloc, marks)?;
        let (tokens, long) = store.into_parts();
        let look = first_two(rest(&tokens, 0), &arrows);
        Ok(Cursor {
            source,
            tokens,
            taken: 0,
            end: 0,
            long,
            arrows,
            look,
        })
    }

    /// The next two terminals, as the rules of the grammar test them.
    pub fn look(&self) -> Look
        ensures { result ≡ look self.now }
    {
        self.look
    }

    /// Takes the next terminal where the grammar takes it for a token of the class, and tells whether it did.
    pub fn eat(&mut self, wanted: Class) -> bool
        ensures { Eats wanted self.old self.new result }
    {
        match next(&self.tokens, self.taken) {
            Some(one) if wanted.fits(one.class) => {
                let (gap, len) = go_past(one, &mut self.long, &mut self.arrows);
                self.end += gap + len;
                self.taken += 1;
                self.look = first_two(rest(&self.tokens, self.taken), &self.arrows);
                true
            }
            _ => false,
        }
    }

    /// The place of the next token, counted in bytes, or 0 where none is left.
    pub fn place(&self) -> usize
        ensures { result ≡ place_ahead self.now }
    {
        match next(&self.tokens, self.taken) {
            Some(one) => self.end + lengthened(one.gap, &self.long),
            None => 0,
        }
    }

    /// The text of the next token, or none where none is left.
    pub fn text(&self) -> &'a [u8]
        ensures { result.now ≡ text_ahead self.now }
    {
        match next(&self.tokens, self.taken) {
            Some(one) => {
                let at = self.end + lengthened(one.gap, &self.long);
                let len = lengthened_behind(one.gap, one.len, &self.long);
                &self.source[at..at + len]
            }
            None => &[],
        }
    }

    /// Whether the next token is a string literal with a legacy octal escape.
    pub fn octal(&self) -> bool
        ensures { result ≡ octal_ahead self.now }
    {
        match next(&self.tokens, self.taken) {
            Some(one) => one.octal,
            None => false,
        }
    }

    /// The place at which the token before the next one ends, counted in bytes, or 0 where no token is left.
    pub fn behind(&self) -> usize
        ensures { result ≡ end_behind self.now }
    {
        match next(&self.tokens, self.taken) {
            Some(_) => self.end,
            None => 0,
        }
    }
}

/// The tokens behind so many.
fn rest(tokens: &Vec<Stored>, taken: usize) -> &[Stored]
    requires { taken ≤ length tokens.now.items }
    ensures { result.now ≡ drop taken tokens.now.items }
{
    &tokens[taken..]
}

/// The token behind so many.
fn next(tokens: &Vec<Stored>, taken: usize) -> Option<Stored>
    ensures { result ≡ slice_get tokens.now.items taken }
{
    tokens.get(taken).copied()
}

/// Goes past the token that is stored so, and gives the length of the gap before it and its own.
fn go_past(one: Stored, long: &mut Vec<usize>, arrows: &mut Vec<bool>) -> (usize, usize)
    ensures { Taken one (reverse long.old.items) (reverse arrows.old.items) result.0 result.1
        (reverse long.new.items) (reverse arrows.new.items) }
{
    let gap = lengthen(one.gap, long);
    let len = lengthen(one.len, long);
    if one.class.is_paren() {
        let _ = arrows.pop();
    }
    (gap, len)
}

/// The look of the first two of these tokens, where the flag of the next parenthesis comes last.
fn first_two(tokens: &[Stored], arrows: &Vec<bool>) -> Look
    ensures { result ≡ spec.first_two tokens.now (reverse arrows.now.items) }
{
    look_at(
        seen_at(tokens, 0),
        seen_at(tokens, 1),
        last_or_false(arrows),
    )
}

fn seen_at(tokens: &[Stored], i: usize) -> Option<Seen>
    ensures { result ≡ option_map spec.seen (slice_get tokens.now i) }
{
    match tokens.get(i) {
        Some(token) => Some(token.seen()),
        None => None,
    }
}

fn last_or_false(arrows: &Vec<bool>) -> bool
    ensures { result ≡ first_or_false (reverse arrows.now.items) }
{
    arrows.last().copied().unwrap_or(false)
}
