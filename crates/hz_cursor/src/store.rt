ghost use Rattle.std.specs.Prelude.{◌≡◌, ◌≤◌, ◌+◌, ◌++◌, OnOk, IfOk, drop, reverse};
ghost use Rattle.hz_tree.specs.reading.Reading.{has_octal as octal_in};
ghost use Rattle.hz_cursor.specs.Stored.{shortened, long_of, full, past_full, first_or_zero};

use crate::stored::Stored;
use hz_list::Memory;
use hz_tree::{Class, Token, TokenKind};
use std::alloc::Global;
use std::marker::Model;

/// The tokens at the front of a source, without their texts.
#[derive(Drop)]
pub struct Store {
    tokens: Vec<Stored>,

    /// The numbers that do not fit into a byte, in the order of the tokens.
    long: Vec<usize>,

    /// The place at which the last token ends.
    end: usize,
}

impl Model for Store {
    ghost use Rattle.hz_cursor.specs.Stored.{Kept};

    ghost Value = { Kept };

    ghost view = { λ s. record { tokens = s.tokens.items; long = s.long.items; end = s.end } };
}

impl Store {
    ghost use Rattle.std.specs.Prelude.{◌≡◌, ◌≤◌, ◌+◌, [], OnOk, length, reverse};
    ghost use Rattle.hz_tree.specs.sources.Refusals.{max_length};
    ghost use Rattle.hz_tree.specs.tokens.Tokens.{lexeme};
    ghost use Rattle.hz_cursor.specs.Stored.{with_token};

    pub fn new(alloc: Global) -> Store
        ensures { result ≡ record { tokens = []; long = []; end = 0 } }
    {
        Store {
            tokens: Vec::new(alloc),
            long: Vec::new(alloc),
            end: 0,
        }
    }

    /// Goes past a token of the class.
    pub fn push(&mut self, token: &Token<'_>, class: Class) -> Result<(), Memory>
        requires after { self.old.end ≤ token.now.at }
        requires inside { token.now.at + length token.now.text.now ≤ max_length }
        ensures { OnOk result (self.new ≡ with_token class (lexeme token.now) self.old) }
    {
        let gap = shorten(&mut self.long, token.at - self.end)?;
        let len = shorten(&mut self.long, token.text.len())?;
        self.tokens.push(Stored {
            class,
            newline: token.newline,
            octal: has_octal(token.kind),
            gap,
            len,
        })?;
        self.end = token.at + token.text.len();
        Ok(())
    }

    /// The tokens, and the long numbers, of which the first one comes last.
    pub fn into_parts(self) -> (Vec<Stored>, Vec<usize>)
        ensures tokens { result.0.items ≡ self.tokens }
        ensures long { reverse result.1.items ≡ self.long }
    {
        let Store {
            tokens,
            mut long,
            end: _,
        } = self;
        long.reverse();
        (tokens, long)
    }
}

/// Whether it is a string literal with a legacy octal escape.
fn has_octal(kind: TokenKind) -> bool
    ensures { result ≡ octal_in kind }
{
    matches!(kind, TokenKind::Text { octal: true })
}

/// A number in a byte, or 255, and then it is kept with the long ones.
fn shorten(long: &mut Vec<usize>, number: usize) -> Result<u8, Memory>
    ensures short { IfOk result (λ short. short ≡ shortened number) }
    ensures long { OnOk result (long.new.items ≡ long.old.items ++ long_of number) }
{
    if number < 255 {
        Ok(number as u8)
    } else {
        long.push(number)?;
        Ok(255)
    }
}

/// The number that is stored so, where the first long one comes last.
pub fn lengthened(short: u8, long: &Vec<usize>) -> usize
    ensures { result ≡ full short (reverse long.now.items) }
{
    if short < 255 {
        usize::from(short)
    } else {
        long.last().copied().unwrap_or(0)
    }
}

/// Takes the number that is stored so.
pub fn lengthen(short: u8, long: &mut Vec<usize>) -> usize
    ensures value { result ≡ full short (reverse long.old.items) }
    ensures rest { reverse long.new.items ≡ past_full short (reverse long.old.items) }
{
    if short < 255 {
        usize::from(short)
    } else {
        long.pop().unwrap_or(0)
    }
}

/// The number that is stored so behind that of `before`, where the first long one comes last.
pub fn lengthened_behind(before: u8, short: u8, long: &Vec<usize>) -> usize
    ensures { result ≡ full short (past_full before (reverse long.now.items)) }
{
    if short < 255 {
        return usize::from(short);
    }
    if before < 255 {
        long.last().copied().unwrap_or(0)
    } else {
        second_last(long)
    }
}

fn second_last(long: &Vec<usize>) -> usize
    ensures { result ≡ first_or_zero (drop 1 (reverse long.now.items)) }
{
    let count = long.len();
    if count < 2 {
        return 0;
    }
    match long.get(count - 2) {
        Some(number) => *number,
        None => 0,
    }
}
