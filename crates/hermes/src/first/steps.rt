// The steps of the reader of first texts: each goes over one byte from one state to the next.

ghost use Rattle.std.specs.Prelude.{◌≡◌, ◌≢◌, ◌<◌, ◌+◌, ◌^◌, [], length, slice_index, slice_range, List, ℕ};
ghost use Rattle.std.specs.Prelude.{MatchOption, if◌then◌else◌, IsTrue, false, Some, None};
ghost use Rattle.std.specs.Int.{IsInRange};
ghost use Rattle.hermes.specs.declared.first.language.Argument.{Argument};
ghost use Rattle.hermes.specs.declared.first.state.Operator.{Operator};
ghost use Rattle.hermes.specs.first.Texts.{is_blank, is_number, is_text_byte};
ghost use Rattle.hermes.specs.first.Reading.{operator_byte, Rest, RestToken, RestText, RestNumber, IsState, Stepped};

use crate::first::language::{Argument, Calls, FirstFault, Sign, Sum, Text};
use crate::first::state::{Next, Operator, State};
use crate::first::sums::sum_at;
use hz_value::MAX_SAFE;
use std::alloc::Global;

const MAX_TEXT: usize = 254;

fn is_blank_byte(byte: u8) -> bool
    ensures { result ≡ is_blank byte }
{
    byte == b' ' || byte == b'\n'
}

fn stands_in_text(byte: u8) -> bool
    ensures { result ≡ is_text_byte byte }
{
    byte >= b' ' && byte <= b'~' && byte != b'"' && byte != b'\\'
}

/// The value of a digit.
fn digit_of(byte: u8) -> Option<u64>
    ensures { MatchOption result (IsInRange 48 57 byte → ⊥) (λ d. (d < 10) × (byte ≡ 48 + d)) }
{
    if byte >= b'0' && byte <= b'9' {
        Some((byte - b'0') as u64)
    } else {
        None
    }
}

/// The operator that the byte spells.
fn operator_of(byte: u8) -> Option<Operator>
    ensures { MatchOption result ((operator : Operator) → byte ≢ operator_byte operator)
        (λ operator. byte ≡ operator_byte operator) }
{
    if byte == b'+' {
        Some(Operator::Sign(Sign::Plus))
    } else if byte == b'-' {
        Some(Operator::Sign(Sign::Minus))
    } else if byte == b'*' {
        Some(Operator::Times)
    } else {
        None
    }
}

/// The step over a byte of a text whose bytes begin at `start`. Its closing quote adds it to the calls.
fn text_step<'a>(
    source: &'a [u8],
    at: usize,
    calls: &mut Calls<'a>,
    start: usize,
) -> Result<State, FirstFault>
    requires place { at < length source.now }
    requires valid { IsState at (State.Text start) }
    ensures { Stepped (RestText (slice_range source.entry.now start at) calls.old) source.entry.now
        at (slice_index source.entry.now at) calls.new result }
{
    let byte = source[at];
    if byte == b'"' {
        calls.push(Argument::Text(Text::new(&source[start..at])))?;
        return Ok(State::Token(&[], Next::Close));
    }
    if at - start >= MAX_TEXT {
        return Err(FirstFault::NotYet(at));
    }
    advance(at, stands_in_text(byte), State::Text(start))
}

/// The step over a digit of that value in a number.
fn digit_step(
    at: usize,
    before: Option<(Sum, Operator)>,
    value: u64,
    digit: u64,
) -> Result<State, FirstFault>
    requires value { IsTrue (is_number value) }
    requires digit { digit < 10 }
    ensures { (source : List ℕ) (done : List Argument)
        → Stepped (RestNumber before value done) source at (48 + digit) done result }
{
    if value == 0 {
        return Err(FirstFault::NotYet(at));
    }
    let longer = value * 10 + digit;
    if longer > MAX_SAFE {
        return Err(FirstFault::NotYet(at));
    }
    Ok(State::Number(before, longer))
}

/// The step over a byte behind a number of a sum, which is no blank. `)` adds the sum to the calls.
fn sum_step(at: usize, calls: &mut Calls<'_>, sum: Sum, byte: u8) -> Result<State, FirstFault>
    requires { is_blank byte ≡ false }
    ensures { (source : List ℕ)
        → Stepped (RestToken [] (Next.Operator sum) calls.old) source at byte calls.new result }
{
    if byte == b')' {
        calls.push(Argument::Sum(sum))?;
        return Ok(State::Token(&[], Next::End));
    }
    match operator_of(byte) {
        Some(operator) => Ok(State::Token(&[], Next::Number(sum, operator))),
        None => Err(FirstFault::NotYet(at)),
    }
}

/// The step over the first byte of an argument.
fn argument_step(at: usize, byte: u8) -> Result<State, FirstFault>
    requires solid { is_blank byte ≡ false }
    requires room { at + 1 < 2 ^ 64 }
    ensures { (source : List ℕ) (done : List Argument)
        → Stepped (RestToken [] Next.Argument done) source at byte done result }
{
    if byte == b'"' {
        return Ok(State::Text(at + 1));
    }
    match digit_of(byte) {
        Some(digit) => Ok(State::Number(None, digit)),
        None => Err(FirstFault::NotYet(at)),
    }
}

/// The step over the first byte of a number behind an operator.
fn number_step(at: usize, sum: Sum, operator: Operator, byte: u8) -> Result<State, FirstFault>
    requires { is_blank byte ≡ false }
    ensures { (source : List ℕ) (done : List Argument)
        → Stepped (RestToken [] (Next.Number sum operator) done) source at byte done result }
{
    match digit_of(byte) {
        Some(digit) => Ok(State::Number(Some((sum, operator)), digit)),
        None => Err(FirstFault::NotYet(at)),
    }
}

/// The state, where the byte at that place leads to it.
fn advance(at: usize, fits: bool, state: State) -> Result<State, FirstFault>
    ensures { result ≡ (if fits then Ok state else Err (FirstFault.NotYet at)) }
{
    if fits {
        Ok(state)
    } else {
        Err(FirstFault::NotYet(at))
    }
}

/// The step over the first byte of a token.
fn token_step(at: usize, calls: &mut Calls<'_>, next: Next, byte: u8) -> Result<State, FirstFault>
    requires solid { is_blank byte ≡ false }
    requires room { at + 1 < 2 ^ 64 }
    ensures { (source : List ℕ)
        → Stepped (RestToken [] next calls.old) source at byte calls.new result }
{
    match next {
        Next::Call => advance(at, byte == b'p', State::Token(b"rint", Next::Open)),
        Next::Open => advance(at, byte == b'(', State::Token(&[], Next::Argument)),
        Next::Close => advance(at, byte == b')', State::Token(&[], Next::End)),
        Next::End => advance(at, byte == b';', State::Token(&[], Next::Call)),
        Next::Argument => argument_step(at, byte),
        Next::Number(sum, operator) => number_step(at, sum, operator, byte),
        Next::Operator(sum) => sum_step(at, calls, sum, byte),
    }
}

/// The step over a byte behind a token, which may be a blank.
fn behind_step(at: usize, calls: &mut Calls<'_>, next: Next, byte: u8) -> Result<State, FirstFault>
    requires { at + 1 < 2 ^ 64 }
    ensures { (source : List ℕ)
        → Stepped (RestToken [] next calls.old) source at byte calls.new result }
{
    if is_blank_byte(byte) {
        return Ok(State::Token(&[], next));
    }
    token_step(at, calls, next, byte)
}

/// The step over a byte in a number or behind it.
fn value_step(
    alloc: Global,
    at: usize,
    calls: &mut Calls<'_>,
    before: Option<(Sum, Operator)>,
    value: u64,
    byte: u8,
) -> Result<State, FirstFault>
    requires room { at + 1 < 2 ^ 64 }
    requires value { IsTrue (is_number value) }
    ensures { (source : List ℕ)
        → Stepped (RestNumber before value calls.old) source at byte calls.new result }
{
    match digit_of(byte) {
        Some(digit) => digit_step(at, before, value, digit),
        None => {
            let sum = sum_at(alloc, before, value)?;
            behind_step(at, calls, Next::Operator(sum), byte)
        }
    }
}

/// The step over the byte at that place.
pub(crate) fn step<'a>(
    alloc: Global,
    source: &'a [u8],
    at: usize,
    calls: &mut Calls<'a>,
    state: State,
) -> Result<State, FirstFault>
    requires place { at < length source.now }
    requires valid { IsState at state }
    ensures { Stepped (Rest source.entry.now at state calls.old) source.entry.now at
        (slice_index source.entry.now at) calls.new result }
{
    let byte = source[at];
    match state {
        State::Token([], next) => behind_step(at, calls, next, byte),
        State::Token([first, rest @ ..], next) => advance(
            at,
            byte == *first,
            State::Token(rest, next),
        ),
        State::Text(start) => text_step(source, at, calls, start),
        State::Number(before, value) => value_step(alloc, at, calls, before, value, byte),
    }
}
