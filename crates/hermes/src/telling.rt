// The line on standard error.
//
// It goes out in pieces, without memory: what it describes may have any length.

ghost use Rattle.std.specs.Prelude.{◌≡◌, ◌<◌, ◌&&◌, [], ◌∷◌, ◌++◌, length, true, unwrap_or, IfNone, IfSome};
ghost use Rattle.std.specs.Char.Utf16.{is_high_surrogate, is_low_surrogate, lone_unit_char, surrogate_pair_char, utf16_lossy_chars};
ghost use Rattle.hermes.specs.Effects.{GetsLine, Sends};
ghost use Rattle.hermes.specs.Printing.{line_bytes, utf8};
ghost use Rattle.hermes.specs.Statuses.{behind_front, line_of};

use crate::status::Status;
use arrayvec::ArrayString;
use hz_io::{Failed, Sink};

/// Sends the line of the status, where it has one. After a fault a front of it was sent. It takes no memory.
pub fn tell<E: Sink>(status: &Status, err: &mut E)
    ensures line { GetsLine (E.told err.old).got (E.told err.new).got (E.count err.old) (E.count err.new)
        (line_of status.now) }
{
    match send_line(status, err) {
        Ok(()) => {}
        Err(_) => {}
    }
}

// Sends the line of the status.
fn send_line<E: Sink>(status: &Status, err: &mut E) -> Result<(), Failed>
    ensures { Sends (E.told err.old).got (E.told err.new).got (E.count err.old) (E.count err.new)
        (line_of status.now) result }
{
    send(status.front().as_slice(), err)?;
    send_behind_front(status, err)
}

// Sends what stands behind the front of the line.
fn send_behind_front<E: Sink>(status: &Status, err: &mut E) -> Result<(), Failed>
    ensures { Sends (E.told err.old).got (E.told err.new).got (E.count err.old) (E.count err.new)
        (behind_front status.now) result }
{
    match status {
        Status::Uncaught(description) => send_description(description.as_slice(), err),
        _ => Ok(()),
    }
}

// Sends the description, and a newline behind it.
fn send_description<E: Sink>(description: &[u16], err: &mut E) -> Result<(), Failed>
    ensures { Sends (E.told err.old).got (E.told err.new).got (E.count err.old) (E.count err.new)
        (line_bytes description.now) result }
{
    send_text(description, err)?;
    send(b"\n", err)
}

// Sends the text in UTF-8, piece by piece.
fn send_text<E: Sink>(units: &[u16], err: &mut E) -> Result<(), Failed>
    ensures { Sends (E.told err.old).got (E.told err.new).got (E.count err.old) (E.count err.new)
        (utf8 units.now) result }
{
    let mut rest = units;
    while !rest.is_empty() {
        let (piece, behind) = piece_of(rest);
        send(piece.as_str().as_bytes(), err)?;
        rest = behind;
    }
    Ok(())
}

// Sends the bytes, where there are any.
fn send<E: Sink>(bytes: &[u8], err: &mut E) -> Result<(), Failed>
    ensures { Sends (E.told err.old).got (E.told err.new).got (E.count err.old) (E.count err.new) bytes.now
        result }
{
    if bytes.is_empty() {
        return Ok(());
    }
    err.put(bytes)
}

/// A piece of a text in UTF-8.
type Piece = ArrayString<256>;

// The first characters of a text, as many as there is room for, and the units behind them.
fn piece_of(units: &[u16]) -> (Piece, &[u16])
    requires { 0 < length units.now }
    ensures bytes { utf8 units.now ≡ result.0.bytes ++ utf8 result.1.now }
    ensures some { length result.1.now < length units.now }
{
    let mut piece = ArrayString::new();
    let mut rest = units;
    while let Some((c, behind)) = next_char(rest) {
        match piece.try_push(c) {
            Ok(()) => {}
            Err(_) => break,
        }
        rest = behind;
    }
    (piece, rest)
}

// The first character of a text, and the units behind it.
fn next_char(units: &[u16]) -> Option<(char, &[u16])>
    ensures char { IfSome result
        (λ r. utf16_lossy_chars units.now ≡ r.0 ∷ utf16_lossy_chars r.1.now) }
    ensures behind { IfSome result (λ r. length r.1.now < length units.now) }
    ensures none { IfNone result (units.now ≡ []) }
{
    match units {
        [] => None,
        [unit] => Some((lone_char(*unit), &units[1..])),
        [high, low, ..] => {
            if is_pair(*high, *low) {
                Some((pair_char(*high, *low), &units[2..]))
            } else {
                Some((lone_char(*high), &units[1..]))
            }
        }
    }
}

// Whether the units are a pair of surrogates.
fn is_pair(high: u16, low: u16) -> bool
    ensures { result ≡ (is_high_surrogate high && is_low_surrogate low) }
{
    0xD800 <= high && high < 0xDC00 && 0xDC00 <= low && low < 0xE000
}

// The character of a pair of surrogates.
fn pair_char(high: u16, low: u16) -> char
    requires { (is_high_surrogate high && is_low_surrogate low) ≡ true }
    ensures { result ≡ surrogate_pair_char high low }
{
    let code = 0x10000 + (high as u32 - 0xD800) * 0x400 + (low as u32 - 0xDC00);
    char::from_u32(code).unwrap_or(char::REPLACEMENT_CHARACTER)
}

// The character of a unit that is in no pair. A surrogate has none of its own, and becomes U+FFFD.
fn lone_char(unit: u16) -> char
    ensures { result ≡ unwrap_or (lone_unit_char unit) 0xFFFD }
{
    char::from_u32(unit as u32).unwrap_or(char::REPLACEMENT_CHARACTER)
}
