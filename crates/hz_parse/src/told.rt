//! What is told between two tokens, laid onto the stacks.

ghost use Rattle.std.specs.Prelude.{◌≡◌, OnOk};
ghost use Rattle.hz_tree.specs.reading.Reading as reading;
ghost use Rattle.hz_tree.specs.reading.Reading.{told_ahead};
ghost use Rattle.hz_middle.specs.Place.{left};
ghost use Rattle.hz_parts.specs.Values as spec;
ghost use Rattle.hz_parts.specs.Values.{push_told, seen_told};

use hz_list::Memory;
use hz_middle::Middle;
use hz_parts::{Parts, Seen};
use hz_tree::{Signal, Slice, TokenKind};

/// Lays what a signal tells of the next token, and of the end of the one before it, onto the stacks, where a row makes
/// use of it.
pub fn tell<'a>(place: &Middle<'a>, signal: Signal, parts: &mut Parts<'a>) -> Result<(), Memory>
    ensures { OnOk result (parts.new ≡ push_told signal (told_ahead (left place.now)) parts.old) }
{
    match signal {
        Signal::Open(_, _) => parts.opened.push(place.place()),
        _ => {
            if is_seen(signal) {
                parts.seen.push(seen_ahead(place))
            } else {
                Ok(())
            }
        }
    }
}

/// What is seen of the next token where something is told.
fn seen_ahead<'a>(place: &Middle<'a>) -> Seen<'a>
    ensures { result ≡ seen_told (told_ahead (left place.now)) }
{
    Seen {
        at: place.place(),
        text: Slice::new(place.text()),
        number: 0,
        octal: has_octal(place.kind()),
        behind: place.behind(),
    }
}

fn has_octal(kind: TokenKind) -> bool
    ensures { result ≡ reading.has_octal kind }
{
    match kind {
        TokenKind::Text { octal } => octal,
        _ => false,
    }
}

/// Whether a row makes use of what is told beside the signal.
fn is_seen(signal: Signal) -> bool
    ensures { result ≡ spec.is_seen signal }
{
    match signal {
        Signal::Begin(_)
        | Signal::Name
        | Signal::This
        | Signal::NewTarget
        | Signal::Literal
        | Signal::Octal
        | Signal::Text
        | Signal::Declare(_)
        | Signal::Rest
        | Signal::Use
        | Signal::ScopeHere(_)
        | Signal::EndScope
        | Signal::Label
        | Signal::JumpTo(_)
        | Signal::WordKey
        | Signal::TextKey
        | Signal::OctalKey => true,
        _ => false,
    }
}
