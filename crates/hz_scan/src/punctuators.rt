//! Punctuators, by their first byte.

ghost use Rattle.std.specs.Prelude.{◌≡◌, ◌<◌, ◌≤◌, length};
ghost use Rattle.hz_tree.specs.tokens.Punctuators as spec;
ghost use Rattle.hz_scan.specs.Reach.{Reaches};

use crate::bytes::byte;

// In each of these the arguments are the bytes behind the first one.

#[tactic(auto, unfolding(hz_tree::specs::tokens::Punctuators::punctuator_of))]
fn dot(second: u8, third: u8, fourth: u8) -> usize
    ensures value { result ≡ spec.punctuator_of 46 second third fourth }
    ensures within { Reaches result second third fourth }
{
    if second == b'.' && third == b'.' {
        3
    } else {
        1
    }
}

#[tactic(auto, unfolding(hz_tree::specs::tokens::Punctuators::punctuator_of))]
fn less(second: u8, third: u8, fourth: u8) -> usize
    ensures value { result ≡ spec.punctuator_of 60 second third fourth }
    ensures within { Reaches result second third fourth }
{
    match second {
        b'<' if third == b'=' => 3,
        b'<' | b'=' => 2,
        _ => 1,
    }
}

#[tactic(auto, unfolding(hz_tree::specs::tokens::Punctuators::punctuator_of))]
fn greater(second: u8, third: u8, fourth: u8) -> usize
    ensures value { result ≡ spec.punctuator_of 62 second third fourth }
    ensures within { Reaches result second third fourth }
{
    match second {
        b'>' if third == b'>' && fourth == b'=' => 4,
        b'>' if third == b'>' || third == b'=' => 3,
        b'>' | b'=' => 2,
        _ => 1,
    }
}

#[tactic(auto, unfolding(hz_tree::specs::tokens::Punctuators::punctuator_of))]
fn equals(second: u8, third: u8, fourth: u8) -> usize
    ensures value { result ≡ spec.punctuator_of 61 second third fourth }
    ensures within { Reaches result second third fourth }
{
    match second {
        b'=' if third == b'=' => 3,
        b'=' | b'>' => 2,
        _ => 1,
    }
}

#[tactic(auto, unfolding(hz_tree::specs::tokens::Punctuators::punctuator_of))]
fn bang(second: u8, third: u8, fourth: u8) -> usize
    ensures value { result ≡ spec.punctuator_of 33 second third fourth }
    ensures within { Reaches result second third fourth }
{
    match second {
        b'=' if third == b'=' => 3,
        b'=' => 2,
        _ => 1,
    }
}

#[tactic(auto, unfolding(hz_tree::specs::tokens::Punctuators::punctuator_of))]
fn plus(second: u8, third: u8, fourth: u8) -> usize
    ensures value { result ≡ spec.punctuator_of 43 second third fourth }
    ensures within { Reaches result second third fourth }
{
    match second {
        b'+' | b'=' => 2,
        _ => 1,
    }
}

#[tactic(auto, unfolding(hz_tree::specs::tokens::Punctuators::punctuator_of))]
fn minus(second: u8, third: u8, fourth: u8) -> usize
    ensures value { result ≡ spec.punctuator_of 45 second third fourth }
    ensures within { Reaches result second third fourth }
{
    match second {
        b'-' | b'=' => 2,
        _ => 1,
    }
}

#[tactic(auto, unfolding(hz_tree::specs::tokens::Punctuators::punctuator_of))]
fn star(second: u8, third: u8, fourth: u8) -> usize
    ensures value { result ≡ spec.punctuator_of 42 second third fourth }
    ensures within { Reaches result second third fourth }
{
    match second {
        b'*' if third == b'=' => 3,
        b'*' | b'=' => 2,
        _ => 1,
    }
}

#[tactic(auto, unfolding(hz_tree::specs::tokens::Punctuators::punctuator_of))]
fn ampersand(second: u8, third: u8, fourth: u8) -> usize
    ensures value { result ≡ spec.punctuator_of 38 second third fourth }
    ensures within { Reaches result second third fourth }
{
    match second {
        b'&' if third == b'=' => 3,
        b'&' | b'=' => 2,
        _ => 1,
    }
}

#[tactic(auto, unfolding(hz_tree::specs::tokens::Punctuators::punctuator_of))]
fn bar(second: u8, third: u8, fourth: u8) -> usize
    ensures value { result ≡ spec.punctuator_of 124 second third fourth }
    ensures within { Reaches result second third fourth }
{
    match second {
        b'|' if third == b'=' => 3,
        b'|' | b'=' => 2,
        _ => 1,
    }
}

#[tactic(auto, unfolding(hz_tree::specs::tokens::Punctuators::punctuator_of))]
fn question(second: u8, third: u8, fourth: u8) -> usize
    ensures value { result ≡ spec.punctuator_of 63 second third fourth }
    ensures within { Reaches result second third fourth }
{
    match second {
        b'?' if third == b'=' => 3,
        b'?' => 2,
        b'.' if !third.is_ascii_digit() => 2,
        _ => 1,
    }
}

/// The length of the punctuator at the front of a text, or 0 where none stands there.
#[tactic(auto, unfolding(hz_tree::specs::tokens::Punctuators::punctuator_len, hz_tree::specs::tokens::Punctuators::punctuator_of))]
pub fn punctuator_len(z: &[u8]) -> usize
    ensures value { result ≡ spec.punctuator_len z.now }
    ensures within { result ≤ length z.now }
{
    let (second, third, fourth) = (byte(z, 1), byte(z, 2), byte(z, 3));
    match byte(z, 0) {
        b'{' | b'}' | b'(' | b')' | b'[' | b']' | b';' | b',' | b'~' | b':' => 1,
        b'.' => dot(second, third, fourth),
        b'<' => less(second, third, fourth),
        b'>' => greater(second, third, fourth),
        b'=' => equals(second, third, fourth),
        b'!' => bang(second, third, fourth),
        b'+' => plus(second, third, fourth),
        b'-' => minus(second, third, fourth),
        b'*' => star(second, third, fourth),
        b'&' => ampersand(second, third, fourth),
        b'|' => bar(second, third, fourth),
        b'?' => question(second, third, fourth),
        b'/' | b'%' | b'^' => if second == b'=' { 2 } else { 1 },
        _ => 0,
    }
}
