//! White space, line terminators and comments.

ghost use Rattle.std.specs.Prelude.{◌≡◌, ◌<◌, ◌≤◌, ◌+◌, length, true};
ghost use Rattle.hz_tree.specs.tokens.Spaces as spec;

use crate::bytes::{byte, rest};
use crate::characters::{char_len, code_point, is_line_terminator, is_white_space};
use crate::run::{NONE, Repeats, plain, run};
use hz_tree::Stretch;

/// A character of a comment that ends with its line.
#[derive(Drop)]
struct InLine;

impl Repeats for InLine {
    ghost part_of = { λ _. spec.line_part };

    #[inline]
    #[tactic(auto, unfolding(hz_tree::specs::tokens::Spaces::line_part, hz_tree::specs::tokens::Characters::code_point, hz_tree::specs::tokens::Characters::char_len, hz_tree::specs::tokens::Characters::is_line_terminator))]
    fn part(&self, z: &[u8]) -> Stretch {
        let b = byte(z, 0);
        if b'\r' < b && b < 0x80 {
            plain(1)
        } else if is_line_terminator(code_point(z)) {
            NONE
        } else {
            plain(char_len(z))
        }
    }
}

/// A character of a comment that ends with `*/`.
#[derive(Drop)]
struct InBlock;

impl Repeats for InBlock {
    ghost part_of = { λ _. spec.block_part };

    #[inline]
    #[tactic(auto, unfolding(hz_tree::specs::tokens::Spaces::block_part, hz_tree::specs::tokens::Characters::code_point, hz_tree::specs::tokens::Characters::char_len, hz_tree::specs::tokens::Characters::is_line_terminator))]
    fn part(&self, z: &[u8]) -> Stretch {
        let b = byte(z, 0);
        if b == b'*' && byte(z, 1) == b'/' {
            NONE
        } else if b'\r' < b && b < 0x80 {
            plain(1)
        } else {
            Stretch {
                len: char_len(z),
                marked: is_line_terminator(code_point(z)),
            }
        }
    }
}

#[tactic(auto, unfolding(hz_tree::specs::tokens::Spaces::line_comment))]
fn line_comment(z: &[u8]) -> Stretch
    requires { 2 ≤ length z.now }
    ensures value { result ≡ spec.line_comment z.now }
    ensures within { result.len ≤ length z.now }
{
    plain(run(&InLine, rest(z, 2)).len + 2)
}

#[tactic(auto, unfolding(hz_tree::specs::tokens::Spaces::block_comment))]
fn block_comment(z: &[u8]) -> Stretch
    requires { 2 ≤ length z.now }
    ensures value { result ≡ spec.block_comment z.now }
    ensures within { result.len ≤ length z.now }
{
    let body = run(&InBlock, rest(z, 2));
    let end = rest(z, body.len + 2);
    if byte(end, 0) == b'*' && byte(end, 1) == b'/' {
        Stretch {
            len: body.len + 4,
            marked: body.marked,
        }
    } else {
        NONE
    }
}

/// What separates tokens: white space, a line terminator or a comment, marked where a line ends in it.
#[derive(Drop)]
struct Space;

impl Repeats for Space {
    ghost part_of = { λ _. spec.space_part };

    #[inline]
    #[tactic(auto, unfolding(hz_tree::specs::tokens::Spaces::space_part, hz_tree::specs::tokens::Spaces::blank, hz_tree::specs::tokens::Characters::code_point, hz_tree::specs::tokens::Characters::char_len, hz_tree::specs::tokens::Characters::is_white_space))]
    fn part(&self, z: &[u8]) -> Stretch {
        let b = byte(z, 0);
        if b == b' ' {
            plain(1)
        } else if b == b'/' && byte(z, 1) == b'/' {
            line_comment(z)
        } else if b == b'/' && byte(z, 1) == b'*' {
            block_comment(z)
        } else {
            blank(z)
        }
    }
}

#[tactic(auto, unfolding(hz_tree::specs::tokens::Spaces::blank, hz_tree::specs::tokens::Characters::code_point, hz_tree::specs::tokens::Characters::is_white_space, hz_tree::specs::tokens::Characters::is_line_terminator))]
fn blank(z: &[u8]) -> Stretch
    ensures value { result ≡ spec.blank z.now }
    ensures within { result.len ≤ length z.now }
{
    let b = byte(z, 0);
    if b' ' < b && b < 0x80 {
        return NONE;
    }
    let c = code_point(z);
    if is_white_space(c) {
        plain(char_len(z))
    } else if is_line_terminator(c) {
        Stretch {
            len: char_len(z),
            marked: true,
        }
    } else {
        NONE
    }
}

/// All that stands before the next token.
#[tactic(auto, unfolding(hz_tree::specs::tokens::Spaces::gap))]
pub fn gap(is_start: bool, z: &[u8]) -> Stretch
    ensures value { result ≡ spec.gap is_start z.now }
    ensures within { result.len ≤ length z.now }
{
    if is_start && byte(z, 0) == b'#' && byte(z, 1) == b'!' {
        let comment = line_comment(z);
        let more = run(&Space, rest(z, comment.len));
        Stretch {
            len: comment.len + more.len,
            marked: comment.marked || more.marked,
        }
    } else {
        run(&Space, z)
    }
}
