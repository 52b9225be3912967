ghost use Rattle.std.specs.Prelude.{◌≡◌, ◌<◌, ◌≤◌, ◌++◌, IfOk, OnOk, length, map, string_bytes};
ghost use Rattle.hz_tree.specs.tokens.Tokens.{lexeme, tokens, token_behind};
ghost use Rattle.hz_front_cases.specs.Answers as spec;

use hz_scan::{Scanner, list_tokens};
use hz_tree::{BadKind, Token, TokenKind};
use std::alloc::{AllocError, Global};

/// All tokens of a source.
pub fn token_line(alloc: Global, source: &[u8]) -> Result<String, AllocError>
    ensures { IfOk result (λ text. string_bytes text ≡ spec.token_line (tokens source.now)) }
{
    let all = list_tokens(alloc, source).map_err(|_| AllocError)?;
    token_words(alloc, &all)
}

fn token_words(alloc: Global, all: &[Token<'_>]) -> Result<String, AllocError>
    ensures { IfOk result (λ text. string_bytes text ≡ spec.token_line (map lexeme all.now)) }
{
    let mut words = Vec::new(alloc);
    for token in all {
        words.push(token_word(alloc, token)?)?;
    }
    words.join(alloc, " ")
}

/// The token behind a place.
#[tactic(auto, unfolding(hz_scan::specs::State::token_from))]
pub fn first_token(
    alloc: Global,
    source: &[u8],
    place: usize,
    hole: bool,
) -> Result<String, AllocError>
    ensures { place ≤ length source.now → IfOk result
        (λ text. string_bytes text ≡ spec.token_word (token_behind hole source.now place)) }
{
    if place > source.len() {
        return String::from_str(alloc, "behind the end");
    }
    let mut scanner = Scanner::at(source, place);
    let token = scanner.next(hole);
    token_word(alloc, &token)
}

/// `^` where the newline mark stands, what the token is, for the last one its place, and its text.
fn token_word(alloc: Global, token: &Token<'_>) -> Result<String, AllocError>
    ensures { IfOk result (λ text. string_bytes text ≡ spec.token_word (lexeme token.now)) }
{
    let mark = if token.newline { "^" } else { "" };
    let kind = token_kind(alloc, token.kind, token.at)?;
    let text = shown(alloc, token.text)?;
    format!(in alloc; "{mark}{kind}{text}")
}

fn token_kind(alloc: Global, kind: TokenKind, at: usize) -> Result<String, AllocError>
    ensures { IfOk result (λ text. string_bytes text ≡ spec.token_kind kind at) }
{
    match kind {
        TokenKind::Name => String::from_str(alloc, "n:"),
        TokenKind::Word => String::from_str(alloc, "w:"),
        TokenKind::Punct => String::from_str(alloc, "p:"),
        TokenKind::Number(value) => format!(in alloc; "{value}:"),
        TokenKind::Text { octal: false } => String::from_str(alloc, "t:"),
        TokenKind::Text { octal: true } => String::from_str(alloc, "o:"),
        TokenKind::OctalNumber => String::from_str(alloc, "oct:"),
        TokenKind::Template { first, last } => {
            let part = part_word(first, last);
            format!(in alloc; "{part}:")
        }
        TokenKind::End => format!(in alloc; "end@{at}"),
        TokenKind::Bad(BadKind::Syntax) => format!(in alloc; "Syntax@{at}"),
        TokenKind::Bad(BadKind::Outside(cause)) => format!(in alloc; "{cause}@{at}"),
    }
}

fn part_word(first: bool, last: bool) -> &'static str
    ensures { result.now ≡ spec.part_word first last }
{
    match (first, last) {
        (true, true) => "whole",
        (true, false) => "head",
        (false, false) => "middle",
        (false, true) => "tail",
    }
}

/// A text, with `\n`, `\\` and `\xNN` for what is no character of ASCII to be seen.
fn shown(alloc: Global, text: &[u8]) -> Result<String, AllocError>
    ensures { IfOk result (λ made. string_bytes made ≡ spec.shown text.now) }
{
    let mut made = String::new(alloc);
    for byte in text {
        push_shown(&mut made, *byte)?;
    }
    Ok(made)
}

fn push_shown(made: &mut String, byte: u8) -> Result<(), AllocError>
    ensures { OnOk result (string_bytes made.new ≡ string_bytes made.old ++ spec.shown_byte byte) }
{
    match byte {
        b'\n' => made.push_str("\\n"),
        b'\\' => made.push_str("\\\\"),
        32..=126 => made.push(char::from(byte)),
        _ => {
            made.push_str("\\x")?;
            made.push(hex_digit(byte / 16))?;
            made.push(hex_digit(byte % 16))
        }
    }
}

fn hex_digit(digit: u8) -> char
    requires { digit < 16 }
    ensures { result ≡ spec.hex_digit digit }
{
    char::from(if digit < 10 {
        b'0' + digit
    } else {
        b'a' + (digit - 10)
    })
}
