//! The classes of punctuators, by their first byte.

ghost use Rattle.std.specs.Prelude.{◌≡◌, [], ◌∷◌};
ghost use Rattle.hz_tree.specs.grammar.Classes as spec;
ghost use Rattle.hz_scan.specs.Spelling.{beginning};

use crate::bytes::byte;
use hz_tree::Class;

/// A punctuator that is the only one with its first byte.
fn only(text: &[u8], sign: u8, class: Class) -> Class
    ensures { result ≡ spec.spelled ((sign ∷ [], class) ∷ []) Class.Malformed text.now }
{
    match text {
        [first] if *first == sign => class,
        _ => Class::Malformed,
    }
}

fn dot(text: &[u8]) -> Class
    ensures { result ≡ spec.spelled (beginning 46 spec.signs) Class.Malformed text.now }
{
    match text {
        b"." => Class::Dot,
        b"..." => Class::Ellipsis,
        _ => Class::Malformed,
    }
}

fn question(text: &[u8]) -> Class
    ensures { result ≡ spec.spelled (beginning 63 spec.signs) Class.Malformed text.now }
{
    match text {
        b"?." => Class::OptionalDot,
        b"?" => Class::Question,
        b"??" => Class::Nullish,
        b"??=" => Class::NullishAssign,
        _ => Class::Malformed,
    }
}

fn equals(text: &[u8]) -> Class
    ensures { result ≡ spec.spelled (beginning 61 spec.signs) Class.Malformed text.now }
{
    match text {
        b"=>" => Class::Arrow,
        b"==" => Class::Equal,
        b"===" => Class::StrictEqual,
        b"=" => Class::Assign,
        _ => Class::Malformed,
    }
}

fn less(text: &[u8]) -> Class
    ensures { result ≡ spec.spelled (beginning 60 spec.signs) Class.Malformed text.now }
{
    match text {
        b"<" => Class::Less,
        b"<=" => Class::LessEqual,
        b"<<" => Class::ShiftLeft,
        b"<<=" => Class::ShiftLeftAssign,
        _ => Class::Malformed,
    }
}

fn greater(text: &[u8]) -> Class
    ensures { result ≡ spec.spelled (beginning 62 spec.signs) Class.Malformed text.now }
{
    match text {
        b">" => Class::Greater,
        b">=" => Class::GreaterEqual,
        b">>" => Class::ShiftRight,
        b">>>" => Class::ShiftRightZero,
        b">>=" => Class::ShiftRightAssign,
        b">>>=" => Class::ShiftRightZeroAssign,
        _ => Class::Malformed,
    }
}

fn bang(text: &[u8]) -> Class
    ensures { result ≡ spec.spelled (beginning 33 spec.signs) Class.Malformed text.now }
{
    match text {
        b"!=" => Class::NotEqual,
        b"!==" => Class::StrictNotEqual,
        b"!" => Class::Not,
        _ => Class::Malformed,
    }
}

fn plus(text: &[u8]) -> Class
    ensures { result ≡ spec.spelled (beginning 43 spec.signs) Class.Malformed text.now }
{
    match text {
        b"+" => Class::Plus,
        b"++" => Class::PlusPlus,
        b"+=" => Class::PlusAssign,
        _ => Class::Malformed,
    }
}

fn minus(text: &[u8]) -> Class
    ensures { result ≡ spec.spelled (beginning 45 spec.signs) Class.Malformed text.now }
{
    match text {
        b"-" => Class::Minus,
        b"--" => Class::MinusMinus,
        b"-=" => Class::MinusAssign,
        _ => Class::Malformed,
    }
}

fn star(text: &[u8]) -> Class
    ensures { result ≡ spec.spelled (beginning 42 spec.signs) Class.Malformed text.now }
{
    match text {
        b"*" => Class::Star,
        b"**" => Class::StarStar,
        b"*=" => Class::StarAssign,
        b"**=" => Class::StarStarAssign,
        _ => Class::Malformed,
    }
}

fn slash(text: &[u8]) -> Class
    ensures { result ≡ spec.spelled (beginning 47 spec.signs) Class.Malformed text.now }
{
    match text {
        b"/" => Class::Slash,
        b"/=" => Class::SlashAssign,
        _ => Class::Malformed,
    }
}

fn percent(text: &[u8]) -> Class
    ensures { result ≡ spec.spelled (beginning 37 spec.signs) Class.Malformed text.now }
{
    match text {
        b"%" => Class::Percent,
        b"%=" => Class::PercentAssign,
        _ => Class::Malformed,
    }
}

fn ampersand(text: &[u8]) -> Class
    ensures { result ≡ spec.spelled (beginning 38 spec.signs) Class.Malformed text.now }
{
    match text {
        b"&" => Class::And,
        b"&&" => Class::AndAnd,
        b"&=" => Class::AndAssign,
        b"&&=" => Class::AndAndAssign,
        _ => Class::Malformed,
    }
}

fn bar(text: &[u8]) -> Class
    ensures { result ≡ spec.spelled (beginning 124 spec.signs) Class.Malformed text.now }
{
    match text {
        b"|" => Class::Or,
        b"||" => Class::OrOr,
        b"|=" => Class::OrAssign,
        b"||=" => Class::OrOrAssign,
        _ => Class::Malformed,
    }
}

fn caret(text: &[u8]) -> Class
    ensures { result ≡ spec.spelled (beginning 94 spec.signs) Class.Malformed text.now }
{
    match text {
        b"^" => Class::Xor,
        b"^=" => Class::XorAssign,
        _ => Class::Malformed,
    }
}

/// The class of a punctuator.
pub fn sign_class(text: &[u8]) -> Class
    ensures { result ≡ spec.spelled spec.signs Class.Malformed text.now }
{
    match byte(text, 0) {
        b'{' => only(text, b'{', Class::LeftBrace),
        b'}' => only(text, b'}', Class::RightBrace),
        b'(' => only(text, b'(', Class::LeftParen),
        b')' => only(text, b')', Class::RightParen),
        b'[' => only(text, b'[', Class::LeftBracket),
        b']' => only(text, b']', Class::RightBracket),
        b'.' => dot(text),
        b'?' => question(text),
        b';' => only(text, b';', Class::Semicolon),
        b',' => only(text, b',', Class::Comma),
        b':' => only(text, b':', Class::Colon),
        b'=' => equals(text),
        b'<' => less(text),
        b'>' => greater(text),
        b'!' => bang(text),
        b'+' => plus(text),
        b'-' => minus(text),
        b'*' => star(text),
        b'/' => slash(text),
        b'%' => percent(text),
        b'&' => ampersand(text),
        b'|' => bar(text),
        b'^' => caret(text),
        b'~' => only(text, b'~', Class::Tilde),
        _ => Class::Malformed,
    }
}
