//! The classes of names and reserved words.

ghost use Rattle.std.specs.Prelude.{◌≡◌};
ghost use Rattle.hz_tree.specs.grammar.Classes as spec;
ghost use Rattle.hz_scan.specs.Spelling.{beginning};

use crate::bytes::byte;
use hz_tree::Class;

/// The class of a name.
pub fn name_class(text: &[u8]) -> Class
    ensures { result ≡ spec.spelled spec.names Class.Name text.now }
{
    match text {
        b"async" => Class::Async,
        b"await" => Class::Await,
        b"get" => Class::Get,
        b"of" => Class::Of,
        b"set" => Class::Set,
        b"target" => Class::Target,
        _ => Class::Name,
    }
}

// Reserved words by their first letter.

fn in_b(text: &[u8]) -> Class
    ensures { result ≡ spec.spelled (beginning 98 spec.words) Class.Reserved text.now }
{
    match text {
        b"break" => Class::Break,
        _ => Class::Reserved,
    }
}

fn in_c(text: &[u8]) -> Class
    ensures { result ≡ spec.spelled (beginning 99 spec.words) Class.Reserved text.now }
{
    match text {
        b"case" => Class::Case,
        b"catch" => Class::Catch,
        b"class" => Class::Class,
        b"const" => Class::Const,
        b"continue" => Class::Continue,
        _ => Class::Reserved,
    }
}

fn in_d(text: &[u8]) -> Class
    ensures { result ≡ spec.spelled (beginning 100 spec.words) Class.Reserved text.now }
{
    match text {
        b"debugger" => Class::Debugger,
        b"default" => Class::Default,
        b"delete" => Class::Delete,
        b"do" => Class::Do,
        _ => Class::Reserved,
    }
}

fn in_e(text: &[u8]) -> Class
    ensures { result ≡ spec.spelled (beginning 101 spec.words) Class.Reserved text.now }
{
    match text {
        b"else" => Class::Else,
        b"export" => Class::Export,
        _ => Class::Reserved,
    }
}

fn in_f(text: &[u8]) -> Class
    ensures { result ≡ spec.spelled (beginning 102 spec.words) Class.Reserved text.now }
{
    match text {
        b"false" => Class::False,
        b"finally" => Class::Finally,
        b"for" => Class::For,
        b"function" => Class::Function,
        _ => Class::Reserved,
    }
}

fn in_i(text: &[u8]) -> Class
    ensures { result ≡ spec.spelled (beginning 105 spec.words) Class.Reserved text.now }
{
    match text {
        b"if" => Class::If,
        b"import" => Class::Import,
        b"in" => Class::In,
        b"instanceof" => Class::InstanceOf,
        _ => Class::Reserved,
    }
}

fn in_l(text: &[u8]) -> Class
    ensures { result ≡ spec.spelled (beginning 108 spec.words) Class.Reserved text.now }
{
    match text {
        b"let" => Class::Let,
        _ => Class::Reserved,
    }
}

fn in_n(text: &[u8]) -> Class
    ensures { result ≡ spec.spelled (beginning 110 spec.words) Class.Reserved text.now }
{
    match text {
        b"new" => Class::New,
        b"null" => Class::Null,
        _ => Class::Reserved,
    }
}

fn in_r(text: &[u8]) -> Class
    ensures { result ≡ spec.spelled (beginning 114 spec.words) Class.Reserved text.now }
{
    match text {
        b"return" => Class::Return,
        _ => Class::Reserved,
    }
}

fn in_s(text: &[u8]) -> Class
    ensures { result ≡ spec.spelled (beginning 115 spec.words) Class.Reserved text.now }
{
    match text {
        b"super" => Class::Super,
        b"switch" => Class::Switch,
        _ => Class::Reserved,
    }
}

fn in_t(text: &[u8]) -> Class
    ensures { result ≡ spec.spelled (beginning 116 spec.words) Class.Reserved text.now }
{
    match text {
        b"this" => Class::This,
        b"throw" => Class::Throw,
        b"true" => Class::True,
        b"try" => Class::Try,
        b"typeof" => Class::TypeOf,
        _ => Class::Reserved,
    }
}

fn in_v(text: &[u8]) -> Class
    ensures { result ≡ spec.spelled (beginning 118 spec.words) Class.Reserved text.now }
{
    match text {
        b"var" => Class::Var,
        b"void" => Class::Void,
        _ => Class::Reserved,
    }
}

fn in_w(text: &[u8]) -> Class
    ensures { result ≡ spec.spelled (beginning 119 spec.words) Class.Reserved text.now }
{
    match text {
        b"while" => Class::While,
        b"with" => Class::With,
        _ => Class::Reserved,
    }
}

fn in_y(text: &[u8]) -> Class
    ensures { result ≡ spec.spelled (beginning 121 spec.words) Class.Reserved text.now }
{
    match text {
        b"yield" => Class::Yield,
        _ => Class::Reserved,
    }
}

/// The class of a reserved word.
pub fn word_class(text: &[u8]) -> Class
    ensures { result ≡ spec.spelled spec.words Class.Reserved text.now }
{
    match byte(text, 0) {
        b'b' => in_b(text),
        b'c' => in_c(text),
        b'd' => in_d(text),
        b'e' => in_e(text),
        b'f' => in_f(text),
        b'i' => in_i(text),
        b'l' => in_l(text),
        b'n' => in_n(text),
        b'r' => in_r(text),
        b's' => in_s(text),
        b't' => in_t(text),
        b'v' => in_v(text),
        b'w' => in_w(text),
        b'y' => in_y(text),
        _ => Class::Reserved,
    }
}
