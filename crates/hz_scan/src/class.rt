//! What the grammar asks of a token.

ghost use Rattle.std.specs.Prelude.{◌≡◌, []};
ghost use Rattle.hz_tree.specs.grammar.Classes as spec;
ghost use Rattle.hz_tree.specs.tokens.Tokens.{lexeme};

use crate::signs::sign_class;
use crate::words::{name_class, word_class};
use hz_tree::{BadKind, Class, OutsideKind, Token, TokenKind};

/// The class of a token.
#[tactic(auto, unfolding(hz_tree::specs::grammar::Classes::class_by))]
pub fn class_of(token: &Token<'_>) -> Class
    ensures { result ≡ spec.class_of (lexeme token.now) }
{
    match token.kind {
        TokenKind::Name => name_class(token.text),
        TokenKind::Word => word_class(token.text),
        TokenKind::Punct => sign_class(token.text),
        TokenKind::Number(_) => Class::Number,
        TokenKind::OctalNumber => Class::OctalNumber,
        TokenKind::Text { octal: _ } => Class::Text,
        TokenKind::Template { first, last } => part_class(first, last),
        TokenKind::End => Class::End,
        TokenKind::Bad(cause) => bad_class(cause),
    }
}

#[tactic(auto, unfolding(hz_tree::specs::grammar::Classes::class_by))]
fn part_class(first: bool, last: bool) -> Class
    ensures { result ≡ spec.class_by (TokenKind.Template first last) [] }
{
    match (first, last) {
        (true, true) => Class::TemplateWhole,
        (true, false) => Class::TemplateHead,
        (false, false) => Class::TemplateMiddle,
        (false, true) => Class::TemplateTail,
    }
}

fn bad_class(cause: BadKind) -> Class
    ensures { result ≡ spec.bad_class cause }
{
    match cause {
        BadKind::Outside(OutsideKind::BigInt) => Class::BigInt,
        BadKind::Outside(OutsideKind::NumberForm) => Class::NumberForm,
        BadKind::Outside(OutsideKind::PrivateName) => Class::PrivateName,
        BadKind::Outside(OutsideKind::IdentifierEscape) => Class::IdentifierEscape,
        BadKind::Outside(OutsideKind::HtmlComment) => Class::HtmlComment,
        BadKind::Outside(OutsideKind::Character) => Class::Character,
        _ => Class::Malformed,
    }
}
