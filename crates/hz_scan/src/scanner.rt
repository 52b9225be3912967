ghost use Rattle.std.specs.Prelude.{◌≡◌, ◌≤◌, ◌+◌, length, slice_range};
ghost use Rattle.hz_tree.specs.tokens.Tokens.{lexeme, token_behind};

use crate::bytes::rest;
use crate::front::token;
use crate::spaces::gap;
use hz_tree::Token;
use std::marker::Model;

/// A place in a source, from which the tokens are given one after the other.
///
/// It borrows the source and takes no memory. The definition of tokens speaks of a source in UTF-8, with a
/// place on the border of a character.
#[derive(Debug, Drop)]
pub struct Scanner<'a> {
    source: &'a [u8],
    place: usize,

    /// The last token, once it was given.
    ended: Option<Token<'a>>,
}

impl<'a> Model for Scanner<'a> {
    ghost use Rattle.std.specs.Prelude.{◌≤◌, length, option_map, IfSome};
    ghost use Rattle.hz_tree.specs.tokens.Tokens.{lexeme};
    ghost use Rattle.hz_scan.specs.State.{State, Lies};

    ghost Value = { State };

    ghost view = { λ s. record { source = s.source.now; place = s.place; ended = option_map lexeme s.ended } };

    ghost invariant = { λ s. (s.place ≤ length s.source.now) × IfSome s.ended (λ t. Lies s.source.now s.place (lexeme t)) };
}

impl<'a> Scanner<'a> {
    ghost use Rattle.std.specs.Prelude.{◌≡◌, ◌≤◌, length};
    ghost use Rattle.hz_tree.specs.tokens.Tokens.{lexeme};
    ghost use Rattle.hz_scan.specs.State.{starting, token_from, behind, Lies};

    /// A scanner at the start of the source.
    pub fn new(source: &'a [u8]) -> Scanner<'a>
        ensures { result ≡ starting source.now 0 }
    {
        Scanner::at(source, 0)
    }

    /// A scanner at a place: 0, or one where a token ended, or one where a token begins and the source does
    /// not go on with `-->`. The newline mark of the first token that it gives counts from the place.
    pub fn at(source: &'a [u8], place: usize) -> Scanner<'a>
        requires { place ≤ length source.now }
        ensures { result ≡ starting source.now place }
    {
        Scanner {
            source,
            place,
            ended: None,
        }
    }

    /// The next token. `hole` says whether a `}` goes on with a template: whether the innermost brace that is
    /// open is one that `${` opened. After `End` or `Bad` it gives the same token again.
    #[tactic(auto, unfolding(crate::specs::State::token_from, crate::specs::State::behind))]
    pub fn next(&mut self, hole: bool) -> Token<'a>
        ensures token { lexeme result ≡ token_from hole self.old }
        ensures behind { self.new ≡ behind hole self.old }
        ensures lies { Lies self.old.source self.old.place (lexeme result) }
        ensures placed { self.new.place ≤ length self.new.source }
    {
        if let Some(token) = self.ended {
            return token;
        }
        let token = next_token(self.source, self.place, hole);
        if token.kind.is_last() {
            self.ended = Some(token);
        } else {
            self.place = token.at + token.text.len();
        }
        token
    }
}

/// The token behind a place.
#[tactic(auto, unfolding(hz_tree::specs::tokens::Tokens::token_behind))]
pub fn next_token<'a>(source: &'a [u8], place: usize, hole: bool) -> Token<'a>
    requires { place ≤ length source.now }
    ensures token { lexeme result ≡ token_behind hole source.now place }
    ensures after { place ≤ result.at }
    ensures inside { result.at + length result.text.now ≤ length source.now }
    ensures slice { result.text.now
        ≡ slice_range source.now result.at (result.at + length result.text.now) }
{
    let space = gap(place == 0, rest(source, place));
    let at = place + space.len;
    let front = token(hole, space.marked || place == 0, rest(source, at));
    Token {
        kind: front.kind,
        at,
        text: &source[at..at + front.len],
        newline: space.marked,
    }
}
