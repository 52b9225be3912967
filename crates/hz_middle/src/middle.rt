ghost use Rattle.std.specs.Prelude.{◌≡◌, ◌+◌, ◌≤◌, length, option_map, None, IfSome};
ghost use Rattle.hz_tree.specs.tokens.Tokens.{lexeme, token_behind};
ghost use Rattle.hz_middle.specs.Place as spec;
ghost use Rattle.hz_middle.specs.Place.{Inside, first, past, place_of, seen_class, seen_newline};

use hz_list::Memory;
use hz_scan::{Braces, Scanner, class_of};
use hz_tree::{Class, Look, Token, TokenKind};
use std::alloc::Global;
use std::marker::Model;

/// A place of a source, with the next two tokens in view.
///
/// It borrows the source, and takes memory for the braces that were opened since it began.
#[derive(Drop)]
pub struct Middle<'a> {
    source: &'a [u8],

    /// The place behind the last token that was taken.
    at: usize,

    braces: Braces,

    /// The next token, or none where none is left.
    one: Option<Token<'a>>,

    /// The token behind it.
    two: Option<Token<'a>>,
}

impl<'a> Model for Middle<'a> {
    ghost use Rattle.hz_middle.specs.Place.{Place, Keeps, place_of};

    ghost Value = { Place };

    ghost view = { λ m. place_of m.source.now m.braces m.at m.one };

    ghost invariant = { λ m. Keeps (place_of m.source.now m.braces m.at m.one) m.one m.two };
}

impl<'a> Middle<'a> {
    ghost use Rattle.std.specs.Prelude.{◌≡◌, ◌≤◌, length, false, OnOk, OnErr, Some};
    ghost use Rattle.hz_tree.specs.grammar.Look.{look};
    ghost use Rattle.hz_tree.specs.reading.Reading.{place_ahead, text_ahead, end_behind};
    ghost use Rattle.hz_middle.specs.Place.{Eats, beginning, kind_ahead, left};

    /// A reader at a place: 0, or one where a token begins or ended. The newline mark of the first token that it gives
    /// counts from the place, and no brace counts as open there.
    pub fn new(alloc: Global, source: &'a [u8], place: usize) -> Middle<'a>
        requires { place ≤ length source.now }
        ensures { result ≡ beginning source.now place }
    {
        let braces = Braces::new(alloc);
        let one = scan(source, place, false);
        let two = behind(source, &braces, one);
        Middle {
            source,
            at: place,
            braces,
            one: Some(one),
            two,
        }
    }

    /// Takes the next terminal, where the grammar takes it for a token of the class, and tells whether it did. Memory is
    /// wanted where the token opens a brace.
    #[tactic(auto, using(crate::proofs::PlaceLaws::eats_none))]
    pub fn eat(&mut self, wanted: Class) -> Result<bool, Memory>
        ensures { Eats wanted self.old self.new result }
    {
        match self.next() {
            Some(one) if wanted.fits(class_of(&one)) => {
                self.take(one)?;
                Ok(true)
            }
            _ => Ok(false),
        }
    }

    /// The next two terminals, as the rules of the grammar test them. `arrow` is the caller's answer whether the first of
    /// the two that is a `(` begins the parameters of an arrow.
    pub fn look(&self, arrow: bool) -> Look
        ensures { result ≡ record (look (left self.now)) { arrow = arrow } }
    {
        shown(self.one, self.two, arrow)
    }

    /// The place of the next token, counted in bytes, or 0 where none is left.
    #[tactic(auto, using(crate::proofs::PlaceLaws::place_some, crate::proofs::PlaceLaws::place_none))]
    pub fn place(&self) -> usize
        ensures { result ≡ place_ahead (left self.now) }
    {
        match self.next() {
            Some(one) => one.at,
            None => 0,
        }
    }

    /// The text of the next token, or none where none is left.
    #[tactic(auto, using(crate::proofs::PlaceLaws::text_some, crate::proofs::PlaceLaws::text_none))]
    pub fn text(&self) -> &'a [u8]
        ensures { result.now ≡ text_ahead (left self.now) }
    {
        match self.next() {
            Some(one) => one.text,
            None => &[],
        }
    }

    /// What the next token is, or `End` where none is left.
    #[tactic(auto, using(crate::proofs::PlaceLaws::kind_some, crate::proofs::PlaceLaws::kind_none))]
    pub fn kind(&self) -> TokenKind
        ensures { result ≡ kind_ahead (left self.now) }
    {
        match self.next() {
            Some(one) => one.kind,
            None => TokenKind::End,
        }
    }

    /// The place at which the token before the next one ends, or at which the reader began or went on, where no token
    /// was taken since; 0 where none is left.
    #[tactic(auto, using(crate::proofs::PlaceLaws::behind_some, crate::proofs::PlaceLaws::behind_none))]
    pub fn behind(&self) -> usize
        ensures { result ≡ end_behind (left self.now) }
    {
        match self.next() {
            Some(_) => self.at,
            None => 0,
        }
    }

    /// The next token, or none where none is left.
    fn next(&self) -> Option<Token<'a>>
        ensures token { option_map lexeme result ≡ first self.now }
        ensures inside { IfSome result (Inside self.now.source) }
    {
        self.one
    }

    /// Goes past the next token, which is this one.
    fn take(&mut self, one: Token<'a>) -> Result<(), Memory>
        requires first { first self.old ≡ Some (lexeme one) }
        requires inside { Inside self.old.source one }
        ensures ok { OnOk result (self.new ≡ past self.old (lexeme one.entry)) }
        ensures err { OnErr result (self.new ≡ self.old) }
    {
        self.braces.follow(&one)?;
        self.at = one.at + one.text.len();
        self.one = self.two;
        self.two = match self.one {
            Some(next) => behind(self.source, &self.braces, next),
            None => None,
        };
        Ok(())
    }

    /// Goes on at this place, behind a part of the source that closes the braces that it opens.
    pub fn skip(&mut self, place: usize)
        requires { place ≤ length self.old.source }
        ensures { self.new ≡ record self.old { at = place; ended = false } }
    {
        let one = scan(self.source, place, self.braces.in_hole());
        self.two = behind(self.source, &self.braces, one);
        self.one = Some(one);
        self.at = place;
    }
}

/// The look of these two tokens.
fn shown(one: Option<Token<'_>>, two: Option<Token<'_>>, arrow: bool) -> Look
    ensures { result ≡ spec.shown (option_map lexeme one.entry) (option_map lexeme two.entry) arrow }
{
    Look {
        one: class_at(one),
        one_newline: newline_at(one),
        two: class_at(two),
        two_newline: newline_at(two),
        arrow,
    }
}

fn class_at(token: Option<Token<'_>>) -> Class
    ensures { result ≡ seen_class (option_map lexeme token.entry) }
{
    match token {
        Some(token) => class_of(&token),
        None => Class::End,
    }
}

fn newline_at(token: Option<Token<'_>>) -> bool
    ensures { result ≡ seen_newline (option_map lexeme token.entry) }
{
    match token {
        Some(token) => token.newline,
        None => false,
    }
}

/// The token behind a place.
#[tactic(auto, unfolding(hz_scan::specs::State::token_from))]
fn scan<'a>(source: &'a [u8], place: usize, hole: bool) -> Token<'a>
    requires { place ≤ length source.now }
    ensures token { lexeme result ≡ token_behind hole source.now place }
    ensures inside { Inside source.now result }
{
    Scanner::at(source, place).next(hole)
}

/// The token behind this one, before which these braces are open.
fn behind<'a>(source: &'a [u8], braces: &Braces, one: Token<'a>) -> Option<Token<'a>>
    requires { Inside source.now one }
    ensures token { option_map lexeme result
        ≡ first (past (place_of source.now braces.now 0 None) (lexeme one.entry)) }
    ensures inside { IfSome result (Inside source.now) }
{
    if one.kind.is_last() {
        return None;
    }
    let hole = braces.in_hole_behind(&one);
    Some(scan(source, one.at + one.text.len(), hole))
}
