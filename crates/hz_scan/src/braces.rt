use crate::bytes::byte;
use hz_list::Memory;
use hz_tree::{Token, TokenKind};
use std::alloc::Global;
use std::marker::Model;

/// The braces that are open behind some tokens, and which of them a `${` opened. They say where a `}` goes
/// on with a template.
#[derive(Drop)]
pub struct Braces {
    /// Whether a `${` opened it, the innermost one last.
    open: Vec<bool>,
}

impl Model for Braces {
    ghost use Rattle.std.specs.Prelude.{List, Bool, reverse};

    ghost Value = { List Bool };

    ghost view = { λ b. reverse b.open.items };
}

impl Braces {
    ghost use Rattle.std.specs.Prelude.{◌≡◌, [], OnOk, OnErr, drop, slice_index};
    ghost use Rattle.hz_tree.specs.tokens.Tokens as spec;

    /// No brace is open.
    pub fn new(alloc: Global) -> Braces
        ensures { result ≡ [] }
    {
        Braces {
            open: Vec::new(alloc),
        }
    }

    /// Whether a `}` goes on with a template here.
    pub fn in_hole(&self) -> bool
        ensures { result ≡ spec.in_hole self.now }
    {
        self.open.last().copied().unwrap_or(false)
    }

    /// Whether a `}` goes on with a template behind this token.
    pub fn in_hole_behind(&self, token: &Token<'_>) -> bool
        ensures { result ≡ spec.in_hole (spec.braces (spec.lexeme token.now) self.now) }
    {
        match token.kind {
            TokenKind::Punct => self.in_hole_behind_punctuator(token.text),
            TokenKind::Template {
                first: true,
                last: false,
            } => true,
            TokenKind::Template {
                first: false,
                last: true,
            } => self.in_outer_hole(),
            _ => self.in_hole(),
        }
    }

    fn in_hole_behind_punctuator(&self, text: &[u8]) -> bool
        ensures { result
            ≡ spec.in_hole (spec.braces_by TokenKind.Punct (slice_index text.now 0) self.now) }
    {
        match byte(text, 0) {
            b'{' => false,
            b'}' => self.in_outer_hole(),
            _ => self.in_hole(),
        }
    }

    /// Whether a `}` goes on with a template behind the innermost brace.
    fn in_outer_hole(&self) -> bool
        ensures { result ≡ spec.in_hole (drop 1 self.now) }
    {
        match self.open.len() {
            0 | 1 => false,
            len => self.open[len - 2],
        }
    }

    /// Goes past a token. After Memory the braces are as before.
    pub fn follow(&mut self, token: &Token<'_>) -> Result<(), Memory>
        ensures ok { OnOk result (self.new ≡ spec.braces (spec.lexeme token.now) self.old) }
        ensures err { OnErr result (self.new ≡ self.old) }
    {
        match token.kind {
            TokenKind::Punct => self.follow_punctuator(token.text)?,
            TokenKind::Template {
                first: true,
                last: false,
            } => self.open.push(true)?,
            TokenKind::Template {
                first: false,
                last: true,
            } => {
                let _ = self.open.pop();
            }
            _ => {}
        }
        Ok(())
    }

    fn follow_punctuator(&mut self, text: &[u8]) -> Result<(), Memory>
        ensures ok { OnOk result
            (self.new ≡ spec.braces_by TokenKind.Punct (slice_index text.now 0) self.old) }
        ensures err { OnErr result (self.new ≡ self.old) }
    {
        match byte(text, 0) {
            b'{' => self.open.push(false)?,
            b'}' => {
                let _ = self.open.pop();
            }
            _ => {}
        }
        Ok(())
    }
}
