use crate::braces::Braces;
use crate::scanner::next_token;
use hz_list::Memory;
use hz_tree::Token;
use std::alloc::Global;
use std::marker::Model;

/// The tokens of a source that are left, up to `End` or the first `Bad`.
///
/// It borrows the source, and takes memory for the braces that are open.
#[derive(Drop)]
pub struct Tokens<'a> {
    source: &'a [u8],

    /// The place at which the last token that was given ends.
    place: usize,

    braces: Braces,

    /// Whether none is left.
    ended: bool,
}

impl<'a> Model for Tokens<'a> {
    ghost use Rattle.std.specs.Prelude.{◌≤◌, List, [], if◌then◌else◌, length};
    ghost use Rattle.hz_tree.specs.tokens.Tokens.{Lexeme, tokens_from};

    ghost Value = { List Lexeme };

    ghost view = { λ t. if t.ended then [] else tokens_from t.braces t.source.now t.place };

    ghost invariant = { λ t. t.place ≤ length t.source.now };
}

impl<'a> Tokens<'a> {
    ghost use Rattle.std.specs.Prelude.{◌≡◌, [], IfOk, OnErr};
    ghost use Rattle.hz_tree.specs.tokens.Tokens.{tokens};
    ghost use Rattle.hz_scan.specs.Order.{Gives};

    /// All tokens of the source.
    pub fn new(alloc: Global, source: &'a [u8]) -> Tokens<'a>
        ensures { result ≡ tokens source.now }
    {
        Tokens {
            source,
            place: 0,
            braces: Braces::new(alloc),
            ended: false,
        }
    }

    /// The next token, or None where none is left. After Memory none is left.
    pub fn next(&mut self) -> Result<Option<Token<'a>>, Memory>
        ensures ok { IfOk result (Gives self.old self.new) }
        ensures err { OnErr result (self.new ≡ []) }
    {
        if self.ended {
            return Ok(None);
        }
        self.ended = true;
        let token = next_token(self.source, self.place, self.braces.in_hole());
        if !token.kind.is_last() {
            self.braces.follow(&token)?;
            self.place = token.at + token.text.len();
            self.ended = false;
        }
        Ok(Some(token))
    }
}
