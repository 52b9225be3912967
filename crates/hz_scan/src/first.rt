ghost use Rattle.std.specs.Prelude.{◌≡◌, false, length};
ghost use Rattle.hz_tree.specs.tokens.Tokens.{token_behind};

use crate::scanner::Scanner;

/// The length in bytes of the first token of a source that ends here. Its tokens end with it, and the case
/// `checks/token-outlives-source.edit` of the repository keeps one longer, which does not compile.
#[tactic(auto, unfolding(crate::specs::State::token_from))]
pub fn first_token_len(source: Vec<u8>) -> usize
    ensures { result ≡ length (token_behind false source.items 0).text }
{
    let token = Scanner::new(&source).next(false);
    let len = token.text.len();
    drop(source);
    len
}
