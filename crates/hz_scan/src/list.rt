ghost use Rattle.std.specs.Prelude.{◌≡◌, map, IfOk};
ghost use Rattle.hz_tree.specs.tokens.Tokens as spec;

use crate::tokens::Tokens;
use hz_list::Memory;
use hz_tree::Token;
use std::alloc::Global;

/// The tokens of a source, up to `End` or the first `Bad`. Only memory can fail.
pub fn list_tokens(alloc: Global, source: &[u8]) -> Result<Vec<Token<'_>>, Memory>
    ensures { IfOk result (λ all. map spec.lexeme all.items ≡ spec.tokens source.now) }
{
    let mut left = Tokens::new(alloc, source);
    let mut all = Vec::new(alloc);
    while let Some(token) = left.next()? {
        all.push(token)?;
    }
    Ok(all)
}
