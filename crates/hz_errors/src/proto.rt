ghost use Rattle.std.specs.Prelude.{◌≡◌};
ghost use Rattle.hz_tree.specs.errors.Targets.{is_proto as says_proto};
ghost use Rattle.hz_tree.specs.tokens.Values.{text_value};

use hz_scan::has_value;

/// Whether a word is `__proto__`.
pub fn is_proto(word: &[u8]) -> bool
    ensures { result ≡ says_proto word.now }
{
    b"__proto__".as_slice() == word
}

/// Whether a string literal, as it is written, has the value `__proto__`.
pub fn is_proto_text(written: &[u8]) -> bool
    ensures { result ≡ says_proto (text_value written.now) }
{
    has_value(written, b"__proto__".as_slice())
}
