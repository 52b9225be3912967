//! The rule of the footer.

ghost use Rattle.std.specs.Prelude.{◌≡◌, ◌+◌, ◌^◌, ◌<◌, ◌≤◌, length};
ghost use Rattle.hz_file.specs.Rules.{footer_rule, first_difference};

use crate::layout;
use sha1::Sha1;

/// The place of the first byte that differs, of bytes that stand at a place.
#[tactic(auto, unfolding(crate::specs::Rules::first_difference))]
fn difference(want: &[u8], bytes: &[u8], at: usize) -> Option<usize>
    requires room { at + length want.now < 2 ^ 64 }
    requires length { length want.now ≡ length bytes.now }
    ensures { result ≡ first_difference at want.now bytes.now }
{
    for (i, byte) in want.iter().enumerate() {
        if *byte != bytes[i] {
            return Some(at + i);
        }
    }
    None
}

pub(crate) fn footer_fault(bytes: &[u8]) -> Option<usize>
    requires { 148 ≤ length bytes.now }
    ensures { result ≡ footer_rule bytes.now }
{
    let end = bytes.len() - layout::FOOTER;
    let want = Sha1::digest(&bytes[..end]);
    difference(&want, &bytes[end..], end)
}
