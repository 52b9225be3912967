ghost use Rattle.std.specs.Prelude.{◌<◌, ◌≤◌, length};

use std::alloc::{AllocError, Global};

/// The source that is written so: `\n`, `\\` and `\xNN` are escapes, and all else stands for itself.
pub fn source_of(alloc: Global, text: &str) -> Result<Vec<u8>, AllocError> {
    let mut source = Vec::new(alloc);
    let mut left = text.as_bytes();
    while let Some((byte, more)) = left.split_first() {
        let (byte, more) = if *byte == b'\\' {
            escape(more)
        } else {
            (*byte, more)
        };
        source.push(byte)?;
        left = more;
    }
    Ok(source)
}

/// The byte that is written so behind a backslash, and what follows it.
fn escape(text: &[u8]) -> (u8, &[u8])
    ensures { length result.1.now ≤ length text.now }
{
    match text {
        [b'n', more @ ..] => (b'\n', more),
        [b'x', high, low, more @ ..] => (digit(*high) * 16 + digit(*low), more),
        [byte, more @ ..] => (*byte, more),
        [] => (b'\\', text),
    }
}

fn digit(byte: u8) -> u8
    ensures { result < 16 }
{
    match byte {
        b'0'..=b'9' => byte - b'0',
        b'A'..=b'F' => byte - b'A' + 10,
        b'a'..=b'f' => byte - b'a' + 10,
        _ => 0,
    }
}
