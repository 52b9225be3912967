//! Bytes, numbers and texts put at the end of a file that is written.

ghost use Rattle.std.specs.Prelude.{◌≡◌, ◌<◌, ◌++◌, OnOk, All};
ghost use Rattle.hz_file.specs.Image.{number, numbers};

use byteorder::{ByteOrder, LittleEndian};
use hz_list::{Memory, Units};

/// Puts the bytes at the end.
pub(crate) fn put(bytes: &mut Vec<u8>, more: &[u8]) -> Result<(), Memory>
    ensures { OnOk result (bytes.new.items ≡ bytes.old.items ++ more.now) }
{
    bytes.extend_from_slice(more)?;
    Ok(())
}

/// Puts a number of two bytes at the end.
#[tactic(auto, unfolding(crate::specs::Image::number))]
pub(crate) fn put_u16(bytes: &mut Vec<u8>, n: u16) -> Result<(), Memory>
    ensures { OnOk result (bytes.new.items ≡ bytes.old.items ++ number 2 n) }
{
    let mut number = [0; 2];
    LittleEndian::write_u16(&mut number, n);
    put(bytes, &number)
}

/// Puts a number of four bytes at the end.
#[tactic(auto, unfolding(crate::specs::Image::number))]
pub(crate) fn put_u32(bytes: &mut Vec<u8>, n: u32) -> Result<(), Memory>
    ensures { OnOk result (bytes.new.items ≡ bytes.old.items ++ number 4 n) }
{
    let mut number = [0; 4];
    LittleEndian::write_u32(&mut number, n);
    put(bytes, &number)
}

/// Puts a number of eight bytes at the end.
#[tactic(auto, unfolding(crate::specs::Image::number))]
pub(crate) fn put_u64(bytes: &mut Vec<u8>, n: u64) -> Result<(), Memory>
    ensures { OnOk result (bytes.new.items ≡ bytes.old.items ++ number 8 n) }
{
    let mut number = [0; 8];
    LittleEndian::write_u64(&mut number, n);
    put(bytes, &number)
}

/// Puts numbers of eight bytes at the end, one behind the other.
pub(crate) fn put_numbers(bytes: &mut Vec<u8>, list: &[u64]) -> Result<(), Memory>
    ensures { OnOk result (bytes.new.items ≡ bytes.old.items ++ numbers 8 list.now) }
{
    for n in list {
        put_u64(bytes, *n)?;
    }
    Ok(())
}

/// Puts the units of a text at the end, one byte each.
pub(crate) fn put_text(bytes: &mut Vec<u8>, text: &Units) -> Result<(), Memory>
    requires { All (λ unit. unit < 128) text.now }
    ensures { OnOk result (bytes.new.items ≡ bytes.old.items ++ text.now) }
{
    for unit in text.as_slice() {
        bytes.push(*unit as u8)?;
    }
    Ok(())
}
