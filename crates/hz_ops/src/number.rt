// Numbers as bytes, the lowest byte first.
ghost use Rattle.std.specs.Prelude.{◌≡◌, ◌+◌, ◌*◌, ◌^◌, ◌<◌, ◌≤◌, ◌++◌, length, take, drop, option_map, IfSome};
ghost use Rattle.std.specs.Int.{to_le_bytes};
ghost use Rattle.hz_ops.specs.Sizes.{width, byte_count, number_at};

/// How many bytes an operand takes.
#[derive(Clone, Copy, Debug, PartialEq, Eq)]
pub enum Size {
    One,
    Two,
    Eight,
}

/// The number of this size in front, and the bytes behind it; `None` where there are fewer bytes.
#[inline(always)]
pub(crate) fn number_at(size: Size, bytes: &[u8]) -> Option<(u64, &[u8])>
    ensures value { option_map (λ r. (r.0, r.1.now)) result ≡ number_at size bytes.now }
    ensures fits { IfSome result (λ r. r.0 < 2 ^ (8 * byte_count size)) }
{
    match size {
        Size::One => {
            let (field, rest) = bytes.split_first_chunk::<1>()?;
            Some((u8::from_le_bytes(*field) as u64, rest))
        }
        Size::Two => {
            let (field, rest) = bytes.split_first_chunk::<2>()?;
            Some((u16::from_le_bytes(*field) as u64, rest))
        }
        Size::Eight => {
            let (field, rest) = bytes.split_first_chunk::<8>()?;
            Some((u64::from_le_bytes(*field), rest))
        }
    }
}

/// Writes the number at this place, and gives the place behind it.
pub(crate) fn put_number(size: Size, number: u64, buf: &mut [u8], at: usize) -> usize
    requires fits { number < 2 ^ (8 * byte_count size) }
    requires room { at + byte_count size ≤ length buf.old }
    ensures place { result ≡ at + byte_count size }
    ensures front { take result buf.new ≡ take at buf.old ++ to_le_bytes (width size) number }
    ensures back { drop result buf.new ≡ drop result buf.old }
{
    match size {
        Size::One => {
            buf[at..at + 1].copy_from_slice(&(number as u8).to_le_bytes());
            at + 1
        }
        Size::Two => {
            buf[at..at + 2].copy_from_slice(&(number as u16).to_le_bytes());
            at + 2
        }
        Size::Eight => {
            buf[at..at + 8].copy_from_slice(&number.to_le_bytes());
            at + 8
        }
    }
}
