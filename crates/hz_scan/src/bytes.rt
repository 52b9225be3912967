ghost use Rattle.std.specs.Prelude.{◌≡◌, ◌≢◌, ◌<◌, ◌≤◌, length, drop, slice_index};

/// The byte at a place, or 0 past the end.
pub fn byte(z: &[u8], at: usize) -> u8
    ensures value { result ≡ slice_index z.now at }
    ensures within { result ≢ 0 → at < length z.now }
{
    if at < z.len() { z[at] } else { 0 }
}

/// The text behind so many bytes.
pub fn rest(z: &[u8], len: usize) -> &[u8]
    requires { len ≤ length z.now }
    ensures { result.now ≡ drop len z.now }
{
    &z[len..]
}
