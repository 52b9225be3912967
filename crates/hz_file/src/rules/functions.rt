//! The rules of the function headers and of the code.

ghost use Rattle.std.specs.Prelude.{◌≡◌, ◌+◌, ◌≤◌, length};
ghost use Rattle.hz_file.specs.Rules.{functions_rule, code_rule, is_header};

use crate::layout;
use crate::numbers::{u16_at, u32_at, u64_at};
use crate::rules::header::unless;

/// Whether a header keeps its rules.
fn is_header(bytes: &[u8], at: usize) -> bool
    requires { at + 16 ≤ length bytes.now }
    ensures { result ≡ is_header bytes.now at }
{
    let has_code = bytes[at] % 2 == 1;
    let is_large = bytes[at] / 2 % 2 == 1;
    has_code && !is_large && u16_at(bytes, at + 10) == 0 && u16_at(bytes, at + 14) == 0
}

pub(crate) fn functions_fault(bytes: &[u8]) -> Option<usize>
    requires { 148 ≤ length bytes.now }
    ensures { result ≡ functions_rule bytes.now }
{
    let is_script = bytes[layout::FIRST_HEADER] / 4 == 0;
    unless(
        u64_at(bytes, layout::FUNCTION_COUNT) == 1,
        layout::FUNCTION_COUNT,
    )
    .or(unless(
        is_header(bytes, layout::FIRST_HEADER) && is_script,
        layout::FIRST_HEADER,
    ))
}

pub(crate) fn code_fault(bytes: &[u8]) -> Option<usize>
    requires { 148 ≤ length bytes.now }
    ensures { result ≡ code_rule bytes.now }
{
    let place = u32_at(bytes, layout::FIRST_HEADER + 4) as u64;
    let size = u16_at(bytes, layout::FIRST_HEADER + 8) as u64;
    unless(
        0 < size && place + size <= u64_at(bytes, layout::CODE_LENGTH),
        layout::FIRST_HEADER,
    )
}
