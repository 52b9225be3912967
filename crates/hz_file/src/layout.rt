//! The places of the header's fields, in bytes.

/// The edition, 4 bytes.
pub(crate) const EDITION: usize = 8;
/// The flags, 4 bytes, of which the first holds the only one.
pub(crate) const FLAGS: usize = 12;
/// The length of the file, as all numbers below 8 bytes.
pub(crate) const FILE_LENGTH: usize = 16;
/// The number of functions.
pub(crate) const FUNCTION_COUNT: usize = 48;
/// The number of string entries.
pub(crate) const STRING_COUNT: usize = 56;
/// The number of overflow entries.
pub(crate) const OVERFLOW_COUNT: usize = 64;
/// The number of handlers.
pub(crate) const HANDLER_COUNT: usize = 72;
/// The number of large headers.
pub(crate) const LARGE_COUNT: usize = 80;
/// The length of the code.
pub(crate) const CODE_LENGTH: usize = 88;
/// The length of the string storage.
pub(crate) const STORAGE_LENGTH: usize = 96;
/// The length of the source.
pub(crate) const SOURCE_LENGTH: usize = 104;
/// The first function header, which stands right behind the header.
pub(crate) const FIRST_HEADER: usize = 128;
/// The length of the footer.
pub(crate) const FOOTER: usize = 20;
