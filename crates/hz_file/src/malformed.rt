/// The first rule that the bytes of a file break, with the place in bytes where they do.
#[derive(Clone, Copy, Debug, PartialEq, Eq)]
pub struct Malformed {
    /// The number of the rule, such as `SIZE_RULE`.
    pub rule: u8,
    /// The place.
    pub at: usize,
}

/// The file is neither too short nor too long.
pub const SIZE_RULE: u8 = 1;

/// Its edition is one that can be read.
pub const EDITION_RULE: u8 = 2;

/// The bits and bytes of the header that must be zero are.
pub const ZERO_RULE: u8 = 3;

/// Its length stands in the header.
pub const LENGTH_RULE: u8 = 4;

/// The sections and the footer fill it.
pub const SECTIONS_RULE: u8 = 5;

/// The function headers keep their rules, and function 0 is the script.
pub const FUNCTIONS_RULE: u8 = 6;

/// Each function's code is not empty and stands in the code section.
pub const CODE_RULE: u8 = 8;

/// The string entries keep their rules.
pub const ENTRIES_RULE: u8 = 10;

/// The texts fill the storage in their order, each of its width.
pub const TEXTS_RULE: u8 = 11;

/// The footer is the digest of what stands in front of it.
pub const FOOTER_RULE: u8 = 14;
