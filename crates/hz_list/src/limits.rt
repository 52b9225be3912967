/// The greatest safe integer, 2 ^ 53 - 1 (ECMA-262, 21.1.2.6).
pub const MAX_SAFE: u64 = 9007199254740991;
