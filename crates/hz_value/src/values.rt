use crate::integers::Safe;

/// A value of a script. Texts, symbols and objects are numbers under which a world keeps them.
#[derive(Clone, Copy, Debug, PartialEq, Eq)]
pub enum Value {
    /// `undefined`.
    Undefined,

    /// `null`.
    Null,

    /// `true` or `false`.
    Bool(bool),

    /// A number.
    Num(Safe),

    /// The text with this number.
    Text(u64),

    /// The symbol with this number.
    Symbol(u64),

    /// The object with this number.
    Object(u64),
}

/// The key of a property (ECMA-262, 6.1.7).
#[derive(Clone, Copy, Debug, PartialEq, Eq)]
pub enum Key {
    /// An array index: at most 4,294,967,294.
    Index(u32),

    /// Any other name, by the number of its text.
    Name(u64),

    /// The symbol with this number.
    Symbol(u64),
}

/// A property of an object with its attributes (ECMA-262, 6.1.7.1).
#[derive(Clone, Copy, Debug, PartialEq, Eq)]
pub enum Property {
    /// A data property.
    Data {
        /// [[Value]].
        value: Value,

        /// [[Writable]].
        writable: bool,

        /// [[Enumerable]].
        enumerable: bool,

        /// [[Configurable]].
        configurable: bool,
    },

    /// An accessor property.
    Accessor {
        /// [[Get]]: the object with this number, or None for `undefined`.
        get: Option<u64>,

        /// [[Set]]: the object with this number, or None for `undefined`.
        set: Option<u64>,

        /// [[Enumerable]].
        enumerable: bool,

        /// [[Configurable]].
        configurable: bool,
    },
}
