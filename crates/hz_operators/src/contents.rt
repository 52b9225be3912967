use hz_value::Safe;

/// What a value is (ECMA-262, 6.1), whatever keeps it: a text is its UTF-16 units.
#[derive(Clone, Copy, Debug)]
pub enum Content<'a> {
    /// `undefined`.
    Undefined,

    /// `null`.
    Null,

    /// `true` or `false`.
    Boolean(bool),

    /// A number.
    Number(Safe),

    /// A text.
    Text(&'a [u16]),

    /// The symbol with this number.
    Symbol(u64),

    /// The object with this number.
    Object(u64),
}
