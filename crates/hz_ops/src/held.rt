use hz_value::Value;

/// What a register of code holds.
#[derive(Clone, Copy, Debug, PartialEq, Eq)]
pub enum Held {
    /// A value.
    Value(Value),

    /// The empty mark, which stands for a binding that is not initialised.
    Empty,

    /// The environment with this number.
    Environment(u64),

    /// The walk of a `for`-`in` with this number.
    Walk(u64),
}
