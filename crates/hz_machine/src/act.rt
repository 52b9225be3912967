use hz_value::{Left, Value};

/// What a step of an activation asks of the machine.
#[derive(Debug, Drop)]
pub(crate) enum Act {
    /// It goes on.
    Go,

    /// It calls a value.
    Call(Value, Value, Vec<Value>),

    /// It ends, with its result.
    Return(Value),

    /// It ends, with a throw.
    Throw(Value),

    /// It has taken a turn.
    Turn,

    /// It found no turn left.
    Spent,

    /// It leaves the run.
    Leave(Left),

    /// Its code means nothing.
    Bad,
}
