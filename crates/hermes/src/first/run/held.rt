// Registers.
use hz_file::StringView;
use hz_value::Safe;

/// What a register holds. A text is a view of the file's bytes.
#[derive(Debug, Drop)]
pub(crate) enum Held<'a> {
    Undefined,
    Number(Safe),
    Text(StringView<'a>),
    /// The built-in function `print`.
    Print,
}
