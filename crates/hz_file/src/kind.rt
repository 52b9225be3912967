ghost use Rattle.std.specs.Prelude.{◌≡◌};
ghost use Rattle.hz_file.specs.Module.{kind_of};

use hz_tree::FunctionKind;

/// The kind of a number in a function header.
pub(crate) fn kind_of_number(number: u8) -> FunctionKind
    ensures { result ≡ kind_of number }
{
    match number {
        0 => FunctionKind::Script,
        1 => FunctionKind::Function,
        2 => FunctionKind::Arrow,
        3 => FunctionKind::Method,
        _ => FunctionKind::Generator,
    }
}
