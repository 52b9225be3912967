ghost use Rattle.std.specs.Prelude.{◌≡◌};
ghost use Rattle.hz_tree.specs.errors.Declarations.{is_eval as names_eval};

/// Whether it is one of the two names that may neither be bound nor be a target.
pub fn is_eval(name: &[u8]) -> bool
    ensures { result ≡ names_eval name.now }
{
    b"eval".as_slice() == name || b"arguments".as_slice() == name
}
