// Errors that the machine makes.
ghost use Rattle.std.specs.Prelude.{◌≡◌, ◌++◌, IfOk, codes};
ghost use Rattle.hz_value.specs.operators.Messages.{text_of};
ghost use Rattle.hz_machine.specs.Errors.{message_of, kind_of};

use hz_value::Memory;
use std::alloc::Global;

/// The kind of an error (ECMA-262, 20.5.5).
#[derive(Clone, Copy, Debug, PartialEq, Eq)]
pub enum ErrorKind {
    TypeError,
    ReferenceError,
}

/// An error that was made: its kind, and the number of its message's text.
#[derive(Clone, Copy, Debug, PartialEq, Eq)]
pub struct MadeError {
    pub kind: ErrorKind,
    pub text: u64,
}

/// Why an error is made. A name is its units.
#[derive(Clone, Copy, Debug)]
pub(crate) enum Cause<'a> {
    /// The name cannot be resolved.
    NotDefined(&'a [u16]),

    /// The binding is not initialised.
    NotInitialised(&'a [u16]),

    /// The binding is constant.
    IsConstant(&'a [u16]),

    /// The callee is no function.
    NotFunction,

    /// A symbol would become a text or a number.
    SymbolConversion,
}

impl<'a> Cause<'a> {
    ghost use Rattle.std.specs.Prelude.{◌≡◌, IfOk};
    ghost use Rattle.hz_value.specs.operators.Messages.{text_of};
    ghost use Rattle.hz_machine.specs.Errors.{message_of, kind_of};

    /// The kind of the error.
    pub(crate) fn kind(&self) -> ErrorKind
        ensures { result ≡ kind_of self.now }
    {
        match self {
            Cause::NotDefined(_) | Cause::NotInitialised(_) => ErrorKind::ReferenceError,
            Cause::IsConstant(_) | Cause::NotFunction | Cause::SymbolConversion => {
                ErrorKind::TypeError
            }
        }
    }

    /// The message.
    pub(crate) fn message(&self, alloc: Global) -> Result<Vec<u16>, Memory>
        ensures { IfOk result (λ text. text.items ≡ text_of (message_of self.now)) }
    {
        match self {
            Cause::NotDefined(name) => joined(alloc, name, " is not defined"),
            Cause::NotInitialised(name) => joined(alloc, name, " is not initialised"),
            Cause::IsConstant(name) => joined(alloc, name, " is constant"),
            Cause::NotFunction => joined(alloc, &[], "value is not a function"),
            Cause::SymbolConversion => joined(alloc, &[], "symbol cannot be converted"),
        }
    }
}

/// The units, and an ASCII text behind them.
fn joined(alloc: Global, units: &[u16], text: &str) -> Result<Vec<u16>, Memory>
    ensures { IfOk result (λ whole. whole.items ≡ units.now ++ text.now) }
{
    let mut whole = Vec::new(alloc);
    whole.extend_from_slice(units)?;
    for byte in text.as_bytes() {
        whole.push(*byte as u16)?;
    }
    Ok(whole)
}
