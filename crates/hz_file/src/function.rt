use hz_tree::FunctionKind;

/// A function of a file.
#[derive(Clone, Debug, Drop)]
pub struct FunctionView<'a> {
    /// What the function is.
    pub kind: FunctionKind,
    /// The number of parameters that it expects, as its property `length` says.
    pub length: u8,
    /// The number of registers that its code uses.
    pub registers: u64,
    /// The bytes of its code; None in a stub.
    pub code: Option<&'a [u8]>,
}
