/// Where the code of a function finds a name.
#[derive(Clone, Copy, Debug, PartialEq, Eq)]
pub enum Place {
    /// In a register of the function.
    Register,

    /// In a slot of an environment.
    Slot {
        /// How many environments out from the innermost one.
        hops: u32,

        /// The number of the slot, counted from 0.
        slot: u32,
    },

    /// Among the names of the global object's record (ECMA-262, 9.1.1.4), or in no scope.
    Global,
}
