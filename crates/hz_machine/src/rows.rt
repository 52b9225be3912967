// The rows of the operations.
pub(crate) mod dispatch;
pub(crate) mod ends;
pub(crate) mod jumps;
pub(crate) mod loads;
pub(crate) mod names;
pub(crate) mod operators;
