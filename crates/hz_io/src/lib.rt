// Files and streams as traits, and three implementations in memory.
//
// The layer above relies on this: a call answers that it failed only where a count of faults of that very
// object rose in the call, and where an object tells its bytes, reads, writes, takes and puts move them as
// the clauses of the traits say. Whether a real file or stream keeps its bytes, no clause says.
#![tactic(auto)]

mod faults;
mod mem_files;
mod mem_sink;
mod mem_source;
mod traits;

pub use faults::{Failed, FileFault};
pub use mem_files::MemFiles;
pub use mem_sink::MemSink;
pub use mem_source::MemSource;
pub use traits::{Files, Sink, Source};
