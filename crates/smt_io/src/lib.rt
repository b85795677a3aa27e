//! What the program reads from and writes to: files and a sink, each told of by what it holds and by a
//! count of faults. A call that fails has counted a fault; nothing else makes it fail, want of memory aside.
#![tactic(auto)]

mod files;
mod loading;
mod mem_file;
mod mem_files;
mod mem_sink;
mod sink;
mod system;

pub use files::{Files, FilesFailed};
pub use loading::{LoadFault, load};
pub use mem_file::{FailAt, MemFile};
pub use mem_files::MemFiles;
pub use mem_sink::MemSink;
pub use sink::{Sink, SinkFailed, write_all};
pub use system::{DiskFiles, StdSink};
