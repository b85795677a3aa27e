//! Files in memory, and the places where reading them fails.
use hol_types::{Bytes, FileName};

/// A file in memory.
#[derive(Debug, Drop)]
pub struct MemFile {
    pub name: FileName,
    pub bytes: Bytes,
}

/// A place in a file, counted in bytes from 0, at and behind which reads of that name fail.
#[derive(Debug, Drop)]
pub struct FailAt {
    pub name: FileName,
    pub place: u64,
}
