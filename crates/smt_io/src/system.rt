//! The files and the output of the system. They tell no bytes: nothing is proved of what a disk holds.
ghost use Rattle.std.specs.Prelude.{◌≡◌, ◌≤◌, length, IfOk, None};

use crate::{Files, FilesFailed, Sink, SinkFailed};
use std::io::{Read, Seek, SeekFrom};
use std::marker::Model;
use std::{fs, io, rt};

/// The files of the system, each opened afresh for each read. So a name is to stand for a file that can
/// be read from any place, and not for a pipe.
#[derive(Drop)]
pub struct DiskFiles<'a, R> {
    system: &'a R,
    faults: u64,
}

impl<'a, R> Model for DiskFiles<'a, R> {
    ghost use Rattle.std.specs.Prelude.{ℕ};
    ghost use Rattle.std.specs.Coded.{coded_ℕ};

    ghost Value = { ℕ };

    ghost coded = { coded_ℕ };

    ghost view = { λ it. it.faults };
}

impl<'a, R: rt::Files> DiskFiles<'a, R> {
    /// The files of this system. Contracts see the count of faults, which is 0 here.
    pub fn new(system: &'a R) -> DiskFiles<'a, R>
        ensures { result ≡ 0 }
    {
        DiskFiles { system, faults: 0 }
    }
}

impl<'a, R: rt::Files> Files for DiskFiles<'a, R> {
    ghost contents = { λ _ _. None };

    ghost faults = { λ count _. count };

    fn read(&mut self, name: &str, at: u64, into: &mut [u8]) -> Result<usize, FilesFailed> {
        match read_at(self.system, name, at, into) {
            Ok(count) => Ok(count),
            Err(_) => {
                self.faults = self.faults.saturating_add(1);
                Err(FilesFailed)
            }
        }
    }
}

// One read of a file, from a place on.
fn read_at<R: rt::Files>(system: &R, name: &str, at: u64, into: &mut [u8]) -> io::Result<usize>
    ensures { IfOk result (λ n. n ≤ length into.new) }
{
    let mut file = fs::open(system, name)?;
    file.seek(SeekFrom::Start(at))?;
    file.read(into)
}

/// The standard output of the system.
#[derive(Drop)]
pub struct StdSink<'a, P> {
    system: &'a P,
    faults: u64,
}

impl<'a, P> Model for StdSink<'a, P> {
    ghost use Rattle.std.specs.Prelude.{ℕ};
    ghost use Rattle.std.specs.Coded.{coded_ℕ};

    ghost Value = { ℕ };

    ghost coded = { coded_ℕ };

    ghost view = { λ it. it.faults };
}

impl<'a, P: Print> StdSink<'a, P> {
    /// The output of this system. Contracts see the count of faults, which is 0 here.
    pub fn new(system: &'a P) -> StdSink<'a, P>
        ensures { result ≡ 0 }
    {
        StdSink { system, faults: 0 }
    }
}

impl<'a, P: Print> Sink for StdSink<'a, P> {
    ghost contents = { λ _. None };

    ghost faults = { λ count. count };

    fn write(&mut self, piece: &[u8]) -> Result<usize, SinkFailed> {
        match self.system.write_some(piece) {
            Ok(count) if count > 0 || piece.is_empty() => Ok(count),
            _ => {
                self.faults = self.faults.saturating_add(1);
                Err(SinkFailed)
            }
        }
    }
}
