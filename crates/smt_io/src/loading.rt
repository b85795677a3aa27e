//! A whole file in memory.
ghost use Rattle.std.specs.Prelude.{◌≡◌, ℕ, ◌+◌, ◌<◌, ◌≤◌, ◌++◌, List, length, take, drop, vec_len, IfOk, IfSome, IsErrOf};
ghost use Rattle.smt_io.specs.Faults.{Rose};
ghost use Rattle.smt_io.specs.declared.loading.LoadFault.TheVariants.{Failed, Memory};

use crate::{Files, FilesFailed};
use hol_types::Bytes;
use std::alloc::{AllocError, Global};
use thiserror::Error;

/// Why a file can't be loaded.
#[derive(Clone, Copy, Debug, PartialEq, Eq, Error)]
pub enum LoadFault {
    /// A read failed.
    #[error("the file could not be read")]
    Failed,
    /// Memory ran out.
    #[error("out of memory")]
    Memory,
}

impl From<FilesFailed> for LoadFault {
    ghost from_gives = { λ _ fault. fault ≡ Failed };

    fn from(_: FilesFailed) -> LoadFault {
        LoadFault::Failed
    }
}

impl From<AllocError> for LoadFault {
    ghost from_gives = { λ _ fault. fault ≡ Memory };

    fn from(_: AllocError) -> LoadFault {
        LoadFault::Memory
    }
}

/// How many bytes one read asks for at most.
const CHUNK: usize = 65_536;

/// Loads a file up to its end, or its first `most + 1` bytes where it is longer: so a result of more than
/// `most` bytes says that the file is too long. Files that never end are read no further either.
///
/// It answers `Failed` only where that name's count of faults rose in the call. Whatever the answer, no
/// contents change, and no count falls.
pub fn load<F: Files>(
    alloc: Global,
    files: &mut F,
    name: &str,
    most: u64,
) -> Result<Bytes, LoadFault>
    ensures bytes { IfOk result (λ loaded. IfSome (F.contents files.old name.now) (λ bytes. loaded ≡ take (most + 1) bytes)) }
    ensures bound { IfOk result (λ loaded. length loaded ≤ most + 1) }

    ensures failed { IsErrOf result LoadFault.Failed → Rose (F.faults files.old name.now) (F.faults files.new name.now) }
    ensures never_failed { F.never_fails files.old name.now → IsErrOf result LoadFault.Failed → ⊥ }

    ensures contents_stay { F.contents files.new ≡ F.contents files.old }
    ensures counts_stay { (other : List ℕ) → F.faults files.old other ≤ F.faults files.new other }
    ensures promises_stay { (other : List ℕ) → F.never_fails files.old other → F.never_fails files.new other }
{
    let mut chunk = new_chunk(alloc)?;
    let mut bytes = Vec::new(alloc);
    'reads: while bytes.len() as u64 <= most {
        if read_on(files, name, most, chunk.as_mut_slice(), &mut bytes)? == 0 {
            break;
        }
    }
    Ok(Bytes::new(bytes))
}

// Room for one read.
fn new_chunk(alloc: Global) -> Result<Vec<u8>, AllocError>
    ensures { IfOk result (λ chunk. 0 < vec_len chunk) }
{
    Ok(vec![in alloc; 0u8; CHUNK]?)
}

// One read behind what was read so far, into `chunk` and from there on. It gives the number of new bytes,
// which is 0 only at the end.
fn read_on<F: Files>(
    files: &mut F,
    name: &str,
    most: u64,
    chunk: &mut [u8],
    bytes: &mut Vec<u8>,
) -> Result<usize, LoadFault>
    requires not_past { vec_len bytes.old ≤ most }
    requires chunk { 0 < length chunk.old }
    ensures next { IfOk result (λ n. IfSome (F.contents files.old name.now) (λ all. bytes.new.items ≡ bytes.old.items ++ take n (drop (vec_len bytes.old) all))) }
    ensures len { IfOk result (λ n. vec_len bytes.new ≡ vec_len bytes.old + n) }
    ensures bound { IfOk result (λ n. vec_len bytes.old + n ≤ most + 1) }
    ensures end { IfOk result (λ n. n ≡ 0 → IfSome (F.contents files.old name.now) (λ all. length all ≤ vec_len bytes.old)) }

    ensures failed { IsErrOf result LoadFault.Failed → Rose (F.faults files.old name.now) (F.faults files.new name.now) }
    ensures never_failed { F.never_fails files.old name.now → IsErrOf result LoadFault.Failed → ⊥ }

    ensures contents_stay { F.contents files.new ≡ F.contents files.old }
    ensures counts_stay { (other : List ℕ) → F.faults files.old other ≤ F.faults files.new other }
    ensures promises_stay { (other : List ℕ) → F.never_fails files.old other → F.never_fails files.new other }
{
    let at = bytes.len() as u64;
    let room = (most - at).min(chunk.len() as u64 - 1) as usize + 1;
    let part = &mut chunk[..room];
    let count = files.read(name, at, part)?;
    bytes.extend_from_slice(&part[..count])?;
    Ok(count)
}
