//! Files in memory.
ghost use Rattle.std.specs.Prelude.{◌≡◌, ℕ, ◌+◌, ◌-◌, ◌<◌, ◌≤◌, ◌↔◌, List, Option, length, take, drop, min, IfOk, IsOk, IsSome, IfSome, OnOk, OnErr, MatchOption, Some, None};
ghost use Rattle.smt_io.specs.Faults.{Rose, counted};
ghost use Rattle.smt_io.specs.MemFiles.{bytes_of, IsClearAt, StopsBefore, IsWhole};

use crate::{FailAt, Files, FilesFailed, MemFile};
use hol_types::List;
use std::marker::Model;

/// Files in memory, with places at which reads fail. The first file of a name counts. All names have one
/// count of faults.
#[derive(Debug, Drop)]
pub struct MemFiles {
    files: List<MemFile>,
    fails: List<FailAt>,
    most: usize,
    faults: u64,
}

impl Model for MemFiles {
    ghost use Rattle.std.specs.Prelude.{◌<◌};
    ghost use Rattle.smt_io.specs.MemFiles.{FileStore};

    ghost Value = { FileStore };

    ghost view = { λ it. record { files = it.files; fails = it.fails; most = it.most; faults = it.faults } };

    ghost invariant = { λ it. 0 < it.most };
}

impl MemFiles {
    /// Files in memory. A read of a name gives only bytes below each place that `fails` has for the name,
    /// and a read at such a place or behind it fails; a read of a name that has no file fails too. No
    /// fault is counted yet.
    pub fn new(files: List<MemFile>, fails: List<FailAt>) -> MemFiles
        ensures { result ≡ record { files = files; fails = fails; most = usize.MAX; faults = 0 } }
    {
        MemFiles {
            files,
            fails,
            most: usize::MAX,
            faults: 0,
        }
    }

    /// From now on a read gives at most `most` bytes.
    pub fn short(&mut self, most: usize)
        requires { 0 < most }
        ensures { self.new ≡ record self.old { most = most } }
    {
        self.most = most;
    }
}

impl Files for MemFiles {
    ghost contents = { λ store name. bytes_of store.files name };

    ghost faults = { λ store _. store.faults };

    ghost never_fails = { IsWhole };

    fn read(&mut self, name: &str, at: u64, into: &mut [u8]) -> Result<usize, FilesFailed>
        ensures bound { IfOk result (λ n. n ≤ length into.new) }
        ensures next { IfOk result (λ n. IfSome (bytes_of self.old.files name.now) (λ bytes. take n into.new ≡ take n (drop at bytes))) }
        ensures end { IfOk result (λ n. n ≡ 0 → 0 < length into.new → IfSome (bytes_of self.old.files name.now) (λ bytes. length bytes ≤ at)) }

        // It gives at most so many bytes, and none at or behind a failing place.
        ensures short { IfOk result (λ n. n ≤ self.old.most) }
        ensures before { IfOk result (λ n. StopsBefore self.old.fails name.now (at + n)) }

        // It fails where there is no such file, or a failing place at this one or before it.
        ensures ok { IsOk result ↔ (IsSome (bytes_of self.old.files name.now) × IsClearAt self.old.fails name.now at) }
        ensures same { OnOk result (self.new ≡ self.old) }
        ensures err { OnErr result (self.new ≡ record self.old { faults = counted self.old.faults }) }

        // What the trait says of every read.
        ensures failed { OnErr result (Rose self.old.faults self.new.faults) }
        ensures succeeds { IsWhole self.old name.now → IsOk result }
        ensures contents_stay { bytes_of self.new.files ≡ bytes_of self.old.files }
        ensures counts_stay { self.old.faults ≤ self.new.faults }
        ensures promises_stay { (other : List ℕ) → IsWhole self.old other → IsWhole self.new other }
    {
        match readable(self.files.as_slice(), self.fails.as_slice(), name, at) {
            Some(bytes) => Ok(copy_front(bytes, self.most, into)),
            None => {
                self.faults = self.faults.saturating_add(1);
                Err(FilesFailed)
            }
        }
    }
}

// The bytes that a read may give: those from `at` on that stand before each failing place.
fn readable<'a>(files: &'a [MemFile], fails: &[FailAt], name: &str, at: u64) -> Option<&'a [u8]>
    ensures some { IsSome result ↔ (IsSome (bytes_of files.now name.now) × IsClearAt fails.now name.now at) }
    ensures next { IfSome result (λ part. IfSome (bytes_of files.now name.now) (λ bytes. part.now ≡ take (length part.now) (drop at bytes))) }
    ensures before { IfSome result (λ part. StopsBefore fails.now name.now (at + length part.now)) }
    ensures end { IfSome result (λ part. length part.now ≡ 0 → IfSome (bytes_of files.now name.now) (λ bytes. length bytes ≤ at)) }
{
    let bytes = find(files, name)?;
    let rest = from_place(bytes, at);
    let room = room_before(fails, name, at, rest.len())?;
    Some(&rest[..room])
}

// The bytes of the first file of that name.
fn find<'a>(files: &'a [MemFile], name: &str) -> Option<&'a [u8]>
    ensures { MatchOption result (bytes_of files.now name.now ≡ None) (λ bytes. bytes_of files.now name.now ≡ Some bytes.now) }
{
    for file in files {
        if file.name.as_str() == name {
            return Some(file.bytes.as_slice());
        }
    }
    None
}

// The bytes from a place on.
fn from_place(bytes: &[u8], at: u64) -> &[u8]
    ensures { result.now ≡ drop at bytes.now }
{
    if at < bytes.len() as u64 {
        &bytes[at as usize..]
    } else {
        &[]
    }
}

// How many of `len` bytes from `at` on stand before each failing place of that name: some of them, or
// None where such a place stands at `at` or before it.
fn room_before(fails: &[FailAt], name: &str, at: u64, len: usize) -> Option<usize>
    ensures some { IsSome result ↔ IsClearAt fails.now name.now at }
    ensures within { IfSome result (λ room. room ≤ len) }
    ensures before { IfSome result (λ room. StopsBefore fails.now name.now (at + room)) }
    ensures nonzero { IfSome result (λ room. room ≡ 0 → len ≡ 0) }
{
    let mut room = len;
    for fail in fails {
        if fail.name.as_str() == name {
            if fail.place <= at {
                return None;
            }
            room = room.min((fail.place - at) as usize);
        }
    }
    Some(room)
}

// Copies as many bytes as fit, but at most `most`, and gives their number.
fn copy_front(from: &[u8], most: usize, to: &mut [u8]) -> usize
    ensures count { result ≡ min most (min (length from.now) (length to.old)) }
    ensures copied { take result to.new ≡ take result from.now }
    ensures size { length to.new ≡ length to.old }
{
    let count = from.len().min(to.len()).min(most);
    to[..count].copy_from_slice(&from[..count]);
    count
}
