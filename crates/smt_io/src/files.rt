//! Files that are read by name and place.
ghost use Rattle.std.specs.Prelude.{◌≡◌, ℕ, ◌<◌, ◌≤◌, List, Option, length, take, drop, IfOk, IsOk, IfSome, OnErr};
ghost use Rattle.smt_io.specs.Faults.{Rose};

use thiserror::Error;

/// A file can't be read: it is missing, or its device failed.
#[derive(Clone, Copy, Debug, PartialEq, Eq, Error)]
#[error("a file could not be read")]
pub struct FilesFailed;

/// Files that are read by name and place. A name is seen as its bytes.
pub trait Files {
    /// The bytes of the file of a name. None: there is no such file, or nothing is told about it.
    ghost contents: { Self → List ℕ → Option (List ℕ) };

    /// How many faults were met under a name; at 2^64 - 1 the count stops.
    ghost faults: { Self → List ℕ → ℕ };

    /// No read of that name fails. (Files that promise nothing say so of no name.)
    ghost never_fails: { Self → List ℕ → Type 0 } = { λ _ _. ⊥ };

    /// Reads bytes of a file from the place `at` on into the front of `into`, and gives their number. It
    /// is 0 at the file's end and where `into` is empty; what stands in `into` behind these bytes is free.
    /// A read changes no contents, and lowers no count, whatever its answer.
    fn read(&mut self, name: &str, at: u64, into: &mut [u8]) -> Result<usize, FilesFailed>
        ensures bound { IfOk result (λ n. n ≤ length into.new) }

        // The next bytes of the told contents, and none of them only at the end.
        ensures next { IfOk result (λ n. IfSome (contents self.old name.now) (λ bytes. take n into.new ≡ take n (drop at bytes))) }
        ensures end { IfOk result (λ n. n ≡ 0 → 0 < length into.new → IfSome (contents self.old name.now) (λ bytes. length bytes ≤ at)) }

        // It fails only where that name's count rose.
        ensures failed { OnErr result (Rose (faults self.old name.now) (faults self.new name.now)) }
        ensures succeeds { never_fails self.old name.now → IsOk result }

        ensures contents_stay { contents self.new ≡ contents self.old }
        ensures counts_stay { (other : List ℕ) → faults self.old other ≤ faults self.new other }
        ensures promises_stay { (other : List ℕ) → never_fails self.old other → never_fails self.new other };
}
