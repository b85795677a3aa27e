//! Items by number, each kept once.
ghost use Rattle.std.specs.Prelude.{◌≡◌, ◌^◌, ◌<◌, ◌≤◌, ◌++◌, [], ◌∷◌, length, take, slice_get, true, MatchOption, IfSome, IfOk, OnOk, OnErr};
ghost use Rattle.hol_types.specs.Once.{Once, Absent, IsAdded};

use crate::list::{Bytes, List};
use crate::node::{NameId, TypeNode};
use indexmap::{Equivalent, IndexSet};
use std::alloc::{AllocError, Global};
use std::hash::Hash;
use std::marker::Model;

/// A type whose `==` tells each two values apart.
pub trait Exact: Eq + Hash {
    /// Says nothing; the trait's law does.
    fn is_exact(&self) -> bool {
        true
    }

    /// Equal values are the same.
    ghost exact: { (x y : Self) → Self.eq x y ≡ true → x ≡ y };
}

/// Items in the order in which they came, each once.
pub struct Table<T: Exact> {
    items: IndexSet<T>,
}

impl<T: Exact + Drop> Drop for Table<T> {
    fn drop(self) {
        let Table { items: _ } = self;
    }
}

impl<T: Exact> Model for Table<T> {
    ghost use Rattle.std.specs.Prelude.{List};
    ghost use Rattle.std.specs.Coded.{coded_list};

    ghost Value = { List T };

    ghost coded = { coded_list T.code };

    ghost view = { λ t. t.items.keys };
}

impl<T: Exact> Table<T> {
    pub fn new(alloc: Global) -> Table<T>
        ensures { result ≡ [] }
    {
        Table {
            items: IndexSet::new(alloc),
        }
    }

    pub fn len(&self) -> usize
        ensures len { result ≡ length self.now }
        ensures small { result < 2 ^ 63 }
        ensures once { Once self.now }
    {
        self.items.len()
    }

    pub fn get(&self, at: usize) -> &T
        requires { at < length self.now }
        ensures { slice_get self.now at ≡ Some result.now }
    {
        &self.items.as_slice()[at]
    }

    /// The number of an item.
    pub fn find(&self, item: &T) -> Option<usize>
        ensures at { MatchOption result (Absent self.now item.now) (λ i. slice_get self.now i ≡ Some item.now) }
        ensures within { IfSome result (λ i. i < length self.now) }
    {
        self.items.get_index_of(item)
    }

    /// The number of an item, which goes to the end where it is new.
    pub fn add(&mut self, item: T) -> Result<usize, AllocError>
    where
        T: Drop,
        ensures at { IfOk result (λ i. slice_get self.new i ≡ Some item) }
        ensures within { IfOk result (λ i. i ≤ length self.old) }
        ensures added { OnOk result (IsAdded item self.old self.new) }
        ensures once { OnOk result (Once self.new) }
        ensures err { OnErr result (self.new ≡ self.old) }
    {
        let added = self.items.insert_full(item)?;
        Ok(added.0)
    }

    /// Adds an item that isn't there.
    pub fn push(&mut self, item: T) -> Result<(), AllocError>
    where
        T: Drop,
        requires { Absent self.old item }
        ensures ok { OnOk result (self.new ≡ self.old ++ item ∷ []) }
        ensures err { OnErr result (self.new ≡ self.old) }
    {
        self.items.insert_full(item)?;
        Ok(())
    }

    /// Keeps the first items.
    pub fn truncate(&mut self, len: usize)
    where
        T: Drop,
        ensures { self.new ≡ take len self.old }
    {
        self.items.truncate(len);
    }
}

impl Table<Bytes> {
    /// The number of an item, given its bytes.
    pub fn find_bytes(&self, bytes: &[u8]) -> Option<usize>
        ensures at { MatchOption result (Absent self.now bytes.now) (λ i. slice_get self.now i ≡ Some bytes.now) }
        ensures within { IfSome result (λ i. i < length self.now) }
    {
        self.items.get_index_of(bytes)
    }
}

// Bytes look up the list of them.
impl<T: Eq + Hash> Equivalent<List<T>> for &[T] {
    ghost use Rattle.std.specs.Cmp.Lexicographic.{pointwise, lists_equiv};
    ghost use Rattle.std.specs.Hash as fed;
    ghost use Rattle.std.specs.Hash.{items_Alike};

    ghost equivalent = { λ q k. pointwise T.eq q.now k };

    ghost respects_hash = { λ q k. (items_Alike (record { fed = T.respects_eq })).fed q.now k };

    ghost respects_eq = { λ q x y. (lists_equiv T.Eq.laws).congr q.now x y };

    fn equivalent(&self, key: &List<T>) -> bool {
        *self == key.as_slice()
    }
}

impl Exact for u8 {
    ghost use Rattle.std.proofs.Common.{rules};

    ghost exact = { Prim.search rules };
}

impl Exact for NameId {
    ghost use Rattle.hol_types.specs.Exact.{name_exact};

    ghost exact = { name_exact };
}

impl<T: Exact> Exact for List<T> {
    ghost use Rattle.hol_types.specs.Exact.{list_exact};

    ghost exact = { list_exact T.eq T.exact };
}

impl Exact for TypeNode {
    ghost use Rattle.hol_types.specs.Exact.{node_exact};

    ghost exact = { node_exact };
}
