//! Declared names.
ghost use Rattle.std.specs.Prelude.{◌≡◌, ◌∷◌, ◌++◌, [], List, ℕ, None, Some, bytes_eq, if◌then◌else◌, OnErr, OnOk};
ghost use Rattle.std.specs.Map.{lookup};

use indexmap::IndexMap;
use std::alloc::{AllocError, Global};
use std::marker::Model;

/// Names with what they stand for, in the order in which they were declared. A name is found by its hash.
pub struct Names<V> {
    values: IndexMap<Vec<u8>, V>,
}

impl<V: Drop> Drop for Names<V> {
    fn drop(self) {
        let Names { values: _ } = self;
    }
}

impl<V> Model for Names<V> {
    ghost use Rattle.std.specs.Prelude.{List, ℕ, map};
    ghost use Rattle.std.specs.Coded.{coded_list, coded×, coded_ℕ};

    ghost Value = { List (List ℕ × V) };

    ghost coded = { coded_list (coded× (coded_list coded_ℕ) V.code) };

    ghost view = { λ c. map (λ e. (e.0.items, e.1)) c.values.entries };
}

impl<V: Copy> Names<V> {
    /// No names.
    pub fn new(alloc: Global) -> Names<V>
        ensures { result ≡ [] }
    {
        Names {
            values: IndexMap::new(alloc),
        }
    }

    /// What a name stands for.
    pub fn find(&self, name: &[u8]) -> Option<V>
        ensures { result ≡ lookup (bytes_eq name.now) self.now }
    {
        self.values.get(name).copied()
    }

    /// Declares a name that isn't declared.
    pub fn declare(&mut self, name: Vec<u8>, value: V) -> Result<(), AllocError>
        requires { lookup (bytes_eq name.items) self.old ≡ None }
        ensures { OnOk result (self.new ≡ self.old ++ (name.items, value) ∷ []) }
    {
        self.values.insert(name, value)?;
        Ok(())
    }
    /// Lets a name stand for a value, whether or not it is declared. Where memory runs out it isn't, and nothing changes.
    pub fn set(&mut self, name: Vec<u8>, value: V) -> Result<(), AllocError>
        ensures ok { OnOk result ((other : List ℕ) → lookup (bytes_eq other) self.new ≡ (if bytes_eq other name.items then Some value else lookup (bytes_eq other) self.old)) }
        ensures err { OnErr result (self.new ≡ self.old) }
        ensures absent { OnErr result (lookup (bytes_eq name.items) self.old ≡ None) }
    {
        self.values.insert(name, value)?;
        Ok(())
    }
}
