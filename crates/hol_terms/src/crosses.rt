//! What threads may share and hand on.
use crate::base::{Base, Frozen, Store};
use crate::parts::Parts;

fn crosses<T: Send + Sync>(_value: &T) {}

fn is_sent<T: Send>(_value: &T) {}

// Threads may share a store that changes no more, and hand on each kind of store: that this compiles shows it.
fn may_cross(base: &Base, frozen: &Frozen, parts: &Parts, store: &Store<'_>) {
    crosses(base);
    crosses(frozen);
    crosses(parts);
    is_sent(store);
}
