//! A list that is being filled, with its room in sight.
ghost use Rattle.std.specs.Prelude.{◌≡◌, ◌+◌, ◌-◌, ◌<◌, ◌≤◌, ◌++◌, ◌∷◌, [], IfOk, OnOk, OnErr};
ghost use Rattle.hol_types.specs.Roomy.{Roomy};

use crate::list::List;
use std::alloc::{AllocError, Global};
use std::marker::Model;

/// Items in order, with memory taken for some more. Contracts see the items, and how many more go in without memory.
#[derive(Drop)]
pub struct Room<T> {
    items: Vec<T>,
}

impl<T> Model for Room<T> {
    ghost use Rattle.std.specs.Prelude.{◌-◌, vec_len, vec_capacity};
    ghost use Rattle.hol_types.specs.Roomy.{Roomy, roomy_code};

    ghost Value = { Roomy T };

    ghost coded = { roomy_code T.code };

    ghost view = { λ it. record { items = it.items.items; room = vec_capacity it.items - vec_len it.items } };
}

impl<T> Room<T> {
    /// No items, with memory for so many.
    pub fn with_capacity(alloc: Global, capacity: usize) -> Result<Room<T>, AllocError>
        ensures items { IfOk result (λ it. it.items ≡ []) }
        ensures room { IfOk result (λ it. it.room ≡ capacity) }
    {
        let items = Vec::with_capacity(alloc, capacity)?;
        Ok(Room { items })
    }

    /// The items of a list, with the memory that it has.
    pub fn of_list(list: List<T>) -> Room<T>
        ensures { result.items ≡ list }
    {
        Room {
            items: list.into_vec(),
        }
    }

    /// Takes the memory for so many more items. Without it all stays as it was.
    pub fn reserve(&mut self, more: usize) -> Result<(), AllocError>
        ensures items { self.new.items ≡ self.old.items }
        ensures ok { OnOk result (more ≤ self.new.room) }
        ensures grows { self.old.room ≤ self.new.room }
        ensures err { OnErr result (self.new ≡ self.old) }
    {
        self.items.reserve(more)
    }

    /// Puts an item at the end, where there is room. It takes no memory.
    pub fn push_within(&mut self, item: T)
        requires { 0 < self.old.room }
        ensures items { self.new.items ≡ self.old.items ++ item ∷ [] }
        ensures room { self.new.room + 1 ≡ self.old.room }
    {
        self.items.push_reserved(item);
    }

    /// The items.
    pub fn as_slice(&self) -> &[T]
        ensures { result.now ≡ self.now.items }
    {
        self.items.as_slice()
    }

    /// How many items go in without memory.
    pub fn room(&self) -> usize
        ensures { result ≡ self.now.room }
    {
        self.items.capacity() - self.items.len()
    }

    /// The list of the items.
    pub fn into_list(self) -> List<T>
        ensures { result ≡ self.items }
    {
        List::new(self.items)
    }
}
