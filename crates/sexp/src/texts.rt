ghost use Rattle.std.specs.Prelude.{◌≡◌, ◌<◌, [], length, slice_get, Some, IfOk};
ghost use Rattle.sexp.specs.Texts.{Keeps};

use indexmap::IndexSet;
use std::alloc::{AllocError, Global};
use std::marker::Model;

/// Texts, each kept once, by number.
pub struct Texts {
    alloc: Global,
    set: IndexSet<Vec<u8>>,
}

impl Drop for Texts {
    fn drop(self) {
        let Texts { alloc: _, set: _ } = self;
    }
}

impl Model for Texts {
    ghost use Rattle.std.specs.Prelude.{List, ℕ, map};

    ghost Value = { List (List ℕ) };

    ghost view = { λ t. map (λ text. text.items) t.set.keys };
}

/// The place as a number of 32 bits. Past these there is no memory.
fn narrow(at: usize) -> Result<u32, AllocError>
    ensures { IfOk result (λ n. n ≡ at) }
{
    if at < 0x1_0000_0000 {
        Ok(at as u32)
    } else {
        Err(AllocError)
    }
}

impl Texts {
    pub fn new(alloc: Global) -> Self
        ensures { result ≡ [] }
    {
        Texts {
            alloc,
            set: IndexSet::new(alloc),
        }
    }

    /// The number of a text, which is added where it isn't there.
    pub fn number(&mut self, text: &[u8]) -> Result<u32, AllocError>
        ensures number { IfOk result (λ n. slice_get self.new n ≡ Some text.now) }
        ensures keeps { Keeps self.old self.new }
    {
        if let Some(at) = self.set.get_index_of(text) {
            return Ok(narrow(at)?);
        }
        let owned = Vec::from_slice(self.alloc, text)?;
        let (at, _) = self.set.insert_full(owned)?;
        Ok(narrow(at)?)
    }

    /// The text of a number.
    pub fn text(&self, n: u32) -> &[u8]
        requires { n < length self.now }
        ensures { slice_get self.now n ≡ Some result.now }
    {
        self.set.as_slice()[n as usize].as_slice()
    }
}
