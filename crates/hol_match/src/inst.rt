//! Terms for variables.
ghost use Rattle.std.specs.Prelude.{◌≡◌, None, OnErr, OnOk, [], ◌∷◌, ◌++◌, length, nat_eq, slice_get};
ghost use Rattle.std.specs.Map.{lookup};

use hol_terms::TermId;
use indexmap::IndexMap;
use std::alloc::{AllocError, Global};
use std::marker::Model;

/// Variables with their terms, each variable once, in the order in which they were given one. A variable and its term may
/// be numbers of two stores.
#[derive(Drop)]
pub struct Inst {
    terms: IndexMap<TermId, TermId>,
}

impl Model for Inst {
    ghost use Rattle.std.specs.Prelude.{List, ℕ};

    ghost Value = { List (ℕ × ℕ) };

    ghost view = { λ i. i.terms.entries };
}

impl Inst {
    /// No variable has a term.
    pub fn new(alloc: Global) -> Inst
        ensures { result ≡ [] }
    {
        Inst {
            terms: IndexMap::new(alloc),
        }
    }

    /// The term of a variable. None where it has none.
    pub fn get(&self, v: TermId) -> Option<TermId>
        ensures { result ≡ lookup (nat_eq v) self.now }
    {
        self.terms.get(&v).copied()
    }

    /// Gives a variable that has none a term. Without memory nothing changes.
    pub fn insert(&mut self, v: TermId, t: TermId) -> Result<(), AllocError>
        requires { lookup (nat_eq v) self.old ≡ None }
        ensures ok { OnOk result (self.new ≡ self.old ++ (v, t) ∷ []) }
        ensures err { OnErr result (self.new ≡ self.old) }
    {
        self.terms.insert(v, t)?;
        Ok(())
    }

    /// How many variables have a term.
    pub fn len(&self) -> usize
        ensures { result ≡ length self.now }
    {
        self.terms.len()
    }

    /// The variable that was given a term after so many others, with its term. None where there are no more than that.
    pub fn pair(&self, at: usize) -> Option<(TermId, TermId)>
        ensures { result ≡ slice_get self.now at }
    {
        match self.terms.get_index(at) {
            None => None,
            Some(pair) => Some((*pair.0, *pair.1)),
        }
    }
}
