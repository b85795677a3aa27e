//! The distinct parts of terms, by number.
ghost use Rattle.std.specs.Prelude.{◌≡◌, ◌<◌, IfOk, OnOk, [], length, slice_get, Some};
ghost use Rattle.std.specs.List.{AllByRecursion};
ghost use Rattle.hol_terms.specs.TermStore.{HasTerm, term_tree};
ghost use Rattle.part_numbers.specs.Parts.{parts_of, with_parts_of};
ghost use Rattle.part_numbers.specs.Walk.{AreCovered, terms_at};

use crate::stack::push_beneath;
use hol_terms::{TermId, Terms};
use indexmap::IndexSet;
use std::alloc::AllocError;
use std::marker::Model;

/// The distinct parts of terms. They are numbered from 0 as they are met: each term before its arguments from left to
/// right, a lambda before its body. The head of an application is no part, unless it is a lambda.
#[derive(Drop)]
pub struct PartNumbers {
    parts: IndexSet<TermId>,
}

impl Model for PartNumbers {
    ghost use Rattle.std.specs.Prelude.{List, ℕ};

    ghost Value = { List ℕ };

    ghost view = { λ p. p.parts.keys };
}

/// Adds the parts of one more term.
fn add_parts<S: Terms>(store: &S, parts: &mut IndexSet<TermId>, t: TermId) -> Result<(), AllocError>
    requires term { HasTerm (S.store store.now) t }
    requires there { AllByRecursion (HasTerm (S.store store.now)) parts.old.keys }
    requires covered { AreCovered (S.store store.now) parts.old.keys [] }
    ensures there { OnOk result (AllByRecursion (HasTerm (S.store store.now)) parts.new.keys) }
    ensures covered { OnOk result (AreCovered (S.store store.now) parts.new.keys []) }
    ensures parts { OnOk result (terms_at (S.store store.now) parts.new.keys ≡ with_parts_of (terms_at (S.store store.now) parts.old.keys) (term_tree (S.store store.now) t)) }
{
    let mut stack = Vec::new(store.allocator());
    stack.push(t)?;
    while let Some(next) = stack.pop() {
        let _node = store.node(next);
        let (_, fresh) = parts.insert_full(next)?;
        if fresh {
            push_beneath(store, &mut stack, next)?;
        }
    }
    Ok(())
}

impl PartNumbers {
    /// The parts of terms of a store, one step for each.
    #[tactic(auto, unfolding(crate::specs::Parts::parts_of))]
    pub fn of<S: Terms>(store: &S, terms: &[TermId]) -> Result<PartNumbers, AllocError>
        requires { AllByRecursion (HasTerm (S.store store.now)) terms.now }
        ensures { IfOk result (λ p. terms_at (S.store store.now) p ≡ parts_of (terms_at (S.store store.now) terms.now)) }
    {
        let mut parts = IndexSet::new(store.allocator());
        for t in terms {
            add_parts(store, &mut parts, *t)?;
        }
        Ok(PartNumbers { parts })
    }

    /// How many parts there are.
    pub fn len(&self) -> usize
        ensures { result ≡ length self.now }
    {
        self.parts.len()
    }

    /// The part of a number.
    pub fn part(&self, number: usize) -> Option<TermId>
        ensures { result ≡ slice_get self.now number }
    {
        self.parts.get_index(number).copied()
    }
}
