//! The assertions of a problem: what a proof may state by `asserted`.
ghost use Rattle.std.specs.Prelude.{◌≡◌, ◌<◌, ℕ, IfOk, IsTrue, nat_eq};
ghost use Rattle.std.specs.List.{list_any};
ghost use Rattle.indexmap.specs.IndexSet.{contains};
ghost use Rattle.hol_terms.specs.Formula.{In};
ghost use Rattle.hol_terms.specs.TermEq.{term_eq};
ghost use Rattle.hol_terms.specs.TermStore.{HasTerm, term_tree};
ghost use Rattle.goal_text.specs.Scope.{terms_at};
ghost use Rattle.goal_text.specs.Sentences.{HaveSentences};

use hol_terms::{Base, TermId, Terms};
use hol_types::List;
use indexmap::IndexSet;
use std::alloc::{AllocError, Global};
use std::marker::Model;

/// Terms in order, in which one is found by hash.
pub struct Assertions {
    list: Vec<TermId>,
    set: IndexSet<TermId>,
}

impl Drop for Assertions {
    fn drop(self) {
        let Assertions { list: _, set: _ } = self;
    }
}

impl Model for Assertions {
    ghost use Rattle.std.specs.Prelude.{List, ℕ, ◌≡◌, nat_eq};
    ghost use Rattle.std.specs.List.{list_any};

    ghost Value = { List ℕ };

    ghost view = { λ a. a.list.items };

    ghost invariant = { λ a. (t : ℕ) → list_any (nat_eq t) a.set.keys ≡ list_any (nat_eq t) a.list.items };
}

/// The terms as a set.
fn set_of(alloc: Global, terms: &[TermId]) -> Result<IndexSet<TermId>, AllocError>
    ensures { IfOk result (λ set. (t : ℕ) → list_any (nat_eq t) set.keys ≡ list_any (nat_eq t) terms.now) }
{
    let mut set = IndexSet::new(alloc);
    for t in terms {
        set.insert_full(*t)?;
    }
    Ok(set)
}

impl Assertions {
    /// The terms of a list.
    pub fn new(alloc: Global, list: Vec<TermId>) -> Result<Assertions, AllocError>
        ensures { IfOk result (λ a. a ≡ list.items) }
    {
        let set = set_of(alloc, &list)?;
        Ok(Assertions { list, set })
    }

    /// The terms in order.
    pub fn into_list(self) -> List<TermId>
        ensures { result ≡ self }
    {
        let Assertions { list, set: _ } = self;
        List::new(list)
    }

    /// Whether a term is among them.
    pub fn contains(&self, t: TermId) -> bool
        ensures { result ≡ list_any (nat_eq t) self.now }
    {
        self.set.contains(&t)
    }
}

/// Whether a formula is an assertion.
pub fn is_assertion(base: &Base, assertions: &Assertions, claim: TermId) -> bool
    requires claim { HasTerm base.now claim }
    requires assertions { HaveSentences base.now assertions.now }
    ensures tree { result ≡ list_any (term_eq (term_tree base.now claim)) (terms_at base.now assertions.now) }
    ensures number { IsTrue result → In claim assertions.now }
{
    // Of one store: equal trees have one number.
    let _node = base.node(claim);
    assertions.contains(claim)
}
