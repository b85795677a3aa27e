//! Where a pattern and a term stand: in one store, or each in its own.
ghost use Rattle.std.specs.Prelude.{◌≡◌, ◌↔◌, IfOk, OnOk, IsTrue};
ghost use Rattle.hol_types.specs.TypeStore.{HasName, HasType, text_of, type_tree};
ghost use Rattle.hol_terms.specs.Term.{ty_of};
ghost use Rattle.hol_terms.specs.TermStore.{TermStore, HasTerm, PartsBelow, TermsApart, term_tree, tree_of};
ghost use Rattle.hol_terms.specs.Substitution.{IsClosed};
ghost use Rattle.hol_match.specs.Matching.{AllSame};

use crate::same_types::{SameTypes, is_same_name, is_same_type};
use hol_terms::{Node, TermId, Terms};
use hol_types::{NameId, TypeId};
use std::alloc::{AllocError, Global};

/// The two sides of a match: the store of the pattern and that of the term.
pub(crate) trait Sides {
    /// What the pattern's store holds.
    ghost patterns: { Self → TermStore };

    /// What the term's store holds.
    ghost terms: { Self → TermStore };

    /// Where memory comes from.
    fn allocator(&self) -> Global;

    /// A part of the pattern, by the numbers of its parts.
    fn pattern(&self, p: TermId) -> Node
        requires { HasTerm (patterns self.now) p }
        ensures tree { term_tree (patterns self.now) p ≡ tree_of (patterns self.now) result }
        ensures parts { PartsBelow (patterns self.now) p result }
        ensures apart { TermsApart (patterns self.now) };

    /// A part of the term, by the numbers of its parts.
    fn term(&self, t: TermId) -> Node
        requires { HasTerm (terms self.now) t }
        ensures tree { term_tree (terms self.now) t ≡ tree_of (terms self.now) result }
        ensures parts { PartsBelow (terms self.now) t result }
        ensures apart { TermsApart (terms self.now) };

    /// The type of a part of the term.
    fn term_type(&self, t: TermId) -> TypeId
        requires { HasTerm (terms self.now) t }
        ensures there { HasType (terms self.now).types result }
        ensures ty { type_tree (terms self.now).types result ≡ ty_of (term_tree (terms self.now) t) };

    /// Whether a part of the term has no loose Bound.
    fn is_closed(&self, t: TermId) -> bool
        requires { HasTerm (terms self.now) t }
        ensures { IsTrue result ↔ IsClosed (term_tree (terms self.now) t) };

    /// Whether a name of the pattern is a name of the term.
    fn is_same_name(&self, n: NameId, m: NameId) -> bool
        requires pattern { HasName (patterns self.now).types n }
        requires term { HasName (terms self.now).types m }
        ensures { IsTrue result ↔ (text_of (patterns self.now).types n ≡ text_of (terms self.now).types m) };

    /// Whether a type of the pattern is a type of the term.
    fn is_same_type(&self, known: &mut SameTypes, a: TypeId, t: TypeId) -> Result<bool, AllocError>
        requires pattern { HasType (patterns self.now).types a }
        requires term { HasType (terms self.now).types t }
        requires known { AllSame (patterns self.now).types (terms self.now).types known.old }
        ensures same { IfOk result (λ r. IsTrue r ↔ (type_tree (patterns self.now).types a ≡ type_tree (terms self.now).types t)) }
        ensures known { OnOk result (AllSame (patterns self.now).types (terms self.now).types known.new) };
}

/// Pattern and term in one store, where equal names and types have equal numbers.
#[derive(Drop)]
pub(crate) struct OneStore<'a, S: Terms> {
    pub store: &'a S,
}

impl<'a, S: Terms> Sides for OneStore<'a, S> {
    ghost patterns = { λ s. S.store s.store.now };

    ghost terms = { λ s. S.store s.store.now };

    fn allocator(&self) -> Global {
        self.store.allocator()
    }

    fn pattern(&self, p: TermId) -> Node {
        self.store.node(p)
    }

    fn term(&self, t: TermId) -> Node {
        self.store.node(t)
    }

    fn term_type(&self, t: TermId) -> TypeId {
        self.store.ty(t)
    }

    fn is_closed(&self, t: TermId) -> bool {
        self.store.is_closed(t)
    }

    fn is_same_name(&self, n: NameId, m: NameId) -> bool {
        let _apart = self.store.text(n);
        n == m
    }

    fn is_same_type(
        &self,
        _known: &mut SameTypes,
        a: TypeId,
        t: TypeId,
    ) -> Result<bool, AllocError> {
        let _apart = self.store.type_node(a);
        Ok(a == t)
    }
}

/// Pattern and term in two stores, whose names and types are compared as texts and trees.
#[derive(Drop)]
pub(crate) struct TwoStores<'a, P: Terms, S: Terms> {
    pub patterns: &'a P,
    pub terms: &'a S,
}

impl<'a, P: Terms, S: Terms> Sides for TwoStores<'a, P, S> {
    ghost patterns = { λ s. P.store s.patterns.now };

    ghost terms = { λ s. S.store s.terms.now };

    fn allocator(&self) -> Global {
        self.terms.allocator()
    }

    fn pattern(&self, p: TermId) -> Node {
        self.patterns.node(p)
    }

    fn term(&self, t: TermId) -> Node {
        self.terms.node(t)
    }

    fn term_type(&self, t: TermId) -> TypeId {
        self.terms.ty(t)
    }

    fn is_closed(&self, t: TermId) -> bool {
        self.terms.is_closed(t)
    }

    fn is_same_name(&self, n: NameId, m: NameId) -> bool {
        is_same_name(self.patterns, self.terms, n, m)
    }

    fn is_same_type(
        &self,
        known: &mut SameTypes,
        a: TypeId,
        t: TypeId,
    ) -> Result<bool, AllocError> {
        is_same_type(self.patterns, self.terms, known, a, t)
    }
}
