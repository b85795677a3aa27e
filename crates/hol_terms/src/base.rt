//! A store of its own, one that changes no more, and one that goes on from that.
ghost use Rattle.std.specs.Prelude.{◌≡◌, ◌↔◌, IsTrue};
ghost use Rattle.hol_types.specs.TypeStore.{HasName, HasType, HasArity, NamesApart, TreesApart, text_of, type_tree};
ghost use Rattle.hol_types.specs.TypeStore as types;
ghost use Rattle.hol_terms.specs.Term.{Typed, ty_of};
ghost use Rattle.hol_terms.specs.Substitution.{IsClosed};
ghost use Rattle.hol_terms.specs.TermStore.{TermStore, IsTermStore, TermsApart, empty_store, term_tree, tree_of, HasTerm, PartsBelow, Keeps, FitsMark, MayReset, cut, mark_of};

use crate::deep::{deep_parts_in, deep_type_parts_in};
use crate::intern::{intern_in, make_in};
use crate::memo::Part;
use crate::node::{Node, TermId};
use crate::places::deep_places_in;
use crate::tables::{Mark, TermTables, known_node_in, mark_in, reach_in, reset_in, ty_in};
use crate::terms::Terms;
use crate::type_tables::{
    declare_in, instance_part_in, intern_type_in, match_type_in, name_in, text_in, type_node_in,
};
use crate::typed::TermFault;
use hol_types::{NameId, Subst, TypeFault, TypeId, TypeInstances, TypeNode};
use std::alloc::{AllocError, Global};
use std::marker::Model;

/// A store of names, types and terms.
pub struct Base {
    none: TermTables,
    own: TermTables,
}

impl Drop for Base {
    fn drop(self) {
        let Base { none: _, own: _ } = self;
    }
}

impl Model for Base {
    ghost use Rattle.hol_terms.specs.TermStore.{TermStore, IsAlone, joined};

    ghost Value = { TermStore };

    ghost view = { λ b. joined b.none b.own };

    ghost invariant = { λ b. IsAlone b.none b.own };
}

/// A store that changes no more. Threads may share it.
#[derive(Drop)]
pub struct Frozen {
    base: Base,
}

impl Model for Frozen {
    ghost use Rattle.hol_terms.specs.TermStore.{TermStore};

    ghost Value = { TermStore };

    ghost view = { λ f. f.base };
}

/// A store that goes on from one that changes no more. It copies nothing of that, whose numbers are its own too.
pub struct Store<'b> {
    base: &'b Frozen,
    own: TermTables,
}

impl Drop for Store<'_> {
    fn drop(self) {
        let Store { base: _, own: _ } = self;
    }
}

impl<'b> Model for Store<'b> {
    ghost use Rattle.hol_terms.specs.TermStore.{StoreState, IsTermStore, joined, mark_of};

    ghost Value = { StoreState };

    ghost view = { λ s. record { store = joined s.base.now s.own; base = mark_of s.base.now } };

    ghost invariant = { λ s. IsTermStore (joined s.base.now s.own) };
}

impl Base {
    /// No names, types and terms.
    pub fn new(alloc: Global) -> Base
        ensures { result ≡ empty_store }
    {
        Base {
            none: TermTables::new(alloc),
            own: TermTables::new(alloc),
        }
    }

    /// The store, which from now on stays as it is.
    pub fn freeze(self) -> Frozen
        ensures { result ≡ self }
    {
        Frozen { base: self }
    }

    /// What it holds.
    fn tables(&self) -> &TermTables
        ensures value { result.now ≡ self.now }
        ensures lawful { IsTermStore self.now }
    {
        &self.own
    }
}

impl Frozen {
    /// The store again, to which more may be added.
    pub fn thaw(self) -> Base
        ensures { result ≡ self }
    {
        self.base
    }

    /// A term by the numbers of its parts, which are smaller.
    pub fn node(&self, t: TermId) -> Node
        requires { HasTerm self.now t }
        ensures tree { term_tree self.now t ≡ tree_of self.now result }
        ensures parts { PartsBelow self.now t result }
        ensures typed { Typed (term_tree self.now t) }
        ensures apart { TermsApart self.now }
    {
        self.base.node(t)
    }

    /// The type of a term.
    pub fn ty(&self, t: TermId) -> TypeId
        requires { HasTerm self.now t }
        ensures there { HasType self.now.types result }
        ensures ty { type_tree self.now.types result ≡ ty_of (term_tree self.now t) }
        ensures typed { Typed (term_tree self.now t) }
        ensures types_apart { TreesApart self.now.types }
    {
        self.base.ty(t)
    }

    /// Whether a term has no loose Bound.
    pub fn is_closed(&self, t: TermId) -> bool
        requires { HasTerm self.now t }
        ensures { IsTrue result ↔ IsClosed (term_tree self.now t) }
    {
        self.base.is_closed(t)
    }

    /// A type by the numbers of its parts.
    pub fn type_node(&self, t: TypeId) -> &TypeNode
        requires { HasType self.now.types t }
        ensures tree { type_tree self.now.types t ≡ types.tree_of self.now.types result.now }
        ensures parts { types.PartsBelow self.now.types t result.now }
        ensures has_arity { HasArity self.now.types result.now }
        ensures types_apart { TreesApart self.now.types }
    {
        self.base.type_node(t)
    }

    /// The bytes of a name.
    pub fn text(&self, n: NameId) -> &[u8]
        requires { HasName self.now.types n }
        ensures text { text_of self.now.types n ≡ result.now }
        ensures names_apart { NamesApart self.now.types }
    {
        self.base.text(n)
    }

    /// What it holds.
    fn tables(&self) -> &TermTables
        ensures value { result.now ≡ self.now }
        ensures lawful { IsTermStore self.now }
    {
        self.base.tables()
    }
}

impl<'b> Store<'b> {
    /// A store that holds what the base does: the base's numbers stand for the same here.
    pub fn over(alloc: Global, base: &'b Frozen) -> Store<'b>
        ensures store { result.store ≡ base.now }
        ensures base { result.base ≡ mark_of base.now }
    {
        let _tables = base.tables();
        Store {
            base,
            own: TermTables::new(alloc),
        }
    }

    /// How much the store holds now: `reset` takes it back to here.
    pub fn mark(&self) -> Mark
        ensures mark { result ≡ mark_of self.now.store }
        ensures whole { cut result self.now.store ≡ self.now.store }
        ensures may_reset { MayReset result self.now }
    {
        mark_in(self.base.tables(), &self.own)
    }

    /// Takes away all names, declared constructors, types and terms that came after the mark, which is one that this store
    /// gave and went on from. What was there at the mark stays in its place, and is found by interning as it was then. It
    /// takes a step for each item that goes.
    pub fn reset(&mut self, m: Mark)
        requires { MayReset m self.old }
        ensures store { self.new.store ≡ cut m self.old.store }
        ensures base { self.new.base ≡ self.old.base }
        ensures back { (was : TermStore) → FitsMark m was → cut m was ≡ was → Keeps was self.old.store → self.new.store ≡ was }
    {
        reset_in(self.base.tables(), &mut self.own, m);
    }
}

impl Terms for Base {
    type Rest = ();

    ghost store = { λ s. s };

    ghost rest = { λ s. tt };

    fn allocator(&self) -> Global {
        self.own.allocator()
    }

    fn name(&mut self, text: &[u8]) -> Result<NameId, AllocError> {
        name_in(&self.none, &mut self.own, text)
    }

    fn text(&self, n: NameId) -> &[u8] {
        text_in(&self.none, &self.own, n)
    }

    fn declare(&mut self, n: NameId, arity: u32) -> Result<bool, AllocError> {
        declare_in(&self.none, &mut self.own, n, arity)
    }

    fn intern_type(&mut self, node: TypeNode) -> Result<TypeId, TypeFault> {
        intern_type_in(&self.none, &mut self.own, node)
    }

    fn type_node(&self, t: TypeId) -> &TypeNode {
        type_node_in(&self.none, &self.own, t)
    }

    fn instance_part(
        &mut self,
        memo: &mut TypeInstances,
        t: TypeId,
        s: &Subst,
    ) -> Result<TypeId, AllocError> {
        instance_part_in(&self.none, &mut self.own, memo, t, s)
    }

    fn match_type(
        &self,
        pattern: TypeId,
        t: TypeId,
        s: &Subst,
    ) -> Result<Option<Subst>, AllocError> {
        match_type_in(&self.none, &self.own, pattern, t, s)
    }

    fn intern(&mut self, node: Node) -> Result<TermId, TermFault> {
        intern_in(&self.none, &mut self.own, node)
    }

    fn make(&mut self, node: Node) -> Result<TermId, AllocError> {
        make_in(&self.none, &mut self.own, node)
    }

    fn node(&self, t: TermId) -> Node {
        known_node_in(&self.none, &self.own, t)
    }

    fn ty(&self, t: TermId) -> TypeId {
        ty_in(&self.none, &self.own, t)
    }

    fn reach(&self, t: TermId) -> u32 {
        reach_in(&self.none, &self.own, t)
    }

    fn deep_parts(&self, t: TermId) -> Result<Vec<TermId>, AllocError> {
        deep_parts_in(&self.none, &self.own, t)
    }

    fn deep_places(&self, t: TermId, loose: bool) -> Result<Vec<Part>, AllocError> {
        deep_places_in(&self.none, &self.own, t, loose)
    }

    fn deep_type_parts(&self, t: TypeId) -> Result<Vec<TypeId>, AllocError> {
        deep_type_parts_in(&self.none, &self.own, t)
    }
}

impl<'b> Terms for Store<'b> {
    type Rest = Mark;

    ghost store = { λ s. s.store };

    ghost rest = { λ s. s.base };

    fn allocator(&self) -> Global {
        self.own.allocator()
    }

    fn name(&mut self, text: &[u8]) -> Result<NameId, AllocError> {
        name_in(self.base.tables(), &mut self.own, text)
    }

    fn text(&self, n: NameId) -> &[u8] {
        text_in(self.base.tables(), &self.own, n)
    }

    fn declare(&mut self, n: NameId, arity: u32) -> Result<bool, AllocError> {
        declare_in(self.base.tables(), &mut self.own, n, arity)
    }

    fn intern_type(&mut self, node: TypeNode) -> Result<TypeId, TypeFault> {
        intern_type_in(self.base.tables(), &mut self.own, node)
    }

    fn type_node(&self, t: TypeId) -> &TypeNode {
        type_node_in(self.base.tables(), &self.own, t)
    }

    fn instance_part(
        &mut self,
        memo: &mut TypeInstances,
        t: TypeId,
        s: &Subst,
    ) -> Result<TypeId, AllocError> {
        instance_part_in(self.base.tables(), &mut self.own, memo, t, s)
    }

    fn match_type(
        &self,
        pattern: TypeId,
        t: TypeId,
        s: &Subst,
    ) -> Result<Option<Subst>, AllocError> {
        match_type_in(self.base.tables(), &self.own, pattern, t, s)
    }

    fn intern(&mut self, node: Node) -> Result<TermId, TermFault> {
        intern_in(self.base.tables(), &mut self.own, node)
    }

    fn make(&mut self, node: Node) -> Result<TermId, AllocError> {
        make_in(self.base.tables(), &mut self.own, node)
    }

    fn node(&self, t: TermId) -> Node {
        known_node_in(self.base.tables(), &self.own, t)
    }

    fn ty(&self, t: TermId) -> TypeId {
        ty_in(self.base.tables(), &self.own, t)
    }

    fn reach(&self, t: TermId) -> u32 {
        reach_in(self.base.tables(), &self.own, t)
    }

    fn deep_parts(&self, t: TermId) -> Result<Vec<TermId>, AllocError> {
        deep_parts_in(self.base.tables(), &self.own, t)
    }

    fn deep_places(&self, t: TermId, loose: bool) -> Result<Vec<Part>, AllocError> {
        deep_places_in(self.base.tables(), &self.own, t, loose)
    }

    fn deep_type_parts(&self, t: TypeId) -> Result<Vec<TypeId>, AllocError> {
        deep_type_parts_in(self.base.tables(), &self.own, t)
    }
}
