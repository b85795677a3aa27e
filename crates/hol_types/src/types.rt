//! Types of simple type theory, each kept once.
ghost use Rattle.std.specs.Prelude.{◌≡◌, ℕ, ◌↔◌, IsTrue, IfOk, IfSome, OnOk, OnErr, IfErr, None, if◌then◌else◌};
ghost use Rattle.hol_types.specs.Once.{IsAdded};
ghost use Rattle.hol_types.specs.TypeStore.{HasName, HasType, HasTypeParts, PartsBelow, HasArity, NamesApart, TreesApart, empty_types, with_arity, arity_of, text_of, type_tree, tree_of};
ghost use Rattle.hol_types.specs.KeepsTypes.{KeepsTypes};
ghost use Rattle.hol_types.specs.TypeSubst.{HasSubst, NamesOnce, subst_tree, instance_of};
ghost use Rattle.hol_types.specs.TypeMatch.{Matches, IsLeast, NeverIs};

use crate::instance::{Subst, instance_in};
use crate::matching::match_in;
use crate::node::{NameId, TypeId, TypeNode};
use crate::tables::{
    TypeFault, TypeTables, declare_in, intern_in, known_node_in, name_in, text_in,
};
use std::alloc::{AllocError, Global};
use std::marker::Model;

/// Names and types. A type's number stands for its tree: two numbers are equal exactly where their trees are.
pub struct Types {
    none: TypeTables,
    own: TypeTables,
    alloc: Global,
}

impl Drop for Types {
    fn drop(self) {
        let Types {
            none: _,
            own: _,
            alloc: _,
        } = self;
    }
}

impl Model for Types {
    ghost use Rattle.hol_types.specs.TypeStore.{TypeStore, IsTypeStore, joined};

    ghost Value = { TypeStore };

    ghost view = { λ t. joined t.none t.own };

    ghost invariant = { λ t. IsTypeStore (joined t.none t.own) };
}

impl Types {
    /// No names and no types.
    pub fn new(alloc: Global) -> Types
        ensures { result ≡ empty_types }
    {
        Types {
            none: TypeTables::new(alloc),
            own: TypeTables::new(alloc),
            alloc,
        }
    }

    /// The number of a name, given its bytes. It is added where it is new.
    pub fn name(&mut self, text: &[u8]) -> Result<NameId, AllocError>
        ensures there { IfOk result (λ n. HasName self.new n) }
        ensures text { IfOk result (λ n. text_of self.new n ≡ text.now) }
        ensures added { OnOk result (IsAdded text.now self.old.names self.new.names) }
        ensures rest { self.new ≡ record self.old { names = self.new.names } }
        ensures names_apart { NamesApart self.new }
        ensures keeps { KeepsTypes self.old self.new }
        ensures err { OnErr result (self.new ≡ self.old) }
    {
        name_in(&self.none, &mut self.own, text)
    }

    /// The bytes of a name.
    pub fn text(&self, n: NameId) -> &[u8]
        requires { HasName self.now n }
        ensures text { text_of self.now n ≡ result.now }
        ensures names_apart { NamesApart self.now }
    {
        text_in(&self.none, &self.own, n)
    }

    /// Declares a constructor with so many arguments. False, and nothing changes, exactly where its name is declared already.
    pub fn declare(&mut self, n: NameId, arity: u32) -> Result<bool, AllocError>
        ensures fresh { IfOk result (λ fresh. IsTrue fresh ↔ (arity_of self.old n ≡ None)) }
        ensures stored { IfOk result (λ fresh. self.new ≡ (if fresh then with_arity self.old n arity else self.old)) }
        ensures arity { IfOk result (λ fresh. IsTrue fresh → arity_of self.new n ≡ Some arity) }
        ensures others { (m : ℕ) → (m ≡ n → ⊥) → arity_of self.new m ≡ arity_of self.old m }
        ensures keeps { KeepsTypes self.old self.new }
        ensures err { OnErr result (self.new ≡ self.old) }
    {
        declare_in(&self.none, &mut self.own, n, arity)
    }

    /// The number of a type, given by the numbers of its parts. It is added where it is new.
    /// Arity exactly where a constructor isn't declared with this number of arguments.
    pub fn intern(&mut self, t: TypeNode) -> Result<TypeId, TypeFault>
        requires { HasTypeParts self.old t }
        ensures there { IfOk result (λ id. HasType self.new id) }
        ensures tree { IfOk result (λ id. type_tree self.new id ≡ tree_of self.old t) }
        ensures added { OnOk result (IsAdded t self.old.nodes self.new.nodes) }
        ensures rest { self.new ≡ record self.old { nodes = self.new.nodes } }
        ensures trees_apart { TreesApart self.new }
        ensures arity { IfErr result (λ e. e ≡ TypeFault.Arity → HasArity self.old t → ⊥) }
        ensures has_arity { OnOk result (HasArity self.old t) }
        ensures keeps { KeepsTypes self.old self.new }
        ensures err { OnErr result (self.new ≡ self.old) }
    {
        intern_in(&self.none, &mut self.own, t)
    }

    /// A type by the numbers of its parts.
    pub fn node(&self, t: TypeId) -> &TypeNode
        requires { HasType self.now t }
        ensures tree { type_tree self.now t ≡ tree_of self.now result.now }
        ensures parts { PartsBelow self.now t result.now }
        ensures arity { HasArity self.now result.now }
        ensures trees_apart { TreesApart self.now }
    {
        known_node_in(&self.none, &self.own, t)
    }

    /// The type with the given types for its variables. Where there is no memory, types made on the way may remain.
    pub fn instance(&mut self, t: TypeId, s: &Subst) -> Result<TypeId, AllocError>
        requires there { HasType self.old t }
        requires subst { HasSubst self.old s.now }
        ensures there { IfOk result (λ r. HasType self.new r) }
        ensures tree { IfOk result (λ r. type_tree self.new r ≡ instance_of (subst_tree self.old s.now) (type_tree self.old t)) }
        ensures trees_apart { TreesApart self.new }
        ensures keeps { KeepsTypes self.old self.new }
    {
        instance_in(&self.none, &mut self.own, self.alloc, t, s.as_slice())
    }

    /// The least extension of s that gives each type variable of the pattern a type, so that with these the pattern is
    /// the type; each other extension that does so extends it. None exactly where under no extension of s the pattern is
    /// the type. It takes one step for each distinct part of the pattern.
    pub fn match_type(
        &self,
        pattern: TypeId,
        t: TypeId,
        s: &Subst,
    ) -> Result<Option<Subst>, AllocError>
        requires pattern { HasType self.now pattern }
        requires there { HasType self.now t }
        requires subst { HasSubst self.now s.now }
        ensures there { IfOk result (λ found. IfSome found (λ u. HasSubst self.now u)) }
        ensures least { IfOk result (λ found. IfSome found (λ u. IsLeast (Matches (type_tree self.now pattern) (type_tree self.now t)) (subst_tree self.now s.now) (subst_tree self.now u))) }
        ensures once { IfOk result (λ found. IfSome found (λ u. NamesOnce s.now → NamesOnce u)) }
        ensures none { IfOk result (λ found. found ≡ None → NeverIs (subst_tree self.now s.now) (type_tree self.now pattern) (type_tree self.now t)) }
    {
        match_in(&self.none, &self.own, self.alloc, pattern, t, s.as_slice())
    }
}
