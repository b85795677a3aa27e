//! What keeps terms, however it is kept.
ghost use Rattle.std.specs.Prelude.{◌≡◌, ℕ, ◌↔◌, IsTrue, IfOk, IfSome, OnOk, OnErr, IfErr, Some, None, false};
ghost use Rattle.std.specs.List.{AllByRecursion};
ghost use Rattle.hol_types.specs.TypeStore.{HasName, HasType, HasArity, HasTypeParts, NamesApart, TreesApart, arity_of, text_of, type_tree};
ghost use Rattle.hol_types.specs.TypeStore as types;
ghost use Rattle.hol_types.specs.Deep.{IsTypePart};
ghost use Rattle.hol_types.specs.TypeSubst.{HasSubst, NamesOnce, subst_tree, instance_of};
ghost use Rattle.hol_types.specs.Instance.{AllTypeInstances};
ghost use Rattle.hol_types.specs.TypeMatch.{Matches, IsLeast, NeverIs};
ghost use Rattle.hol_terms.specs.Term.{BoundsFit, Typed, ty_of};
ghost use Rattle.hol_terms.specs.Deep.{IsPart, IsPlace};
ghost use Rattle.hol_terms.specs.Reach.{reach_of};
ghost use Rattle.hol_terms.specs.Substitution.{close_free, free_variables, subst_bound, subst_free, subst_types, IsClosed, IsFreeVariable};
ghost use Rattle.hol_terms.specs.Formula.{In, NotFreeIn};
ghost use Rattle.hol_terms.specs.TermStore.{TermStore, Keeps, TermsApart, term_tree, tree_of, HasTerm, HasParts, PartsBelow};

use crate::close::closed;
use crate::free_in::term_has;
use crate::instantiate::instantiated;
use crate::memo::Part;
use crate::node::{Node, TermId};
use crate::open::opened;
use crate::subst::replaced;
use crate::typed::TermFault;
use hol_types::{NameId, Subst, TypeFault, TypeId, TypeInstances, TypeNode};
use std::alloc::{AllocError, Global};
use std::collections::HashMap;

/// A store of names, types and terms, each kept once. A number stands for a text or a tree, two numbers are equal
/// exactly where these are, and no call changes what a number stands for. Where a call that may add answers that there is
/// no memory, names, types and terms that it made on the way may remain.
pub trait Terms {
    /// What it holds beside names, types and terms.
    type Rest;

    /// The names, types and terms that it holds.
    ghost store: { Self → TermStore };

    /// What it holds beside them. No call of this trait changes it.
    ghost rest: { Self → Self.Rest };

    /// Where its memory comes from.
    fn allocator(&self) -> Global;

    /// The number of a name, given its bytes. It is added where it is new.
    fn name(&mut self, text: &[u8]) -> Result<NameId, AllocError>
        ensures there { IfOk result (λ n. HasName (store self.new).types n) }
        ensures text { IfOk result (λ n. text_of (store self.new).types n ≡ text.now) }
        ensures names_apart { NamesApart (store self.new).types }
        ensures keeps { Keeps (store self.old) (store self.new) }
        ensures rest { rest self.new ≡ rest self.old }
        ensures err { OnErr result (store self.new ≡ store self.old) };

    /// The bytes of a name.
    fn text(&self, n: NameId) -> &[u8]
        requires { HasName (store self.now).types n }
        ensures text { text_of (store self.now).types n ≡ result.now }
        ensures names_apart { NamesApart (store self.now).types };

    /// Declares a type constructor with so many arguments. False, and nothing changes, exactly where its name is declared
    /// already.
    fn declare(&mut self, n: NameId, arity: u32) -> Result<bool, AllocError>
        ensures fresh { IfOk result (λ fresh. IsTrue fresh ↔ (arity_of (store self.old).types n ≡ None)) }
        ensures arity { IfOk result (λ fresh. IsTrue fresh → arity_of (store self.new).types n ≡ Some arity) }
        ensures others { (m : ℕ) → (m ≡ n → ⊥) → arity_of (store self.new).types m ≡ arity_of (store self.old).types m }
        ensures declared { IfOk result (λ fresh. fresh ≡ false → store self.new ≡ store self.old) }
        ensures keeps { Keeps (store self.old) (store self.new) }
        ensures rest { rest self.new ≡ rest self.old }
        ensures err { OnErr result (store self.new ≡ store self.old) };

    /// The number of a type, given by the numbers of its parts. It is added where it is new.
    /// Arity exactly where a constructor isn't declared with this number of arguments. On an error nothing changes.
    fn intern_type(&mut self, node: TypeNode) -> Result<TypeId, TypeFault>
        requires { HasTypeParts (store self.old).types node }
        ensures there { IfOk result (λ t. HasType (store self.new).types t) }
        ensures tree { IfOk result (λ t. type_tree (store self.new).types t ≡ types.tree_of (store self.old).types node) }
        ensures has_arity { OnOk result (HasArity (store self.old).types node) }
        ensures arity { IfErr result (λ e. e ≡ TypeFault.Arity → HasArity (store self.old).types node → ⊥) }
        ensures types_apart { TreesApart (store self.new).types }
        ensures keeps { Keeps (store self.old) (store self.new) }
        ensures rest { rest self.new ≡ rest self.old }
        ensures err { OnErr result (store self.new ≡ store self.old) };

    /// A type by the numbers of its parts.
    fn type_node(&self, t: TypeId) -> &TypeNode
        requires { HasType (store self.now).types t }
        ensures tree { type_tree (store self.now).types t ≡ types.tree_of (store self.now).types result.now }
        ensures parts { types.PartsBelow (store self.now).types t result.now }
        ensures has_arity { HasArity (store self.now).types result.now }
        ensures types_apart { TreesApart (store self.now).types };

    /// The type with the given types for its variables, where the memo has what was made of types before with the same s. It
    /// takes one step for each distinct part that isn't among these.
    fn instance_part(
        &mut self,
        memo: &mut TypeInstances,
        t: TypeId,
        s: &Subst,
    ) -> Result<TypeId, AllocError>
        requires there { HasType (store self.old).types t }
        requires subst { HasSubst (store self.old).types s.now }
        requires memo { AllTypeInstances (store self.old).types s.now memo.old }
        ensures there { IfOk result (λ r. HasType (store self.new).types r) }
        ensures tree { IfOk result (λ r. type_tree (store self.new).types r ≡ instance_of (subst_tree (store self.old).types s.now) (type_tree (store self.old).types t)) }
        ensures keeps { Keeps (store self.old) (store self.new) }
        ensures rest { rest self.new ≡ rest self.old }
        ensures memo { OnOk result (AllTypeInstances (store self.new).types s.now memo.new) };

    /// The type with the given types for its variables. It takes one step for each distinct part.
    final fn instance(&mut self, t: TypeId, s: &Subst) -> Result<TypeId, AllocError>
        requires there { HasType (store self.old).types t }
        requires subst { HasSubst (store self.old).types s.now }
        ensures there { IfOk result (λ r. HasType (store self.new).types r) }
        ensures tree { IfOk result (λ r. type_tree (store self.new).types r ≡ instance_of (subst_tree (store self.old).types s.now) (type_tree (store self.old).types t)) }
        ensures keeps { Keeps (store self.old) (store self.new) }
        ensures rest { rest self.new ≡ rest self.old }
    {
        let mut memo = HashMap::new(self.allocator());
        let r = self.instance_part(&mut memo, t, s)?;
        Ok(r)
    }

    /// The least extension of s that gives each type variable of the pattern a type, so that with these the pattern is
    /// the type; each other extension that does so extends it. None exactly where under no extension of s the pattern is
    /// the type. It takes one step for each distinct part of the pattern.
    fn match_type(&self, pattern: TypeId, t: TypeId, s: &Subst) -> Result<Option<Subst>, AllocError>
        requires pattern { HasType (store self.now).types pattern }
        requires there { HasType (store self.now).types t }
        requires subst { HasSubst (store self.now).types s.now }
        ensures there { IfOk result (λ found. IfSome found (λ u. HasSubst (store self.now).types u)) }
        ensures least { IfOk result (λ found. IfSome found (λ u. IsLeast (Matches (type_tree (store self.now).types pattern) (type_tree (store self.now).types t)) (subst_tree (store self.now).types s.now) (subst_tree (store self.now).types u))) }
        ensures once { IfOk result (λ found. IfSome found (λ u. NamesOnce s.now → NamesOnce u)) }
        ensures none { IfOk result (λ found. found ≡ None → NeverIs (subst_tree (store self.now).types s.now) (type_tree (store self.now).types pattern) (type_tree (store self.now).types t)) };

    /// The number of a term, given by the numbers of its parts. It is added where it is new.
    /// Ill exactly where it isn't typed: an application doesn't fit, a Bound doesn't have its binder's type, or a number
    /// isn't below 2^127 in absolute value; then nothing changes.
    fn intern(&mut self, node: Node) -> Result<TermId, TermFault>
        requires { HasParts (store self.old) node }
        ensures there { IfOk result (λ t. HasTerm (store self.new) t) }
        ensures tree { IfOk result (λ t. term_tree (store self.new) t ≡ tree_of (store self.old) node) }
        ensures typed { OnOk result (Typed (tree_of (store self.old) node)) }
        ensures ill { IfErr result (λ e. e ≡ TermFault.Ill → Typed (tree_of (store self.old) node) → ⊥) }
        ensures refused { IfErr result (λ e. e ≡ TermFault.Ill → store self.new ≡ store self.old) }
        ensures apart { TermsApart (store self.new) }
        ensures keeps { Keeps (store self.old) (store self.new) }
        ensures rest { rest self.new ≡ rest self.old };

    /// The number of a term that is known to be typed, given by the numbers of its parts. It is added where it is new,
    /// with no walk over what it is made of.
    fn make(&mut self, node: Node) -> Result<TermId, AllocError>
        requires parts { HasParts (store self.old) node }
        requires typed { Typed (tree_of (store self.old) node) }
        ensures there { IfOk result (λ t. HasTerm (store self.new) t) }
        ensures tree { IfOk result (λ t. term_tree (store self.new) t ≡ tree_of (store self.old) node) }
        ensures apart { TermsApart (store self.new) }
        ensures keeps { Keeps (store self.old) (store self.new) }
        ensures rest { rest self.new ≡ rest self.old };

    /// A term by the numbers of its parts, which are smaller.
    fn node(&self, t: TermId) -> Node
        requires { HasTerm (store self.now) t }
        ensures tree { term_tree (store self.now) t ≡ tree_of (store self.now) result }
        ensures parts { PartsBelow (store self.now) t result }
        ensures typed { Typed (term_tree (store self.now) t) }
        ensures apart { TermsApart (store self.now) };

    /// The type of a term.
    fn ty(&self, t: TermId) -> TypeId
        requires { HasTerm (store self.now) t }
        ensures there { HasType (store self.now).types result }
        ensures ty { type_tree (store self.now).types result ≡ ty_of (term_tree (store self.now) t) }
        ensures typed { Typed (term_tree (store self.now) t) }
        ensures types_apart { TreesApart (store self.now).types };

    /// The number that each loose Bound of a term is below: 0 for a closed term.
    fn reach(&self, t: TermId) -> u32
        requires { HasTerm (store self.now) t }
        ensures { result ≡ reach_of (term_tree (store self.now) t) };

    /// The distinct parts of a deep term, smaller numbers first, and none of a term that isn't deep. A walk that remembers
    /// what it did and goes through them first calls itself a few levels deep only. That each part is there serves no
    /// result, and none is promised.
    fn deep_parts(&self, t: TermId) -> Result<Vec<TermId>, AllocError>
        requires { HasTerm (store self.now) t }
        ensures { IfOk result (λ parts. AllByRecursion (IsPart (store self.now) (term_tree (store self.now) t)) parts.items) };

    /// The distinct parts of a deep term, each with each number of binders around it, smaller numbers first, and none of
    /// a term that isn't deep. With `loose`, what stands in a part that reaches no further than its index is left out.
    fn deep_places(&self, t: TermId, loose: bool) -> Result<Vec<Part>, AllocError>
        requires { HasTerm (store self.now) t }
        ensures { IfOk result (λ places. AllByRecursion (IsPlace (store self.now) (term_tree (store self.now) t)) places.items) };

    /// The distinct parts of a deep type, smaller numbers first, and none of a type that isn't deep. That each part is
    /// there serves no result.
    fn deep_type_parts(&self, t: TypeId) -> Result<Vec<TypeId>, AllocError>
        requires { HasType (store self.now).types t }
        ensures { IfOk result (λ parts. AllByRecursion (IsTypePart (store self.now).types (type_tree (store self.now).types t)) parts.items) };

    /// Whether a term has no loose Bound.
    final fn is_closed(&self, t: TermId) -> bool
        requires { HasTerm (store self.now) t }
        ensures { IsTrue result ↔ IsClosed (term_tree (store self.now) t) }
    {
        self.reach(t) == 0
    }

    /// Whether the free variable v occurs in a term. It takes one step for each distinct part.
    final fn free_in(&self, v: TermId, t: TermId) -> Result<bool, AllocError>
        requires variable { HasTerm (store self.now) v }
        requires term { HasTerm (store self.now) t }
        ensures { IfOk result (λ r. IsTrue r ↔ In (term_tree (store self.now) v) (free_variables (term_tree (store self.now) t))) }
    {
        let free = term_has(self, v, t)?;
        Ok(free)
    }

    /// The term with u for the free variable v, whose type u has; u has no loose Bound. It takes one step for each
    /// distinct part, and a part without the variable stays.
    final fn subst(&mut self, t: TermId, v: TermId, u: TermId) -> Result<TermId, AllocError>
        requires term { HasTerm (store self.old) t }
        requires variable { HasTerm (store self.old) v }
        requires new { HasTerm (store self.old) u }
        requires closed { IsClosed (term_tree (store self.old) u) }
        requires same_type { ty_of (term_tree (store self.old) u) ≡ ty_of (term_tree (store self.old) v) }
        ensures there { IfOk result (λ r. HasTerm (store self.new) r) }
        ensures tree { IfOk result (λ r. term_tree (store self.new) r ≡ subst_free (term_tree (store self.old) v) (term_tree (store self.old) u) (term_tree (store self.old) t)) }
        ensures keeps { Keeps (store self.old) (store self.new) }
        ensures rest { rest self.new ≡ rest self.old }
    {
        let _typed = self.ty(u);
        let r = replaced(self, t, v, u)?;
        Ok(r)
    }

    /// The term with the given types for its type variables. It takes one step for each distinct part of the term and of
    /// its types.
    final fn instantiate(&mut self, t: TermId, s: &Subst) -> Result<TermId, AllocError>
        requires term { HasTerm (store self.old) t }
        requires subst { HasSubst (store self.old).types s.now }
        ensures there { IfOk result (λ r. HasTerm (store self.new) r) }
        ensures tree { IfOk result (λ r. term_tree (store self.new) r ≡ subst_types (subst_tree (store self.old).types s.now) (term_tree (store self.old) t)) }
        ensures keeps { Keeps (store self.old) (store self.new) }
        ensures rest { rest self.new ≡ rest self.old }
    {
        let r = instantiated(self, t, s)?;
        Ok(r)
    }

    /// The body of a lambda with u for its bound variable, which has u's type; u has no loose Bound. It takes one step
    /// for each distinct part of the body, and each number of binders around it, that the variable stands in. Where u is a
    /// free variable that isn't in the body, closing the result over u gives the body back.
    final fn open(&mut self, body: TermId, u: TermId) -> Result<TermId, AllocError>
        requires body { HasTerm (store self.old) body }
        requires new { HasTerm (store self.old) u }
        requires closed { IsClosed (term_tree (store self.old) u) }
        requires fits { BoundsFit (term_tree (store self.old) body) 0 (ty_of (term_tree (store self.old) u)) }
        ensures there { IfOk result (λ r. HasTerm (store self.new) r) }
        ensures tree { IfOk result (λ r. term_tree (store self.new) r ≡ subst_bound (term_tree (store self.old) body) 0 (term_tree (store self.old) u)) }
        ensures back { IfOk result (λ r. IsFreeVariable (term_tree (store self.old) u) → NotFreeIn (term_tree (store self.old) u) (term_tree (store self.old) body) → close_free (term_tree (store self.new) r) 0 (term_tree (store self.old) u) ≡ term_tree (store self.old) body) }
        ensures keeps { Keeps (store self.old) (store self.new) }
        ensures rest { rest self.new ≡ rest self.old }
    {
        let _typed = self.ty(u);
        let r = opened(self, body, u)?;
        Ok(r)
    }

    /// The body whose Bound 0 was the free variable v. It takes one step for each distinct part of the term and each
    /// number of binders around it. Where the term has no loose Bound, opening the result with v gives the term back.
    final fn close(&mut self, t: TermId, v: TermId) -> Result<TermId, AllocError>
        requires term { HasTerm (store self.old) t }
        requires variable { HasTerm (store self.old) v }
        ensures there { IfOk result (λ r. HasTerm (store self.new) r) }
        ensures tree { IfOk result (λ r. term_tree (store self.new) r ≡ close_free (term_tree (store self.old) t) 0 (term_tree (store self.old) v)) }
        ensures fits { IfOk result (λ r. IsClosed (term_tree (store self.old) t) → BoundsFit (term_tree (store self.new) r) 0 (ty_of (term_tree (store self.old) v))) }
        ensures back { IfOk result (λ r. IsClosed (term_tree (store self.old) t) → subst_bound (term_tree (store self.new) r) 0 (term_tree (store self.old) v) ≡ term_tree (store self.old) t) }
        ensures keeps { Keeps (store self.old) (store self.new) }
        ensures rest { rest self.new ≡ rest self.old }
    {
        let r = closed(self, t, v)?;
        Ok(r)
    }
}
