//! Equations and conditionals in any store of terms.
ghost use Rattle.std.specs.Prelude.{◌≡◌, ◌↔◌, IsTrue, IfOk, IfSome, IfNone};
ghost use Rattle.hol_types.specs.Ty.{Ty, BoolTy};
ghost use Rattle.hol_types.specs.TypeStore.{HasName, HasType, text_of, type_tree};
ghost use Rattle.hol_terms.specs.Term.{Term, ConstTm, ty_of};
ghost use Rattle.hol_terms.specs.TermStore.{HasTerm, Keeps, TermsApart, term_tree};
ghost use Rattle.hol_terms.specs.Constants.{eq_tm, ite_tm, equation, conditional};
ghost use Rattle.hol_formulas.specs.Constants.{IsAt, AreConstants};

use crate::formula::{Constants, Sides, applied_to_two, apply_fitting, function_type, is_bool};
use hol_terms::{Node, TermId, Terms, make};
use hol_types::{NameId, TypeId};
use std::alloc::AllocError;

/// Equality on a type.
#[tactic(auto, using(hol_terms::proofs::KeepsLemmas::keeps_trans))]
fn equality<S: Terms>(store: &mut S, constants: Constants, ty: TypeId) -> Result<TermId, AllocError>
    requires constants { AreConstants (S.store store.old) constants }
    requires there { HasType (S.store store.old).types ty }
    ensures is { IfOk result (λ t. IsAt (S.store store.new) t (eq_tm (type_tree (S.store store.old).types ty))) }
    ensures keeps { Keeps (S.store store.old) (S.store store.new) }
    ensures rest { S.rest store.new ≡ S.rest store.old }
{
    let test = function_type(store, ty, constants.bool)?;
    let whole = function_type(store, ty, test)?;
    let t = make(store, Node::Const(constants.names.eq, whole))?;
    Ok(t)
}

/// The choice between two of a type by a formula.
#[tactic(auto, using(hol_terms::proofs::KeepsLemmas::keeps_trans))]
fn selection<S: Terms>(
    store: &mut S,
    constants: Constants,
    ty: TypeId,
) -> Result<TermId, AllocError>
    requires constants { AreConstants (S.store store.old) constants }
    requires there { HasType (S.store store.old).types ty }
    ensures is { IfOk result (λ t. IsAt (S.store store.new) t (ite_tm (type_tree (S.store store.old).types ty))) }
    ensures keeps { Keeps (S.store store.old) (S.store store.new) }
    ensures rest { S.rest store.new ≡ S.rest store.old }
{
    let second = function_type(store, ty, ty)?;
    let first = function_type(store, ty, second)?;
    let whole = function_type(store, constants.bool, first)?;
    let t = make(store, Node::Const(constants.names.ite, whole))?;
    Ok(t)
}

/// The equation of two terms of one type.
#[tactic(auto, using(hol_terms::proofs::KeepsLemmas::keeps_trans))]
pub fn make_eq<S: Terms>(
    store: &mut S,
    constants: Constants,
    a: TermId,
    b: TermId,
) -> Result<TermId, AllocError>
    requires constants { AreConstants (S.store store.old) constants }
    requires left { HasTerm (S.store store.old) a }
    requires right { HasTerm (S.store store.old) b }
    requires same { ty_of (term_tree (S.store store.old) b) ≡ ty_of (term_tree (S.store store.old) a) }
    ensures there { IfOk result (λ t. HasTerm (S.store store.new) t) }
    ensures tree { IfOk result (λ t. term_tree (S.store store.new) t ≡ equation (ty_of (term_tree (S.store store.old) a)) (term_tree (S.store store.old) a) (term_tree (S.store store.old) b)) }
    ensures keeps { Keeps (S.store store.old) (S.store store.new) }
    ensures rest { S.rest store.new ≡ S.rest store.old }
{
    let ty = store.ty(a);
    let eq = equality(store, constants, ty)?;
    let t = applied_to_two(store, eq, a, b)?;
    Ok(t)
}

/// The one of two terms of one type that a term of type Bool selects.
#[tactic(auto, using(hol_terms::proofs::KeepsLemmas::keeps_trans))]
pub fn make_ite<S: Terms>(
    store: &mut S,
    constants: Constants,
    c: TermId,
    a: TermId,
    b: TermId,
) -> Result<TermId, AllocError>
    requires constants { AreConstants (S.store store.old) constants }
    requires condition { HasTerm (S.store store.old) c }
    requires left { HasTerm (S.store store.old) a }
    requires right { HasTerm (S.store store.old) b }
    requires bool { ty_of (term_tree (S.store store.old) c) ≡ BoolTy }
    requires same { ty_of (term_tree (S.store store.old) b) ≡ ty_of (term_tree (S.store store.old) a) }
    ensures there { IfOk result (λ t. HasTerm (S.store store.new) t) }
    ensures tree { IfOk result (λ t. term_tree (S.store store.new) t ≡ conditional (ty_of (term_tree (S.store store.old) a)) (term_tree (S.store store.old) c) (term_tree (S.store store.old) a) (term_tree (S.store store.old) b)) }
    ensures keeps { Keeps (S.store store.old) (S.store store.new) }
    ensures rest { S.rest store.new ≡ S.rest store.old }
{
    let ty = store.ty(a);
    let ite = selection(store, constants, ty)?;
    let chosen = apply_fitting(store, ite, c)?;
    let t = applied_to_two(store, chosen, a, b)?;
    Ok(t)
}

/// Whether a term is a constant of the name.
pub fn is_named<S: Terms>(store: &S, name: NameId, t: TermId) -> bool
    requires name { HasName (S.store store.now).types name }
    requires there { HasTerm (S.store store.now) t }
    ensures { IsTrue result ↔ (term_tree (S.store store.now) t ≡ ConstTm (text_of (S.store store.now).types name) (ty_of (term_tree (S.store store.now) t))) }
{
    let _text = store.text(name);
    match store.node(t) {
        Node::Const(n, _) => n == name,
        Node::Free(_, _, _) => false,
        Node::Bound(_, _) => false,
        Node::Num(_) => false,
        Node::App(_, _) => false,
        Node::Lam(_, _) => false,
    }
}

/// Whether two terms have one type.
pub fn same_type<S: Terms>(store: &S, a: TermId, b: TermId) -> bool
    requires left { HasTerm (S.store store.now) a }
    requires right { HasTerm (S.store store.now) b }
    ensures { IsTrue result ↔ (ty_of (term_tree (S.store store.now) b) ≡ ty_of (term_tree (S.store store.now) a)) }
{
    store.ty(a) == store.ty(b)
}

/// An equation's sides. None exactly where the term isn't an equation.
pub fn eq_parts<S: Terms>(store: &S, constants: Constants, t: TermId) -> Option<Sides>
    requires constants { AreConstants (S.store store.now) constants }
    requires there { HasTerm (S.store store.now) t }
    ensures none { IfNone result ((ty : Ty) (a b : Term) → term_tree (S.store store.now) t ≡ equation ty a b → ⊥) }
    ensures left { IfSome result (λ p. HasTerm (S.store store.now) p.left) }
    ensures right { IfSome result (λ p. HasTerm (S.store store.now) p.right) }
    ensures some { IfSome result (λ p. term_tree (S.store store.now) t ≡ equation (ty_of (term_tree (S.store store.now) p.left)) (term_tree (S.store store.now) p.left) (term_tree (S.store store.now) p.right)) }
    ensures apart { TermsApart (S.store store.now) }
{
    let Node::App(f, right) = store.node(t) else {
        return None;
    };
    let Node::App(head, left) = store.node(f) else {
        return None;
    };
    if !is_named(store, constants.names.eq, head) {
        return None;
    }
    if !same_type(store, left, right) {
        return None;
    }
    if !is_bool(store, t) {
        return None;
    }
    Some(Sides { left, right })
}
