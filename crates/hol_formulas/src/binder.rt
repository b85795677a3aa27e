//! Lambdas and quantifiers in any store of terms.
ghost use Rattle.std.specs.Prelude.{◌≡◌, ◌↔◌, IsTrue, IfOk, IfSome, IfNone};
ghost use Rattle.hol_types.specs.Ty.{Ty, BoolTy, FunTy};
ghost use Rattle.hol_types.specs.TypeStore.{HasName, HasType, text_of, type_tree};
ghost use Rattle.hol_terms.specs.Term.{Term, ConstTm, AppTm, LamTm, Typed, ty_of};
ghost use Rattle.hol_terms.specs.TermStore.{HasTerm, Keeps, term_tree};
ghost use Rattle.hol_terms.specs.Substitution.{IsClosed, IsFreeVariable};
ghost use Rattle.hol_terms.specs.Constants.{for_all, exists, chosen};
ghost use Rattle.hol_terms.specs.Derivable.{abstraction};
ghost use Rattle.hol_formulas.specs.Constants.{IsAt, IsType, IsApplied, AreConstants};

use crate::equation::is_named;
use crate::formula::{Constants, apply_fitting, function_type, is_bool};
use hol_terms::{Node, TermId, Terms, make};
use hol_types::{NameId, TypeId, TypeNode};
use std::alloc::AllocError;

/// A lambda's parts.
#[derive(Clone, Copy, Debug)]
pub struct Binder {
    /// The type of its variable.
    pub ty: TypeId,
    /// Its body.
    pub body: TermId,
}

/// Whether a term is a free variable.
pub fn is_variable<S: Terms>(store: &S, t: TermId) -> bool
    requires { HasTerm (S.store store.now) t }
    ensures { IsTrue result ↔ IsFreeVariable (term_tree (S.store store.now) t) }
{
    match store.node(t) {
        Node::Free(_, _, _) => true,
        Node::Bound(_, _) => false,
        Node::Const(_, _) => false,
        Node::Num(_) => false,
        Node::App(_, _) => false,
        Node::Lam(_, _) => false,
    }
}

/// A lambda's parts. None exactly where the term isn't a lambda.
pub fn lambda_parts<S: Terms>(store: &S, t: TermId) -> Option<Binder>
    requires { HasTerm (S.store store.now) t }
    ensures none { IfNone result ((ty : Ty) (b : Term) → term_tree (S.store store.now) t ≡ LamTm ty b → ⊥) }
    ensures ty { IfSome result (λ p. HasType (S.store store.now).types p.ty) }
    ensures body { IfSome result (λ p. HasTerm (S.store store.now) p.body) }
    ensures some { IfSome result (λ p. term_tree (S.store store.now) t ≡ LamTm (type_tree (S.store store.now).types p.ty) (term_tree (S.store store.now) p.body)) }
    ensures typed { Typed (term_tree (S.store store.now) t) }
{
    let Node::Lam(ty, body) = store.node(t) else {
        return None;
    };
    Some(Binder { ty, body })
}

/// Whether a term is of the type of predicates on a type.
pub fn is_predicate_on<S: Terms>(store: &S, p: TermId, ty: TypeId) -> bool
    requires there { HasTerm (S.store store.now) p }
    requires ty { HasType (S.store store.now).types ty }
    ensures { IsTrue result ↔ (ty_of (term_tree (S.store store.now) p) ≡ FunTy (type_tree (S.store store.now).types ty) BoolTy) }
{
    match store.type_node(store.ty(p)) {
        TypeNode::Fun(from, to) => *from == ty && is_bool_type(store, *to),
        TypeNode::Bool => false,
        TypeNode::Int => false,
        TypeNode::Var(_) => false,
        TypeNode::Cons(_, _) => false,
    }
}

/// Whether a type is Bool.
fn is_bool_type<S: Terms>(store: &S, ty: TypeId) -> bool
    requires { HasType (S.store store.now).types ty }
    ensures { IsTrue result ↔ (type_tree (S.store store.now).types ty ≡ BoolTy) }
{
    match store.type_node(ty) {
        TypeNode::Bool => true,
        TypeNode::Int => false,
        TypeNode::Var(_) => false,
        TypeNode::Fun(_, _) => false,
        TypeNode::Cons(_, _) => false,
    }
}

/// What a constant of the name is applied to. None exactly where the term isn't such an application.
fn argument_of<S: Terms>(store: &S, name: NameId, t: TermId) -> Option<TermId>
    requires name { HasName (S.store store.now).types name }
    requires there { HasTerm (S.store store.now) t }
    ensures none { IfNone result ((ty : Ty) (p : Term) → term_tree (S.store store.now) t ≡ AppTm (ConstTm (text_of (S.store store.now).types name) ty) p → ⊥) }
    ensures there { IfSome result (λ p. HasTerm (S.store store.now) p) }
    ensures some { IfSome result (λ p. IsApplied (text_of (S.store store.now).types name) (term_tree (S.store store.now) p) (term_tree (S.store store.now) t)) }
    ensures typed { Typed (term_tree (S.store store.now) t) }
{
    let Node::App(head, p) = store.node(t) else {
        return None;
    };
    if !is_named(store, name, head) {
        return None;
    }
    Some(p)
}

/// The predicate that holds of each of a type, by a term of type Bool. None exactly where the term doesn't say that a
/// predicate on the type holds of each.
pub fn all_part<S: Terms>(store: &S, constants: Constants, t: TermId, ty: TypeId) -> Option<TermId>
    requires constants { AreConstants (S.store store.now) constants }
    requires there { HasTerm (S.store store.now) t }
    requires bool { ty_of (term_tree (S.store store.now) t) ≡ BoolTy }
    requires ty { HasType (S.store store.now).types ty }
    ensures none { IfNone result ((p : Term) → term_tree (S.store store.now) t ≡ for_all (type_tree (S.store store.now).types ty) p → ⊥) }
    ensures there { IfSome result (λ p. HasTerm (S.store store.now) p) }
    ensures some { IfSome result (λ p. term_tree (S.store store.now) t ≡ for_all (type_tree (S.store store.now).types ty) (term_tree (S.store store.now) p)) }
{
    let Some(p) = argument_of(store, constants.names.all, t) else {
        return None;
    };
    if is_predicate_on(store, p, ty) {
        Some(p)
    } else {
        None
    }
}

/// The parts of the lambda that holds of some, by a term of type Bool. None exactly where the term doesn't say that a
/// lambda holds of some.
pub fn ex_parts<S: Terms>(store: &S, constants: Constants, t: TermId) -> Option<Binder>
    requires constants { AreConstants (S.store store.now) constants }
    requires there { HasTerm (S.store store.now) t }
    requires bool { ty_of (term_tree (S.store store.now) t) ≡ BoolTy }
    ensures none { IfNone result ((ty : Ty) (b : Term) → term_tree (S.store store.now) t ≡ exists ty (LamTm ty b) → ⊥) }
    ensures ty { IfSome result (λ p. HasType (S.store store.now).types p.ty) }
    ensures body { IfSome result (λ p. HasTerm (S.store store.now) p.body) }
    ensures some { IfSome result (λ p. term_tree (S.store store.now) t ≡ exists (type_tree (S.store store.now).types p.ty) (LamTm (type_tree (S.store store.now).types p.ty) (term_tree (S.store store.now) p.body))) }
{
    let Some(p) = argument_of(store, constants.names.ex, t) else {
        return None;
    };
    let Some(lambda) = lambda_parts(store, p) else {
        return None;
    };
    if is_bool(store, lambda.body) {
        Some(lambda)
    } else {
        None
    }
}

/// One of which a lambda holds, where there is one.
#[tactic(auto, using(hol_terms::proofs::KeepsLemmas::keeps_trans))]
pub fn make_chosen<S: Terms>(
    store: &mut S,
    constants: Constants,
    lambda: Binder,
) -> Result<TermId, AllocError>
    requires constants { AreConstants (S.store store.old) constants }
    requires ty { HasType (S.store store.old).types lambda.ty }
    requires body { HasTerm (S.store store.old) lambda.body }
    requires bool { ty_of (term_tree (S.store store.old) lambda.body) ≡ BoolTy }
    requires typed { Typed (LamTm (type_tree (S.store store.old).types lambda.ty) (term_tree (S.store store.old) lambda.body)) }
    ensures there { IfOk result (λ t. HasTerm (S.store store.new) t) }
    ensures tree { IfOk result (λ t. term_tree (S.store store.new) t ≡ chosen (type_tree (S.store store.old).types lambda.ty) (LamTm (type_tree (S.store store.old).types lambda.ty) (term_tree (S.store store.old) lambda.body))) }
    ensures keeps { Keeps (S.store store.old) (S.store store.new) }
    ensures rest { S.rest store.new ≡ S.rest store.old }
{
    let p = make(store, Node::Lam(lambda.ty, lambda.body))?;
    let t = make_choice(store, constants, p, lambda.ty)?;
    Ok(t)
}

/// That a formula holds of each value of a free variable.
#[tactic(auto, using(hol_terms::proofs::KeepsLemmas::keeps_trans))]
pub fn make_general<S: Terms>(
    store: &mut S,
    constants: Constants,
    v: TermId,
    a: TermId,
) -> Result<TermId, AllocError>
    requires constants { AreConstants (S.store store.old) constants }
    requires variable { HasTerm (S.store store.old) v }
    requires there { HasTerm (S.store store.old) a }
    requires closed { IsClosed (term_tree (S.store store.old) a) }
    requires bool { ty_of (term_tree (S.store store.old) a) ≡ BoolTy }
    ensures there { IfOk result (λ t. HasTerm (S.store store.new) t) }
    ensures tree { IfOk result (λ t. term_tree (S.store store.new) t ≡ for_all (ty_of (term_tree (S.store store.old) v)) (abstraction (term_tree (S.store store.old) v) (term_tree (S.store store.old) a))) }
    ensures keeps { Keeps (S.store store.old) (S.store store.new) }
    ensures rest { S.rest store.new ≡ S.rest store.old }
{
    let ty = store.ty(v);
    let p = make_abstraction(store, v, a)?;
    let t = make_all(store, constants, p, ty)?;
    Ok(t)
}

/// The function of a free variable with a closed term as its value.
#[tactic(auto, using(hol_terms::proofs::KeepsLemmas::keeps_trans))]
pub fn make_abstraction<S: Terms>(store: &mut S, v: TermId, a: TermId) -> Result<TermId, AllocError>
    requires variable { HasTerm (S.store store.old) v }
    requires there { HasTerm (S.store store.old) a }
    requires closed { IsClosed (term_tree (S.store store.old) a) }
    ensures there { IfOk result (λ t. HasTerm (S.store store.new) t) }
    ensures tree { IfOk result (λ t. term_tree (S.store store.new) t ≡ abstraction (term_tree (S.store store.old) v) (term_tree (S.store store.old) a)) }
    ensures keeps { Keeps (S.store store.old) (S.store store.new) }
    ensures rest { S.rest store.new ≡ S.rest store.old }
{
    let ty = store.ty(v);
    let _given = store.ty(a);
    let body = store.close(a, v)?;
    let t = make(store, Node::Lam(ty, body))?;
    Ok(t)
}

/// The constant of a name that takes a predicate on a type to a result.
#[tactic(auto, using(hol_terms::proofs::KeepsLemmas::keeps_trans))]
pub fn of_predicates<S: Terms>(
    store: &mut S,
    bool: TypeId,
    name: NameId,
    ty: TypeId,
    result_type: TypeId,
) -> Result<TermId, AllocError>
    requires bool { IsType (S.store store.old) bool BoolTy }
    requires name { HasName (S.store store.old).types name }
    requires ty { HasType (S.store store.old).types ty }
    requires result_type { HasType (S.store store.old).types result_type }
    ensures is { IfOk result (λ t. IsAt (S.store store.new) t (ConstTm (text_of (S.store store.old).types name) (FunTy (FunTy (type_tree (S.store store.old).types ty) BoolTy) (type_tree (S.store store.old).types result_type)))) }
    ensures keeps { Keeps (S.store store.old) (S.store store.new) }
    ensures rest { S.rest store.new ≡ S.rest store.old }
{
    let from = function_type(store, ty, bool)?;
    let whole = function_type(store, from, result_type)?;
    let t = make(store, Node::Const(name, whole))?;
    Ok(t)
}

/// That a predicate on a type holds of each.
#[tactic(auto, using(hol_terms::proofs::KeepsLemmas::keeps_trans))]
pub fn make_all<S: Terms>(
    store: &mut S,
    constants: Constants,
    p: TermId,
    ty: TypeId,
) -> Result<TermId, AllocError>
    requires constants { AreConstants (S.store store.old) constants }
    requires there { HasTerm (S.store store.old) p }
    requires ty { HasType (S.store store.old).types ty }
    requires predicate { ty_of (term_tree (S.store store.old) p) ≡ FunTy (type_tree (S.store store.old).types ty) BoolTy }
    ensures there { IfOk result (λ t. HasTerm (S.store store.new) t) }
    ensures tree { IfOk result (λ t. term_tree (S.store store.new) t ≡ for_all (type_tree (S.store store.old).types ty) (term_tree (S.store store.old) p)) }
    ensures keeps { Keeps (S.store store.old) (S.store store.new) }
    ensures rest { S.rest store.new ≡ S.rest store.old }
{
    let bool = constants.bool;
    let all = of_predicates(store, bool, constants.names.all, ty, bool)?;
    let t = apply_fitting(store, all, p)?;
    Ok(t)
}

/// A value of which a predicate on a type holds, where there is one.
#[tactic(auto, using(hol_terms::proofs::KeepsLemmas::keeps_trans))]
pub fn make_choice<S: Terms>(
    store: &mut S,
    constants: Constants,
    p: TermId,
    ty: TypeId,
) -> Result<TermId, AllocError>
    requires constants { AreConstants (S.store store.old) constants }
    requires there { HasTerm (S.store store.old) p }
    requires ty { HasType (S.store store.old).types ty }
    requires predicate { ty_of (term_tree (S.store store.old) p) ≡ FunTy (type_tree (S.store store.old).types ty) BoolTy }
    ensures there { IfOk result (λ t. HasTerm (S.store store.new) t) }
    ensures tree { IfOk result (λ t. term_tree (S.store store.new) t ≡ chosen (type_tree (S.store store.old).types ty) (term_tree (S.store store.old) p)) }
    ensures keeps { Keeps (S.store store.old) (S.store store.new) }
    ensures rest { S.rest store.new ≡ S.rest store.old }
{
    let choice = of_predicates(store, constants.bool, constants.names.choice, ty, ty)?;
    let t = apply_fitting(store, choice, p)?;
    Ok(t)
}
