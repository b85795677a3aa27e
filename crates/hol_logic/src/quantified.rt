//! Quantifiers over any predicates.
ghost use Rattle.std.specs.Prelude.{◌≡◌, [], true, IfOk, IfErr, IfSome, IfNone};
ghost use Rattle.hol_types.specs.Ty.{Ty, BoolTy, FunTy};
ghost use Rattle.hol_types.specs.TypeStore.{HasName, HasType, text_of, type_tree};
ghost use Rattle.hol_terms.specs.Term.{Term, BoundTm, ConstTm, AppTm, Typed, ty_of};
ghost use Rattle.hol_terms.specs.TermStore.{HasTerm, term_tree};
ghost use Rattle.hol_terms.specs.Formula.{IsTerm};
ghost use Rattle.hol_terms.specs.Constants.{equation, negation, for_all, exists};
ghost use Rattle.hol_formulas.specs.Constants.{IsAt};
ghost use Rattle.lcf_kernel.specs.KernelState.{KeepsAll};
ghost use Rattle.hol_logic.specs.States.{States};
ghost use Rattle.hol_logic.specs.Duals.{contrary};

use crate::expansion::{all_expanded, some_expanded};
use crate::makers::{application, place};
use crate::quantifier::{all_dual, some_dual};
use hol_formulas::binder::{is_predicate_on, lambda_parts};
use hol_formulas::equation::is_named;
use hol_terms::{Node, TermId, Terms};
use hol_types::{NameId, TypeId, TypeNode};
use lcf_kernel::{Kernel, RuleFault, ThmId};
use std::alloc::AllocError;

/// A predicate under a quantifier.
#[derive(Clone, Copy, Debug)]
pub(crate) struct Quantified {
    /// The type that it is said of.
    pub(crate) ty: TypeId,
    /// The predicate.
    pub(crate) predicate: TermId,
}

/// The type that a predicate is said of. None exactly where the term isn't a predicate.
fn type_of_predicate(k: &Kernel<'_>, p: TermId) -> Option<TypeId>
    requires { HasTerm k.now.store p }
    ensures none { IfNone result ((ty : Ty) → ty_of (term_tree k.now.store p) ≡ FunTy ty BoolTy → ⊥) }
    ensures there { IfSome result (λ ty. HasType k.now.store.types ty) }
    ensures some { IfSome result (λ ty. ty_of (term_tree k.now.store p) ≡ FunTy (type_tree k.now.store.types ty) BoolTy) }
{
    match k.type_node(k.ty(p)) {
        TypeNode::Fun(from, _) => {
            let from = *from;
            if is_predicate_on(k, p, from) {
                Some(from)
            } else {
                None
            }
        }
        TypeNode::Bool => None,
        TypeNode::Int => None,
        TypeNode::Var(_) => None,
        TypeNode::Cons(_, _) => None,
    }
}

/// The predicate that a quantifier of the name is said of. None exactly where the term doesn't say it of a predicate.
pub(crate) fn quantified_by(k: &Kernel<'_>, name: NameId, t: TermId) -> Option<Quantified>
    requires name { HasName k.now.store.types name }
    requires there { HasTerm k.now.store t }
    requires typed { Typed (term_tree k.now.store t) }
    requires bool { ty_of (term_tree k.now.store t) ≡ BoolTy }
    ensures none { IfNone result ((ty : Ty) (p : Term) → term_tree k.now.store t ≡ AppTm (ConstTm (text_of k.now.store.types name) (FunTy (FunTy ty BoolTy) BoolTy)) p → ⊥) }
    ensures ty { IfSome result (λ q. HasType k.now.store.types q.ty) }
    ensures there { IfSome result (λ q. HasTerm k.now.store q.predicate) }
    ensures predicate { IfSome result (λ q. ty_of (term_tree k.now.store q.predicate) ≡ FunTy (type_tree k.now.store.types q.ty) BoolTy) }
    ensures some { IfSome result (λ q. term_tree k.now.store t ≡ AppTm (ConstTm (text_of k.now.store.types name) (FunTy (FunTy (type_tree k.now.store.types q.ty) BoolTy) BoolTy)) (term_tree k.now.store q.predicate)) }
{
    let Node::App(head, predicate) = k.node(t) else {
        return None;
    };
    if !is_named(k, name, head) {
        return None;
    }
    let Some(ty) = type_of_predicate(k, predicate) else {
        return None;
    };
    Some(Quantified { ty, predicate })
}

/// A predicate applied to the place of a lambda on its type.
#[tactic(auto, using(lcf_kernel::proofs::KeepLemmas::keeps_all_trans))]
fn applied(k: &mut Kernel<'_>, p: TermId, ty: TypeId) -> Result<TermId, AllocError>
    requires ty { HasType k.old.store.types ty }
    requires there { HasTerm k.old.store p }
    requires term { IsTerm (term_tree k.old.store p) }
    requires predicate { ty_of (term_tree k.old.store p) ≡ FunTy (type_tree k.old.store.types ty) BoolTy }
    ensures is { IfOk result (λ t. IsAt k.new.store t (AppTm (term_tree k.old.store p) (BoundTm 0 (type_tree k.old.store.types ty)))) }
    ensures keeps { KeepsAll k.old k.new }
{
    let hole = place(k, ty)?;
    let t = application(k, p, hole)?;
    Ok(t)
}

//
//  ------------------------------------------------ of_all
//   |- (= (not (all p)) (ex (lambda. (not (p _)))))
/// That a predicate doesn't hold of all equals its dual; of a lambda that speaks of its body. There is no Shape.
#[tactic(auto, using(lcf_kernel::proofs::KeepLemmas::keeps_all_trans))]
pub(crate) fn of_all(k: &mut Kernel<'_>, p: TermId, ty: TypeId) -> Result<ThmId, RuleFault>
    requires ty { HasType k.old.store.types ty }
    requires there { HasTerm k.old.store p }
    requires term { IsTerm (term_tree k.old.store p) }
    requires predicate { ty_of (term_tree k.old.store p) ≡ FunTy (type_tree k.old.store.types ty) BoolTy }
    ensures states { IfOk result (λ r. States k.new r (equation BoolTy (negation (for_all (type_tree k.old.store.types ty) (term_tree k.old.store p))) (exists (type_tree k.old.store.types ty) (contrary (type_tree k.old.store.types ty) (term_tree k.old.store p)))) [] true) }
    ensures shape { IfErr result (λ e. e ≡ RuleFault.Shape → ⊥) }
    ensures keeps { KeepsAll k.old k.new }
{
    let Some(parts) = lambda_parts(k, p) else {
        let body = applied(k, p, ty)?;
        let r = all_expanded(k, p, ty, body)?;
        return Ok(r);
    };
    let r = all_dual(k, parts.ty, parts.body)?;
    Ok(r)
}

//
//  ------------------------------------------------ of_some
//   |- (= (not (ex p)) (all (lambda. (not (p _)))))
/// That a predicate holds of none equals its dual; of a lambda that speaks of its body. There is no Shape.
#[tactic(auto, using(lcf_kernel::proofs::KeepLemmas::keeps_all_trans))]
pub(crate) fn of_some(k: &mut Kernel<'_>, p: TermId, ty: TypeId) -> Result<ThmId, RuleFault>
    requires ty { HasType k.old.store.types ty }
    requires there { HasTerm k.old.store p }
    requires term { IsTerm (term_tree k.old.store p) }
    requires predicate { ty_of (term_tree k.old.store p) ≡ FunTy (type_tree k.old.store.types ty) BoolTy }
    ensures states { IfOk result (λ r. States k.new r (equation BoolTy (negation (exists (type_tree k.old.store.types ty) (term_tree k.old.store p))) (for_all (type_tree k.old.store.types ty) (contrary (type_tree k.old.store.types ty) (term_tree k.old.store p)))) [] true) }
    ensures shape { IfErr result (λ e. e ≡ RuleFault.Shape → ⊥) }
    ensures keeps { KeepsAll k.old k.new }
{
    let Some(parts) = lambda_parts(k, p) else {
        let body = applied(k, p, ty)?;
        let r = some_expanded(k, p, ty, body)?;
        return Ok(r);
    };
    let r = some_dual(k, parts.ty, parts.body)?;
    Ok(r)
}
