//! De Morgan's laws for quantifiers over predicates that are no lambdas.
ghost use Rattle.std.specs.Prelude.{◌≡◌, [], true, IfOk, IfErr};
ghost use Rattle.hol_types.specs.Ty.{Ty, BoolTy, FunTy};
ghost use Rattle.hol_types.specs.TypeStore.{HasType, type_tree};
ghost use Rattle.hol_terms.specs.Term.{Term, BoundTm, LamTm, ty_of};
ghost use Rattle.hol_terms.specs.TermStore.{HasTerm, term_tree};
ghost use Rattle.hol_terms.specs.Substitution.{subst_bound};
ghost use Rattle.hol_terms.specs.Formula.{IsTerm};
ghost use Rattle.hol_terms.specs.Constants.{equation, negation, for_all, exists};
ghost use Rattle.hol_formulas.specs.Constants.{IsAt};
ghost use Rattle.lcf_kernel.specs.KernelState.{HasThm, concl_of, KeepsAll};
ghost use Rattle.hol_logic.specs.States.{States, Equal};
ghost use Rattle.hol_logic.specs.DerivedForms.{IsEquation};
ghost use Rattle.hol_logic.specs.Quantified.{IsExpanded, all_contrary, some_contrary};

use crate::equality::{carry, sym, trans};
use crate::fresh::fresh;
use crate::makers::{application, every, lambda, negated, place_of_predicate, some};
use crate::quantifier::{all_dual, some_dual};
use hol_terms::TermId;
use hol_types::TypeId;
use lcf_kernel::{Kernel, RuleFault, ThmId};
use std::alloc::AllocError;

//
//  --------------------------- expansion      the body is (p _)
//   |- (= (lambda. (p _)) p)
/// A lambda that applies a predicate to its variable equals the predicate. There is no Shape.
#[tactic(auto, using(lcf_kernel::proofs::KeepLemmas::keeps_all_trans))]
fn expansion(k: &mut Kernel<'_>, p: TermId, ty: TypeId, body: TermId) -> Result<ThmId, RuleFault>
    requires expanded { IsExpanded k.old.store p (record { ty = ty; body = body }) }
    ensures states { IfOk result (λ r. States k.new r (equation (FunTy (type_tree k.old.store.types ty) BoolTy) (LamTm (type_tree k.old.store.types ty) (term_tree k.old.store body)) (term_tree k.old.store p)) [] true) }
    ensures shape { IfErr result (λ e. e ≡ RuleFault.Shape → ⊥) }
    ensures keeps { KeepsAll k.old k.new }
{
    let v = fresh(k, ty, p)?;
    let whole = lambda(k, ty, body)?;
    let applied = application(k, whole, v)?;
    let step = k.beta(applied)?;
    let _said = k.concl(step);
    let r = k.ext(step, v)?;
    Ok(r)
}

//   |- (= x y)    |- (= (b with x) d)
//  ----------------------------------- restated
//          |- (= (b with y) d)
/// Equals for equals in a place of an equation's left side. There is no Shape.
#[tactic(auto, using(lcf_kernel::proofs::KeepLemmas::keeps_all_trans))]
fn restated(k: &mut Kernel<'_>, same: ThmId, dual: ThmId, place: TermId) -> Result<ThmId, RuleFault>
    requires same { Equal k.old same }
    requires dual { HasThm k.old dual }
    requires place { HasTerm k.old.store place }
    requires function { (e : IsEquation (concl_of k.old same)) → IsTerm (LamTm e.type (term_tree k.old.store place)) }
    requires linked { (e : IsEquation (concl_of k.old same)) → (d : Term) × (concl_of k.old dual ≡ equation (ty_of (term_tree k.old.store place)) (subst_bound (term_tree k.old.store place) 0 e.left) d) }
    ensures states { IfOk result (λ r. (ty : Ty) (x y d : Term) → States k.old same (equation ty x y) [] true → States k.old dual (equation (ty_of (term_tree k.old.store place)) (subst_bound (term_tree k.old.store place) 0 x) d) [] true → States k.new r (equation (ty_of (term_tree k.old.store place)) (subst_bound (term_tree k.old.store place) 0 y) d) [] true) }
    ensures shape { IfErr result (λ e. e ≡ RuleFault.Shape → ⊥) }
    ensures keeps { KeepsAll k.old k.new }
{
    let step = carry(k, same, place)?;
    let back = sym(k, step)?;
    let r = trans(k, back, dual)?;
    Ok(r)
}

/// `(not (all _))` over a type, the place marked.
#[tactic(auto, using(lcf_kernel::proofs::KeepLemmas::keeps_all_trans))]
fn place_not_all(k: &mut Kernel<'_>, ty: TypeId) -> Result<TermId, AllocError>
    requires { HasType k.old.store.types ty }
    ensures is { IfOk result (λ t. IsAt k.new.store t (negation (for_all (type_tree k.old.store.types ty) (BoundTm 0 (FunTy (type_tree k.old.store.types ty) BoolTy))))) }
    ensures keeps { KeepsAll k.old k.new }
{
    let hole = place_of_predicate(k, ty)?;
    let whole = every(k, hole, ty)?;
    let t = negated(k, whole)?;
    Ok(t)
}

/// `(not (ex _))` over a type, the place marked.
#[tactic(auto, using(lcf_kernel::proofs::KeepLemmas::keeps_all_trans))]
fn place_not_some(k: &mut Kernel<'_>, ty: TypeId) -> Result<TermId, AllocError>
    requires { HasType k.old.store.types ty }
    ensures is { IfOk result (λ t. IsAt k.new.store t (negation (exists (type_tree k.old.store.types ty) (BoundTm 0 (FunTy (type_tree k.old.store.types ty) BoolTy))))) }
    ensures keeps { KeepsAll k.old k.new }
{
    let hole = place_of_predicate(k, ty)?;
    let whole = some(k, hole, ty)?;
    let t = negated(k, whole)?;
    Ok(t)
}

//
//  --------------------------------------------- all_expanded      the body is (p _)
//   |- (= (not (all p)) (ex (lambda. (not (p _)))))
/// That a predicate which is no lambda doesn't hold of all equals its dual. There is no Shape.
#[tactic(auto, using(lcf_kernel::proofs::KeepLemmas::keeps_all_trans))]
pub(crate) fn all_expanded(
    k: &mut Kernel<'_>,
    p: TermId,
    ty: TypeId,
    body: TermId,
) -> Result<ThmId, RuleFault>
    requires expanded { IsExpanded k.old.store p (record { ty = ty; body = body }) }
    ensures states { IfOk result (λ r. States k.new r (equation BoolTy (negation (for_all (type_tree k.old.store.types ty) (term_tree k.old.store p))) (some_contrary k.old.store (record { ty = ty; body = body }))) [] true) }
    ensures shape { IfErr result (λ e. e ≡ RuleFault.Shape → ⊥) }
    ensures keeps { KeepsAll k.old k.new }
{
    let dual = all_dual(k, ty, body)?;
    let same = expansion(k, p, ty, body)?;
    let place = place_not_all(k, ty)?;
    let r = restated(k, same, dual, place)?;
    Ok(r)
}

//
//  --------------------------------------------- some_expanded      the body is (p _)
//   |- (= (not (ex p)) (all (lambda. (not (p _)))))
/// That a predicate which is no lambda holds of none equals its dual. There is no Shape.
#[tactic(auto, using(lcf_kernel::proofs::KeepLemmas::keeps_all_trans))]
pub(crate) fn some_expanded(
    k: &mut Kernel<'_>,
    p: TermId,
    ty: TypeId,
    body: TermId,
) -> Result<ThmId, RuleFault>
    requires expanded { IsExpanded k.old.store p (record { ty = ty; body = body }) }
    ensures states { IfOk result (λ r. States k.new r (equation BoolTy (negation (exists (type_tree k.old.store.types ty) (term_tree k.old.store p))) (all_contrary k.old.store (record { ty = ty; body = body }))) [] true) }
    ensures shape { IfErr result (λ e. e ≡ RuleFault.Shape → ⊥) }
    ensures keeps { KeepsAll k.old k.new }
{
    let dual = some_dual(k, ty, body)?;
    let same = expansion(k, p, ty, body)?;
    let place = place_not_some(k, ty)?;
    let r = restated(k, same, dual, place)?;
    Ok(r)
}
