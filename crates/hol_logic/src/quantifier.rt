//! De Morgan's laws for quantifiers over lambdas, by the type of the variable and the body.
ghost use Rattle.std.specs.Prelude.{◌≡◌, [], true, IfOk, IfErr};
ghost use Rattle.hol_types.specs.Ty.{BoolTy};
ghost use Rattle.hol_types.specs.TypeStore.{type_tree};
ghost use Rattle.hol_terms.specs.Term.{LamTm};
ghost use Rattle.hol_terms.specs.TermStore.{term_tree};
ghost use Rattle.hol_terms.specs.Constants.{negation, equation};
ghost use Rattle.hol_formulas.specs.Constants.{IsAt};
ghost use Rattle.lcf_kernel.specs.KernelState.{KeepsAll};
ghost use Rattle.hol_logic.specs.States.{States};
ghost use Rattle.hol_logic.specs.Quantified.{IsPredicate, all_stated, some_stated, all_contrary, some_contrary};

use crate::existential::{not_some, some_denies};
use crate::makers::{every, lambda, negated, some};
use crate::universal::{all_denies, not_all};
use hol_formulas::binder::Binder;
use hol_terms::TermId;
use hol_types::TypeId;
use lcf_kernel::{Kernel, RuleFault, ThmId};
use std::alloc::AllocError;

/// The lambda with the contrary of a body.
#[tactic(auto, using(lcf_kernel::proofs::KeepLemmas::keeps_all_trans))]
fn contrary(k: &mut Kernel<'_>, ty: TypeId, body: TermId) -> Result<TermId, AllocError>
    requires { IsPredicate k.old.store (record { ty = ty; body = body }) }
    ensures is { IfOk result (λ t. IsAt k.new.store t (LamTm (type_tree k.old.store.types ty) (negation (term_tree k.old.store body)))) }
    ensures keeps { KeepsAll k.old k.new }
{
    let opposite = negated(k, body)?;
    let t = lambda(k, ty, opposite)?;
    Ok(t)
}

//
//  ------------------------------------------------------ all_dual
//   |- (= (not (all (lambda. b))) (ex (lambda. (not b))))
/// That a lambda doesn't hold of all equals its dual. There is no Shape.
#[tactic(auto, using(lcf_kernel::proofs::KeepLemmas::keeps_all_trans))]
pub(crate) fn all_dual(k: &mut Kernel<'_>, ty: TypeId, body: TermId) -> Result<ThmId, RuleFault>
    requires predicate { IsPredicate k.old.store (record { ty = ty; body = body }) }
    ensures states { IfOk result (λ r. States k.new r (equation BoolTy (negation (all_stated k.old.store (record { ty = ty; body = body }))) (some_contrary k.old.store (record { ty = ty; body = body }))) [] true) }
    ensures shape { IfErr result (λ e. e ≡ RuleFault.Shape → ⊥) }
    ensures keeps { KeepsAll k.old k.new }
{
    let predicate = lambda(k, ty, body)?;
    let all = every(k, predicate, ty)?;
    let t = negated(k, all)?;
    let q = contrary(k, ty, body)?;
    let dual = some(k, q, ty)?;
    let forth = not_all(k, t, dual, Binder { ty, body })?;
    let back = all_denies(k, dual, all, Binder { ty, body }, q)?;
    let r = k.iff_i(forth, back)?;
    Ok(r)
}

//
//  ------------------------------------------------------ some_dual
//   |- (= (not (ex (lambda. b))) (all (lambda. (not b))))
/// That a lambda holds of none equals its dual. There is no Shape.
#[tactic(auto, using(lcf_kernel::proofs::KeepLemmas::keeps_all_trans))]
pub(crate) fn some_dual(k: &mut Kernel<'_>, ty: TypeId, body: TermId) -> Result<ThmId, RuleFault>
    requires predicate { IsPredicate k.old.store (record { ty = ty; body = body }) }
    ensures states { IfOk result (λ r. States k.new r (equation BoolTy (negation (some_stated k.old.store (record { ty = ty; body = body }))) (all_contrary k.old.store (record { ty = ty; body = body }))) [] true) }
    ensures shape { IfErr result (λ e. e ≡ RuleFault.Shape → ⊥) }
    ensures keeps { KeepsAll k.old k.new }
{
    let predicate = lambda(k, ty, body)?;
    let whole = some(k, predicate, ty)?;
    let t = negated(k, whole)?;
    let forth = not_some(k, t, whole, Binder { ty, body })?;
    let dual = k.concl(forth);
    let back = some_denies(k, dual, whole, Binder { ty, body }, predicate)?;
    let r = k.iff_i(forth, back)?;
    Ok(r)
}
