//! Equations under quantifiers.
ghost use Rattle.std.specs.Prelude.{◌≡◌, IfOk, OnOk, IfErr, IfSome, IfNone};
ghost use Rattle.hol_types.specs.Ty.{BoolTy, FunTy};
ghost use Rattle.hol_terms.specs.Term.{Term, AppTm, ty_of};
ghost use Rattle.hol_terms.specs.Substitution.{IsFreeVariable};
ghost use Rattle.hol_terms.specs.TermStore.{HasTerm, term_tree};
ghost use Rattle.hol_terms.specs.Formula.{IsTerm};
ghost use Rattle.hol_terms.specs.Constants.{equation};
ghost use Rattle.hol_terms.specs.Derivable.{abstraction};
ghost use Rattle.hol_formulas.specs.Constants.{IsAt};
ghost use Rattle.lcf_kernel.specs.RuleForms.{IsGeneral};
ghost use Rattle.lcf_kernel.specs.KernelState.{HasThm, concl_of, hyps_of, all_hyps_of, bare_of, KeepsAll};
ghost use Rattle.hol_logic.specs.States.{States, Equates, Equal};
ghost use Rattle.hol_logic.specs.DerivedForms.{IsEquation, IsEquivalence, all_of, some_of};

use crate::equality::{carry, sides_of, sym, trans};
use crate::makers::{application, place_all, place_some};
use hol_formulas::binder::{is_variable, make_abstraction};
use hol_formulas::formula::{Sides, is_bool};
use hol_terms::TermId;
use lcf_kernel::{Kernel, RuleFault, ThmId};
use std::alloc::AllocError;

/// The lambda of a variable with a closed term as its value.
#[tactic(auto, using(lcf_kernel::proofs::KeepLemmas::keeps_all_rest))]
fn lambda_of(k: &mut Kernel<'_>, v: TermId, t: TermId) -> Result<TermId, AllocError>
    requires variable { HasTerm k.old.store v }
    requires there { HasTerm k.old.store t }
    requires term { IsTerm (term_tree k.old.store t) }
    ensures is { IfOk result (λ r. IsAt k.new.store r (abstraction (term_tree k.old.store v) (term_tree k.old.store t))) }
    ensures keeps { KeepsAll k.old k.new }
{
    let _constants = k.constants();
    let r = make_abstraction(k, v, t)?;
    Ok(r)
}

/// `((lambda v. t) v)`
#[tactic(auto, using(lcf_kernel::proofs::KeepLemmas::keeps_all_same, lcf_kernel::proofs::KeepLemmas::keeps_all_trans))]
fn applied_to_itself(k: &mut Kernel<'_>, v: TermId, t: TermId) -> Result<TermId, AllocError>
    requires variable { HasTerm k.old.store v }
    requires free { IsFreeVariable (term_tree k.old.store v) }
    requires there { HasTerm k.old.store t }
    requires term { IsTerm (term_tree k.old.store t) }
    ensures is { IfOk result (λ r. IsAt k.new.store r (AppTm (abstraction (term_tree k.old.store v) (term_tree k.old.store t)) (term_tree k.old.store v))) }
    ensures keeps { KeepsAll k.old k.new }
{
    let f = lambda_of(k, v, t)?;
    let r = application(k, f, v)?;
    Ok(r)
}

//            G |- (= x y)
//  ------------------------------- turned
//   G |- (= y ((lambda v. x) v))
/// An equation the other way round with its left side written as a lambda applied to its own variable, which is given as a
/// term. There is no Shape.
#[tactic(auto, using(lcf_kernel::proofs::KeepLemmas::keeps_all_same, lcf_kernel::proofs::KeepLemmas::keeps_all_trans))]
fn turned(k: &mut Kernel<'_>, a: ThmId, v: TermId, applied: TermId) -> Result<ThmId, RuleFault>
    requires equal { Equal k.old a }
    requires variable { HasTerm k.old.store v }
    requires free { IsFreeVariable (term_tree k.old.store v) }
    requires there { HasTerm k.old.store applied }
    requires is { (e : IsEquation (concl_of k.old a)) → term_tree k.old.store applied ≡ AppTm (abstraction (term_tree k.old.store v) e.left) (term_tree k.old.store v) }
    ensures states { IfOk result (λ r. (e : IsEquation (concl_of k.old a)) × States k.new r (equation e.type e.right (AppTm (abstraction (term_tree k.old.store v) e.left) (term_tree k.old.store v))) (hyps_of k.old a) (bare_of k.old a)) }
    ensures shape { IfErr result (λ e. e ≡ RuleFault.Shape → ⊥) }
    ensures keeps { KeepsAll k.old k.new }
{
    let _said = k.concl(a);
    let first = k.beta(applied)?;
    let whole = trans(k, first, a)?;
    let r = sym(k, whole)?;
    Ok(r)
}

//                   G |- (= x y)
//  ----------------------------------------------- agreeing
//   G |- (= ((lambda v. x) v) ((lambda v. y) v))
/// An equation with both sides written as lambdas applied to their own variable. There is no Shape.
#[tactic(auto, using(lcf_kernel::proofs::KeepLemmas::keeps_all_same, lcf_kernel::proofs::KeepLemmas::keeps_all_trans))]
fn agreeing(k: &mut Kernel<'_>, a: ThmId, sides: Sides, v: TermId) -> Result<ThmId, RuleFault>
    requires equates { Equates k.old a sides }
    requires variable { HasTerm k.old.store v }
    requires free { IsFreeVariable (term_tree k.old.store v) }
    ensures states { IfOk result (λ r. States k.new r (equation (ty_of (term_tree k.old.store sides.left)) (AppTm (abstraction (term_tree k.old.store v) (term_tree k.old.store sides.left)) (term_tree k.old.store v)) (AppTm (abstraction (term_tree k.old.store v) (term_tree k.old.store sides.right)) (term_tree k.old.store v))) (hyps_of k.old a) (bare_of k.old a)) }
    ensures shape { IfErr result (λ e. e ≡ RuleFault.Shape → ⊥) }
    ensures keeps { KeepsAll k.old k.new }
{
    let left = applied_to_itself(k, v, sides.left)?;
    let right = applied_to_itself(k, v, sides.right)?;
    let first = turned(k, a, v, left)?;
    let r = turned(k, first, v, right)?;
    Ok(r)
}

//            G |- (= x y)
//  ------------------------------------- abstracted      v is a free variable, not free in G
//   G |- (= (lambda v. x) (lambda v. y))
/// Equal lambdas, of a variable of which no hypothesis speaks. Shape exactly where a hypothesis, of the record or in the
/// context, speaks of it.
#[tactic(auto, using(lcf_kernel::proofs::KeepLemmas::keeps_all_same, lcf_kernel::proofs::KeepLemmas::keeps_all_trans))]
fn abstracted(k: &mut Kernel<'_>, a: ThmId, sides: Sides, v: TermId) -> Result<ThmId, RuleFault>
    requires equates { Equates k.old a sides }
    requires variable { HasTerm k.old.store v }
    requires free { IsFreeVariable (term_tree k.old.store v) }
    ensures states { IfOk result (λ r. States k.new r (equation (FunTy (ty_of (term_tree k.old.store v)) (ty_of (term_tree k.old.store sides.left))) (abstraction (term_tree k.old.store v) (term_tree k.old.store sides.left)) (abstraction (term_tree k.old.store v) (term_tree k.old.store sides.right))) (hyps_of k.old a) (bare_of k.old a)) }
    ensures ok { OnOk result (IsGeneral (all_hyps_of k.old a) (term_tree k.old.store v)) }
    ensures shape { IfErr result (λ e. e ≡ RuleFault.Shape → IsGeneral (all_hyps_of k.old a) (term_tree k.old.store v) → ⊥) }
    ensures keeps { KeepsAll k.old k.new }
{
    let both = agreeing(k, a, sides, v)?;
    let r = k.ext(both, v)?;
    Ok(r)
}

//             G |- (= p q)
//  ---------------------------------- under_all      v is a free variable, not free in G
//   G |- (= (all v. p) (all v. q))
/// Equal formulas hold of each value of a variable in the same way. Shape exactly where the conclusion isn't an equation of
/// formulas, the term isn't a free variable, or a hypothesis, of the record or in the context, speaks of it.
#[tactic(auto, using(lcf_kernel::proofs::KeepLemmas::keeps_all_same, lcf_kernel::proofs::KeepLemmas::keeps_all_trans))]
pub fn under_all(k: &mut Kernel<'_>, a: ThmId, v: TermId) -> Result<ThmId, RuleFault>
    requires thm { HasThm k.old a }
    requires there { HasTerm k.old.store v }
    ensures states { IfOk result (λ r. (e : IsEquivalence (all_hyps_of k.old a) (concl_of k.old a) (term_tree k.old.store v)) × States k.new r (equation BoolTy (all_of (term_tree k.old.store v) e.left) (all_of (term_tree k.old.store v) e.right)) (hyps_of k.old a) (bare_of k.old a)) }
    ensures shape { IfErr result (λ e. e ≡ RuleFault.Shape → IsEquivalence (all_hyps_of k.old a) (concl_of k.old a) (term_tree k.old.store v) → ⊥) }
    ensures keeps { KeepsAll k.old k.new }
{
    let Some(sides) = formulas_of(k, a, v) else {
        return Err(RuleFault::Shape);
    };
    let lambdas = abstracted(k, a, sides, v)?;
    let body = place_all(k, v)?;
    let r = carry(k, lambdas, body)?;
    Ok(r)
}

//             G |- (= p q)
//  -------------------------------- under_ex      v is a free variable, not free in G
//   G |- (= (ex v. p) (ex v. q))
/// Equal formulas hold of some value of a variable in the same way. Shape exactly where the conclusion isn't an equation of
/// formulas, the term isn't a free variable, or a hypothesis, of the record or in the context, speaks of it.
#[tactic(auto, using(lcf_kernel::proofs::KeepLemmas::keeps_all_same, lcf_kernel::proofs::KeepLemmas::keeps_all_trans))]
pub fn under_ex(k: &mut Kernel<'_>, a: ThmId, v: TermId) -> Result<ThmId, RuleFault>
    requires thm { HasThm k.old a }
    requires there { HasTerm k.old.store v }
    ensures states { IfOk result (λ r. (e : IsEquivalence (all_hyps_of k.old a) (concl_of k.old a) (term_tree k.old.store v)) × States k.new r (equation BoolTy (some_of (term_tree k.old.store v) e.left) (some_of (term_tree k.old.store v) e.right)) (hyps_of k.old a) (bare_of k.old a)) }
    ensures shape { IfErr result (λ e. e ≡ RuleFault.Shape → IsEquivalence (all_hyps_of k.old a) (concl_of k.old a) (term_tree k.old.store v) → ⊥) }
    ensures keeps { KeepsAll k.old k.new }
{
    let Some(sides) = formulas_of(k, a, v) else {
        return Err(RuleFault::Shape);
    };
    let lambdas = abstracted(k, a, sides, v)?;
    let body = place_some(k, v)?;
    let r = carry(k, lambdas, body)?;
    Ok(r)
}

/// The sides of a conclusion that is an equation of formulas, where a term is a free variable.
fn formulas_of(k: &Kernel<'_>, a: ThmId, v: TermId) -> Option<Sides>
    requires thm { HasThm k.now a }
    requires there { HasTerm k.now.store v }
    ensures none { IfNone result ((l r : Term) → concl_of k.now a ≡ equation BoolTy l r → IsFreeVariable (term_tree k.now.store v) → ⊥) }
    ensures some { IfSome result (λ p. Equates k.now a p) }
    ensures bool { IfSome result (λ p. ty_of (term_tree k.now.store p.left) ≡ BoolTy) }
    ensures variable { IfSome result (λ p. IsFreeVariable (term_tree k.now.store v)) }
{
    if !is_variable(k, v) {
        return None;
    }
    let Some(sides) = sides_of(k, a) else {
        return None;
    };
    if is_bool(k, sides.left) {
        Some(sides)
    } else {
        None
    }
}
