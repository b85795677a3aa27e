//! De Morgan's laws.
ghost use Rattle.std.specs.Prelude.{◌≡◌, [], true, IfOk, IfErr, IfSome, IfNone};
ghost use Rattle.hol_types.specs.Ty.{BoolTy};
ghost use Rattle.hol_terms.specs.Term.{Term};
ghost use Rattle.hol_terms.specs.Substitution.{IsClosed};
ghost use Rattle.hol_terms.specs.TermStore.{HasTerm, term_tree};
ghost use Rattle.hol_terms.specs.Constants.{negation, conjunction, disjunction, implication, equation};
ghost use Rattle.hol_formulas.specs.Constants.{IsAt};
ghost use Rattle.hol_formulas.specs.Formulas.{HasFormula};
ghost use Rattle.lcf_kernel.specs.KernelState.{KeepsAll};
ghost use Rattle.hol_logic.specs.States.{States};
ghost use Rattle.hol_logic.specs.Under.{AreFormulas};
ghost use Rattle.hol_logic.specs.Duals.{IsDual};

use crate::conjunction::{one_denied, one_denies};
use crate::disjunction::{neither, neither_denies};
use crate::implication::{not_led, not_led_denies};
use crate::makers::negated;
use crate::quantified::{of_all, of_some, quantified_by};
use hol_formulas::formula::{and_parts, imp_parts, not_part, or_parts};
use hol_terms::{TermId, Terms};
use lcf_kernel::{Kernel, RuleFault, ThmId};

//
//  ------------------------------------------------- of_conjunction
//   |- (= (not (and a b)) (or (not a) (not b)))
/// A denied conjunction, which is given with its parts, equals its dual. There is no Shape.
#[tactic(auto, using(lcf_kernel::proofs::KeepLemmas::keeps_all_trans))]
fn of_conjunction(
    k: &mut Kernel<'_>,
    t: TermId,
    whole: TermId,
    a: TermId,
    b: TermId,
) -> Result<ThmId, RuleFault>
    requires formula { HasFormula k.old.store t }
    requires is { term_tree k.old.store t ≡ negation (conjunction (term_tree k.old.store a) (term_tree k.old.store b)) }
    requires whole { IsAt k.old.store whole (conjunction (term_tree k.old.store a) (term_tree k.old.store b)) }
    requires formulas { AreFormulas k.old.store a b }
    ensures states { IfOk result (λ r. States k.new r (equation BoolTy (term_tree k.old.store t) (disjunction (negation (term_tree k.old.store a)) (negation (term_tree k.old.store b)))) [] true) }
    ensures shape { IfErr result (λ e. e ≡ RuleFault.Shape → ⊥) }
    ensures keeps { KeepsAll k.old k.new }
{
    let not_a = negated(k, a)?;
    let not_b = negated(k, b)?;
    let forth = one_denied(k, t, a, b, not_a, not_b)?;
    let dual = k.concl(forth);
    let back = one_denies(k, dual, whole, a, b, not_a, not_b)?;
    let r = k.iff_i(forth, back)?;
    Ok(r)
}

//
//  ------------------------------------------------- of_disjunction
//   |- (= (not (or a b)) (and (not a) (not b)))
/// A denied disjunction, which is given with its parts, equals its dual. There is no Shape.
#[tactic(auto, using(lcf_kernel::proofs::KeepLemmas::keeps_all_trans))]
fn of_disjunction(
    k: &mut Kernel<'_>,
    t: TermId,
    whole: TermId,
    a: TermId,
    b: TermId,
) -> Result<ThmId, RuleFault>
    requires formula { HasFormula k.old.store t }
    requires is { term_tree k.old.store t ≡ negation (disjunction (term_tree k.old.store a) (term_tree k.old.store b)) }
    requires whole { IsAt k.old.store whole (disjunction (term_tree k.old.store a) (term_tree k.old.store b)) }
    requires formulas { AreFormulas k.old.store a b }
    ensures states { IfOk result (λ r. States k.new r (equation BoolTy (term_tree k.old.store t) (conjunction (negation (term_tree k.old.store a)) (negation (term_tree k.old.store b)))) [] true) }
    ensures shape { IfErr result (λ e. e ≡ RuleFault.Shape → ⊥) }
    ensures keeps { KeepsAll k.old k.new }
{
    let forth = neither(k, t, a, b)?;
    let dual = k.concl(forth);
    let back = neither_denies(k, dual, whole, a, b)?;
    let r = k.iff_i(forth, back)?;
    Ok(r)
}

//
//  ------------------------------------------- of_implication
//   |- (= (not (=> a b)) (and a (not b)))
/// A denied implication, which is given with its parts, equals its dual. There is no Shape.
#[tactic(auto, using(lcf_kernel::proofs::KeepLemmas::keeps_all_trans))]
fn of_implication(
    k: &mut Kernel<'_>,
    t: TermId,
    whole: TermId,
    a: TermId,
    b: TermId,
) -> Result<ThmId, RuleFault>
    requires formula { HasFormula k.old.store t }
    requires is { term_tree k.old.store t ≡ negation (implication (term_tree k.old.store a) (term_tree k.old.store b)) }
    requires whole { IsAt k.old.store whole (implication (term_tree k.old.store a) (term_tree k.old.store b)) }
    requires formulas { AreFormulas k.old.store a b }
    ensures states { IfOk result (λ r. States k.new r (equation BoolTy (term_tree k.old.store t) (conjunction (term_tree k.old.store a) (negation (term_tree k.old.store b)))) [] true) }
    ensures shape { IfErr result (λ e. e ≡ RuleFault.Shape → ⊥) }
    ensures keeps { KeepsAll k.old k.new }
{
    let forth = not_led(k, t, a, b)?;
    let dual = k.concl(forth);
    let back = not_led_denies(k, dual, whole, a, b)?;
    let r = k.iff_i(forth, back)?;
    Ok(r)
}

/// What a formula denies. None exactly where it isn't a negation.
fn denied_by(k: &Kernel<'_>, t: TermId) -> Option<TermId>
    requires there { HasTerm k.now.store t }
    requires closed { IsClosed (term_tree k.now.store t) }
    ensures none { IfNone result ((a : Term) → term_tree k.now.store t ≡ negation a → ⊥) }
    ensures some { IfSome result (λ a. term_tree k.now.store t ≡ negation (term_tree k.now.store a)) }
    ensures part { IfSome result (λ a. HasFormula k.now.store a) }
    ensures whole { IfSome result (λ a. HasFormula k.now.store t) }
{
    let _ty = k.ty(t);
    not_part(k, k.constants(), t)
}

/// The equation of a negated conjunction, disjunction, implication or quantifier, which is given as a closed term, with its
/// dual, under no hypotheses. The dual of a quantifier over a predicate that isn't a lambda speaks of the predicate applied to
/// the bound variable. Shape exactly where the term is none of these.
#[tactic(auto, using(lcf_kernel::proofs::KeepLemmas::keeps_all_trans))]
pub fn de_morgan(k: &mut Kernel<'_>, t: TermId) -> Result<ThmId, RuleFault>
    requires there { HasTerm k.old.store t }
    requires closed { IsClosed (term_tree k.old.store t) }
    ensures states { IfOk result (λ r. (d : Term) × (x : IsDual (term_tree k.old.store t) d) × States k.new r (equation BoolTy (term_tree k.old.store t) d) [] true) }
    ensures shape { IfErr result (λ e. e ≡ RuleFault.Shape → (d : Term) → IsDual (term_tree k.old.store t) d → ⊥) }
    ensures keeps { KeepsAll k.old k.new }
{
    let Some(whole) = denied_by(k, t) else {
        return Err(RuleFault::Shape);
    };
    if let Some(sides) = and_parts(k, k.constants(), whole) {
        let r = of_conjunction(k, t, whole, sides.left, sides.right)?;
        return Ok(r);
    }
    if let Some(sides) = or_parts(k, k.constants(), whole) {
        let r = of_disjunction(k, t, whole, sides.left, sides.right)?;
        return Ok(r);
    }
    if let Some(sides) = imp_parts(k, k.constants(), whole) {
        let r = of_implication(k, t, whole, sides.left, sides.right)?;
        return Ok(r);
    }
    let name = k.constants().names.all;
    if let Some(all) = quantified_by(k, name, whole) {
        let r = of_all(k, all.predicate, all.ty)?;
        return Ok(r);
    }
    let name = k.constants().names.ex;
    if let Some(some) = quantified_by(k, name, whole) {
        let r = of_some(k, some.predicate, some.ty)?;
        return Ok(r);
    }
    Err(RuleFault::Shape)
}
