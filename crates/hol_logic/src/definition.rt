//! The definition of a variable dropped from the hypotheses.
ghost use Rattle.std.specs.Prelude.{◌≡◌, ◌++◌, true, false, IfOk, OnOk, IfErr, IfSome, IfNone};
ghost use Rattle.hol_types.specs.Ty.{Ty};
ghost use Rattle.hol_terms.specs.Term.{Term, ty_of};
ghost use Rattle.hol_terms.specs.Substitution.{IsClosed, IsFreeVariable};
ghost use Rattle.hol_terms.specs.TermStore.{HasTerm, term_tree};
ghost use Rattle.hol_terms.specs.Formula.{IsFormula, NotFreeIn, without};
ghost use Rattle.hol_terms.specs.Constants.{equation, implication};
ghost use Rattle.lcf_kernel.specs.RuleForms.{IsGeneral};
ghost use Rattle.lcf_kernel.specs.KernelState.{HasThm, concl_of, hyps_of, context_of, bare_of, KeepsAll};
ghost use Rattle.hol_logic.specs.States.{States};
ghost use Rattle.hol_logic.specs.DerivedForms.{IsDefinition};

use hol_formulas::binder::is_variable;
use hol_formulas::equation::eq_parts;
use hol_formulas::formula::Sides;
use hol_terms::{TermId, Terms};
use lcf_kernel::{Kernel, RuleFault, ThmId};
use std::alloc::AllocError;

/// A free variable and the term that an equation says it to be. None exactly where the term isn't such an equation.
fn definition_of(k: &Kernel<'_>, d: TermId) -> Option<Sides>
    requires there { HasTerm k.now.store d }
    requires closed { IsClosed (term_tree k.now.store d) }
    ensures none { IfNone result ((ty : Ty) (v e : Term) → term_tree k.now.store d ≡ equation ty v e → IsFreeVariable v → ⊥) }
    ensures left { IfSome result (λ p. HasTerm k.now.store p.left) }
    ensures right { IfSome result (λ p. HasTerm k.now.store p.right) }
    ensures some { IfSome result (λ p. term_tree k.now.store d ≡ equation (ty_of (term_tree k.now.store p.left)) (term_tree k.now.store p.left) (term_tree k.now.store p.right)) }
    ensures variable { IfSome result (λ p. IsFreeVariable (term_tree k.now.store p.left)) }
    ensures formula { IfSome result (λ p. IsFormula (term_tree k.now.store d)) }
{
    let _ty = k.ty(d);
    let Some(sides) = eq_parts(k, k.constants(), d) else {
        return None;
    };
    if is_variable(k, sides.left) {
        Some(sides)
    } else {
        None
    }
}

/// Whether a variable occurs in neither of two terms.
fn is_in_neither(k: &Kernel<'_>, v: TermId, x: TermId, y: TermId) -> Result<bool, AllocError>
    requires variable { HasTerm k.now.store v }
    requires left { HasTerm k.now.store x }
    requires right { HasTerm k.now.store y }
    ensures left { IfOk result (λ r. r ≡ true → NotFreeIn (term_tree k.now.store v) (term_tree k.now.store x)) }
    ensures right { IfOk result (λ r. r ≡ true → NotFreeIn (term_tree k.now.store v) (term_tree k.now.store y)) }
    ensures isnt { IfOk result (λ r. r ≡ false → NotFreeIn (term_tree k.now.store v) (term_tree k.now.store x) → NotFreeIn (term_tree k.now.store v) (term_tree k.now.store y) → ⊥) }
{
    let in_left = k.free_in(v, x)?;
    if in_left {
        return Ok(false);
    }
    let in_right = k.free_in(v, y)?;
    if in_right {
        return Ok(false);
    }
    Ok(true)
}

//          G |- C
//  ------------------------- defined      d is (= v e); v is free neither in e, in C nor in G - d
//   G - d |- (=> (= e e) C)
/// The implication from a definition, with the term for its variable. Shape exactly where another hypothesis, of the
/// record or in the context, speaks of the variable.
#[tactic(auto, using(lcf_kernel::proofs::KeepLemmas::keeps_all_same, lcf_kernel::proofs::KeepLemmas::keeps_all_trans))]
fn defined(k: &mut Kernel<'_>, a: ThmId, d: TermId, sides: Sides) -> Result<ThmId, RuleFault>
    requires thm { HasThm k.old a }
    requires there { HasTerm k.old.store d }
    requires formula { IsFormula (term_tree k.old.store d) }
    requires claim { IsFormula (concl_of k.old a) }
    requires left { HasTerm k.old.store sides.left }
    requires right { HasTerm k.old.store sides.right }
    requires is { term_tree k.old.store d ≡ equation (ty_of (term_tree k.old.store sides.left)) (term_tree k.old.store sides.left) (term_tree k.old.store sides.right) }
    requires variable { IsFreeVariable (term_tree k.old.store sides.left) }
    requires not_in_value { NotFreeIn (term_tree k.old.store sides.left) (term_tree k.old.store sides.right) }
    requires not_in_claim { NotFreeIn (term_tree k.old.store sides.left) (concl_of k.old a) }
    ensures states { IfOk result (λ r. States k.new r (implication (equation (ty_of (term_tree k.old.store sides.left)) (term_tree k.old.store sides.right) (term_tree k.old.store sides.right)) (concl_of k.old a)) (without (term_tree k.old.store d) (hyps_of k.old a)) (bare_of k.old a)) }
    ensures ok { OnOk result (IsGeneral (context_of k.old ++ without (term_tree k.old.store d) (hyps_of k.old a)) (term_tree k.old.store sides.left)) }
    ensures shape { IfErr result (λ e. e ≡ RuleFault.Shape → IsGeneral (context_of k.old ++ without (term_tree k.old.store d) (hyps_of k.old a)) (term_tree k.old.store sides.left) → ⊥) }
    ensures keeps { KeepsAll k.old k.new }
{
    let step = k.imp_i(a, d)?;
    let general = k.all_i(step, sides.left)?;
    let r = k.all_e(general, sides.right)?;
    Ok(r)
}

//    G |- C
//  ----------- drop_definition      d is (= v e); v is a free variable, free neither in e, in C nor in G - d
//   G - d |- C
/// The conclusion without the definition of a variable among its hypotheses. Shape exactly where the term isn't the
/// equation of a free variable with a term, or this term speaks of the variable, or the conclusion, or another
/// hypothesis, of the record or in the context.
#[tactic(auto, using(lcf_kernel::proofs::KeepLemmas::keeps_all_same, lcf_kernel::proofs::KeepLemmas::keeps_all_trans))]
pub fn drop_definition(k: &mut Kernel<'_>, a: ThmId, d: TermId) -> Result<ThmId, RuleFault>
    requires thm { HasThm k.old a }
    requires there { HasTerm k.old.store d }
    requires closed { IsClosed (term_tree k.old.store d) }
    ensures states { IfOk result (λ r. States k.new r (concl_of k.old a) (without (term_tree k.old.store d) (hyps_of k.old a)) (bare_of k.old a)) }
    ensures ok { OnOk result (IsDefinition (context_of k.old ++ without (term_tree k.old.store d) (hyps_of k.old a)) (concl_of k.old a) (term_tree k.old.store d)) }
    ensures shape { IfErr result (λ e. e ≡ RuleFault.Shape → IsDefinition (context_of k.old ++ without (term_tree k.old.store d) (hyps_of k.old a)) (concl_of k.old a) (term_tree k.old.store d) → ⊥) }
    ensures keeps { KeepsAll k.old k.new }
{
    let Some(sides) = definition_of(k, d) else {
        return Err(RuleFault::Shape);
    };
    let value = sides.right;
    let claim = k.concl(a);
    let absent = is_in_neither(k, sides.left, value, claim)?;
    if !absent {
        return Err(RuleFault::Shape);
    }
    let step = defined(k, a, d, sides)?;
    let same = k.refl(value)?;
    let r = k.imp_e(step, same)?;
    Ok(r)
}
