//! What a denied conjunction says. The negations of its sides are given as terms.
ghost use Rattle.std.specs.Prelude.{◌≡◌, ◌∷◌, [], List, IfOk, IfErr};
ghost use Rattle.hol_terms.specs.Term.{Term};
ghost use Rattle.hol_terms.specs.TermStore.{term_tree};
ghost use Rattle.hol_terms.specs.Constants.{negation, conjunction, disjunction, false_tm};
ghost use Rattle.hol_formulas.specs.Constants.{IsAt};
ghost use Rattle.hol_formulas.specs.Formulas.{HasFormula};
ghost use Rattle.lcf_kernel.specs.KernelState.{HasThm, concl_of, KeepsAll};
ghost use Rattle.hol_logic.specs.Under.{IsUnder, AreDenials};

use crate::contradiction::{affirmed, assumed};
use crate::makers::{either, negated};
use hol_terms::TermId;
use lcf_kernel::{Kernel, RuleFault, ThmId};

//   G |- (not (or (not a) (not b)))
//  --------------------------------- left_affirmed
//              G |- a
/// The left one of two formulas of which not one is denied holds. There is no Shape.
#[tactic(auto, using(lcf_kernel::proofs::KeepLemmas::keeps_all_trans))]
fn left_affirmed(
    k: &mut Kernel<'_>,
    no: ThmId,
    a: TermId,
    b: TermId,
    not_a: TermId,
    not_b: TermId,
) -> Result<ThmId, RuleFault>
    requires no { HasThm k.old no }
    requires denies { concl_of k.old no ≡ negation (disjunction (negation (term_tree k.old.store a)) (negation (term_tree k.old.store b))) }
    requires denials { AreDenials k.old.store a b not_a not_b }
    ensures there { IfOk result (λ r. HasThm k.new r) }
    ensures concl { IfOk result (λ r. concl_of k.new r ≡ term_tree k.old.store a) }
    ensures under { IfOk result (λ r. (hyps : List Term) → IsUnder k.old no hyps → IsUnder k.new r hyps) }
    ensures shape { IfErr result (λ e. e ≡ RuleFault.Shape → ⊥) }
    ensures keeps { KeepsAll k.old k.new }
{
    let case = assumed(k, not_a)?;
    let either = k.or_i1(case, not_b)?;
    let r = affirmed(k, no, either, a)?;
    Ok(r)
}

//   G |- (not (or (not a) (not b)))
//  --------------------------------- right_affirmed
//              G |- b
/// The right one of two formulas of which not one is denied holds. There is no Shape.
#[tactic(auto, using(lcf_kernel::proofs::KeepLemmas::keeps_all_trans))]
fn right_affirmed(
    k: &mut Kernel<'_>,
    no: ThmId,
    a: TermId,
    b: TermId,
    not_a: TermId,
    not_b: TermId,
) -> Result<ThmId, RuleFault>
    requires no { HasThm k.old no }
    requires denies { concl_of k.old no ≡ negation (disjunction (negation (term_tree k.old.store a)) (negation (term_tree k.old.store b))) }
    requires denials { AreDenials k.old.store a b not_a not_b }
    ensures there { IfOk result (λ r. HasThm k.new r) }
    ensures concl { IfOk result (λ r. concl_of k.new r ≡ term_tree k.old.store b) }
    ensures under { IfOk result (λ r. (hyps : List Term) → IsUnder k.old no hyps → IsUnder k.new r hyps) }
    ensures shape { IfErr result (λ e. e ≡ RuleFault.Shape → ⊥) }
    ensures keeps { KeepsAll k.old k.new }
{
    let case = assumed(k, not_b)?;
    let either = k.or_i2(not_a, case)?;
    let r = affirmed(k, no, either, b)?;
    Ok(r)
}

//
//  --------------------------------------------- both_affirmed
//   (not (or (not a) (not b))) |- (and a b)
/// Where not one of two formulas is denied, which is given as a term, both hold. There is no Shape.
#[tactic(auto, using(lcf_kernel::proofs::KeepLemmas::keeps_all_trans))]
fn both_affirmed(
    k: &mut Kernel<'_>,
    opposite: TermId,
    a: TermId,
    b: TermId,
    not_a: TermId,
    not_b: TermId,
) -> Result<ThmId, RuleFault>
    requires formula { HasFormula k.old.store opposite }
    requires denies { term_tree k.old.store opposite ≡ negation (disjunction (negation (term_tree k.old.store a)) (negation (term_tree k.old.store b))) }
    requires denials { AreDenials k.old.store a b not_a not_b }
    ensures there { IfOk result (λ r. HasThm k.new r) }
    ensures concl { IfOk result (λ r. concl_of k.new r ≡ conjunction (term_tree k.old.store a) (term_tree k.old.store b)) }
    ensures under { IfOk result (λ r. IsUnder k.new r (term_tree k.old.store opposite ∷ [])) }
    ensures shape { IfErr result (λ e. e ≡ RuleFault.Shape → ⊥) }
    ensures keeps { KeepsAll k.old k.new }
{
    let no = assumed(k, opposite)?;
    let first = left_affirmed(k, no, a, b, not_a, not_b)?;
    let second = right_affirmed(k, no, a, b, not_a, not_b)?;
    let r = k.and_i(first, second)?;
    Ok(r)
}

//
//  --------------------------------------------- one_denied
//   (not (and a b)) |- (or (not a) (not b))
/// One side of a denied conjunction, which is given as a term, is denied. There is no Shape.
#[tactic(auto, using(lcf_kernel::proofs::KeepLemmas::keeps_all_trans))]
pub(crate) fn one_denied(
    k: &mut Kernel<'_>,
    t: TermId,
    a: TermId,
    b: TermId,
    not_a: TermId,
    not_b: TermId,
) -> Result<ThmId, RuleFault>
    requires formula { HasFormula k.old.store t }
    requires denies { term_tree k.old.store t ≡ negation (conjunction (term_tree k.old.store a) (term_tree k.old.store b)) }
    requires denials { AreDenials k.old.store a b not_a not_b }
    ensures there { IfOk result (λ r. HasThm k.new r) }
    ensures concl { IfOk result (λ r. concl_of k.new r ≡ disjunction (negation (term_tree k.old.store a)) (negation (term_tree k.old.store b))) }
    ensures under { IfOk result (λ r. IsUnder k.new r (term_tree k.old.store t ∷ [])) }
    ensures shape { IfErr result (λ e. e ≡ RuleFault.Shape → ⊥) }
    ensures keeps { KeepsAll k.old k.new }
{
    let dual = either(k, not_a, not_b)?;
    let opposite = negated(k, dual)?;
    let whole = both_affirmed(k, opposite, a, b, not_a, not_b)?;
    let no = assumed(k, t)?;
    let r = affirmed(k, no, whole, dual)?;
    Ok(r)
}

//      G |- (and a b)
//  ---------------------- left_refuted
//   G, (not a) |- false
/// Where both sides hold, the negation of the left one leads to `false`. There is no Shape.
#[tactic(auto, using(lcf_kernel::proofs::KeepLemmas::keeps_all_trans))]
fn left_refuted(
    k: &mut Kernel<'_>,
    both: ThmId,
    a: TermId,
    b: TermId,
    not_a: TermId,
    not_b: TermId,
) -> Result<ThmId, RuleFault>
    requires both { HasThm k.old both }
    requires says { concl_of k.old both ≡ conjunction (term_tree k.old.store a) (term_tree k.old.store b) }
    requires denials { AreDenials k.old.store a b not_a not_b }
    ensures there { IfOk result (λ r. HasThm k.new r) }
    ensures concl { IfOk result (λ r. concl_of k.new r ≡ false_tm) }
    ensures under { IfOk result (λ r. (hyps : List Term) → IsUnder k.old both hyps → IsUnder k.new r (negation (term_tree k.old.store a) ∷ hyps)) }
    ensures shape { IfErr result (λ e. e ≡ RuleFault.Shape → ⊥) }
    ensures keeps { KeepsAll k.old k.new }
{
    let part = k.and_e1(both)?;
    let denial = assumed(k, not_a)?;
    let r = k.not_e(denial, part)?;
    Ok(r)
}

//      G |- (and a b)
//  ---------------------- right_refuted
//   G, (not b) |- false
/// Where both sides hold, the negation of the right one leads to `false`. There is no Shape.
#[tactic(auto, using(lcf_kernel::proofs::KeepLemmas::keeps_all_trans))]
fn right_refuted(
    k: &mut Kernel<'_>,
    both: ThmId,
    a: TermId,
    b: TermId,
    not_a: TermId,
    not_b: TermId,
) -> Result<ThmId, RuleFault>
    requires both { HasThm k.old both }
    requires says { concl_of k.old both ≡ conjunction (term_tree k.old.store a) (term_tree k.old.store b) }
    requires denials { AreDenials k.old.store a b not_a not_b }
    ensures there { IfOk result (λ r. HasThm k.new r) }
    ensures concl { IfOk result (λ r. concl_of k.new r ≡ false_tm) }
    ensures under { IfOk result (λ r. (hyps : List Term) → IsUnder k.old both hyps → IsUnder k.new r (negation (term_tree k.old.store b) ∷ hyps)) }
    ensures shape { IfErr result (λ e. e ≡ RuleFault.Shape → ⊥) }
    ensures keeps { KeepsAll k.old k.new }
{
    let part = k.and_e2(both)?;
    let denial = assumed(k, not_b)?;
    let r = k.not_e(denial, part)?;
    Ok(r)
}

//   G |- (or (not a) (not b))    H |- (and a b)
//  --------------------------------------------- refuted
//                 G, H |- false
/// A conjunction of which one side is denied leads to `false`. There is no Shape.
#[tactic(auto, using(lcf_kernel::proofs::KeepLemmas::keeps_all_trans))]
fn refuted(
    k: &mut Kernel<'_>,
    either: ThmId,
    both: ThmId,
    a: TermId,
    b: TermId,
    not_a: TermId,
    not_b: TermId,
) -> Result<ThmId, RuleFault>
    requires either { HasThm k.old either }
    requires both { HasThm k.old both }
    requires denies { concl_of k.old either ≡ disjunction (negation (term_tree k.old.store a)) (negation (term_tree k.old.store b)) }
    requires says { concl_of k.old both ≡ conjunction (term_tree k.old.store a) (term_tree k.old.store b) }
    requires denials { AreDenials k.old.store a b not_a not_b }
    ensures there { IfOk result (λ r. HasThm k.new r) }
    ensures concl { IfOk result (λ r. concl_of k.new r ≡ false_tm) }
    ensures under { IfOk result (λ r. (hyps : List Term) → IsUnder k.old either hyps → IsUnder k.old both hyps → IsUnder k.new r hyps) }
    ensures shape { IfErr result (λ e. e ≡ RuleFault.Shape → ⊥) }
    ensures keeps { KeepsAll k.old k.new }
{
    let first = left_refuted(k, both, a, b, not_a, not_b)?;
    let second = right_refuted(k, both, a, b, not_a, not_b)?;
    let r = k.or_e(either, first, second)?;
    Ok(r)
}

//
//  --------------------------------------------- one_denies
//   (or (not a) (not b)) |- (not (and a b))
/// Where one side is denied, so is the conjunction; these are given as terms. There is no Shape.
#[tactic(auto, using(lcf_kernel::proofs::KeepLemmas::keeps_all_trans))]
pub(crate) fn one_denies(
    k: &mut Kernel<'_>,
    dual: TermId,
    whole: TermId,
    a: TermId,
    b: TermId,
    not_a: TermId,
    not_b: TermId,
) -> Result<ThmId, RuleFault>
    requires formula { HasFormula k.old.store dual }
    requires denies { term_tree k.old.store dual ≡ disjunction (negation (term_tree k.old.store a)) (negation (term_tree k.old.store b)) }
    requires whole { IsAt k.old.store whole (conjunction (term_tree k.old.store a) (term_tree k.old.store b)) }
    requires denials { AreDenials k.old.store a b not_a not_b }
    ensures there { IfOk result (λ r. HasThm k.new r) }
    ensures concl { IfOk result (λ r. concl_of k.new r ≡ negation (conjunction (term_tree k.old.store a) (term_tree k.old.store b))) }
    ensures under { IfOk result (λ r. IsUnder k.new r (term_tree k.old.store dual ∷ [])) }
    ensures shape { IfErr result (λ e. e ≡ RuleFault.Shape → ⊥) }
    ensures keeps { KeepsAll k.old k.new }
{
    let either = assumed(k, dual)?;
    let both = assumed(k, whole)?;
    let falsity = refuted(k, either, both, a, b, not_a, not_b)?;
    let r = k.not_i(falsity, whole)?;
    Ok(r)
}
