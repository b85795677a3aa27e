//! What a denied implication says.
ghost use Rattle.std.specs.Prelude.{◌≡◌, ◌∷◌, [], List, IfOk, IfErr};
ghost use Rattle.hol_terms.specs.Term.{Term};
ghost use Rattle.hol_terms.specs.TermStore.{term_tree};
ghost use Rattle.hol_terms.specs.Constants.{negation, conjunction, implication};
ghost use Rattle.hol_formulas.specs.Constants.{IsAt};
ghost use Rattle.hol_formulas.specs.Formulas.{HasFormula};
ghost use Rattle.lcf_kernel.specs.KernelState.{HasThm, concl_of, KeepsAll};
ghost use Rattle.hol_logic.specs.Under.{IsUnder, AreFormulas};

use crate::contradiction::{affirmed, assumed, denied};
use crate::makers::negated;
use hol_terms::TermId;
use lcf_kernel::{Kernel, RuleFault, ThmId};

//
//  ------------------------ led_anywhere
//   (not a) |- (=> a b)
/// What is denied leads to any formula. There is no Shape.
#[tactic(auto, using(lcf_kernel::proofs::KeepLemmas::keeps_all_trans))]
fn led_anywhere(
    k: &mut Kernel<'_>,
    denial: TermId,
    a: TermId,
    b: TermId,
) -> Result<ThmId, RuleFault>
    requires denial { IsAt k.old.store denial (negation (term_tree k.old.store a)) }
    requires formulas { AreFormulas k.old.store a b }
    ensures there { IfOk result (λ r. HasThm k.new r) }
    ensures concl { IfOk result (λ r. concl_of k.new r ≡ implication (term_tree k.old.store a) (term_tree k.old.store b)) }
    ensures under { IfOk result (λ r. IsUnder k.new r (negation (term_tree k.old.store a) ∷ [])) }
    ensures shape { IfErr result (λ e. e ≡ RuleFault.Shape → ⊥) }
    ensures keeps { KeepsAll k.old k.new }
{
    let no = assumed(k, denial)?;
    let case = assumed(k, a)?;
    let falsity = k.not_e(no, case)?;
    let any = k.false_e(falsity, b)?;
    let r = k.imp_i(any, a)?;
    Ok(r)
}

//   G |- (not (=> a b))
//  --------------------- start_affirmed
//         G |- a
/// The left side of a denied implication holds. There is no Shape.
#[tactic(auto, using(lcf_kernel::proofs::KeepLemmas::keeps_all_trans))]
fn start_affirmed(k: &mut Kernel<'_>, no: ThmId, a: TermId, b: TermId) -> Result<ThmId, RuleFault>
    requires no { HasThm k.old no }
    requires denies { concl_of k.old no ≡ negation (implication (term_tree k.old.store a) (term_tree k.old.store b)) }
    requires formulas { AreFormulas k.old.store a b }
    ensures there { IfOk result (λ r. HasThm k.new r) }
    ensures concl { IfOk result (λ r. concl_of k.new r ≡ term_tree k.old.store a) }
    ensures under { IfOk result (λ r. (hyps : List Term) → IsUnder k.old no hyps → IsUnder k.new r hyps) }
    ensures shape { IfErr result (λ e. e ≡ RuleFault.Shape → ⊥) }
    ensures keeps { KeepsAll k.old k.new }
{
    let denial = negated(k, a)?;
    let step = led_anywhere(k, denial, a, b)?;
    let r = affirmed(k, no, step, a)?;
    Ok(r)
}

//   G |- (not (=> a b))
//  --------------------- end_denied
//       G |- (not b)
/// The right side of a denied implication is denied. There is no Shape.
#[tactic(auto, using(lcf_kernel::proofs::KeepLemmas::keeps_all_trans))]
fn end_denied(k: &mut Kernel<'_>, no: ThmId, a: TermId, b: TermId) -> Result<ThmId, RuleFault>
    requires no { HasThm k.old no }
    requires denies { concl_of k.old no ≡ negation (implication (term_tree k.old.store a) (term_tree k.old.store b)) }
    requires formulas { AreFormulas k.old.store a b }
    ensures there { IfOk result (λ r. HasThm k.new r) }
    ensures concl { IfOk result (λ r. concl_of k.new r ≡ negation (term_tree k.old.store b)) }
    ensures under { IfOk result (λ r. (hyps : List Term) → IsUnder k.old no hyps → IsUnder k.new r hyps) }
    ensures shape { IfErr result (λ e. e ≡ RuleFault.Shape → ⊥) }
    ensures keeps { KeepsAll k.old k.new }
{
    let case = assumed(k, b)?;
    let step = k.imp_i(case, a)?;
    let r = denied(k, no, step, b)?;
    Ok(r)
}

//
//  -------------------------------------- not_led
//   (not (=> a b)) |- (and a (not b))
/// The left side of a denied implication, which is given as a term, holds without the right one. There is no Shape.
#[tactic(auto, using(lcf_kernel::proofs::KeepLemmas::keeps_all_trans, lcf_kernel::proofs::KeptLemmas::has_kept))]
pub(crate) fn not_led(
    k: &mut Kernel<'_>,
    t: TermId,
    a: TermId,
    b: TermId,
) -> Result<ThmId, RuleFault>
    requires formula { HasFormula k.old.store t }
    requires denies { term_tree k.old.store t ≡ negation (implication (term_tree k.old.store a) (term_tree k.old.store b)) }
    requires formulas { AreFormulas k.old.store a b }
    ensures there { IfOk result (λ r. HasThm k.new r) }
    ensures concl { IfOk result (λ r. concl_of k.new r ≡ conjunction (term_tree k.old.store a) (negation (term_tree k.old.store b))) }
    ensures under { IfOk result (λ r. IsUnder k.new r (term_tree k.old.store t ∷ [])) }
    ensures shape { IfErr result (λ e. e ≡ RuleFault.Shape → ⊥) }
    ensures keeps { KeepsAll k.old k.new }
{
    let no = assumed(k, t)?;
    let first = start_affirmed(k, no, a, b)?;
    let second = end_denied(k, no, a, b)?;
    let r = k.and_i(first, second)?;
    Ok(r)
}

//
//  -------------------------------------- not_led_denies
//   (and a (not b)) |- (not (=> a b))
/// Where the left side holds without the right one, the implication is denied; these are given as terms. There is no Shape.
#[tactic(auto, using(lcf_kernel::proofs::KeepLemmas::keeps_all_trans))]
pub(crate) fn not_led_denies(
    k: &mut Kernel<'_>,
    dual: TermId,
    whole: TermId,
    a: TermId,
    b: TermId,
) -> Result<ThmId, RuleFault>
    requires formula { HasFormula k.old.store dual }
    requires denies { term_tree k.old.store dual ≡ conjunction (term_tree k.old.store a) (negation (term_tree k.old.store b)) }
    requires whole { IsAt k.old.store whole (implication (term_tree k.old.store a) (term_tree k.old.store b)) }
    requires formulas { AreFormulas k.old.store a b }
    ensures there { IfOk result (λ r. HasThm k.new r) }
    ensures concl { IfOk result (λ r. concl_of k.new r ≡ negation (implication (term_tree k.old.store a) (term_tree k.old.store b))) }
    ensures under { IfOk result (λ r. IsUnder k.new r (term_tree k.old.store dual ∷ [])) }
    ensures shape { IfErr result (λ e. e ≡ RuleFault.Shape → ⊥) }
    ensures keeps { KeepsAll k.old k.new }
{
    let both = assumed(k, dual)?;
    let step = assumed(k, whole)?;
    let start = k.and_e1(both)?;
    let end = k.imp_e(step, start)?;
    let no = k.and_e2(both)?;
    let r = denied(k, no, end, whole)?;
    Ok(r)
}
