//! What a denied disjunction says.
ghost use Rattle.std.specs.Prelude.{◌≡◌, ◌∷◌, [], List, IfOk, IfErr};
ghost use Rattle.hol_terms.specs.Term.{Term};
ghost use Rattle.hol_terms.specs.TermStore.{term_tree};
ghost use Rattle.hol_terms.specs.Constants.{negation, conjunction, disjunction, false_tm};
ghost use Rattle.hol_formulas.specs.Constants.{IsAt};
ghost use Rattle.hol_formulas.specs.Formulas.{HasFormula};
ghost use Rattle.lcf_kernel.specs.KernelState.{HasThm, concl_of, KeepsAll};
ghost use Rattle.hol_logic.specs.Under.{IsUnder, AreFormulas};

use crate::contradiction::{assumed, denied};
use hol_terms::TermId;
use lcf_kernel::{Kernel, RuleFault, ThmId};

//   G |- (not (or a b))
//  --------------------- left_denied
//       G |- (not a)
/// The left side of a denied disjunction is denied. There is no Shape.
#[tactic(auto, using(lcf_kernel::proofs::KeepLemmas::keeps_all_trans))]
fn left_denied(k: &mut Kernel<'_>, no: ThmId, a: TermId, b: TermId) -> Result<ThmId, RuleFault>
    requires no { HasThm k.old no }
    requires denies { concl_of k.old no ≡ negation (disjunction (term_tree k.old.store a) (term_tree k.old.store b)) }
    requires formulas { AreFormulas k.old.store a b }
    ensures there { IfOk result (λ r. HasThm k.new r) }
    ensures concl { IfOk result (λ r. concl_of k.new r ≡ negation (term_tree k.old.store a)) }
    ensures under { IfOk result (λ r. (hyps : List Term) → IsUnder k.old no hyps → IsUnder k.new r hyps) }
    ensures shape { IfErr result (λ e. e ≡ RuleFault.Shape → ⊥) }
    ensures keeps { KeepsAll k.old k.new }
{
    let case = assumed(k, a)?;
    let either = k.or_i1(case, b)?;
    let r = denied(k, no, either, a)?;
    Ok(r)
}

//   G |- (not (or a b))
//  --------------------- right_denied
//       G |- (not b)
/// The right side of a denied disjunction is denied. There is no Shape.
#[tactic(auto, using(lcf_kernel::proofs::KeepLemmas::keeps_all_trans))]
fn right_denied(k: &mut Kernel<'_>, no: ThmId, a: TermId, b: TermId) -> Result<ThmId, RuleFault>
    requires no { HasThm k.old no }
    requires denies { concl_of k.old no ≡ negation (disjunction (term_tree k.old.store a) (term_tree k.old.store b)) }
    requires formulas { AreFormulas k.old.store a b }
    ensures there { IfOk result (λ r. HasThm k.new r) }
    ensures concl { IfOk result (λ r. concl_of k.new r ≡ negation (term_tree k.old.store b)) }
    ensures under { IfOk result (λ r. (hyps : List Term) → IsUnder k.old no hyps → IsUnder k.new r hyps) }
    ensures shape { IfErr result (λ e. e ≡ RuleFault.Shape → ⊥) }
    ensures keeps { KeepsAll k.old k.new }
{
    let case = assumed(k, b)?;
    let either = k.or_i2(a, case)?;
    let r = denied(k, no, either, b)?;
    Ok(r)
}

//
//  ------------------------------------------------ neither      t is (not (or a b))
//   (not (or a b)) |- (and (not a) (not b))
/// Both sides of a denied disjunction, which is given as a term, are denied. There is no Shape.
#[tactic(auto, using(lcf_kernel::proofs::KeepLemmas::keeps_all_trans))]
pub(crate) fn neither(
    k: &mut Kernel<'_>,
    t: TermId,
    a: TermId,
    b: TermId,
) -> Result<ThmId, RuleFault>
    requires formula { HasFormula k.old.store t }
    requires denies { term_tree k.old.store t ≡ negation (disjunction (term_tree k.old.store a) (term_tree k.old.store b)) }
    requires formulas { AreFormulas k.old.store a b }
    ensures there { IfOk result (λ r. HasThm k.new r) }
    ensures concl { IfOk result (λ r. concl_of k.new r ≡ conjunction (negation (term_tree k.old.store a)) (negation (term_tree k.old.store b))) }
    ensures under { IfOk result (λ r. IsUnder k.new r (term_tree k.old.store t ∷ [])) }
    ensures shape { IfErr result (λ e. e ≡ RuleFault.Shape → ⊥) }
    ensures keeps { KeepsAll k.old k.new }
{
    let no = assumed(k, t)?;
    let first = left_denied(k, no, a, b)?;
    let second = right_denied(k, no, a, b)?;
    let r = k.and_i(first, second)?;
    Ok(r)
}

//   G |- (and (not a) (not b))
//  ---------------------------- left_excluded
//         G, a |- false
/// Where both sides are denied, the left one leads to `false`. There is no Shape.
#[tactic(auto, using(lcf_kernel::proofs::KeepLemmas::keeps_all_trans))]
fn left_excluded(k: &mut Kernel<'_>, both: ThmId, a: TermId, b: TermId) -> Result<ThmId, RuleFault>
    requires both { HasThm k.old both }
    requires denies { concl_of k.old both ≡ conjunction (negation (term_tree k.old.store a)) (negation (term_tree k.old.store b)) }
    requires formulas { AreFormulas k.old.store a b }
    ensures there { IfOk result (λ r. HasThm k.new r) }
    ensures concl { IfOk result (λ r. concl_of k.new r ≡ false_tm) }
    ensures under { IfOk result (λ r. (hyps : List Term) → IsUnder k.old both hyps → IsUnder k.new r (term_tree k.old.store a ∷ hyps)) }
    ensures shape { IfErr result (λ e. e ≡ RuleFault.Shape → ⊥) }
    ensures keeps { KeepsAll k.old k.new }
{
    let denial = k.and_e1(both)?;
    let case = assumed(k, a)?;
    let r = k.not_e(denial, case)?;
    Ok(r)
}

//   G |- (and (not a) (not b))
//  ---------------------------- right_excluded
//         G, b |- false
/// Where both sides are denied, the right one leads to `false`. There is no Shape.
#[tactic(auto, using(lcf_kernel::proofs::KeepLemmas::keeps_all_trans))]
fn right_excluded(k: &mut Kernel<'_>, both: ThmId, a: TermId, b: TermId) -> Result<ThmId, RuleFault>
    requires both { HasThm k.old both }
    requires denies { concl_of k.old both ≡ conjunction (negation (term_tree k.old.store a)) (negation (term_tree k.old.store b)) }
    requires formulas { AreFormulas k.old.store a b }
    ensures there { IfOk result (λ r. HasThm k.new r) }
    ensures concl { IfOk result (λ r. concl_of k.new r ≡ false_tm) }
    ensures under { IfOk result (λ r. (hyps : List Term) → IsUnder k.old both hyps → IsUnder k.new r (term_tree k.old.store b ∷ hyps)) }
    ensures shape { IfErr result (λ e. e ≡ RuleFault.Shape → ⊥) }
    ensures keeps { KeepsAll k.old k.new }
{
    let denial = k.and_e2(both)?;
    let case = assumed(k, b)?;
    let r = k.not_e(denial, case)?;
    Ok(r)
}

//   G |- (or a b)    H |- (and (not a) (not b))
//  --------------------------------------------- excluded
//                 G, H |- false
/// A disjunction whose sides are both denied leads to `false`. There is no Shape.
#[tactic(auto, using(lcf_kernel::proofs::KeepLemmas::keeps_all_trans))]
fn excluded(
    k: &mut Kernel<'_>,
    either: ThmId,
    both: ThmId,
    a: TermId,
    b: TermId,
) -> Result<ThmId, RuleFault>
    requires either { HasThm k.old either }
    requires both { HasThm k.old both }
    requires says { concl_of k.old either ≡ disjunction (term_tree k.old.store a) (term_tree k.old.store b) }
    requires denies { concl_of k.old both ≡ conjunction (negation (term_tree k.old.store a)) (negation (term_tree k.old.store b)) }
    requires formulas { AreFormulas k.old.store a b }
    ensures there { IfOk result (λ r. HasThm k.new r) }
    ensures concl { IfOk result (λ r. concl_of k.new r ≡ false_tm) }
    ensures under { IfOk result (λ r. (hyps : List Term) → IsUnder k.old either hyps → IsUnder k.old both hyps → IsUnder k.new r hyps) }
    ensures shape { IfErr result (λ e. e ≡ RuleFault.Shape → ⊥) }
    ensures keeps { KeepsAll k.old k.new }
{
    let first = left_excluded(k, both, a, b)?;
    let second = right_excluded(k, both, a, b)?;
    let r = k.or_e(either, first, second)?;
    Ok(r)
}

//
//  ------------------------------------------- neither_denies      d is (and (not a) (not b))
//   (and (not a) (not b)) |- (not (or a b))
/// Where both sides are denied, so is the disjunction; these are given as terms. There is no Shape.
#[tactic(auto, using(lcf_kernel::proofs::KeepLemmas::keeps_all_trans))]
pub(crate) fn neither_denies(
    k: &mut Kernel<'_>,
    dual: TermId,
    whole: TermId,
    a: TermId,
    b: TermId,
) -> Result<ThmId, RuleFault>
    requires formula { HasFormula k.old.store dual }
    requires denies { term_tree k.old.store dual ≡ conjunction (negation (term_tree k.old.store a)) (negation (term_tree k.old.store b)) }
    requires whole { IsAt k.old.store whole (disjunction (term_tree k.old.store a) (term_tree k.old.store b)) }
    requires formulas { AreFormulas k.old.store a b }
    ensures there { IfOk result (λ r. HasThm k.new r) }
    ensures concl { IfOk result (λ r. concl_of k.new r ≡ negation (disjunction (term_tree k.old.store a) (term_tree k.old.store b))) }
    ensures under { IfOk result (λ r. IsUnder k.new r (term_tree k.old.store dual ∷ [])) }
    ensures shape { IfErr result (λ e. e ≡ RuleFault.Shape → ⊥) }
    ensures keeps { KeepsAll k.old k.new }
{
    let both = assumed(k, dual)?;
    let either = assumed(k, whole)?;
    let falsity = excluded(k, either, both, a, b)?;
    let r = k.not_i(falsity, whole)?;
    Ok(r)
}
