//! Proofs by contradiction.
ghost use Rattle.std.specs.Prelude.{◌≡◌, ◌∷◌, List, IfOk, IfErr};
ghost use Rattle.hol_terms.specs.Term.{Term};
ghost use Rattle.hol_terms.specs.TermStore.{term_tree};
ghost use Rattle.hol_terms.specs.Formula.{In};
ghost use Rattle.hol_terms.specs.Constants.{negation};
ghost use Rattle.hol_formulas.specs.Formulas.{HasFormula};
ghost use Rattle.lcf_kernel.specs.KernelState.{HasThm, concl_of, KeepsAll};
ghost use Rattle.hol_logic.specs.Under.{IsUnder};

use hol_terms::TermId;
use lcf_kernel::{Kernel, RuleFault, ThmId};

//
//  -------- assumed
//   p |- p
/// A formula under itself. There is no Shape.
pub(crate) fn assumed(k: &mut Kernel<'_>, p: TermId) -> Result<ThmId, RuleFault>
    requires { HasFormula k.old.store p }
    ensures there { IfOk result (λ r. HasThm k.new r) }
    ensures concl { IfOk result (λ r. concl_of k.new r ≡ term_tree k.old.store p) }
    ensures under { IfOk result (λ r. (hyps : List Term) → In (term_tree k.old.store p) hyps → IsUnder k.new r hyps) }
    ensures shape { IfErr result (λ e. e ≡ RuleFault.Shape → ⊥) }
    ensures keeps { KeepsAll k.old k.new }
{
    let r = k.assume(p)?;
    Ok(r)
}

//   G, p |- (not q)    G, p |- q
//  ------------------------------ denied
//           G |- (not p)
/// The negation of a formula that leads to another and to its negation. There is no Shape.
#[tactic(auto, using(lcf_kernel::proofs::KeepLemmas::keeps_all_trans))]
pub(crate) fn denied(
    k: &mut Kernel<'_>,
    no: ThmId,
    yes: ThmId,
    p: TermId,
) -> Result<ThmId, RuleFault>
    requires no { HasThm k.old no }
    requires yes { HasThm k.old yes }
    requires negated { concl_of k.old no ≡ negation (concl_of k.old yes) }
    requires formula { HasFormula k.old.store p }
    ensures there { IfOk result (λ r. HasThm k.new r) }
    ensures concl { IfOk result (λ r. concl_of k.new r ≡ negation (term_tree k.old.store p)) }
    ensures under { IfOk result (λ r. (hyps : List Term) → IsUnder k.old no (term_tree k.old.store p ∷ hyps) → IsUnder k.old yes (term_tree k.old.store p ∷ hyps) → IsUnder k.new r hyps) }
    ensures shape { IfErr result (λ e. e ≡ RuleFault.Shape → ⊥) }
    ensures keeps { KeepsAll k.old k.new }
{
    let falsity = k.not_e(no, yes)?;
    let r = k.not_i(falsity, p)?;
    Ok(r)
}

//   G, (not p) |- (not q)    G, (not p) |- q
//  ------------------------------------------ affirmed
//                   G |- p
/// A formula whose negation leads to another and to its negation. There is no Shape.
#[tactic(auto, using(lcf_kernel::proofs::KeepLemmas::keeps_all_trans))]
pub(crate) fn affirmed(
    k: &mut Kernel<'_>,
    no: ThmId,
    yes: ThmId,
    p: TermId,
) -> Result<ThmId, RuleFault>
    requires no { HasThm k.old no }
    requires yes { HasThm k.old yes }
    requires negated { concl_of k.old no ≡ negation (concl_of k.old yes) }
    requires formula { HasFormula k.old.store p }
    ensures there { IfOk result (λ r. HasThm k.new r) }
    ensures concl { IfOk result (λ r. concl_of k.new r ≡ term_tree k.old.store p) }
    ensures under { IfOk result (λ r. (hyps : List Term) → IsUnder k.old no (negation (term_tree k.old.store p) ∷ hyps) → IsUnder k.old yes (negation (term_tree k.old.store p) ∷ hyps) → IsUnder k.new r hyps) }
    ensures shape { IfErr result (λ e. e ≡ RuleFault.Shape → ⊥) }
    ensures keeps { KeepsAll k.old k.new }
{
    let falsity = k.not_e(no, yes)?;
    let r = k.classical(falsity, p)?;
    Ok(r)
}
