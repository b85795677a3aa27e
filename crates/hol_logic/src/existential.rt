//! What a denied existential statement says. The predicate is given by its parts.
ghost use Rattle.std.specs.Prelude.{◌≡◌, ◌∷◌, [], IfOk, IfErr};
ghost use Rattle.hol_types.specs.TypeStore.{type_tree};
ghost use Rattle.hol_terms.specs.Term.{LamTm};
ghost use Rattle.hol_terms.specs.TermStore.{HasTerm, term_tree};
ghost use Rattle.hol_terms.specs.Substitution.{subst_bound};
ghost use Rattle.hol_terms.specs.Constants.{negation};
ghost use Rattle.hol_formulas.specs.Constants.{IsAt};
ghost use Rattle.hol_formulas.specs.Formulas.{HasFormula};
ghost use Rattle.lcf_kernel.specs.KernelState.{HasThm, concl_of, KeepsAll};
ghost use Rattle.hol_logic.specs.Under.{IsUnder};
ghost use Rattle.hol_logic.specs.Quantified.{IsFresh, IsPredicate, all_contrary, some_stated};

use crate::contradiction::{assumed, denied};
use crate::fresh::fresh;
use crate::makers::{chosen, opened};
use hol_formulas::binder::Binder;
use hol_terms::TermId;
use lcf_kernel::{Kernel, RuleFault, ThmId};

//
//  ----------------------- none_stated      t is (not whole), whole is (ex (lambda. b)), v isn't free in b
//   t |- (not (b with v))
/// What holds of none doesn't hold of an arbitrary value; the denial is given as a term. There is no Shape.
#[tactic(auto, using(lcf_kernel::proofs::KeepLemmas::keeps_all_trans))]
fn none_stated(
    k: &mut Kernel<'_>,
    t: TermId,
    whole: TermId,
    p: Binder,
    v: TermId,
) -> Result<ThmId, RuleFault>
    requires predicate { IsPredicate k.old.store p }
    requires variable { HasTerm k.old.store v }
    requires fresh { IsFresh (term_tree k.old.store v) (type_tree k.old.store.types p.ty) (term_tree k.old.store p.body) }
    requires formula { HasFormula k.old.store t }
    requires denies { term_tree k.old.store t ≡ negation (some_stated k.old.store p) }
    requires whole { IsAt k.old.store whole (some_stated k.old.store p) }
    ensures there { IfOk result (λ r. HasThm k.new r) }
    ensures concl { IfOk result (λ r. concl_of k.new r ≡ negation (subst_bound (term_tree k.old.store p.body) 0 (term_tree k.old.store v))) }
    ensures under { IfOk result (λ r. IsUnder k.new r (term_tree k.old.store t ∷ [])) }
    ensures shape { IfErr result (λ e. e ≡ RuleFault.Shape → ⊥) }
    ensures keeps { KeepsAll k.old k.new }
{
    let said = opened(k, p.body, v)?;
    let case = assumed(k, said)?;
    let witness = k.ex_i(case, whole, v)?;
    let no = assumed(k, t)?;
    let r = denied(k, no, witness, said)?;
    Ok(r)
}

//
//  ---------------------------------- not_some      t is (not whole), whole is (ex (lambda. b))
//   t |- (all (lambda. (not b)))
/// Where a predicate holds of none, its contrary holds of all; the denial is given as a term. There is no Shape.
#[tactic(auto, using(lcf_kernel::proofs::KeepLemmas::keeps_all_trans))]
pub(crate) fn not_some(
    k: &mut Kernel<'_>,
    t: TermId,
    whole: TermId,
    p: Binder,
) -> Result<ThmId, RuleFault>
    requires predicate { IsPredicate k.old.store p }
    requires formula { HasFormula k.old.store t }
    requires denies { term_tree k.old.store t ≡ negation (some_stated k.old.store p) }
    requires whole { IsAt k.old.store whole (some_stated k.old.store p) }
    ensures there { IfOk result (λ r. HasThm k.new r) }
    ensures concl { IfOk result (λ r. concl_of k.new r ≡ all_contrary k.old.store p) }
    ensures under { IfOk result (λ r. IsUnder k.new r (term_tree k.old.store t ∷ [])) }
    ensures shape { IfErr result (λ e. e ≡ RuleFault.Shape → ⊥) }
    ensures keeps { KeepsAll k.old k.new }
{
    let v = fresh(k, p.ty, p.body)?;
    let one = none_stated(k, t, whole, p, v)?;
    let _said = k.concl(one);
    let r = k.all_i(one, v)?;
    Ok(r)
}

//
//  -------------------- some_denies      d is (all (lambda. (not b))), whole is (ex (lambda. b))
//   d |- (not whole)
/// Where the contrary of a predicate holds of all, it holds of none; these are given as terms, and q is the predicate. There is no Shape.
#[tactic(auto, using(lcf_kernel::proofs::KeepLemmas::keeps_all_trans))]
pub(crate) fn some_denies(
    k: &mut Kernel<'_>,
    d: TermId,
    whole: TermId,
    p: Binder,
    q: TermId,
) -> Result<ThmId, RuleFault>
    requires predicate { IsPredicate k.old.store p }
    requires lambda { IsAt k.old.store q (LamTm (type_tree k.old.store.types p.ty) (term_tree k.old.store p.body)) }
    requires formula { HasFormula k.old.store d }
    requires every { term_tree k.old.store d ≡ all_contrary k.old.store p }
    requires whole { IsAt k.old.store whole (some_stated k.old.store p) }
    ensures there { IfOk result (λ r. HasThm k.new r) }
    ensures concl { IfOk result (λ r. concl_of k.new r ≡ negation (some_stated k.old.store p)) }
    ensures under { IfOk result (λ r. IsUnder k.new r (term_tree k.old.store d ∷ [])) }
    ensures shape { IfErr result (λ e. e ≡ RuleFault.Shape → ⊥) }
    ensures keeps { KeepsAll k.old k.new }
{
    let witness = chosen(k, q, p.ty)?;
    let some = assumed(k, whole)?;
    let yes = k.choice(some)?;
    let all = assumed(k, d)?;
    let no = k.all_e(all, witness)?;
    let r = denied(k, no, yes, whole)?;
    Ok(r)
}
