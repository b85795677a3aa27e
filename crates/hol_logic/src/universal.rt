//! What a denied universal statement says. The predicate is given by its parts.
ghost use Rattle.std.specs.Prelude.{◌≡◌, ◌∷◌, [], IfOk, IfErr};
ghost use Rattle.hol_types.specs.TypeStore.{type_tree};
ghost use Rattle.hol_terms.specs.Term.{LamTm};
ghost use Rattle.hol_terms.specs.TermStore.{HasTerm, term_tree};
ghost use Rattle.hol_terms.specs.Substitution.{subst_bound};
ghost use Rattle.hol_terms.specs.Constants.{negation};
ghost use Rattle.hol_formulas.specs.Constants.{IsAt};
ghost use Rattle.hol_formulas.specs.Formulas.{HasFormula};
ghost use Rattle.lcf_kernel.specs.KernelState.{HasThm, concl_of, KeepsAll};
ghost use Rattle.hol_logic.specs.Under.{IsUnder};
ghost use Rattle.hol_logic.specs.Quantified.{IsFresh, IsPredicate, all_stated, some_contrary};

use crate::contradiction::{affirmed, assumed, denied};
use crate::fresh::fresh;
use crate::makers::{chosen, negated, opened};
use hol_formulas::binder::Binder;
use hol_terms::TermId;
use lcf_kernel::{Kernel, RuleFault, ThmId};

//
//  ------------------------- stated      d is (ex (lambda. (not b))), v isn't free in b
//   (not d) |- (b with v)
/// What holds of an arbitrary value where its negation holds of none; the denial is given as a term. There is no Shape.
#[tactic(auto, using(lcf_kernel::proofs::KeepLemmas::keeps_all_trans))]
fn stated(
    k: &mut Kernel<'_>,
    opposite: TermId,
    d: TermId,
    p: Binder,
    v: TermId,
) -> Result<ThmId, RuleFault>
    requires predicate { IsPredicate k.old.store p }
    requires variable { HasTerm k.old.store v }
    requires fresh { IsFresh (term_tree k.old.store v) (type_tree k.old.store.types p.ty) (term_tree k.old.store p.body) }
    requires some { IsAt k.old.store d (some_contrary k.old.store p) }
    requires opposite { IsAt k.old.store opposite (negation (some_contrary k.old.store p)) }
    ensures there { IfOk result (λ r. HasThm k.new r) }
    ensures concl { IfOk result (λ r. concl_of k.new r ≡ subst_bound (term_tree k.old.store p.body) 0 (term_tree k.old.store v)) }
    ensures under { IfOk result (λ r. IsUnder k.new r (negation (some_contrary k.old.store p) ∷ [])) }
    ensures shape { IfErr result (λ e. e ≡ RuleFault.Shape → ⊥) }
    ensures keeps { KeepsAll k.old k.new }
{
    let said = opened(k, p.body, v)?;
    let denial = negated(k, said)?;
    let case = assumed(k, denial)?;
    let witness = k.ex_i(case, d, v)?;
    let no = assumed(k, opposite)?;
    let r = affirmed(k, no, witness, said)?;
    Ok(r)
}

//
//  ------------------------------------ each_stated      d is (ex (lambda. (not b)))
//   (not d) |- (all (lambda. b))
/// What holds of all where its negation holds of none; the denial is given as a term. There is no Shape.
#[tactic(auto, using(lcf_kernel::proofs::KeepLemmas::keeps_all_trans))]
fn each_stated(
    k: &mut Kernel<'_>,
    opposite: TermId,
    d: TermId,
    p: Binder,
) -> Result<ThmId, RuleFault>
    requires predicate { IsPredicate k.old.store p }
    requires some { IsAt k.old.store d (some_contrary k.old.store p) }
    requires opposite { IsAt k.old.store opposite (negation (some_contrary k.old.store p)) }
    ensures there { IfOk result (λ r. HasThm k.new r) }
    ensures concl { IfOk result (λ r. concl_of k.new r ≡ all_stated k.old.store p) }
    ensures under { IfOk result (λ r. IsUnder k.new r (negation (some_contrary k.old.store p) ∷ [])) }
    ensures shape { IfErr result (λ e. e ≡ RuleFault.Shape → ⊥) }
    ensures keeps { KeepsAll k.old k.new }
{
    let v = fresh(k, p.ty, p.body)?;
    let one = stated(k, opposite, d, p, v)?;
    let _said = k.concl(one);
    let r = k.all_i(one, v)?;
    Ok(r)
}

//
//  --------------------------------------- not_all      t is (not (all (lambda. b))), d is (ex (lambda. (not b)))
//   t |- d
/// Where a predicate doesn't hold of all, its contrary holds of some; both are given as terms. There is no Shape.
#[tactic(auto, using(lcf_kernel::proofs::KeepLemmas::keeps_all_trans))]
pub(crate) fn not_all(
    k: &mut Kernel<'_>,
    t: TermId,
    d: TermId,
    p: Binder,
) -> Result<ThmId, RuleFault>
    requires predicate { IsPredicate k.old.store p }
    requires formula { HasFormula k.old.store t }
    requires denies { term_tree k.old.store t ≡ negation (all_stated k.old.store p) }
    requires some { IsAt k.old.store d (some_contrary k.old.store p) }
    ensures there { IfOk result (λ r. HasThm k.new r) }
    ensures concl { IfOk result (λ r. concl_of k.new r ≡ some_contrary k.old.store p) }
    ensures under { IfOk result (λ r. IsUnder k.new r (term_tree k.old.store t ∷ [])) }
    ensures shape { IfErr result (λ e. e ≡ RuleFault.Shape → ⊥) }
    ensures keeps { KeepsAll k.old k.new }
{
    let opposite = negated(k, d)?;
    let every = each_stated(k, opposite, d, p)?;
    let no = assumed(k, t)?;
    let r = affirmed(k, no, every, d)?;
    Ok(r)
}

//
//  -------- all_denies      d is (ex (lambda. (not b))), whole is (all (lambda. b))
//   d |- (not whole)
/// Where the contrary of a predicate holds of some, it doesn't hold of all; these are given as terms, and q is the contrary. There is no Shape.
#[tactic(auto, using(lcf_kernel::proofs::KeepLemmas::keeps_all_trans))]
pub(crate) fn all_denies(
    k: &mut Kernel<'_>,
    d: TermId,
    whole: TermId,
    p: Binder,
    q: TermId,
) -> Result<ThmId, RuleFault>
    requires predicate { IsPredicate k.old.store p }
    requires contrary { IsAt k.old.store q (LamTm (type_tree k.old.store.types p.ty) (negation (term_tree k.old.store p.body))) }
    requires formula { HasFormula k.old.store d }
    requires some { term_tree k.old.store d ≡ some_contrary k.old.store p }
    requires whole { IsAt k.old.store whole (all_stated k.old.store p) }
    ensures there { IfOk result (λ r. HasThm k.new r) }
    ensures concl { IfOk result (λ r. concl_of k.new r ≡ negation (all_stated k.old.store p)) }
    ensures under { IfOk result (λ r. IsUnder k.new r (term_tree k.old.store d ∷ [])) }
    ensures shape { IfErr result (λ e. e ≡ RuleFault.Shape → ⊥) }
    ensures keeps { KeepsAll k.old k.new }
{
    let witness = chosen(k, q, p.ty)?;
    let some = assumed(k, d)?;
    let no = k.choice(some)?;
    let all = assumed(k, whole)?;
    let yes = k.all_e(all, witness)?;
    let r = denied(k, no, yes, whole)?;
    Ok(r)
}
