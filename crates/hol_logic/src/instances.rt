//! Instances of records.
ghost use Rattle.std.specs.Prelude.{◌≡◌, ◌<◌, length, IfOk, OnOk, IfErr};
ghost use Rattle.hol_terms.specs.Substitution.{subst_bound};
ghost use Rattle.lcf_kernel.specs.RuleForms.{IsGeneral};
ghost use Rattle.lcf_kernel.specs.KernelState.{HasThm, concl_of, hyps_of, all_hyps_of, bare_of, KeepsAll};
ghost use Rattle.hol_match.specs.Instance.{instance_by};
ghost use Rattle.hol_match.specs.Inst.{HasInst, inst_tree, term_for};
ghost use Rattle.hol_logic.specs.States.{States};
ghost use Rattle.hol_logic.specs.DerivedForms.{all_of};
ghost use Rattle.hol_logic.specs.Instances.{AreGeneral, IsAllAt, generalised, pair_at};

use hol_match::Inst;
use lcf_kernel::{Kernel, RuleFault, ThmId};

//        G |- A
//  ------------------ over_one      v is the variable of a pair, not free in G
//   G |- (all v. A)
/// The conclusion of all values of the variable of a pair. Shape exactly where a hypothesis, of the record or in the
/// context, speaks of it.
fn over_one(k: &mut Kernel<'_>, a: ThmId, inst: &Inst, i: usize) -> Result<ThmId, RuleFault>
    requires thm { HasThm k.old a }
    requires terms { HasInst k.old.store k.old.store inst.now }
    requires below { i < length inst.now }
    ensures states { IfOk result (λ r. States k.new r (all_of (pair_at (inst_tree k.old.store k.old.store inst.now) i).0 (concl_of k.old a)) (hyps_of k.old a) (bare_of k.old a)) }
    ensures ok { OnOk result (IsGeneral (all_hyps_of k.old a) (pair_at (inst_tree k.old.store k.old.store inst.now) i).0) }
    ensures shape { IfErr result (λ e. e ≡ RuleFault.Shape → IsGeneral (all_hyps_of k.old a) (pair_at (inst_tree k.old.store k.old.store inst.now) i).0 → ⊥) }
    ensures keeps { KeepsAll k.old k.new }
{
    let Some(pair) = inst.pair(i) else {
        unreachable!();
    };
    let r = k.all_i(a, pair.0)?;
    Ok(r)
}

//   G |- (all v. B)
//  ----------------- at_one      t is the term of a pair whose variable has v's type
//   G |- B with t
/// A universal conclusion at the term of a pair. There is no Shape.
fn at_one(k: &mut Kernel<'_>, a: ThmId, inst: &Inst, i: usize) -> Result<ThmId, RuleFault>
    requires thm { HasThm k.old a }
    requires terms { HasInst k.old.store k.old.store inst.now }
    requires below { i < length inst.now }
    requires said { IsAllAt (inst_tree k.old.store k.old.store inst.now) i (concl_of k.old a) }
    ensures states { IfOk result (λ r. (b : IsAllAt (inst_tree k.old.store k.old.store inst.now) i (concl_of k.old a)) × States k.new r (subst_bound b.body 0 (pair_at (inst_tree k.old.store k.old.store inst.now) i).1) (hyps_of k.old a) (bare_of k.old a)) }
    ensures shape { IfErr result (λ e. e ≡ RuleFault.Shape → ⊥) }
    ensures keeps { KeepsAll k.old k.new }
{
    let Some(pair) = inst.pair(i) else {
        unreachable!();
    };
    let r = k.all_e(a, pair.1)?;
    Ok(r)
}

/// The conclusion of all values of the variables of the pairs, the last outermost. Shape exactly where a hypothesis, of the
/// record or in the context, speaks of one of them.
#[tactic(auto, using(lcf_kernel::proofs::KeepLemmas::keeps_all_same, lcf_kernel::proofs::KeepLemmas::keeps_all_trans))]
fn over_each(k: &mut Kernel<'_>, a: ThmId, inst: &Inst) -> Result<ThmId, RuleFault>
    requires thm { HasThm k.old a }
    requires terms { HasInst k.old.store k.old.store inst.now }
    ensures states { IfOk result (λ r. States k.new r (generalised (inst_tree k.old.store k.old.store inst.now) (concl_of k.old a)) (hyps_of k.old a) (bare_of k.old a)) }
    ensures ok { OnOk result (AreGeneral (all_hyps_of k.old a) (inst_tree k.old.store k.old.store inst.now)) }
    ensures shape { IfErr result (λ e. e ≡ RuleFault.Shape → AreGeneral (all_hyps_of k.old a) (inst_tree k.old.store k.old.store inst.now) → ⊥) }
    ensures keeps { KeepsAll k.old k.new }
{
    let mut r = a;
    for i in 0..inst.len() {
        r = over_one(k, r, inst, i)?;
    }
    Ok(r)
}

/// A conclusion generalised over the variables of the pairs, at their terms. There is no Shape.
#[tactic(auto, using(lcf_kernel::proofs::KeepLemmas::keeps_all_same, lcf_kernel::proofs::KeepLemmas::keeps_all_trans))]
fn at_each(k: &mut Kernel<'_>, a: ThmId, inst: &Inst, said: ThmId) -> Result<ThmId, RuleFault>
    requires thm { HasThm k.old a }
    requires given { HasThm k.old said }
    requires terms { HasInst k.old.store k.old.store inst.now }
    requires general { concl_of k.old a ≡ generalised (inst_tree k.old.store k.old.store inst.now) (concl_of k.old said) }
    ensures states { IfOk result (λ r. States k.new r (instance_by (term_for (inst_tree k.old.store k.old.store inst.now)) (concl_of k.old said)) (hyps_of k.old a) (bare_of k.old a)) }
    ensures shape { IfErr result (λ e. e ≡ RuleFault.Shape → ⊥) }
    ensures keeps { KeepsAll k.old k.new }
{
    let _said = k.concl(said);
    let mut r = a;
    let mut i = inst.len();
    while i > 0 {
        i -= 1;
        r = at_one(k, r, inst, i)?;
    }
    Ok(r)
}

//        G |- A
//  ------------------ instance      the variables of the pairs aren't free in G
//   G |- A with inst
/// The conclusion with the given terms for its Schematic variables. Shape exactly where a hypothesis, of the record or in
/// the context, speaks of a variable that is given a term.
#[tactic(auto, using(lcf_kernel::proofs::KeepLemmas::keeps_all_same, lcf_kernel::proofs::KeepLemmas::keeps_all_trans))]
pub fn instance(k: &mut Kernel<'_>, a: ThmId, inst: &Inst) -> Result<ThmId, RuleFault>
    requires thm { HasThm k.old a }
    requires terms { HasInst k.old.store k.old.store inst.now }
    ensures states { IfOk result (λ r. States k.new r (instance_by (term_for (inst_tree k.old.store k.old.store inst.now)) (concl_of k.old a)) (hyps_of k.old a) (bare_of k.old a)) }
    ensures ok { OnOk result (AreGeneral (all_hyps_of k.old a) (inst_tree k.old.store k.old.store inst.now)) }
    ensures shape { IfErr result (λ e. e ≡ RuleFault.Shape → AreGeneral (all_hyps_of k.old a) (inst_tree k.old.store k.old.store inst.now) → ⊥) }
    ensures keeps { KeepsAll k.old k.new }
{
    let general = over_each(k, a, inst)?;
    let r = at_each(k, general, inst, a)?;
    Ok(r)
}
