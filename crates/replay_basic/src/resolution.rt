//! Unit resolution.
ghost use Rattle.std.specs.Prelude.{◌≡◌, ◌<◌, ℕ, length, slice_index_or, IfOk, IfErr, OnOk, MatchOption};
ghost use Rattle.hol_terms.specs.Constants.{false_tm};
ghost use Rattle.lcf_kernel.specs.KernelState.{HasThm, KeepsAll, concl_of};
ghost use Rattle.proof_plan.specs.PlanValue.{rule_of};
ghost use Rattle.proof_plan.specs.Rows.{IsResolved, AreComplements};
ghost use Rattle.replay_basic.specs.Replaying.{Serves, StatesNode};
ghost use Rattle.replay_basic.specs.Given.{GivenPremises, StatesFalse, StatesUnder, Contradicts};

use lcf_kernel::{Kernel, RuleFault, ThmId};
use proof_plan::{ReplayFault, Rule, Task, Why};
use std::alloc::AllocError;

//   G |- A    H |- (not A)    ..
//  ----------------------------- unit-resolution      or the other way round; or A is false, and G alone;
//             G, H |- C                               or A is C, and G alone
/// The claim: stated by the first premise, or from `false`, which the first premise states or contradicts another to.
#[tactic(auto, using(lcf_kernel::proofs::KeepLemmas::keeps_all_trans))]
pub(crate) fn unit_resolution(
    kernel: &mut Kernel<'_>,
    task: &Task<'_>,
    premises: &[ThmId],
) -> Result<ThmId, ReplayFault>
    requires serves { Serves task.now.plan kernel.old }
    requires rule { rule_of task.now.plan task.now.node ≡ Rule.UnitResolution }
    requires premises { GivenPremises task.now.plan kernel.old premises.now task.now.node }
    ensures states { IfOk result (λ t. StatesNode task.now.plan kernel.new t task.now.node) }
    ensures accepted { OnOk result (IsResolved task.now.plan task.now.node) }
    ensures refused { IfErr result (λ e. (w : Why) → e ≡ ReplayFault.Why w → (w ≡ Why.Shape) × (IsResolved task.now.plan task.now.node → ⊥)) }
    ensures keeps { KeepsAll kernel.old kernel.new }
{
    let claim = task.claim();
    let [first, others @ ..] = premises else {
        unreachable!();
    };
    if kernel.concl(*first) == claim {
        return Ok(*first);
    }
    match first_contradiction(kernel, *first, others)? {
        Some(falsity) => from_false(kernel, task, falsity),
        None => from_false(kernel, task, *first),
    }
}

//   G |- false
//  ------------
//     G |- C
/// The claim C of a node, from a theorem of `false`.
fn from_false(
    kernel: &mut Kernel<'_>,
    task: &Task<'_>,
    falsity: ThmId,
) -> Result<ThmId, ReplayFault>
    requires serves { Serves task.now.plan kernel.old }
    requires thm { HasThm kernel.old falsity }
    ensures falsity { OnOk result (concl_of kernel.old falsity ≡ false_tm) }
    ensures states { IfOk result (λ t. StatesUnder task.now.plan kernel.old kernel.new t task.now.node falsity) }
    ensures refused { IfErr result (λ e. (w : Why) → e ≡ ReplayFault.Why w → (w ≡ Why.Shape) × (concl_of kernel.old falsity ≡ false_tm → ⊥)) }
    ensures keeps { KeepsAll kernel.old kernel.new }
{
    match kernel.false_e(falsity, task.claim()) {
        Ok(t) => Ok(t),
        Err(RuleFault::Memory) => Err(ReplayFault::Memory),
        Err(RuleFault::Shape) => Err(ReplayFault::Why(Why::Shape)),
    }
}

/// A theorem of `false` from a theorem and the first of others that it contradicts, if there is one.
#[tactic(auto, using(lcf_kernel::proofs::KeepLemmas::keeps_all_trans))]
fn first_contradiction(
    kernel: &mut Kernel<'_>,
    first: ThmId,
    others: &[ThmId],
) -> Result<Option<ThmId>, AllocError>
    requires first { HasThm kernel.old first }
    requires others { (i : ℕ) → i < length others.now → HasThm kernel.old (slice_index_or others.now i 0) }
    ensures found { IfOk result (λ found. MatchOption found ((i : ℕ) → i < length others.now → AreComplements (concl_of kernel.old first) (concl_of kernel.old (slice_index_or others.now i 0)) → ⊥) (λ t. Contradicts kernel.old kernel.new t first others.now)) }
    ensures keeps { KeepsAll kernel.old kernel.new }
{
    for other in others {
        if let Some(t) = contradiction(kernel, first, *other)? {
            return Ok(Some(t));
        }
    }
    Ok(None)
}

//   G |- A    H |- (not A)
//  ------------------------      or the other way round
//       G, H |- false
/// A theorem of `false` from two theorems, if one states the negation of the other.
#[tactic(auto, using(lcf_kernel::proofs::KeepLemmas::keeps_all_trans))]
fn contradiction(kernel: &mut Kernel<'_>, a: ThmId, b: ThmId) -> Result<Option<ThmId>, AllocError>
    requires left { HasThm kernel.old a }
    requires right { HasThm kernel.old b }
    ensures found { IfOk result (λ found. MatchOption found (AreComplements (concl_of kernel.old a) (concl_of kernel.old b) → ⊥) (λ t. AreComplements (concl_of kernel.old a) (concl_of kernel.old b) × StatesFalse kernel.old kernel.new t a b)) }
    ensures keeps { KeepsAll kernel.old kernel.new }
{
    match kernel.not_e(a, b) {
        Ok(t) => return Ok(Some(t)),
        Err(RuleFault::Memory) => return Err(AllocError),
        Err(RuleFault::Shape) => {}
    }
    match kernel.not_e(b, a) {
        Ok(t) => Ok(Some(t)),
        Err(RuleFault::Memory) => Err(AllocError),
        Err(RuleFault::Shape) => Ok(None),
    }
}
