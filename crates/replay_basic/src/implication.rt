//! Modus ponens.
ghost use Rattle.std.specs.Prelude.{◌≡◌, length, IfOk, IfErr, OnOk};
ghost use Rattle.lcf_kernel.specs.KernelState.{KeepsAll};
ghost use Rattle.proof_plan.specs.PlanValue.{rule_of};
ghost use Rattle.proof_plan.specs.Rows.{IsModusPonens};
ghost use Rattle.replay_basic.specs.Replaying.{Serves, StatesNode};
ghost use Rattle.replay_basic.specs.Given.{GivenPremises};

use lcf_kernel::{Kernel, RuleFault, ThmId};
use proof_plan::{ReplayFault, Rule, Task, Why};

//   G |- A    H |- (=> A B)
//  ------------------------- mp
//          G, H |- B
/// The claim, from its left side and the implication.
#[tactic(auto, using(lcf_kernel::proofs::KeepLemmas::keeps_all_trans))]
pub(crate) fn modus_ponens(
    kernel: &mut Kernel<'_>,
    task: &Task<'_>,
    premises: &[ThmId],
) -> Result<ThmId, ReplayFault>
    requires serves { Serves task.now.plan kernel.old }
    requires rule { rule_of task.now.plan task.now.node ≡ Rule.Mp }
    requires two { length premises.now ≡ 2 }
    requires premises { GivenPremises task.now.plan kernel.old premises.now task.now.node }
    ensures states { IfOk result (λ t. StatesNode task.now.plan kernel.new t task.now.node) }
    ensures accepted { OnOk result (IsModusPonens task.now.plan task.now.node) }
    ensures refused { IfErr result (λ e. (w : Why) → e ≡ ReplayFault.Why w → (w ≡ Why.Shape) × (IsModusPonens task.now.plan task.now.node → ⊥)) }
    ensures keeps { KeepsAll kernel.old kernel.new }
{
    let claim = task.claim();
    let left = premises[0];
    let implication = premises[1];
    match kernel.imp_e(implication, left) {
        Ok(t) => {
            if kernel.concl(t) == claim {
                Ok(t)
            } else {
                Err(ReplayFault::Why(Why::Shape))
            }
        }
        Err(RuleFault::Memory) => Err(ReplayFault::Memory),
        Err(RuleFault::Shape) => Err(ReplayFault::Why(Why::Shape)),
    }
}
