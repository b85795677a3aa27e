//! Assertions.
ghost use Rattle.std.specs.Prelude.{◌≡◌, IfOk, IfErr};
ghost use Rattle.lcf_kernel.specs.KernelState.{KeepsAll};
ghost use Rattle.proof_plan.specs.PlanValue.{rule_of};
ghost use Rattle.proof_plan.specs.IsPlan.{StatesAssertion};
ghost use Rattle.replay_basic.specs.Replaying.{Serves, StatesNode};

use lcf_kernel::{Kernel, RuleFault, ThmId};
use proof_plan::{ReplayFault, Task};

//   A is an assertion
//  ------------------- asserted, goal
//        A |- A
/// An assertion, from itself.
pub(crate) fn asserted(kernel: &mut Kernel<'_>, task: &Task<'_>) -> Result<ThmId, ReplayFault>
    requires serves { Serves task.now.plan kernel.old }
    requires asserted { StatesAssertion (rule_of task.now.plan task.now.node) }
    ensures states { IfOk result (λ t. StatesNode task.now.plan kernel.new t task.now.node) }
    ensures memory { IfErr result (λ e. e ≡ ReplayFault.Memory) }
    ensures keeps { KeepsAll kernel.old kernel.new }
{
    match kernel.assume(task.claim()) {
        Ok(t) => Ok(t),
        Err(RuleFault::Memory) => Err(ReplayFault::Memory),
        Err(RuleFault::Shape) => unreachable!(),
    }
}
