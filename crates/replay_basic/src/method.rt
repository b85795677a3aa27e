//! Replay of one node.
ghost use Rattle.std.specs.Prelude.{◌≡◌, IfOk, IfErr, OnOk};
ghost use Rattle.lcf_kernel.specs.KernelState.{KeepsAll};
ghost use Rattle.proof_plan.specs.Accept.{Accept, accepted, refused, row_answer};
ghost use Rattle.replay_basic.specs.Replaying.{Serves, StatesNode, StatePremises};
ghost use Rattle.replay_basic.specs.Given.{GivenPremises};

use crate::assertion::asserted;
use crate::implication::modus_ponens;
use crate::resolution::unit_resolution;
use lcf_kernel::{Kernel, ThmId};
use proof_plan::{ReplayFault, Rule, Task, Why, too_large};

/// The theorem of a node, from those of its premises in order: its claim, under no more than what the node may use,
/// exactly where the node's rule accepts it. Else it gives the cause, or Memory. The kernel's facts are the plan's,
/// and its context is among what each node may use. Nothing is adopted.
pub fn replay(
    kernel: &mut Kernel<'_>,
    task: &Task<'_>,
    premises: &[ThmId],
) -> Result<ThmId, ReplayFault>
    requires serves { Serves task.now.plan kernel.old }
    requires premises { StatePremises task.now.plan kernel.old premises.now task.now.node }
    ensures states { IfOk result (λ t. StatesNode task.now.plan kernel.new t task.now.node) }
    ensures accepted { OnOk result (Accept task.now.plan task.now.node ≡ accepted) }
    ensures refused { IfErr result (λ e. (w : Why) → e ≡ ReplayFault.Why w → Accept task.now.plan task.now.node ≡ refused w) }
    ensures keeps { KeepsAll kernel.old kernel.new }
{
    let _premises = task.premises();
    if let Some(why) = too_large(kernel, task)? {
        return Err(ReplayFault::Why(why));
    }
    by_rule(kernel, task, premises)
}

/// The theorem of a node exactly where the row of its rule accepts it, the premises' theorems being under no more than
/// what the node itself may use.
fn by_rule(
    kernel: &mut Kernel<'_>,
    task: &Task<'_>,
    premises: &[ThmId],
) -> Result<ThmId, ReplayFault>
    requires serves { Serves task.now.plan kernel.old }
    requires premises { GivenPremises task.now.plan kernel.old premises.now task.now.node }
    ensures states { IfOk result (λ t. StatesNode task.now.plan kernel.new t task.now.node) }
    ensures accepted { OnOk result (row_answer task.now.plan task.now.node ≡ accepted) }
    ensures refused { IfErr result (λ e. (w : Why) → e ≡ ReplayFault.Why w → row_answer task.now.plan task.now.node ≡ refused w) }
    ensures keeps { KeepsAll kernel.old kernel.new }
{
    match task.rule() {
        Rule::Asserted => asserted(kernel, task),
        Rule::Goal => asserted(kernel, task),
        Rule::Mp => modus_ponens(kernel, task, premises),
        Rule::UnitResolution => unit_resolution(kernel, task, premises),
        _ => Err(ReplayFault::Why(Why::Shape)),
    }
}
