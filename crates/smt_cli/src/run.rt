//! Plain replay of a whole plan, in the order of its nodes.
ghost use Rattle.std.specs.Prelude.{◌≡◌, ◌<◌, ◌+◌, length, IfOk, MatchOption};
ghost use Rattle.proof_plan.specs.Accept.{Accept, refused};
ghost use Rattle.proof_plan.specs.Claims.{Claim};
ghost use Rattle.replay_basic.specs.Replaying.{Serves, StatesNode, StatePremises};
ghost use Rattle.smt_cli.specs.Outcomes.{IsOutcome, IsReplayed, StateNodes};

use lcf_kernel::{Kernel, ThmId};
use proof_plan::{Plan, ReplayFault, Task, Why, task};
use replay_basic::replay;
use std::alloc::{AllocError, Global};

/// What a replay comes to.
#[derive(Clone, Copy, Debug, PartialEq, Eq)]
pub enum Outcome {
    /// Each node is proved.
    Proved,
    /// This node is the first that its rule doesn't accept, for this cause.
    Failed(u64, Why),
}

/// Replays the nodes of a plan in order, up to the first that isn't accepted.
pub fn replay_all(alloc: Global, plan: &Plan) -> Result<Outcome, AllocError>
    ensures { IfOk result (IsOutcome plan.now) }
{
    let mut kernel = kernel_for(alloc, plan)?;
    let outcome = replay_nodes(alloc, plan, &mut kernel)?;
    Ok(outcome)
}

/// The same, by this kernel.
fn replay_nodes(alloc: Global, plan: &Plan, kernel: &mut Kernel<'_>) -> Result<Outcome, AllocError>
    requires { Serves plan.now kernel.old }
    ensures { IfOk result (IsOutcome plan.now) }
{
    let mut thms = Vec::new(alloc);
    for k in 0..plan.len() {
        if let Some(why) = replay_next(alloc, plan, k, kernel, &mut thms)? {
            return Ok(Outcome::Failed(k, why));
        }
    }
    let root = plan.root();
    know_claim(kernel, plan, thms[root as usize], root);
    Ok(Outcome::Proved)
}

/// A kernel without records for a plan: its facts, and its assertions as the context.
fn kernel_for(alloc: Global, plan: &Plan) -> Result<Kernel<'_>, AllocError>
    ensures { IfOk result (Serves plan.now) }
{
    let parts = plan.parts();
    let facts = parts.facts.as_slice();
    let assertions = parts.assertions.as_slice();
    let kernel = Kernel::new(alloc, plan.base(), facts, assertions)?;
    Ok(kernel)
}

/// Replays one node behind those before it, and adds its theorem to theirs. Some: its rule doesn't accept it, for
/// this cause.
fn replay_next(
    alloc: Global,
    plan: &Plan,
    k: u64,
    kernel: &mut Kernel<'_>,
    thms: &mut Vec<ThmId>,
) -> Result<Option<Why>, AllocError>
    requires there { k < length plan.now.nodes }
    requires before { IsReplayed plan.now kernel.old thms.old.items k }
    ensures { IfOk result (λ why. MatchOption why (IsReplayed plan.now kernel.new thms.new.items (k + 1)) (λ w. Accept plan.now k ≡ refused w)) }
{
    let task = task(plan, k);
    let premises = premise_theorems(alloc, kernel, &task, thms)?;
    match replay(kernel, &task, &premises) {
        Ok(t) => {
            thms.push(t)?;
            Ok(None)
        }
        Err(ReplayFault::Why(why)) => Ok(Some(why)),
        Err(ReplayFault::Memory) => Err(AllocError),
    }
}

/// The theorems of a node's premises, of those of all nodes before it.
fn premise_theorems(
    alloc: Global,
    kernel: &Kernel<'_>,
    task: &Task<'_>,
    thms: &[ThmId],
) -> Result<Vec<ThmId>, AllocError>
    requires before { length thms.now ≡ task.now.node }
    requires states { StateNodes task.now.plan kernel.now thms.now }
    ensures { IfOk result (λ ts. StatePremises task.now.plan kernel.now ts.items task.now.node) }
{
    let premises = task.premises();
    let mut ts = Vec::new(alloc);
    for j in premises {
        ts.push(thms[*j as usize])?;
    }
    Ok(ts)
}

/// Does nothing: the kernel's record says that the claim of a node holds.
fn know_claim(kernel: &Kernel<'_>, plan: &Plan, t: ThmId, k: u64)
    requires serves { Serves plan.now kernel.now }
    requires node { k < length plan.now.nodes }
    requires states { StatesNode plan.now kernel.now t k }
    ensures { Claim plan.now k }
{
    let _node = plan.node(k);
    let _concl = kernel.concl(t);
}
