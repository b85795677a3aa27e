//! The line for a plan.
ghost use Rattle.std.specs.Prelude.{◌≡◌, [], IfOk};
ghost use Rattle.goal_text.specs.ItemsIn.{IsProblem, declared_in};
ghost use Rattle.goal_text.specs.Names.{Constants};
ghost use Rattle.discharge.specs.Negation.{AssertsNegation};
ghost use Rattle.smt_cli.specs.Follows.{IsProblemStatus};
ghost use Rattle.smt_cli.specs.Outcomes.{IsOutcome};
ghost use Rattle.smt_cli.specs.PlanAnswers.{GoalDerivable, plan_answer};
ghost use Rattle.smt_cli.specs.Writing.{IsLineOf};

use crate::line::{Line, failed_at, proved};
use crate::run::{Outcome, replay_all};
use discharge::finish;
use goal_text::Declared;
use hol_types::List;
use proof_plan::{Plan, Why};
use std::alloc::{AllocError, Global};

/// Replays a plan whose assertions are the facts and the negated goal, and gives the line: the goal is proved, of which
/// these are the declared constants, or the first node that its rule doesn't accept.
pub fn replay_line(alloc: Global, plan: Plan, consts: List<Declared>) -> Result<Line, AllocError>
    requires problem { IsProblem (record { base = plan.store; consts = consts; facts = plan.parts.facts; goal = plan.parts.goal }) }
    requires assertions { AssertsNegation plan }
    requires no_definitions { plan.definitions ≡ [] }
    ensures proved { IfOk result (λ line. line.status ≡ 0 → GoalDerivable plan) }
    ensures answered { IfOk result (λ line. IsLineOf (plan_answer (declared_in plan.store consts) plan) line.text.items line.status) }
    ensures status { IfOk result (λ line. IsProblemStatus line.status) }
{
    match replay_all(alloc, &plan) {
        Ok(Outcome::Proved) => proved_line(alloc, plan, consts),
        Ok(Outcome::Failed(k, why)) => failed_line(alloc, plan, k, why),
        Err(AllocError) => no_line(plan),
    }
}

/// The line where each node is proved.
fn proved_line(alloc: Global, plan: Plan, consts: List<Declared>) -> Result<Line, AllocError>
    requires problem { IsProblem (record { base = plan.store; consts = consts; facts = plan.parts.facts; goal = plan.parts.goal }) }
    requires outcome { IsOutcome plan Outcome.Proved }
    requires assertions { AssertsNegation plan }
    requires no_definitions { plan.definitions ≡ [] }
    ensures proved { IfOk result (λ line. line.status ≡ 0 → GoalDerivable plan) }
    ensures answered { IfOk result (λ line. IsLineOf (plan_answer (declared_in plan.store consts) plan) line.text.items line.status) }
    ensures status { IfOk result (λ line. IsProblemStatus line.status) }
{
    let _root = plan.root();
    let theorem = finish(plan);
    proved(alloc, theorem, consts)
}

/// The line where node k is the first that isn't accepted.
fn failed_line(alloc: Global, plan: Plan, k: u64, why: Why) -> Result<Line, AllocError>
    requires outcome { IsOutcome plan (Outcome.Failed k why) }
    ensures proved { IfOk result (λ line. line.status ≡ 0 → GoalDerivable plan) }
    ensures answered { IfOk result (λ line. (consts : Constants) → IsLineOf (plan_answer consts plan) line.text.items line.status) }
    ensures status { IfOk result (λ line. IsProblemStatus line.status) }
{
    let _root = plan.root();
    failed_at(alloc, plan.node(k), why)
}

/// Lets the plan go.
fn no_line(_plan: Plan) -> Result<Line, AllocError>
    ensures { IfOk result (λ _. ⊥) }
{
    Err(AllocError)
}
