//! The line that a run prints.
ghost use Rattle.std.specs.Prelude.{◌≡◌, IfOk};
ghost use Rattle.hol_terms.specs.TermStore.{term_tree};
ghost use Rattle.goal_text.specs.ItemsIn.{IsProblem, declared_in};
ghost use Rattle.smt_cli.specs.Answers.{GoalRefused, GoalUnbuilt, ProofRefused, FailedAt, ProvedGoal};
ghost use Rattle.smt_cli.specs.Writing.{IsLineOf};

use discharge::Proved;
use goal_print::print_goal;
use goal_text::{Declared, GoalFault, Problem};
use hol_types::{Bytes, List};
use proof_plan::{PlanNode, Why, append_why};
use std::alloc::{AllocError, Global};

/// What a run prints, and the exit status that goes with it.
#[derive(Drop)]
pub struct Line {
    pub text: Vec<u8>,
    pub status: u8,
}

/// The text in memory.
fn text_of(alloc: Global, text: &str) -> Result<Vec<u8>, AllocError>
    ensures { IfOk result (λ t. t.items ≡ text.now) }
{
    let mut bytes = Vec::new(alloc);
    bytes.extend_from_slice(text.as_bytes())?;
    Ok(bytes)
}

/// The goal file has this fault, its first.
pub fn goal_refused(alloc: Global, fault: GoalFault) -> Result<Line, AllocError>
    ensures { IfOk result (λ line. IsLineOf (GoalRefused fault) line.text.items line.status) }
{
    let mut text = text_of(alloc, "goal refused at ")?;
    let at = format!(in alloc; "{}", fault.at)?;
    text.extend_from_slice(at.as_bytes())?;
    text.extend_from_slice(b": ".as_slice())?;
    text.extend_from_slice(fault.kind.name().as_bytes())?;
    text.push(b'\n')?;
    Ok(Line { text, status: 3 })
}

/// The goal file says a problem that isn't taken yet.
pub fn goal_unbuilt(alloc: Global) -> Result<Line, AllocError>
    ensures { IfOk result (λ line. IsLineOf GoalUnbuilt line.text.items line.status) }
{
    let text = text_of(alloc, "goal refused at 0: Unbuilt\n")?;
    Ok(Line { text, status: 3 })
}

/// The proof file is outside its form.
pub fn proof_refused(alloc: Global) -> Result<Line, AllocError>
    ensures { IfOk result (λ line. IsLineOf ProofRefused line.text.items line.status) }
{
    let text = text_of(alloc, "proof refused\n")?;
    Ok(Line { text, status: 4 })
}

/// The node isn't accepted by its rule, for this cause.
pub fn failed_at(alloc: Global, node: &PlanNode, why: Why) -> Result<Line, AllocError>
    ensures { IfOk result (λ line. IsLineOf (FailedAt node.now.name node.now.rule why) line.text.items line.status) }
{
    let mut text = text_of(alloc, "failed at ")?;
    text.extend_from_slice(node.name.as_slice())?;
    text.extend_from_slice(b" (".as_slice())?;
    text.extend_from_slice(node.rule.name().as_bytes())?;
    text.extend_from_slice(b"): ".as_slice())?;
    append_why(&mut text, why)?;
    text.push(b'\n')?;
    Ok(Line { text, status: 1 })
}

/// The goal is proved, of which these are the declared constants.
pub fn proved(alloc: Global, proved: Proved, consts: List<Declared>) -> Result<Line, AllocError>
    requires { IsProblem (record { base = proved.store; consts = consts; facts = proved.facts; goal = proved.goal }) }
    ensures { IfOk result (λ line. IsLineOf (ProvedGoal (declared_in proved.store consts) (term_tree proved.store proved.goal)) line.text.items line.status) }
{
    let (base, facts, goal) = proved.into_parts();
    let problem = Problem {
        base: base.thaw(),
        consts,
        facts,
        goal,
    };
    let mut text = Bytes::new(text_of(alloc, "proved ")?);
    print_goal(alloc, &problem, &mut text)?;
    text.push(b'\n')?;
    Ok(Line {
        text: text.into_vec(),
        status: 0,
    })
}
