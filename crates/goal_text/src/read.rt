//! Goal files.
ghost use Rattle.std.specs.Prelude.{◌≡◌, length, IfOk, IfErr};
ghost use Rattle.sexp.specs.Forest.{trees_at};
ghost use Rattle.goal_text.specs.Given.{AreGivenItems};
ghost use Rattle.goal_text.specs.GoalRead as goals;
ghost use Rattle.goal_text.specs.Items.{no_items};
ghost use Rattle.goal_text.specs.ItemsIn.{AreItems, IsFinished, IsLexical, IsProblem, IsRead, Refuses, items_in};
ghost use Rattle.goal_text.specs.Read.{Gives};

use crate::fault::{GoalFailure, GoalFault, GoalKind};
use crate::items::{Items, items_at};
use crate::problem::Problem;
use crate::scope::Scope;
use hol_terms::{Base, Terms};
use hol_types::List;
use sexp::{Forest, SexpFault, read_forest};
use std::alloc::Global;

/// The longest goal file: 4 MiB.
const LONGEST: u64 = 4_194_304;

/// A fault of the text's bytes.
fn lexical(fault: SexpFault) -> GoalFailure
    ensures { IsLexical fault result }
{
    let (at, kind) = match fault {
        SexpFault::TooLong(at) => (at, GoalKind::TooLong),
        SexpFault::BadByte(at) => (at, GoalKind::BadByte),
        SexpFault::Unopened(at) => (at, GoalKind::Unopened),
        SexpFault::TooDeep(at) => (at, GoalKind::TooDeep),
        SexpFault::Unclosed(at) => (at, GoalKind::Unclosed),
        SexpFault::Memory => return GoalFailure::Memory,
    };
    GoalFailure::Refused(GoalFault { at, kind })
}

/// The trees of a text.
#[tactic(auto, unfolding(crate::specs::GoalRead::trees_of))]
fn trees(alloc: Global, bytes: &[u8]) -> Result<Forest, GoalFailure>
    ensures { Gives (λ forest. trees_at forest 0 (length forest)) result (goals.trees_of bytes.now) }
{
    match read_forest(alloc, bytes, LONGEST) {
        Ok(forest) => Ok(forest),
        Err(fault) => Err(lexical(fault)),
    }
}

/// No items.
fn start(alloc: Global) -> Items
    ensures none { items_in result ≡ no_items }
    ensures items { AreItems result }
{
    Items {
        base: Base::new(alloc),
        scope: Scope::new(alloc),
        consts: Vec::new(alloc),
        facts: Vec::new(alloc),
        goal: None,
    }
}

/// The problem that all items of a text of that length say.
fn finish(items: Items, n: u64) -> Result<Problem, GoalFailure>
    requires items { AreItems items }
    requires given { AreGivenItems (items_in items) }
    ensures read { IsFinished items n result }
    ensures problem { IfOk result IsProblem }
{
    let Items {
        base,
        consts,
        facts,
        goal,
        ..
    } = items;
    match goal {
        Some(goal) => Ok(Problem {
            base,
            consts: List::new(consts),
            facts: List::new(facts),
            goal,
        }),
        None => Err(GoalFailure::Refused(GoalFault {
            at: n,
            kind: GoalKind::NoGoal,
        })),
    }
}

/// The problem that a goal file says, or its first fault. The problem's facts and goal are terms that the grammar gives under its
/// declarations (`problem`).
///
/// The file has items `(type s n)`, `(const c T)`, `(fact F)` and exactly one `(goal F)`. Refused exactly where the text is
/// outside the grammar or its terms don't fit by their types, with the first fault: a text that is too long, then a fault
/// of its bytes, then the first in the order of the items, each form on entry before its parts and its types after them.
pub fn read_goal(alloc: Global, bytes: &[u8]) -> Result<Problem, GoalFailure>
    ensures read { IfOk result (IsRead bytes.now) }
    ensures refused { IfErr result (Refuses bytes.now) }
    ensures problem { IfOk result IsProblem }
{
    let forest = trees(alloc, bytes)?;
    let mut items = start(alloc);
    let end = forest.len();
    items_at(&mut items, &forest, 0, end)?;
    let problem = finish(items, bytes.len() as u64)?;
    Ok(problem)
}
