//! The command `check`: from the bytes of two files to one line.
ghost use Rattle.std.specs.Prelude.{◌≡◌, ◌⊎◌, ◌≤◌, ℕ, List, Some, true, false, IfOk, IsErrOf};
ghost use Rattle.smt_io.specs.Faults.{Rose};
ghost use Rattle.goal_text.specs.declared.fault.GoalFault.{GoalFault as Fault};
ghost use Rattle.goal_text.specs.GoalRead.{FirstFault, GoalProblem, GoalRead, goal_read};
ghost use Rattle.goal_text.specs.ItemsIn.{IsProblem};
ghost use Rattle.first_form.specs.ProofForm.{proof_form};
ghost use Rattle.first_form.specs.Source.{Source};
ghost use Rattle.smt_cli.specs.Answers.{GoalRefused, GoalUnbuilt, problem_answer};
ghost use Rattle.smt_cli.specs.Checking.{Checks, IsNotRefused, IsTaken};
ghost use Rattle.smt_cli.specs.Follows.{GoalFollows, IsLineStatus, IsProblemStatus};
ghost use Rattle.smt_cli.specs.Problems.{FollowsIn, answer_in, is_unbuilt_in};
ghost use Rattle.smt_cli.specs.Unbuilt as unbuilt;
ghost use Rattle.smt_cli.specs.Writing.{EndsSomehow, IsLine, IsLineOf, SaysProved, Writes};

use crate::line::{Line, goal_refused, goal_unbuilt, proof_refused};
use crate::replay_line::replay_line;
use crate::unbuilt::is_unbuilt;
use first_form::{FormFailure, read_proof};
use goal_text::{GoalFailure, Problem, read_goal};
use hol_types::Bytes;
use smt_io::{Files, LoadFault, Sink, load, write_all};
use std::alloc::{AllocError, Global};

/// The longest goal file and the longest proof file, in bytes.
const LONGEST: u64 = 4_194_304;

/// Why there is no line to print.
#[derive(Clone, Copy, Debug, PartialEq, Eq)]
pub enum NoLine {
    /// A file couldn't be read.
    Unread,
    /// Memory ran out.
    Memory,
}

impl From<AllocError> for NoLine {
    ghost use Rattle.std.specs.Prelude.{◌≡◌};
    ghost use Rattle.smt_cli.specs.declared.check.NoLine.TheVariants.{Memory};

    ghost from_gives = { λ _ e. e ≡ Memory };

    fn from(_: AllocError) -> NoLine {
        NoLine::Memory
    }
}

/// Checks the proof file against the goal file, prints one line, and gives the exit status:
///
/// - 0: `proved` and the goal. Then the goal is derivable from the goal file's facts, without hypotheses. So it is also where
///   just the word `proved` could be written.
/// - 1: `failed at`, the name of the first node that its rule doesn't accept, the rule, and the cause.
/// - 3: `goal refused at`, the byte and the kind of the goal file's first fault; or `goal refused at 0: Unbuilt`: a fact holds
///   a type variable, or a fact or the goal a lambda that isn't a quantifier's argument.
/// - 4: `proof refused`: the proof file is outside its form.
/// - 5: a file couldn't be read, and nothing is written.
/// - 6: the line couldn't be written whole.
/// - 7: memory ran out, and nothing is written.
///
/// The goal file is read first; the proof file is read only where the goal file isn't refused.
pub fn check_one<F: Files, K: Sink>(
    alloc: Global,
    goal: &str,
    proof: &str,
    files: &mut F,
    out: &mut K,
) -> u8
    ensures proved { result ≡ 0 → (g : List ℕ) → F.contents files.old goal.now ≡ Some g → GoalFollows g }
    ensures said { SaysProved (K.contents out.old) (K.contents out.new) → (g : List ℕ) → F.contents files.old goal.now ≡ Some g → GoalFollows g }
    ensures checks { Checks (F.contents files.old goal.now) (F.contents files.old proof.now) (K.contents out.old) (K.contents out.new) result }
    ensures ends { EndsSomehow (K.contents out.old) (K.contents out.new) result }

    ensures unread { result ≡ 5 → Rose (F.faults files.old goal.now) (F.faults files.new goal.now) ⊎ (Rose (F.faults files.old proof.now) (F.faults files.new proof.now) × IsNotRefused (F.contents files.old goal.now)) }
    ensures unwritten { result ≡ 6 → Rose (K.faults out.old) (K.faults out.new) }
    ensures contents_stay { F.contents files.new ≡ F.contents files.old }
{
    match line(alloc, goal, proof, files) {
        Ok(line) => print(out, &line),
        Err(NoLine::Unread) => 5,
        Err(NoLine::Memory) => 7,
    }
}

/// Writes a line. It gives its status, or 6 where it couldn't be written whole.
pub fn print<K: Sink>(out: &mut K, line: &Line) -> u8
    ensures writes { Writes line.now.text.items line.now.status (K.contents out.old) (K.contents out.new) result }
    ensures fault { (result ≡ line.now.status) ⊎ ((result ≡ 6) × Rose (K.faults out.old) (K.faults out.new)) }
{
    match write_all(out, &line.text) {
        Ok(()) => line.status,
        Err(_) => 6,
    }
}

/// The line for a goal file and a proof file.
#[tactic(auto, using(crate::proofs::CheckLemmas::is_line_of))]
fn line<F: Files>(alloc: Global, goal: &str, proof: &str, files: &mut F) -> Result<Line, NoLine>
    ensures proved { IfOk result (λ line. line.status ≡ 0 → (g : List ℕ) → F.contents files.old goal.now ≡ Some g → GoalFollows g) }
    ensures refused { IfOk result (λ line. (g : List ℕ) (fault : Fault) → F.contents files.old goal.now ≡ Some g → FirstFault g fault → IsLineOf (GoalRefused fault) line.text.items line.status) }
    ensures unbuilt { IfOk result (λ line. (g : List ℕ) (p : GoalProblem) → F.contents files.old goal.now ≡ Some g → GoalRead g p → unbuilt.is_unbuilt p.facts p.goal ≡ true → IsLineOf GoalUnbuilt line.text.items line.status) }
    ensures taken { IfOk result (λ line. (g : List ℕ) (p : GoalProblem) → F.contents files.old goal.now ≡ Some g → IsTaken g p → IsProblemStatus line.status) }
    ensures answered { IfOk result (λ line. (g : List ℕ) (p : GoalProblem) (h : List ℕ) → F.contents files.old goal.now ≡ Some g → IsTaken g p → F.contents files.old proof.now ≡ Some h → IsLineOf (problem_answer p h) line.text.items line.status) }
    ensures status { IfOk result (λ line. IsLineStatus line.status) }
    ensures is_line { IfOk result (λ line. IsLine line.text.items line.status) }
    ensures unread { IsErrOf result NoLine.Unread → Rose (F.faults files.old goal.now) (F.faults files.new goal.now) ⊎ (Rose (F.faults files.old proof.now) (F.faults files.new proof.now) × IsNotRefused (F.contents files.old goal.now)) }
    ensures contents_stay { F.contents files.new ≡ F.contents files.old }
{
    let text = loaded(alloc, goal, files)?;
    match read_goal(alloc, text.as_slice()) {
        Ok(problem) => {
            let line = line_for(alloc, problem, proof, files)?;
            Ok(line)
        }
        Err(GoalFailure::Refused(fault)) => {
            let line = goal_refused(alloc, fault)?;
            Ok(line)
        }
        Err(GoalFailure::Memory) => Err(NoLine::Memory),
    }
}

/// The line for what a goal file says and a proof file, which isn't read where the problem isn't taken.
#[tactic(auto, using(crate::proofs::CheckLemmas::is_line_of))]
fn line_for<F: Files>(
    alloc: Global,
    problem: Problem,
    proof: &str,
    files: &mut F,
) -> Result<Line, NoLine>
    requires { IsProblem problem }
    ensures proved { IfOk result (λ line. line.status ≡ 0 → FollowsIn problem) }
    ensures unbuilt { IfOk result (λ line. is_unbuilt_in problem ≡ true → IsLineOf GoalUnbuilt line.text.items line.status) }
    ensures taken { IfOk result (λ line. is_unbuilt_in problem ≡ false → IsProblemStatus line.status) }
    ensures answered { IfOk result (λ line. (h : List ℕ) → is_unbuilt_in problem ≡ false → F.contents files.old proof.now ≡ Some h → IsLineOf (answer_in problem h) line.text.items line.status) }
    ensures status { IfOk result (λ line. IsLineStatus line.status) }
    ensures is_line { IfOk result (λ line. IsLine line.text.items line.status) }
    ensures unread { IsErrOf result NoLine.Unread → Rose (F.faults files.old proof.now) (F.faults files.new proof.now) × (is_unbuilt_in problem ≡ false) }
    ensures contents_stay { F.contents files.new ≡ F.contents files.old }
    ensures counts_stay { (other : List ℕ) → F.faults files.old other ≤ F.faults files.new other }
{
    if is_unbuilt(&problem)? {
        let line = goal_unbuilt(alloc)?;
        return Ok(line);
    }
    let line = problem_line(alloc, problem, proof, files)?;
    Ok(line)
}

/// The line for a problem and a proof file.
#[tactic(auto, using(crate::proofs::CheckLemmas::is_line_of))]
fn problem_line<F: Files>(
    alloc: Global,
    problem: Problem,
    proof: &str,
    files: &mut F,
) -> Result<Line, NoLine>
    requires { IsProblem problem }
    ensures proved { IfOk result (λ line. line.status ≡ 0 → FollowsIn problem) }
    ensures answered { IfOk result (λ line. (h : List ℕ) → F.contents files.old proof.now ≡ Some h → IsLineOf (answer_in problem h) line.text.items line.status) }
    ensures status { IfOk result (λ line. IsProblemStatus line.status) }
    ensures is_line { IfOk result (λ line. IsLine line.text.items line.status) }
    ensures unread { IsErrOf result NoLine.Unread → Rose (F.faults files.old proof.now) (F.faults files.new proof.now) }
    ensures contents_stay { F.contents files.new ≡ F.contents files.old }
    ensures counts_stay { (other : List ℕ) → F.faults files.old other ≤ F.faults files.new other }
{
    let text = loaded(alloc, proof, files)?;
    match read_proof(alloc, problem, text.as_slice()) {
        Ok((plan, consts)) => {
            let line = replay_line(alloc, plan, consts)?;
            Ok(line)
        }
        Err(FormFailure::Refused) => {
            let line = proof_refused(alloc)?;
            Ok(line)
        }
        Err(FormFailure::Memory) => Err(NoLine::Memory),
    }
}

/// The bytes of a file, or its first 4,194,305 where it has more, which each form refuses as too long.
fn loaded<F: Files>(alloc: Global, name: &str, files: &mut F) -> Result<Bytes, NoLine>
    ensures goal { IfOk result (λ text. (all : List ℕ) → F.contents files.old name.now ≡ Some all → goal_read text ≡ goal_read all) }
    ensures proof { IfOk result (λ text. (all : List ℕ) (source : Source) → F.contents files.old name.now ≡ Some all → proof_form source text ≡ proof_form source all) }
    ensures unread { IsErrOf result NoLine.Unread → Rose (F.faults files.old name.now) (F.faults files.new name.now) }
    ensures contents_stay { F.contents files.new ≡ F.contents files.old }
    ensures counts_stay { (other : List ℕ) → F.faults files.old other ≤ F.faults files.new other }
{
    match load(alloc, files, name, LONGEST) {
        Ok(text) => Ok(text),
        Err(LoadFault::Failed) => Err(NoLine::Unread),
        Err(LoadFault::Memory) => Err(NoLine::Memory),
    }
}
