//! Problems that aren't taken yet.
ghost use Rattle.std.specs.Prelude.{◌≡◌, ◌<◌, ◌≤◌, ◌*◌, ◌||◌, false, IfOk, OnOk};
ghost use Rattle.std.specs.List.{list_any};
ghost use Rattle.hol_terms.specs.TermStore.{HasTerm, term_tree};
ghost use Rattle.goal_text.specs.ItemsIn.{IsProblem};
ghost use Rattle.goal_text.specs.Scope.{AreTerms, terms_at};
ghost use Rattle.smt_cli.specs.LambdaWalk.{AllWithout};
ghost use Rattle.smt_cli.specs.Problems.{is_unbuilt_in};
ghost use Rattle.smt_cli.specs.Unbuilt as unbuilt;

use goal_text::Problem;
use hol_formulas::type_variables::type_variables_of;
use hol_terms::{Base, Node, TermId, Terms};
use std::alloc::AllocError;
use std::collections::HashSet;

/// Whether a term is a quantifier.
fn is_quantifier(base: &Base, t: TermId) -> bool
    requires { HasTerm base.now t }
    ensures { result ≡ unbuilt.is_quantifier (term_tree base.now t) }
{
    match base.node(t) {
        Node::Const(name, _) => {
            let text = base.text(name);
            text == b"all".as_slice() || text == b"ex".as_slice()
        }
        Node::Free(_, _, _) => false,
        Node::Bound(_, _) => false,
        Node::Num(_) => false,
        Node::App(_, _) => false,
        Node::Lam(_, _) => false,
    }
}

/// What stands beneath an argument: a lambda's body, where it is a quantifier's argument, else the argument itself.
#[tactic(auto, unfolding(crate::specs::Unbuilt::holds_lambda))]
fn beneath(base: &Base, quantified: bool, x: TermId) -> TermId
    requires { HasTerm base.now x }
    ensures there { HasTerm base.now result }
    ensures below { result ≤ x }
    ensures same { unbuilt.holds_lambda false (term_tree base.now result) ≡ unbuilt.holds_lambda quantified (term_tree base.now x) }
{
    match base.node(x) {
        Node::Lam(_, body) => { if quantified { body } else { x } }
        Node::App(_, _) => x,
        Node::Free(_, _, _) => x,
        Node::Bound(_, _) => x,
        Node::Const(_, _) => x,
        Node::Num(_) => x,
    }
}

/// Whether a lambda that isn't a quantifier's argument stands in a part. Each shared part is walked once: `seen` has the
/// parts without one.
#[cycle(lambda)]
fn part_holds(base: &Base, seen: &mut HashSet<TermId>, t: TermId) -> Result<bool, AllocError>
    requires there { HasTerm base.now t }
    requires seen { AllWithout base.now seen.old }
    ensures holds { IfOk result (λ r. r ≡ unbuilt.holds_lambda false (term_tree base.now t)) }
    ensures seen { OnOk result (AllWithout base.now seen.new) }
{
    if seen.contains(&t) {
        return Ok(false);
    }
    let holds = node_holds(base, seen, t)?;
    if !holds {
        seen.insert(t)?;
    }
    Ok(holds)
}

/// The same, by the part's node.
#[cycle(lambda)]
#[tactic(auto, unfolding(crate::specs::Unbuilt::holds_lambda))]
fn node_holds(base: &Base, seen: &mut HashSet<TermId>, t: TermId) -> Result<bool, AllocError>
    requires there { HasTerm base.now t }
    requires seen { AllWithout base.now seen.old }
    ensures holds { IfOk result (λ r. r ≡ unbuilt.holds_lambda false (term_tree base.now t)) }
    ensures seen { OnOk result (AllWithout base.now seen.new) }
{
    match base.node(t) {
        Node::App(f, x) => {
            if part_holds(base, seen, f)? {
                return Ok(true);
            }
            let argument = beneath(base, is_quantifier(base, f), x);
            let holds = part_holds(base, seen, argument)?;
            Ok(holds)
        }
        Node::Lam(_, _) => Ok(true),
        Node::Free(_, _, _) => Ok(false),
        Node::Bound(_, _) => Ok(false),
        Node::Const(_, _) => Ok(false),
        Node::Num(_) => Ok(false),
    }
}

/// Goes through parts, so that they are known.
fn know_parts(base: &Base, seen: &mut HashSet<TermId>, parts: &[TermId]) -> Result<(), AllocError>
    requires there { AreTerms base.now parts.now }
    requires seen { AllWithout base.now seen.old }
    ensures seen { OnOk result (AllWithout base.now seen.new) }
{
    for t in parts {
        part_holds(base, seen, *t)?;
    }
    Ok(())
}

/// Whether one stands in a term. Of a deep term the parts go first, smaller numbers first.
fn term_holds(base: &Base, seen: &mut HashSet<TermId>, t: TermId) -> Result<bool, AllocError>
    requires there { HasTerm base.now t }
    requires seen { AllWithout base.now seen.old }
    ensures holds { IfOk result (λ r. r ≡ unbuilt.holds_lambda false (term_tree base.now t)) }
    ensures seen { OnOk result (AllWithout base.now seen.new) }
{
    let parts = base.deep_parts(t)?;
    know_parts(base, seen, &parts)?;
    let holds = part_holds(base, seen, t)?;
    Ok(holds)
}

/// Whether one stands in one of the terms.
fn any_holds(base: &Base, seen: &mut HashSet<TermId>, ts: &[TermId]) -> Result<bool, AllocError>
    requires there { AreTerms base.now ts.now }
    requires seen { AllWithout base.now seen.old }
    ensures holds { IfOk result (λ r. r ≡ list_any (unbuilt.holds_lambda false) (terms_at base.now ts.now)) }
    ensures seen { OnOk result (AllWithout base.now seen.new) }
{
    for t in ts {
        if term_holds(base, seen, *t)? {
            return Ok(true);
        }
    }
    Ok(false)
}

/// Whether a problem isn't taken yet: a fact holds a type variable, or a fact or the goal a lambda that isn't a quantifier's
/// argument. It takes one step for each distinct part.
pub fn is_unbuilt(problem: &Problem) -> Result<bool, AllocError>
    requires { IsProblem problem.now }
    ensures { IfOk result (λ r. r ≡ is_unbuilt_in problem.now) }
{
    let base = &problem.base;
    let facts = problem.facts.as_slice();
    let schematic = type_variables_of(base, facts)?;
    if !schematic.is_empty() {
        return Ok(true);
    }
    let mut seen = HashSet::new(base.allocator());
    if any_holds(base, &mut seen, facts)? {
        return Ok(true);
    }
    let holds = term_holds(base, &mut seen, problem.goal)?;
    Ok(holds)
}
