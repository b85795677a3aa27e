//! A proof file of the first proof form, as a plan.
ghost use Rattle.std.specs.Prelude.{◌≡◌, ◌<◌, ◌&&◌, ◌++◌, ◌∷◌, [], length, nat_lt, option_map, IfOk, IfSome, MatchOption};
ghost use Rattle.hol_terms.specs.Constants.{false_tm, negation};
ghost use Rattle.hol_terms.specs.TermEq.{term_eq};
ghost use Rattle.hol_terms.specs.TermStore.{HasTerm, Keeps, term_tree};
ghost use Rattle.proof_plan.specs.Claims.{Assertions as AssertionsOf, Facts};
ghost use Rattle.proof_plan.specs.PlanValue.{tree_in};
ghost use Rattle.sexp.specs.Forest.{tree_at, trees_at, HasTree};
ghost use Rattle.first_form.specs.Lexicon.{IsLexicon};
ghost use Rattle.goal_text.specs.ItemsIn.{IsProblem};
ghost use Rattle.goal_text.specs.Scope.{terms_at};
ghost use Rattle.first_form.specs.ProofForm.{proof_form, proof_tree, refutation_of, wrapped};
ghost use Rattle.first_form.specs.ProofNodes.{nodes_of};
ghost use Rattle.first_form.specs.ProofPlan.{IsAbout, last_claim, plan_nodes_in};
ghost use Rattle.first_form.specs.Read.{Gives};
ghost use Rattle.first_form.specs.Setting.{IsSetting};
ghost use Rattle.first_form.specs.Source.{source_at};
ghost use Rattle.first_form.specs.Steps.{source_in};

use crate::failure::FormFailure;
use crate::forest::trees;
use crate::lexicon::Lexicon;
use crate::proof_form::{Steps, step_at};
use crate::setting::{Setting, setting_of};
use crate::tree::{one_at, parts_at, text_at};
use goal_text::{Declared, Problem};
use hol_terms::{Base, Parts, TermId, Terms};
use hol_types::List;
use proof_plan::{Plan, PlanNode};
use sexp::Forest;
use std::alloc::Global;

/// The number of P, where a tree is `(proof P)`.
#[tactic(auto, unfolding(crate::specs::ProofForm::wrapped))]
fn wrapped_at(forest: &Forest, i: u32) -> Option<u32>
    requires { HasTree forest.now i }
    ensures tree { MatchOption result (wrapped (tree_at forest.now i) ≡ None) (λ p. wrapped (tree_at forest.now i) ≡ Some (tree_at forest.now p)) }
    ensures there { IfSome result (HasTree forest.now) }
{
    let Some((first, end)) = parts_at(forest, i) else {
        return None;
    };
    let Some(second) = forest.next(first, end) else {
        return None;
    };
    if text_at(forest, first) == b"proof".as_slice() {
        one_at(forest, second, end)
    } else {
        None
    }
}

/// The number of P, where the trees are just `(proof P)`.
fn proof_at(forest: &Forest) -> Option<u32>
    ensures tree { MatchOption result (proof_tree (trees_at forest.now 0 (length forest.now)) ≡ None) (λ p. proof_tree (trees_at forest.now 0 (length forest.now)) ≡ Some (tree_at forest.now p)) }
    ensures there { IfSome result (HasTree forest.now) }
{
    let end = forest.len();
    match one_at(forest, 0, end) {
        Some(i) => wrapped_at(forest, i),
        None => None,
    }
}

/// Whether a claim is `false`.
fn is_false(base: &Base, lexicon: &Lexicon, claim: TermId) -> bool
    requires lexicon { IsLexicon base.now lexicon.now }
    requires claim { HasTerm base.now claim }
    ensures { result ≡ term_eq (term_tree base.now claim) false_tm }
{
    // Of one store: equal trees have one number.
    let _node = base.node(claim);
    claim == lexicon.falsity
}

/// Whether the last claim is `false`, and there are at most 400,000 rule applications.
fn refutes(base: &Base, lexicon: &Lexicon, nodes: &[PlanNode]) -> bool
    requires lexicon { IsLexicon base.now lexicon.now }
    requires some { 0 < length nodes.now }
    requires claim { HasTerm base.now (last_claim nodes.now) }
    ensures { result ≡ (term_eq (term_tree base.now (last_claim nodes.now)) false_tm && nat_lt (length nodes.now) 400001) }
{
    is_false(base, lexicon, nodes[nodes.len() - 1].claim) && nodes.len() < 400_001
}

/// The plan of the proof of a tree.
fn plan_at(alloc: Global, setting: Setting, forest: &Forest, i: u32) -> Result<Plan, FormFailure>
    requires setting { IsSetting setting }
    requires tree { HasTree forest.now i }
    ensures read { Gives plan_nodes_in result (option_map nodes_of (refutation_of (source_in setting.base setting.lexicon setting.assertions) (tree_at forest.now i))) }
    ensures about { IfOk result (IsAbout (terms_at setting.base setting.facts) (term_tree setting.base setting.goal)) }
    ensures facts { IfOk result (λ plan. plan.parts.facts ≡ setting.facts) }
    ensures goal { IfOk result (λ plan. plan.parts.goal ≡ setting.goal) }
    ensures keeps { IfOk result (λ plan. Keeps setting.base plan.store) }
{
    let Setting {
        base,
        lexicon,
        facts,
        goal,
        assertions,
    } = setting;
    let mut steps = Steps {
        base,
        nodes: Vec::new(alloc),
    };
    step_at(&mut steps, &lexicon, &assertions, forest, i)?;
    let Steps { base, nodes } = steps;
    if !refutes(&base, &lexicon, &nodes) {
        return Err(FormFailure::Refused);
    }
    let parts = Parts {
        facts,
        goal,
        assertions: assertions.into_list(),
        defs: List::new(Vec::new(alloc)),
        origins: List::new(Vec::new(alloc)),
    };
    Ok(Plan::new(
        base.freeze(),
        parts,
        List::new(nodes),
        List::new(Vec::new(alloc)),
    ))
}

/// The plan of the proof that a text of the first proof form says about a problem, and the problem's constants. The text
/// is `(proof P)`, where P is `(asserted F)`, `(mp P P F)` or `(unit-resolution P .. F)`, formulas are `false`, `(not F)`,
/// `(=> F F ..)` and the problem's constants of type Bool with `$` behind their names, an `asserted` formula is a fact or
/// the negated goal, the last formula is `false`, and there are at most 400,000 rule applications. Refused exactly where
/// the text is outside this form.
pub fn read_proof(
    alloc: Global,
    problem: Problem,
    text: &[u8],
) -> Result<(Plan, List<Declared>), FormFailure>
    requires { IsProblem problem }
    ensures read { Gives (λ r. plan_nodes_in r.0) result (option_map nodes_of (proof_form (source_at problem) text.now)) }
    ensures facts { IfOk result (λ r. Facts r.0 ≡ terms_at problem.base problem.facts) }
    ensures goal { IfOk result (λ r. tree_in r.0 r.0.parts.goal ≡ term_tree problem.base problem.goal) }
    ensures assertions { IfOk result (λ r. AssertionsOf r.0 ≡ terms_at problem.base problem.facts ++ negation (term_tree problem.base problem.goal) ∷ []) }
    ensures definitions { IfOk result (λ r. r.0.definitions ≡ []) }
    ensures symbols { IfOk result (λ r. r.0.parts.defs ≡ []) }
    ensures consts { IfOk result (λ r. r.1 ≡ problem.consts) }
    ensures same_facts { IfOk result (λ r. r.0.parts.facts ≡ problem.facts) }
    ensures same_goal { IfOk result (λ r. r.0.parts.goal ≡ problem.goal) }
    ensures keeps { IfOk result (λ r. Keeps problem.base r.0.store) }
{
    let forest = trees(alloc, text)?;
    let Some(i) = proof_at(&forest) else {
        return Err(FormFailure::Refused);
    };
    let (setting, consts) = setting_of(alloc, problem)?;
    let plan = plan_at(alloc, setting, &forest, i)?;
    Ok((plan, consts))
}
