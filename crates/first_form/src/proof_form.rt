//! The first proof form: `asserted`, `mp` and `unit-resolution`, down to `false`.
ghost use Rattle.std.specs.Prelude.{◌≡◌, ◌<◌, ◌≤◌, ◌++◌, ◌∷◌, [], length, codes, decimal, All, IfErr, IfOk, IsTrue, OnOk, option_map};
ghost use Rattle.hol_terms.specs.Formula.{In};
ghost use Rattle.hol_terms.specs.TermStore.{HasTerm, Keeps, term_tree};
ghost use Rattle.proof_plan.specs.Rules.{TakesPremises};
ghost use Rattle.sexp.specs.Forest.{tree_at, trees_at, HasTree, IsRun};
ghost use Rattle.goal_text.specs.Scope.{terms_at};
ghost use Rattle.goal_text.specs.Sentences.{HaveSentences};
ghost use Rattle.first_form.specs.ProofForm as proofs;
ghost use Rattle.first_form.specs.ProofForm.{proof_of, premises_of};
ghost use Rattle.first_form.specs.Read.{Gives};
ghost use Rattle.first_form.specs.Steps.{AreSteps, IsFirstRule, IsSource, nodes_in, nodes_with, plan_node, premises_with, source_in};

use crate::assertions::{Assertions, is_assertion};
use crate::failure::FormFailure;
use crate::formula::formula_at;
use crate::lexicon::Lexicon;
use crate::tree::{is_empty, parts_at, text_at};
use hol_terms::{Base, TermId, Terms};
use hol_types::List;
use proof_plan::{PlanNode, Rule};
use sexp::Forest;
use std::alloc::{AllocError, Global};

/// The rule applications read so far, in a store of terms.
#[derive(Drop)]
pub struct Steps {
    pub base: Base,
    pub nodes: Vec<PlanNode>,
}

/// The rule of a name.
fn rule_of(word: &[u8]) -> Option<Rule>
    ensures { result ≡ proofs.rule_of word.now }
{
    if word == b"asserted".as_slice() {
        Some(Rule::Asserted)
    } else if word == b"mp".as_slice() {
        Some(Rule::Mp)
    } else if word == b"unit-resolution".as_slice() {
        Some(Rule::UnitResolution)
    } else {
        None
    }
}

/// The name of a rule application that no `let` names.
fn name_of(alloc: Global, place: u32) -> Result<List<u8>, AllocError>
    ensures { IfOk result (λ name. name ≡ codes "#" ++ decimal place) }
{
    let name = format!(in alloc; "#{place}")?;
    Ok(List::new(name.into_bytes()))
}

/// Whether a rule takes so many premises, and `asserted` states an assertion.
#[tactic(auto, unfolding(crate::specs::ProofForm::fits))]
fn fits(base: &Base, assertions: &Assertions, rule: Rule, premises: usize, claim: TermId) -> bool
    requires claim { HasTerm base.now claim }
    requires assertions { HaveSentences base.now assertions.now }
    ensures tree { result ≡ proofs.fits (terms_at base.now assertions.now) rule premises (term_tree base.now claim) }
    ensures count { IsTrue result → TakesPremises rule premises }
    ensures first { IsTrue result → IsFirstRule rule }
    ensures asserted { IsTrue result → rule ≡ Rule.Asserted → In claim assertions.now }
{
    match rule {
        Rule::Asserted => premises == 0 && is_assertion(base, assertions, claim),
        Rule::Mp => premises == 2,
        Rule::UnitResolution => 0 < premises,
        _ => false,
    }
}

/// Adds a rule application.
fn add(
    steps: &mut Steps,
    place: u32,
    rule: Rule,
    premises: Vec<u64>,
    claim: TermId,
) -> Result<(), FormFailure>
    ensures nodes { OnOk result (steps.new.nodes.items ≡ steps.old.nodes.items ++ plan_node place rule premises.items claim ∷ []) }
    ensures base { steps.new.base ≡ steps.old.base }
    ensures memory { IfErr result (λ e. e ≡ FormFailure.Memory) }
{
    let alloc = steps.base.allocator();
    let name = name_of(alloc, place)?;
    steps.nodes.push(PlanNode {
        name,
        place: place as u64,
        rule,
        weights: List::new(Vec::new(alloc)),
        premises: List::new(premises),
        vars: List::new(Vec::new(alloc)),
        claim,
        hyps: List::new(Vec::new(alloc)),
    })?;
    Ok(())
}

/// The rule applications of a proof, the premises' before its own, which is the last.
#[cycle(steps)]
#[tactic(auto, using(hol_terms::proofs::KeepsLemmas::keeps_trans, crate::proofs::LexiconLemmas::lexicon_kept, crate::proofs::StepLemmas::assertions_kept, crate::proofs::StepLemmas::source_kept))]
pub fn step_at(
    steps: &mut Steps,
    lexicon: &Lexicon,
    assertions: &Assertions,
    forest: &Forest,
    i: u32,
) -> Result<(), FormFailure>
    requires source { IsSource steps.old.base lexicon.now assertions.now }
    requires steps { AreSteps steps.old.base assertions.now 0 steps.old.nodes.items }
    requires tree { HasTree forest.now i }
    ensures read { Gives (λ _. nodes_in steps.new.base steps.new.nodes.items) result (option_map (nodes_with (nodes_in steps.old.base steps.old.nodes.items)) (proof_of (source_in steps.old.base lexicon.now assertions.now) (tree_at forest.now i))) }
    ensures steps { OnOk result (AreSteps steps.new.base assertions.now 0 steps.new.nodes.items) }
    ensures some { OnOk result (0 < length steps.new.nodes.items) }
    ensures grows { OnOk result (length steps.old.nodes.items < length steps.new.nodes.items) }
    ensures keeps { Keeps steps.old.base steps.new.base }
{
    let Some((first, end)) = parts_at(forest, i) else {
        return Err(FormFailure::Refused);
    };
    let Some(second) = forest.next(first, end) else {
        return Err(FormFailure::Refused);
    };
    let Some(rule) = rule_of(text_at(forest, first)) else {
        return Err(FormFailure::Refused);
    };
    let (premises, last) = premises_at(steps, lexicon, assertions, forest, second, end)?;
    let claim = formula_at(&mut steps.base, lexicon, forest, last)?;
    if !fits(&steps.base, assertions, rule, premises.len(), claim) {
        return Err(FormFailure::Refused);
    }
    let place = forest.start(i);
    add(steps, place, rule, premises, claim)?;
    Ok(())
}

/// The rule applications of the premises, which are all trees of a run but the last: their numbers, and the last
/// tree's.
#[cycle(steps)]
#[tactic(auto, using(hol_terms::proofs::KeepsLemmas::keeps_trans, crate::proofs::LexiconLemmas::lexicon_kept, crate::proofs::StepLemmas::assertions_kept, crate::proofs::StepLemmas::source_kept))]
fn premises_at(
    steps: &mut Steps,
    lexicon: &Lexicon,
    assertions: &Assertions,
    forest: &Forest,
    first: u32,
    end: u32,
) -> Result<(Vec<u64>, u32), FormFailure>
    requires source { IsSource steps.old.base lexicon.now assertions.now }
    requires steps { AreSteps steps.old.base assertions.now 0 steps.old.nodes.items }
    requires run { IsRun forest.now first end }
    ensures read { Gives (λ r. ((nodes_in steps.new.base steps.new.nodes.items, r.0.items), tree_at forest.now r.1)) result (option_map (premises_with (nodes_in steps.old.base steps.old.nodes.items) []) (premises_of (source_in steps.old.base lexicon.now assertions.now) (trees_at forest.now first end))) }
    ensures there { IfOk result (λ r. HasTree forest.now r.1) }
    ensures steps { OnOk result (AreSteps steps.new.base assertions.now 0 steps.new.nodes.items) }
    ensures below { IfOk result (λ r. All (λ j. j < length steps.new.nodes.items) r.0.items) }
    ensures grows { OnOk result (length steps.old.nodes.items ≤ length steps.new.nodes.items) }
    ensures keeps { Keeps steps.old.base steps.new.base }
{
    let mut premises = Vec::new(steps.base.allocator());
    let mut i = first;
    while let Some(after) = forest.next(i, end) {
        if is_empty(forest, after, end) {
            return Ok((premises, i));
        }
        step_at(steps, lexicon, assertions, forest, i)?;
        premises.push(steps.nodes.len() as u64 - 1)?;
        i = after;
    }
    Err(FormFailure::Refused)
}
