//! One node of a plan.
ghost use Rattle.std.specs.Prelude.{◌≡◌, ℕ, ◌<◌, length, All};
ghost use Rattle.proof_plan.specs.Rules.{TakesPremises};
ghost use Rattle.hol_terms.specs.Formula.{AllFormulas, In, Within};
ghost use Rattle.proof_plan.specs.PlanValue.{node_at, rule_of, premises_of, premise_at, claim_of};
ghost use Rattle.proof_plan.specs.Claims.{Context, Hyps};
ghost use Rattle.proof_plan.specs.OpenHypotheses.{PassesHyps};
ghost use Rattle.proof_plan.specs.IsPlan.{IsNode, IsFormulaIn, StatesAssertion};
ghost use Rattle.proof_plan.specs.Accept.{Accept};
ghost use Rattle.proof_plan.specs.PlainReplay.{PlainReplay, ProvedBelow, by_premises, state_of};
ghost use Rattle.proof_plan.specs.Rows.{IsRow};

use crate::node::PlanNode;
use crate::plan::Plan;
use crate::rule::Rule;
use hol_terms::TermId;
use std::marker::Model;

/// A node of a plan, as a replay method reads it.
#[derive(Drop)]
pub struct Task<'p> {
    plan: &'p Plan,
    node: u64,
}

impl<'p> Model for Task<'p> {
    ghost use Rattle.std.specs.Prelude.{◌<◌, length};
    ghost use Rattle.proof_plan.specs.Tasks.{TaskValue};

    ghost Value = { TaskValue };

    ghost view = { λ t. record { plan = t.plan.now; node = t.node } };

    ghost invariant = { λ t. t.node < length t.plan.now.nodes };
}

impl<'p> Task<'p> {
    /// Node `node` of the plan.
    pub(crate) fn new(plan: &'p Plan, node: u64) -> Task<'p>
        requires { node < length plan.now.nodes }
        ensures plan { result.plan ≡ plan.now }
        ensures node { result.node ≡ node }
    {
        Task { plan, node }
    }
    /// The plan.
    pub fn plan(&self) -> &Plan
        ensures { result.now ≡ self.now.plan }
    {
        self.plan
    }

    /// The number of the node.
    pub fn number(&self) -> u64
        ensures is { result ≡ self.now.node }
        ensures there { result < length self.now.plan.nodes }
    {
        self.node
    }

    /// The node, with its weights, variables and open hypotheses.
    pub fn node(&self) -> &PlanNode
        ensures is { result.now ≡ node_at self.now.plan self.now.node }
        ensures node { IsNode self.now.plan self.now.node result.now }
        ensures hyps { AllFormulas (Hyps self.now.plan self.now.node) }
        ensures plain { PlainReplay self.now.plan self.now.node ≡ by_premises self.now.plan self.now.node }
        ensures first { ProvedBelow self.now.plan self.now.node → PlainReplay self.now.plan self.now.node ≡ state_of (Accept self.now.plan self.now.node) }
    {
        self.plan.node(self.node)
    }

    /// The rule of the node, with its row of acceptance.
    pub fn rule(&self) -> Rule
        ensures is { result ≡ rule_of self.now.plan self.now.node }
        ensures row { IsRow self.now.plan self.now.node result }
    {
        self.node().rule
    }

    /// The claim of the node.
    pub fn claim(&self) -> TermId
        ensures is { result ≡ (node_at self.now.plan self.now.node).claim }
        ensures formula { IsFormulaIn self.now.plan result }
        ensures asserted { StatesAssertion (rule_of self.now.plan self.now.node) → In result self.now.plan.parts.assertions }
        ensures in_context { StatesAssertion (rule_of self.now.plan self.now.node) → In (claim_of self.now.plan self.now.node) (Context self.now.plan) }
    {
        self.node().claim
    }

    /// The numbers of the premises of the node.
    pub fn premises(&self) -> &[u64]
        ensures is { result.now ≡ premises_of self.now.plan self.now.node }
        ensures count { TakesPremises (rule_of self.now.plan self.now.node) (length result.now) }
        ensures below { All (λ j. j < self.now.node) result.now }
        ensures hyps { PassesHyps (rule_of self.now.plan self.now.node) → (i : ℕ) → i < length (premises_of self.now.plan self.now.node) → Within (Hyps self.now.plan (premise_at self.now.plan self.now.node i)) (Hyps self.now.plan self.now.node) }
    {
        self.node().premises.as_slice()
    }

    /// The claim of the premise of the node at a place, counted from 0.
    pub fn premise_claim(&self, i: usize) -> TermId
        requires { i < length (premises_of self.now.plan self.now.node) }
        ensures is { result ≡ (node_at self.now.plan (premise_at self.now.plan self.now.node i)).claim }
        ensures formula { IsFormulaIn self.now.plan result }
    {
        let premise = self.premises()[i];
        self.plan.node(premise).claim
    }

    /// The open hypotheses of the node.
    pub fn hyps(&self) -> &[TermId]
        ensures is { result.now ≡ (node_at self.now.plan self.now.node).hyps }
        ensures there { All (IsFormulaIn self.now.plan) result.now }
    {
        self.node().hyps.as_slice()
    }
}
