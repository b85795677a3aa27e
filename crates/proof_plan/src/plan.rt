//! A proof as numbered rule applications.
ghost use Rattle.std.specs.Prelude.{◌≡◌, ◌<◌, ◌-◌, length, All};
ghost use Rattle.proof_plan.specs.PlanValue.{PlanValue, node_at, claim_of};
ghost use Rattle.proof_plan.specs.Claims.{Facts, Context, Hyps};
ghost use Rattle.hol_terms.specs.Formula.{AllFormulas};
ghost use Rattle.proof_plan.specs.IsPlan.{IsPlan, IsNode, IsFormulaIn, IsAssertionIn, IsDefinitionIn};
ghost use Rattle.proof_plan.specs.Accept.{Accept};
ghost use Rattle.proof_plan.specs.PlainReplay.{PlainReplay, ProvedBelow, by_premises, state_of};
ghost use Rattle.hol_terms.specs.Constants.{false_tm};

use crate::node::PlanNode;
use crate::step::Task;
use hol_terms::{Def, Frozen, Parts};
use hol_types::List;
use std::marker::Model;

/// A proof of `false` from the assertions of a problem, as rule applications numbered so that each premise
/// comes before what uses it. Contracts see it as plain data, of which `IsPlan` holds.
pub struct Plan {
    base: Frozen,
    parts: Parts,
    nodes: List<PlanNode>,
    definitions: List<Def>,
}

impl Drop for Plan {
    fn drop(self) {
        let Plan {
            base: _,
            parts: _,
            nodes: _,
            definitions: _,
        } = self;
    }
}

impl Model for Plan {
    ghost use Rattle.proof_plan.specs.PlanValue.{PlanValue};
    ghost use Rattle.proof_plan.specs.IsPlan.{IsPlan};

    ghost Value = { PlanValue };

    ghost view = { λ p. record { store = p.base; parts = p.parts; nodes = p.nodes; definitions = p.definitions } };

    ghost invariant = { λ p. IsPlan (record { store = p.base; parts = p.parts; nodes = p.nodes; definitions = p.definitions }) };
}

impl Plan {
    /// The plan of these nodes over these terms. The last node is the root.
    pub fn new(base: Frozen, parts: Parts, nodes: List<PlanNode>, definitions: List<Def>) -> Plan
        requires { IsPlan (record { store = base; parts = parts; nodes = nodes; definitions = definitions }) }
        ensures { result ≡ record { store = base; parts = parts; nodes = nodes; definitions = definitions } }
    {
        Plan {
            base,
            parts,
            nodes,
            definitions,
        }
    }

    /// The terms.
    pub fn base(&self) -> &Frozen
        ensures { result.now ≡ self.now.store }
    {
        &self.base
    }

    /// The facts, the goal and the assertions.
    pub fn parts(&self) -> &Parts
        ensures is { result.now ≡ self.now.parts }
        ensures facts { All (IsFormulaIn self.now) result.now.facts }
        ensures goal { IsFormulaIn self.now result.now.goal }
        ensures assertions { All (IsAssertionIn self.now) result.now.assertions }
        ensures fact_formulas { AllFormulas (Facts self.now) }
        ensures context_formulas { AllFormulas (Context self.now) }
    {
        &self.parts
    }

    /// What the symbols stand for.
    pub fn definitions(&self) -> &[Def]
        ensures is { result.now ≡ self.now.definitions }
        ensures there { All (IsDefinitionIn self.now) result.now }
    {
        self.definitions.as_slice()
    }

    /// Node `k`.
    pub fn node(&self, k: u64) -> &PlanNode
        requires { k < length self.now.nodes }
        ensures is { result.now ≡ node_at self.now k }
        ensures node { IsNode self.now k result.now }
        ensures hyps { AllFormulas (Hyps self.now k) }
        ensures plain { PlainReplay self.now k ≡ by_premises self.now k }
        ensures first { ProvedBelow self.now k → PlainReplay self.now k ≡ state_of (Accept self.now k) }
    {
        &self.nodes.as_slice()[k as usize]
    }

    /// How many nodes there are: 1 to 400,000.
    pub fn len(&self) -> u64
        ensures is { result ≡ length self.now.nodes }
        ensures some { 0 < result }
        ensures few { result < 400001 }
    {
        self.nodes.len() as u64
    }

    /// The number of the last node, whose claim is `false`.
    pub fn root(&self) -> u64
        ensures is { result ≡ length self.now.nodes - 1 }
        ensures there { result < length self.now.nodes }
        ensures claim { claim_of self.now result ≡ false_tm }
        ensures lawful { IsPlan self.now }
    {
        self.nodes.len() as u64 - 1
    }

    /// The terms, with the facts, the goal and the assertions. The rule applications are let go.
    pub fn into_parts(self) -> (Frozen, Parts)
        ensures terms { result.0 ≡ self.store }
        ensures parts { result.1 ≡ self.parts }
        ensures lawful { IsPlan self }
    {
        let Plan {
            base,
            parts,
            nodes: _,
            definitions: _,
        } = self;
        (base, parts)
    }
}

/// Node `k` of the plan.
pub fn task(plan: &Plan, k: u64) -> Task<'_>
    requires { k < length plan.now.nodes }
    ensures plan { result.plan ≡ plan.now }
    ensures node { result.node ≡ k }
{
    Task::new(plan, k)
}
