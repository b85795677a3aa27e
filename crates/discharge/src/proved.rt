//! Goals that follow from facts.
ghost use Rattle.std.specs.Prelude.{◌≡◌, ◌-◌, [], length, All};
ghost use Rattle.hol_terms.specs.Derivable.{Derivable};
ghost use Rattle.proof_plan.specs.PlanValue.{tree_in};
ghost use Rattle.proof_plan.specs.Claims.{Claim, Facts};
ghost use Rattle.discharge.specs.Negation.{AssertsNegation};
ghost use Rattle.discharge.specs.ProvedValue.{HasFormula, IsProved, fact_trees, goal_tree};

use hol_terms::{Frozen, TermId};
use hol_types::List;
use proof_plan::Plan;
use std::marker::Model;

/// A goal without hypotheses, and the facts that it is derivable from. Only `finish` makes one.
#[derive(Drop)]
pub struct Proved {
    base: Frozen,
    facts: List<TermId>,
    goal: TermId,
}

impl Model for Proved {
    ghost use Rattle.discharge.specs.ProvedValue.{ProvedValue, IsProved};

    ghost Value = { ProvedValue };

    ghost view = { λ p. record { store = p.base; facts = p.facts; goal = p.goal } };

    ghost invariant = { λ p. IsProved (record { store = p.base; facts = p.facts; goal = p.goal }) };
}

impl Proved {
    /// The terms.
    pub fn base(&self) -> &Frozen
        ensures { result.now ≡ self.now.store }
    {
        &self.base
    }

    /// The facts.
    pub fn facts(&self) -> &[TermId]
        ensures is { result.now ≡ self.now.facts }
        ensures formulas { All (HasFormula self.now.store) result.now }
    {
        self.facts.as_slice()
    }

    /// The goal, which is derivable from the facts.
    pub fn goal(&self) -> TermId
        ensures is { result ≡ self.now.goal }
        ensures formula { HasFormula self.now.store result }
        ensures derivable { Derivable (fact_trees self.now) [] (goal_tree self.now) }
    {
        self.goal
    }

    /// The terms, the facts and the goal.
    pub fn into_parts(self) -> (Frozen, List<TermId>, TermId)
        ensures terms { result.0 ≡ self.store }
        ensures facts { result.1 ≡ self.facts }
        ensures goal { result.2 ≡ self.goal }
        ensures proved { IsProved self }
    {
        (self.base, self.facts, self.goal)
    }
}

/// The goal of a plan, from its facts alone.
///
/// The root's claim holds, and its only hypotheses are the facts and the negation of the goal: the assertions are these,
/// and nothing is defined.
//
//     facts, not goal |- false
//    -------------------------- classical, and each fact from itself
//          facts |- goal
pub fn finish(plan: Plan) -> Proved
    requires root { Claim plan (length plan.nodes - 1) }
    requires assertions { AssertsNegation plan }
    requires no_definitions { plan.definitions ≡ [] }
    ensures is { result ≡ record { store = plan.store; facts = plan.parts.facts; goal = plan.parts.goal } }
    ensures derivable { Derivable (Facts plan) [] (tree_in plan plan.parts.goal) }
{
    let (base, parts) = plan.into_parts();
    Proved {
        base,
        facts: parts.facts,
        goal: parts.goal,
    }
}
