//! The names of rules and texts of causes, and a plan of two nodes.
ghost use Rattle.std.specs.Prelude.{◌≡◌, [], ◌∷◌, IfOk};
ghost use Rattle.call_tests.specs.Small.{asserted_false, resolved_false};
ghost use Rattle.hol_types.specs.Ty.{BoolTy};
ghost use Rattle.hol_terms.specs.Term.{ConstTm};
ghost use Rattle.hol_terms.specs.TermStore.{term_tree, HasTerm};

use crate::lists::one;
use hol_terms::{Base, Node, Parts, TermId, Terms};
use hol_types::{List, TypeNode};
use proof_plan::{Plan, PlanNode, Rule, State, Task, Weight, Why, append_why, may_be_shared, task};
use std::alloc::{AllocError, Global};
use std::process::Abort;
use std::test::Fail;

// The constant of type Bool.
fn constant(base: &mut Base, text: &[u8]) -> Result<TermId, Fail>
    ensures there { IfOk result (λ t. HasTerm base.new t) }
    ensures tree { IfOk result (λ t. term_tree base.new t ≡ ConstTm text.now BoolTy) }
{
    let name = base.name(text)?;
    let ty = base.intern_type(TypeNode::Bool)?;
    let t = base.intern(Node::Const(name, ty))?;
    Ok(t)
}

fn no_items<T: Drop>(alloc: Global) -> List<T>
    ensures { result ≡ [] }
{
    List::new(Vec::new(alloc))
}

fn two<T: Drop>(alloc: Global, first: T, second: T) -> Result<List<T>, AllocError>
    ensures { IfOk result (λ list. list ≡ first ∷ second ∷ []) }
{
    let mut list = one(alloc, first)?;
    list.push(second)?;
    Ok(list)
}

// A rule application over no variables and hypotheses.
fn node(alloc: Global, rule: Rule, place: u64, premises: List<u64>, claim: TermId) -> PlanNode
    ensures { result ≡ record { name = []; place = place; rule = rule; weights = []; premises = premises; vars = []; claim = claim; hyps = [] } }
{
    PlanNode {
        name: no_items(alloc),
        place,
        rule,
        weights: no_items(alloc),
        premises,
        vars: no_items(alloc),
        claim,
        hyps: no_items(alloc),
    }
}

// `false` is asserted, and follows.
fn two_nodes(alloc: Global, falsity: TermId) -> Result<List<PlanNode>, AllocError>
    ensures { IfOk result (λ nodes. nodes ≡ asserted_false falsity ∷ resolved_false falsity ∷ []) }
{
    let premises = one(alloc, 0)?;
    let first = node(alloc, Rule::Asserted, 7, no_items(alloc), falsity);
    let second = node(alloc, Rule::UnitResolution, 24, premises, falsity);
    let nodes = two(alloc, first, second)?;
    Ok(nodes)
}

// `false` is to be shown, and asserted.
fn problem(alloc: Global, falsity: TermId) -> Result<Parts, AllocError>
    ensures { IfOk result (λ parts. parts ≡ record { facts = []; goal = falsity; assertions = falsity ∷ []; defs = []; origins = [] }) }
{
    let assertions = one(alloc, falsity)?;
    Ok(Parts {
        facts: no_items(alloc),
        goal: falsity,
        assertions,
        defs: no_items(alloc),
        origins: no_items(alloc),
    })
}

// The plan of these.
fn small(alloc: Global) -> Result<Plan, Fail> {
    let mut base = Base::new(alloc);
    let falsity = constant(&mut base, b"false")?;
    let parts = problem(alloc, falsity)?;
    let nodes = two_nodes(alloc, falsity)?;
    Ok(Plan::new(base.freeze(), parts, nodes, no_items(alloc)))
}

// Whether the task is the second node of that plan.
fn is_second(task: &Task<'_>) -> bool {
    task.number() == 1 && task.node().place == 24 && task.rule() == Rule::UnitResolution
}

// Whether its one premise is the first node, and claims the same.
fn follows_from_first(task: &Task<'_>) -> bool {
    task.premises() == [0].as_slice() && task.premise_claim(0) == task.claim()
}

fn assert_two_nodes(rt: &impl Abort, plan: &Plan) {
    assert_eq!(rt; plan.len(), 2);
    assert_eq!(rt; plan.root(), 1);
    let second = task(plan, plan.root());
    assert!(rt; is_second(&second));
    assert!(rt; follows_from_first(&second));
    assert_eq!(rt; second.hyps().len(), 0);
}

fn assert_problem(rt: &impl Abort, plan: &Plan) {
    assert_eq!(rt; plan.parts().assertions.len(), 1);
    assert_eq!(rt; plan.definitions().len(), 0);
    assert!(rt; plan.base().is_closed(plan.parts().goal));
}

#[test]
fn a_plan_shows_its_nodes(rt: HostRuntime) -> Result<(), Fail> {
    let plan = small(rt.alloc())?;
    may_be_shared(&plan);
    assert_two_nodes(&rt, &plan);
    assert_problem(&rt, &plan);
    let (_base, parts) = plan.into_parts();
    assert_eq!(rt; parts.facts.len(), 0);
    Ok(())
}

#[test]
fn rules_have_their_names(rt: HostRuntime) {
    // Some of Z3's names, with numbers of premises that the rule takes and that it doesn't take.
    let rows: [(Rule, &str, usize, usize); 8] = [
        (Rule::Asserted, "asserted", 0, 1),
        (Rule::Mp, "mp", 2, 1),
        (Rule::MpTilde, "mp~", 2, 3),
        (Rule::TransStar, "trans*", 5, 0),
        (Rule::NotOrElim, "not-or-elim", 1, 0),
        (Rule::UnitResolution, "unit-resolution", 1, 0),
        (Rule::QuantInst, "quant-inst", 0, 1),
        (Rule::ApplyDef, "apply-def", 1, 2),
    ];
    for (rule, name, some, other) in rows {
        assert_eq!(rt; rule.name(), name);
        assert!(rt; rule.takes(some));
        assert!(rt; !rule.takes(other));
    }
    assert!(rt; Rule::ThLemma.takes(0));
    assert!(rt; Rule::ThLemma.takes(9));
}

#[test]
fn causes_have_their_texts(rt: HostRuntime) -> Result<(), Fail> {
    let rows: [(Why, &str); 8] = [
        (Why::Shape, "failed: Shape"),
        (Why::NotConsequence(0), "failed: NotConsequence 0"),
        (Why::TooManyAtoms(13), "failed: TooManyAtoms 13"),
        (
            Why::NotLinear(4_294_967_294),
            "failed: NotLinear at 4294967294",
        ),
        (Why::Overflow(4), "failed: Overflow at 4"),
        (Why::Overflow(4_294_967_295), "failed: Overflow at constant"),
        (Why::NotSame(100), "failed: NotSame at 100"),
        (
            Why::VariableInHypothesis(2),
            "failed: VariableInHypothesis 2",
        ),
    ];
    for (why, text) in rows {
        let mut out = b"failed: ".to_vec(rt.alloc())?;
        append_why(&mut out, why)?;
        assert_eq!(rt; out.as_slice(), text.as_bytes());
        assert!(rt; !State::Failed(why).is_proved());
    }
    let half = Weight::new(-1, 2);
    assert_eq!(rt; (half.above(), half.below()), (-1, 2));
    Ok(())
}
