//! Each derived rule once where it applies, and once where its condition fails. The expected values are the rules, worked by
//! hand. Here x is a
//! Schematic variable of type Bool.
ghost use Rattle.std.specs.Prelude.{◌≡◌, ℕ, IfOk};
ghost use Rattle.hol_terms.specs.Substitution.{IsClosed};
ghost use Rattle.hol_terms.specs.TermStore.{HasTerm, Keeps, term_tree};
ghost use Rattle.lcf_kernel.specs.KernelState.{HasThm, records_of};
ghost use Rattle.hol_match.specs.Inst.{HasInst};

use crate::duals::each_law;
use hol_logic::{cong, cut, drop_definition, instance, sym, trans, under_all, under_ex};
use hol_match::{Inst, match_term};
use hol_terms::{Base, FreeKind, Frozen, Node, TermId, Terms};
use hol_types::TypeNode;
use lcf_kernel::{Kernel, RuleFault, ThmId};
use std::alloc::Global;
use std::process::Abort;
use std::test::Fail;

/// A small formula.
#[derive(Clone, Copy)]
enum Formula {
    True,
    False,
    X,
    NotTrue,
    NotX,
    AllTrue,
    AllFalse,
    SomeTrue,
    SomeFalse,
}

// The variable x.
#[tactic(auto, using(hol_terms::proofs::KeepsLemmas::keeps_trans))]
pub(crate) fn variable(k: &mut Kernel<'_>) -> Result<TermId, Fail>
    ensures there { IfOk result (λ t. HasTerm k.new.store t) }
    ensures keeps { Keeps k.old.store k.new.store }
    ensures records { records_of k.new ≡ records_of k.old }
{
    let name = k.name(b"x")?;
    let truth = k.constants().truth;
    let ty = k.ty(truth);
    let v = k.intern(Node::Free(FreeKind::Schematic, name, ty))?;
    Ok(v)
}

// `(not x)`, or `(not true)`.
#[tactic(auto, using(hol_terms::proofs::KeepsLemmas::keeps_trans))]
fn negation(k: &mut Kernel<'_>, of_variable: bool) -> Result<TermId, Fail>
    ensures there { IfOk result (λ t. HasTerm k.new.store t) }
    ensures keeps { Keeps k.old.store k.new.store }
    ensures records { records_of k.new ≡ records_of k.old }
{
    let v = variable(k)?;
    let constants = k.constants();
    let part = if of_variable { v } else { constants.truth };
    let t = k.intern(Node::App(constants.not, part))?;
    Ok(t)
}

// The constant of a quantifier over Bool.
#[tactic(auto, using(hol_terms::proofs::KeepsLemmas::keeps_trans))]
pub(crate) fn quantifier(k: &mut Kernel<'_>, name: &[u8]) -> Result<TermId, Fail>
    ensures there { IfOk result (λ t. HasTerm k.new.store t) }
    ensures keeps { Keeps k.old.store k.new.store }
    ensures records { records_of k.new ≡ records_of k.old }
{
    let name = k.name(name)?;
    let constants = k.constants();
    let bool = k.ty(constants.truth);
    let predicate = k.ty(constants.not);
    let ty = k.intern_type(TypeNode::Fun(predicate, bool))?;
    let t = k.intern(Node::Const(name, ty))?;
    Ok(t)
}

// `true` or `false` of all x, or of some.
#[tactic(auto, using(hol_terms::proofs::KeepsLemmas::keeps_trans))]
fn quantified(k: &mut Kernel<'_>, name: &[u8], holds: bool) -> Result<TermId, Fail>
    ensures there { IfOk result (λ t. HasTerm k.new.store t) }
    ensures keeps { Keeps k.old.store k.new.store }
    ensures records { records_of k.new ≡ records_of k.old }
{
    let head = quantifier(k, name)?;
    let constants = k.constants();
    let bool = k.ty(constants.truth);
    let body = if holds {
        constants.truth
    } else {
        constants.falsity
    };
    let p = k.intern(Node::Lam(bool, body))?;
    let t = k.intern(Node::App(head, p))?;
    Ok(t)
}

fn term(k: &mut Kernel<'_>, f: Formula) -> Result<TermId, Fail>
    ensures there { IfOk result (λ t. HasTerm k.new.store t) }
    ensures keeps { Keeps k.old.store k.new.store }
    ensures records { records_of k.new ≡ records_of k.old }
{
    match f {
        Formula::True => Ok(k.constants().truth),
        Formula::False => Ok(k.constants().falsity),
        Formula::X => variable(k),
        Formula::NotTrue => negation(k, false),
        Formula::NotX => negation(k, true),
        Formula::AllTrue => quantified(k, b"all", true),
        Formula::AllFalse => quantified(k, b"all", false),
        Formula::SomeTrue => quantified(k, b"ex", true),
        Formula::SomeFalse => quantified(k, b"ex", false),
    }
}

// The constant `=` on Bool.
#[tactic(auto, using(hol_terms::proofs::KeepsLemmas::keeps_trans))]
pub(crate) fn equality(k: &mut Kernel<'_>) -> Result<TermId, Fail>
    ensures there { IfOk result (λ t. HasTerm k.new.store t) }
    ensures keeps { Keeps k.old.store k.new.store }
    ensures records { records_of k.new ≡ records_of k.old }
{
    let name = k.name(b"eq")?;
    let constants = k.constants();
    let ty = k.ty(constants.and);
    let t = k.intern(Node::Const(name, ty))?;
    Ok(t)
}

// `(= a b)`
#[tactic(auto, using(hol_terms::proofs::KeepsLemmas::keeps_trans))]
fn equation(rt: &impl Abort, k: &mut Kernel<'_>, a: Formula, b: Formula) -> Result<TermId, Fail>
    ensures there { IfOk result (λ t. HasTerm k.new.store t) }
    ensures closed { IfOk result (λ t. IsClosed (term_tree k.new.store t)) }
    ensures records { records_of k.new ≡ records_of k.old }
{
    let left = term(k, a)?;
    let right = term(k, b)?;
    let head = equality(k)?;
    let f = k.intern(Node::App(head, left))?;
    let t = k.intern(Node::App(f, right))?;
    assert!(rt; k.is_closed(t));
    Ok(t)
}

// `(= a b)` from itself.
#[tactic(auto, using(lcf_kernel::proofs::KeptLemmas::has_kept, crate::proofs::TestLemmas::has_before))]
fn assumed(rt: &impl Abort, k: &mut Kernel<'_>, a: Formula, b: Formula) -> Result<ThmId, Fail>
    ensures there { IfOk result (λ t. HasThm k.new t) }
    ensures records { (t : ℕ) → HasThm k.old t → HasThm k.new t }
{
    let f = equation(rt, k, a, b)?;
    let t = k.assume(f)?;
    Ok(t)
}

// `true` under `(= a b)`.
#[tactic(auto, using(lcf_kernel::proofs::KeptLemmas::has_kept, crate::proofs::TestLemmas::has_before))]
fn truth_under(rt: &impl Abort, k: &mut Kernel<'_>, a: Formula, b: Formula) -> Result<ThmId, Fail>
    ensures there { IfOk result (λ t. HasThm k.new t) }
    ensures records { (t : ℕ) → HasThm k.old t → HasThm k.new t }
{
    let truth = k.true_i()?;
    let f = equation(rt, k, a, b)?;
    let t = k.weaken(truth, f)?;
    assert_eq!(rt; k.hyps(t).len(), 1);
    Ok(t)
}

// A record that concludes `(= a b)` under so many hypotheses.
#[tactic(auto, using(crate::proofs::TestLemmas::has_before))]
fn assert_equation(
    rt: &impl Abort,
    k: &mut Kernel<'_>,
    t: ThmId,
    a: Formula,
    b: Formula,
    hyps: usize,
) -> Result<(), Fail>
    requires { HasThm k.old t }
    ensures records { (u : ℕ) → HasThm k.old u → HasThm k.new u }
{
    let f = equation(rt, k, a, b)?;
    assert_eq!(rt; k.concl(t), f);
    assert_eq!(rt; k.hyps(t).len(), hyps);
    Ok(())
}

// A record that concludes `true` under no hypotheses.
fn assert_truth(rt: &impl Abort, k: &Kernel<'_>, t: ThmId)
    requires { HasThm k.now t }
{
    assert_eq!(rt; k.concl(t), k.constants().truth);
    assert!(rt; k.hyps(t).is_empty());
}

// From true = x, x = true, and true = true; x = true doesn't go on from true = x twice. `true` is no equation.
#[tactic(auto, using(lcf_kernel::proofs::KeptLemmas::has_kept))]
fn equations(rt: &impl Abort, k: &mut Kernel<'_>) -> Result<(), Fail> {
    let a = assumed(rt, k, Formula::True, Formula::X)?;
    let back = sym(k, a)?;
    let whole = trans(k, a, back)?;
    assert_equation(rt, k, back, Formula::X, Formula::True, 1)?;
    assert_equation(rt, k, whole, Formula::True, Formula::True, 1)?;
    assert_eq!(rt; trans(k, a, a), Err(RuleFault::Shape));
    let truth = k.true_i()?;
    assert_eq!(rt; sym(k, truth), Err(RuleFault::Shape));
    Ok(())
}

// From not = not and true = x, (not true) = (not x); truth values are no functions.
#[tactic(auto, using(lcf_kernel::proofs::KeptLemmas::has_kept, hol_formulas::proofs::SmallLemmas::not_closed))]
fn congruences(rt: &impl Abort, k: &mut Kernel<'_>) -> Result<(), Fail> {
    let constants = k.constants();
    let functions = k.refl(constants.not)?;
    let arguments = assumed(rt, k, Formula::True, Formula::X)?;
    assert_eq!(rt; cong(k, arguments, functions), Err(RuleFault::Shape));
    let r = cong(k, functions, arguments)?;
    assert_equation(rt, k, r, Formula::NotTrue, Formula::NotX, 1)?;
    Ok(())
}

// `true` under true = true, which is proved.
#[tactic(auto, using(lcf_kernel::proofs::KeptLemmas::has_kept, hol_formulas::proofs::SmallLemmas::truth_closed))]
fn cuts(rt: &impl Abort, k: &mut Kernel<'_>) -> Result<(), Fail> {
    let constants = k.constants();
    let proved = k.refl(constants.truth)?;
    let under = truth_under(rt, k, Formula::True, Formula::True)?;
    let r = cut(k, proved, under)?;
    assert_truth(rt, k, r);
    Ok(())
}

// true = true is no hypothesis of what is under x = true.
#[tactic(auto, using(lcf_kernel::proofs::KeptLemmas::has_kept, hol_formulas::proofs::SmallLemmas::truth_closed))]
fn no_cuts(rt: &impl Abort, k: &mut Kernel<'_>) -> Result<(), Fail> {
    let constants = k.constants();
    let proved = k.refl(constants.truth)?;
    let under = truth_under(rt, k, Formula::X, Formula::True)?;
    assert_eq!(rt; cut(k, proved, under), Err(RuleFault::Shape));
    Ok(())
}

// From true = false, the same of all x, and of some.
#[tactic(auto, using(lcf_kernel::proofs::KeptLemmas::has_kept, crate::proofs::TestLemmas::has_before))]
fn all_values(rt: &impl Abort, k: &mut Kernel<'_>) -> Result<(), Fail> {
    let a = assumed(rt, k, Formula::True, Formula::False)?;
    let x = variable(k)?;
    let r = under_all(k, a, x)?;
    assert_equation(rt, k, r, Formula::AllTrue, Formula::AllFalse, 1)?;
    Ok(())
}

#[tactic(auto, using(lcf_kernel::proofs::KeptLemmas::has_kept, crate::proofs::TestLemmas::has_before))]
fn some_value(rt: &impl Abort, k: &mut Kernel<'_>) -> Result<(), Fail> {
    let a = assumed(rt, k, Formula::True, Formula::False)?;
    let x = variable(k)?;
    let r = under_ex(k, a, x)?;
    assert_equation(rt, k, r, Formula::SomeTrue, Formula::SomeFalse, 1)?;
    Ok(())
}

// x is free in the hypothesis true = x.
#[tactic(auto, using(lcf_kernel::proofs::KeptLemmas::has_kept, crate::proofs::TestLemmas::has_before))]
fn bound_hypotheses(rt: &impl Abort, k: &mut Kernel<'_>) -> Result<(), Fail> {
    let a = assumed(rt, k, Formula::True, Formula::X)?;
    let x = variable(k)?;
    assert_eq!(rt; under_all(k, a, x), Err(RuleFault::Shape));
    let x = variable(k)?;
    assert_eq!(rt; under_ex(k, a, x), Err(RuleFault::Shape));
    Ok(())
}

// `true` under x = true holds without it. x = true doesn't.
#[tactic(auto, using(lcf_kernel::proofs::KeptLemmas::has_kept, crate::proofs::TestLemmas::has_before))]
fn definitions(rt: &impl Abort, k: &mut Kernel<'_>) -> Result<(), Fail> {
    let under = truth_under(rt, k, Formula::X, Formula::True)?;
    let d = equation(rt, k, Formula::X, Formula::True)?;
    let r = drop_definition(k, under, d)?;
    assert_truth(rt, k, r);
    let own = assumed(rt, k, Formula::X, Formula::True)?;
    let d = equation(rt, k, Formula::X, Formula::True)?;
    assert_eq!(rt; drop_definition(k, own, d), Err(RuleFault::Shape));
    Ok(())
}

// `true` for x.
#[tactic(auto, using(hol_terms::proofs::KeepsLemmas::keeps_trans, crate::proofs::TestLemmas::has_before))]
fn truth_for_x(k: &mut Kernel<'_>) -> Result<Inst, Fail>
    ensures terms { IfOk result (λ i. HasInst k.new.store k.new.store i) }
    ensures records { (t : ℕ) → HasThm k.old t → HasThm k.new t }
{
    let x = variable(k)?;
    let truth = k.constants().truth;
    let found = match_term(k, x, truth)?;
    Ok(found.ok_or("no match")?)
}

// From x = x, true = true.
#[tactic(auto, using(lcf_kernel::proofs::KeptLemmas::has_kept, crate::proofs::TestLemmas::has_before))]
fn instances(rt: &impl Abort, k: &mut Kernel<'_>) -> Result<(), Fail> {
    let x = variable(k)?;
    assert!(rt; k.is_closed(x));
    let same = k.refl(x)?;
    let inst = truth_for_x(k)?;
    let r = instance(k, same, &inst)?;
    assert_equation(rt, k, r, Formula::True, Formula::True, 0)?;
    Ok(())
}

// x is free in the hypothesis true = x.
fn no_instances(rt: &impl Abort, k: &mut Kernel<'_>) -> Result<(), Fail> {
    let a = assumed(rt, k, Formula::True, Formula::X)?;
    let inst = truth_for_x(k)?;
    assert_eq!(rt; instance(k, a, &inst), Err(RuleFault::Shape));
    Ok(())
}

fn each_rule(rt: &impl Abort, k: &mut Kernel<'_>) -> Result<(), Fail> {
    each_law(rt, k)?;
    equations(rt, k)?;
    congruences(rt, k)?;
    cuts(rt, k)?;
    no_cuts(rt, k)?;
    all_values(rt, k)?;
    some_value(rt, k)?;
    bound_hypotheses(rt, k)?;
    definitions(rt, k)?;
    instances(rt, k)?;
    no_instances(rt, k)
}

#[tactic(auto, using(hol_formulas::proofs::SmallLemmas::no_formulas_there, hol_formulas::proofs::SmallLemmas::no_context))]
fn over_nothing(rt: &impl Abort, alloc: Global, frozen: &Frozen) -> Result<(), Fail> {
    let mut k = Kernel::new(alloc, frozen, &[], &[])?;
    each_rule(rt, &mut k)
}

#[test]
fn derived_rules(rt: HostRuntime) -> Result<(), Fail> {
    let base = Base::new(rt.alloc());
    over_nothing(&rt, rt.alloc(), &base.freeze())
}
