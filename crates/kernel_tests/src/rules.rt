//! Each rule of the kernel once where it applies, and once where its condition fails. The expected values are the rules of
//! natural deduction, worked by hand.
use crate::small_records::{assert_record, falsity, symbol};
use hol_terms::{Base, Frozen};
use lcf_kernel::{Kernel, RuleFault};
use std::alloc::Global;
use std::process::Abort;
use std::test::Fail;

// From false, false and false; then each side. `false` is no conjunction.
#[tactic(auto, using(lcf_kernel::proofs::KeptLemmas::has_kept))]
fn conjunctions(rt: &impl Abort, k: &mut Kernel<'_>) -> Result<(), Fail> {
    let p = falsity(k);
    let a = k.assume(p)?;
    let both = k.and_i(a, a)?;
    let left = k.and_e1(both)?;
    assert_record(rt, k, left, &[p], p);
    let right = k.and_e2(both)?;
    assert_record(rt, k, right, &[p], p);
    assert_eq!(rt; k.and_e1(right), Err(RuleFault::Shape));
    assert_eq!(rt; k.and_e2(right), Err(RuleFault::Shape));
    Ok(())
}

// From false, false or false, and from that, false in either case. `false` is no disjunction, and `not` no formula.
#[tactic(auto, using(lcf_kernel::proofs::KeptLemmas::has_kept))]
fn disjunctions(rt: &impl Abort, k: &mut Kernel<'_>) -> Result<(), Fail> {
    let p = falsity(k);
    let a = k.assume(p)?;
    let p = falsity(k);
    let either = k.or_i1(a, p)?;
    let r = k.or_e(either, a, a)?;
    assert_record(rt, k, r, &[p], p);
    assert_eq!(rt; k.or_e(a, a, a), Err(RuleFault::Shape));
    let not = symbol(k);
    assert_eq!(rt; k.or_i1(a, not), Err(RuleFault::Shape));
    let not = symbol(k);
    assert_eq!(rt; k.or_i2(not, a), Err(RuleFault::Shape));
    Ok(())
}

// Not false, from nothing; that isn't false.
#[tactic(auto, using(lcf_kernel::proofs::KeptLemmas::has_kept))]
fn negations(rt: &impl Abort, k: &mut Kernel<'_>) -> Result<(), Fail> {
    let p = falsity(k);
    let a = k.assume(p)?;
    let p = falsity(k);
    let n = k.not_i(a, p)?;
    assert!(rt; k.hyps(n).is_empty());
    let p = falsity(k);
    assert_eq!(rt; k.not_i(n, p), Err(RuleFault::Shape));
    Ok(())
}

// True from nothing, and from false.
#[tactic(auto, using(lcf_kernel::proofs::KeptLemmas::has_kept))]
fn weakenings(rt: &impl Abort, k: &mut Kernel<'_>) -> Result<(), Fail> {
    let t = k.true_i()?;
    assert_record(rt, k, t, &[], k.constants().truth);
    let p = falsity(k);
    let w = k.weaken(t, p)?;
    assert_record(rt, k, w, &[p], k.constants().truth);
    let not = symbol(k);
    assert_eq!(rt; k.weaken(w, not), Err(RuleFault::Shape));
    Ok(())
}

// False equals false, from nothing, in two ways. `false` is no lambda, and no application of one.
#[tactic(auto, using(lcf_kernel::proofs::KeptLemmas::has_kept))]
fn equations(rt: &impl Abort, k: &mut Kernel<'_>) -> Result<(), Fail> {
    let p = falsity(k);
    let r = k.refl(p)?;
    let p = falsity(k);
    let a = k.assume(p)?;
    let e = k.iff_i(a, a)?;
    assert_record(rt, k, e, &[], k.concl(r));
    let p = falsity(k);
    assert_eq!(rt; k.subst(e, a, p), Err(RuleFault::Shape));
    let p = falsity(k);
    assert_eq!(rt; k.beta(p), Err(RuleFault::Shape));
    Ok(())
}

// Under false, the conditional of false is its first branch; `false` is no negation, and `not` has another type.
#[tactic(auto, using(lcf_kernel::proofs::KeptLemmas::has_kept))]
fn conditionals(rt: &impl Abort, k: &mut Kernel<'_>) -> Result<(), Fail> {
    let p = falsity(k);
    let a = k.assume(p)?;
    let p = falsity(k);
    let r = k.ite_t(a, p, p)?;
    assert_eq!(rt; k.hyps(r), [p].as_slice());
    let p = falsity(k);
    let not = symbol(k);
    assert_eq!(rt; k.ite_t(a, p, not), Err(RuleFault::Shape));
    let p = falsity(k);
    assert_eq!(rt; k.ite_f(a, p, p), Err(RuleFault::Shape));
    Ok(())
}

fn each_rule(rt: &impl Abort, k: &mut Kernel<'_>) -> Result<(), Fail> {
    conjunctions(rt, k)?;
    disjunctions(rt, k)?;
    negations(rt, k)?;
    weakenings(rt, k)?;
    equations(rt, k)?;
    conditionals(rt, k)
}

#[tactic(auto, using(hol_formulas::proofs::SmallLemmas::no_formulas_there, hol_formulas::proofs::SmallLemmas::no_context))]
fn over_nothing(rt: &impl Abort, alloc: Global, frozen: &Frozen) -> Result<(), Fail> {
    let mut k = Kernel::new(alloc, frozen, &[], &[])?;
    each_rule(rt, &mut k)
}

#[test]
fn rules(rt: HostRuntime) -> Result<(), Fail> {
    let frozen = Base::new(rt.alloc()).freeze();
    over_nothing(&rt, rt.alloc(), &frozen)
}
