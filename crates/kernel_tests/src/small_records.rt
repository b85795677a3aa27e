//! What no clause says: that the calls succeed, and that the clauses mean what they should on small records. The expected
//! values are the rules of natural deduction, worked by hand.
ghost use Rattle.std.specs.Prelude.{IfOk};
ghost use Rattle.hol_terms.specs.Substitution.{IsClosed};
ghost use Rattle.hol_terms.specs.TermStore.{HasTerm, term_tree};
ghost use Rattle.lcf_kernel.specs.KernelState.{HasThm, IsKernel};
ghost use Rattle.hol_formulas.specs.Formulas.{HasFormula};
ghost use Rattle.hol_formulas.specs.Constants.{AreConstants};

use hol_formulas::formula::{Constants, make_not};
use hol_terms::{Base, Frozen, TermId, Terms};
use hol_types::{List, Subst};
use lcf_kernel::{Kernel, RuleFault, ThmId};
use std::alloc::Global;
use std::process::Abort;
use std::test::Fail;

// `false`, a formula.
#[tactic(auto, using(hol_formulas::proofs::SmallLemmas::falsity_closed, crate::proofs::TestLemmas::falsity_formula))]
pub(crate) fn falsity(k: &Kernel<'_>) -> TermId
    ensures there { HasTerm k.now.store result }
    ensures closed { IsClosed (term_tree k.now.store result) }
    ensures formula { HasFormula k.now.store result }
    ensures lawful { IsKernel k.now }
{
    k.constants().falsity
}

// `not`, which is closed and isn't of type Bool.
#[tactic(auto, using(hol_formulas::proofs::SmallLemmas::not_closed))]
pub(crate) fn symbol(k: &Kernel<'_>) -> TermId
    ensures there { HasTerm k.now.store result }
    ensures closed { IsClosed (term_tree k.now.store result) }
{
    k.constants().not
}

// `(not false)`
#[tactic(auto, using(crate::proofs::TestLemmas::falsity_bool))]
fn negation(rt: &impl Abort, k: &mut Kernel<'_>) -> Result<TermId, Fail>
    ensures there { IfOk result (λ t. HasTerm k.new.store t) }
    ensures closed { IfOk result (λ t. IsClosed (term_tree k.new.store t)) }
{
    let constants = k.constants();
    let t = make_not(k, constants, constants.falsity)?;
    assert!(rt; k.is_closed(t));
    Ok(t)
}

// A record with this conclusion and these hypotheses.
pub(crate) fn assert_record(
    rt: &impl Abort,
    k: &Kernel<'_>,
    t: ThmId,
    hyps: &[TermId],
    concl: TermId,
)
    requires { HasThm k.now t }
{
    assert_eq!(rt; k.concl(t), concl);
    assert_eq!(rt; k.hyps(t), hyps);
}

#[tactic(auto, using(lcf_kernel::proofs::KeptLemmas::has_kept))]
fn implications(rt: &impl Abort, k: &mut Kernel<'_>) -> Result<(), Fail> {
    let not = symbol(k);
    assert_eq!(rt; k.assume(not), Err(RuleFault::Shape));
    let p = falsity(k);
    let a = k.assume(p)?;
    let p = falsity(k);
    let i = k.imp_i(a, p)?;
    assert!(rt; k.hyps(i).is_empty());
    assert!(rt; k.is_bare(i));
    let e = k.imp_e(i, a)?;
    assert_record(rt, k, e, &[p], p);
    let not = symbol(k);
    assert_eq!(rt; k.imp_i(e, not), Err(RuleFault::Shape));
    assert_eq!(rt; k.imp_e(e, e), Err(RuleFault::Shape));
    Ok(())
}

#[tactic(auto, using(lcf_kernel::proofs::KeptLemmas::has_kept))]
fn negations(rt: &impl Abort, k: &mut Kernel<'_>) -> Result<(), Fail> {
    let n = negation(rt, k)?;
    let a = k.assume(n)?;
    let p = falsity(k);
    let b = k.assume(p)?;
    let r = k.not_e(a, b)?;
    assert_record(rt, k, r, &[p, n], p);
    let p = falsity(k);
    let c = k.classical(r, p)?;
    assert_record(rt, k, c, &[p], p);
    let p = falsity(k);
    let f = k.false_e(c, p)?;
    assert_record(rt, k, f, &[p], p);
    assert_eq!(rt; k.not_e(f, f), Err(RuleFault::Shape));
    Ok(())
}

#[tactic(auto, using(lcf_kernel::proofs::KeptLemmas::has_kept))]
fn not_false(rt: &impl Abort, k: &mut Kernel<'_>) -> Result<(), Fail> {
    let n = negation(rt, k)?;
    let a = k.assume(n)?;
    let p = falsity(k);
    assert_eq!(rt; k.false_e(a, p), Err(RuleFault::Shape));
    let p = falsity(k);
    assert_eq!(rt; k.classical(a, p), Err(RuleFault::Shape));
    Ok(())
}

// What is adopted under a hypothesis keeps it, and isn't bare.
#[tactic(auto, using(crate::proofs::TestLemmas::one_formula, crate::proofs::TestLemmas::one_derivable))]
fn adoption(rt: &impl Abort, k: &mut Kernel<'_>) -> Result<(), Fail> {
    let p = falsity(k);
    let a = k.adopt(&[p], p)?;
    assert_record(rt, k, a, &[p], p);
    assert!(rt; !k.is_bare(a));
    Ok(())
}

// The first fact, and no second.
fn facts(rt: &impl Abort, k: &mut Kernel<'_>, p: TermId) -> Result<(), Fail> {
    let none: Subst = List::with_capacity(k.allocator(), 0)?;
    let a = k.fact(0, &none)?;
    assert_record(rt, k, a, &[], p);
    assert!(rt; !k.is_bare(a));
    let none: Subst = List::with_capacity(k.allocator(), 0)?;
    assert_eq!(rt; k.fact(1, &none), Err(RuleFault::Shape));
    Ok(())
}

fn each_rule(rt: &impl Abort, k: &mut Kernel<'_>, p: TermId) -> Result<(), Fail> {
    facts(rt, k, p)?;
    implications(rt, k)?;
    negations(rt, k)?;
    not_false(rt, k)?;
    adoption(rt, k)?;
    Ok(())
}

// The rules over one fact, false.
#[tactic(auto, using(crate::proofs::TestLemmas::falsity_given, hol_formulas::proofs::SmallLemmas::no_context))]
fn with_fact(
    rt: &impl Abort,
    alloc: Global,
    frozen: &Frozen,
    constants: &Constants,
) -> Result<(), Fail>
    requires { AreConstants frozen.now constants.now }
{
    let p = constants.falsity;
    let mut k = Kernel::new(alloc, frozen, &[p], &[])?;
    each_rule(rt, &mut k, p)
}

// A formula of the context is no hypothesis outside it.
fn assumption(rt: &impl Abort, k: &mut Kernel<'_>, p: TermId) -> Result<(), Fail> {
    let given = falsity(k);
    let a = k.assume(given)?;
    assert_record(rt, k, a, &[], p);
    Ok(())
}

#[tactic(auto, using(hol_formulas::proofs::SmallLemmas::no_formulas_there, crate::proofs::TestLemmas::falsity_context))]
fn with_context(
    rt: &impl Abort,
    alloc: Global,
    frozen: &Frozen,
    constants: &Constants,
) -> Result<(), Fail>
    requires { AreConstants frozen.now constants.now }
{
    let p = constants.falsity;
    let mut k = Kernel::new(alloc, frozen, &[], &[p])?;
    assumption(rt, &mut k, p)
}

// A store with HOL's constants.
fn store(alloc: Global) -> Result<(Frozen, Constants), Fail>
    ensures { IfOk result (λ p. AreConstants p.0 p.1) }
{
    let mut base = Base::new(alloc);
    let constants = Constants::new(&mut base)?;
    Ok((base.freeze(), constants))
}

fn over_store(
    rt: &impl Abort,
    alloc: Global,
    frozen: &Frozen,
    constants: &Constants,
) -> Result<(), Fail>
    requires { AreConstants frozen.now constants.now }
{
    with_fact(rt, alloc, frozen, constants)?;
    with_context(rt, alloc, frozen, constants)
}

#[test]
fn small_records(rt: HostRuntime) -> Result<(), Fail> {
    let made = store(rt.alloc())?;
    over_store(&rt, rt.alloc(), &made.0, &made.1)
}
