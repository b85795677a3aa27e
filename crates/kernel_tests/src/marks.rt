//! Marks of a kernel, and resets to them.
ghost use Rattle.std.specs.Prelude.{◌≡◌, IfOk};
ghost use Rattle.hol_terms.specs.Substitution.{IsClosed};
ghost use Rattle.hol_terms.specs.TermStore.{HasTerm, term_tree};
ghost use Rattle.lcf_kernel.specs.KernelState.{KeepsAll};

use crate::small_records::{assert_record, falsity};
use hol_terms::{Base, Frozen, TermId};
use lcf_kernel::{Kernel, ThmId};
use std::alloc::Global;
use std::process::Abort;
use std::test::Fail;

// The record that a formula implies itself, and its conclusion.
#[tactic(auto, using(lcf_kernel::proofs::KeepLemmas::keeps_all_trans))]
fn implied(k: &mut Kernel<'_>, t: TermId) -> Result<(ThmId, TermId), Fail>
    requires there { HasTerm k.old.store t }
    requires closed { IsClosed (term_tree k.old.store t) }
    ensures { IfOk result (λ _. KeepsAll k.old k.new) }
{
    let a = k.assume(t)?;
    let r = k.imp_i(a, t)?;
    Ok((r, k.concl(r)))
}

// The same, and then as if it had not been.
fn undone(k: &mut Kernel<'_>, t: TermId) -> Result<(ThmId, TermId), Fail>
    requires there { HasTerm k.old.store t }
    requires closed { IsClosed (term_tree k.old.store t) }
    ensures { IfOk result (λ _. k.new ≡ k.old) }
{
    let m = k.mark();
    let made = implied(k, t)?;
    k.reset(m);
    Ok(made)
}

// After a reset the numbers of records and terms are given again, and what was there before the mark is there.
fn numbers(rt: &impl Abort, k: &mut Kernel<'_>) -> Result<(), Fail> {
    let t = k.true_i()?;
    let p = falsity(k);
    let first = undone(k, p)?;
    let truth = k.concl(t);
    let second = undone(k, truth)?;
    assert_eq!(rt; first.0, second.0);
    assert_eq!(rt; first.1, second.1);
    assert_record(rt, k, t, &[], truth);
    Ok(())
}

#[tactic(auto, using(hol_formulas::proofs::SmallLemmas::no_formulas_there, hol_formulas::proofs::SmallLemmas::no_context))]
fn over_nothing(rt: &impl Abort, alloc: Global, frozen: &Frozen) -> Result<(), Fail> {
    let mut k = Kernel::new(alloc, frozen, &[], &[])?;
    numbers(rt, &mut k)
}

#[test]
fn resets(rt: HostRuntime) -> Result<(), Fail> {
    let frozen = Base::new(rt.alloc()).freeze();
    over_nothing(&rt, rt.alloc(), &frozen)
}
