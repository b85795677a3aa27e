//! Scripts: a table of calls, each with what it must answer.
ghost use Rattle.std.specs.Prelude.{IfOk};
ghost use Rattle.lcf_kernel.specs.KernelState.{HasThm, KeepsAll};
ghost use Rattle.kernel_tests.specs.Tables.{AreTerms, AreThms};

use crate::calls::{Call, answer};
use crate::tables::{TermRow, TypeRow, term_at, terms_of, types_of};
use hol_terms::{Base, Frozen, TermId, Terms};
use lcf_kernel::{Kernel, RuleFault, ThmId};
use std::alloc::Global;
use std::process::Abort;
use std::test::Fail;

/// What a call must answer.
#[derive(Clone, Copy, Debug)]
pub(crate) enum Answer<'a> {
    /// A record with the terms of these places as its hypotheses and the one of this place as its conclusion.
    Says(&'a [usize], usize),
    /// That the rule's condition fails.
    Shape,
}

/// A call and its answer.
pub(crate) type Line<'a> = (Call, Answer<'a>);

// The terms of places, in rising order.
fn in_order(
    rt: &impl Abort,
    k: &Kernel<'_>,
    terms: &[TermId],
    places: &[usize],
) -> Result<Vec<TermId>, Fail>
    requires { AreTerms k.now.store terms.now }
{
    let mut all = Vec::new(k.allocator());
    for i in places {
        let t = term_at(rt, k, terms, *i);
        all.push(t)?;
    }
    all.sort_unstable();
    Ok(all)
}

fn assert_says(
    rt: &impl Abort,
    k: &Kernel<'_>,
    terms: &[TermId],
    r: ThmId,
    hyps: &[usize],
    concl: usize,
) -> Result<(), Fail>
    requires thm { HasThm k.now r }
    requires terms { AreTerms k.now.store terms.now }
{
    let hyps = in_order(rt, k, terms, hyps)?;
    assert_eq!(rt; k.hyps(r), hyps.as_slice());
    let concl = term_at(rt, k, terms, concl);
    assert_eq!(rt; k.concl(r), concl);
    Ok(())
}

#[tactic(auto, using(crate::proofs::TestLemmas::terms_still, crate::proofs::TestLemmas::thms_kept, crate::proofs::TestLemmas::thms_push))]
fn step(
    rt: &impl Abort,
    k: &mut Kernel<'_>,
    terms: &[TermId],
    records: &mut Vec<ThmId>,
    line: Line<'_>,
) -> Result<(), Fail>
    requires terms { AreTerms k.old.store terms.now }
    requires records { AreThms k.old records.old.items }
    ensures records { IfOk result (λ _. AreThms k.new records.new.items) }
    ensures keeps { IfOk result (λ _. KeepsAll k.old k.new) }
{
    let r = answer(rt, k, terms, records.as_slice(), line.0);
    match line.1 {
        Answer::Shape => {
            assert_eq!(rt; r, Err(RuleFault::Shape));
            Ok(())
        }
        Answer::Says(hyps, concl) => {
            let r = r?;
            assert_says(rt, k, terms, r, hyps, concl)?;
            records.push(r)?;
            Ok(())
        }
    }
}

/// Makes the calls of a script, in order, and looks at each answer. The records are those of the calls that made one.
#[tactic(auto, using(lcf_kernel::proofs::KeepLemmas::keeps_all_trans, crate::proofs::TestLemmas::no_thms))]
pub(crate) fn run(
    rt: &impl Abort,
    k: &mut Kernel<'_>,
    terms: &[TermId],
    lines: &[Line<'_>],
) -> Result<Vec<ThmId>, Fail>
    requires { AreTerms k.old.store terms.now }
    ensures records { IfOk result (λ rs. AreThms k.new rs.items) }
    ensures keeps { IfOk result (λ _. KeepsAll k.old k.new) }
{
    let mut records = Vec::new(k.allocator());
    for line in lines {
        step(rt, k, terms, &mut records, *line)?;
    }
    Ok(records)
}

#[tactic(auto, using(crate::proofs::TestLemmas::terms_kept))]
fn store(
    rt: &impl Abort,
    alloc: Global,
    types: &[TypeRow<'_>],
    terms: &[TermRow<'_>],
) -> Result<(Frozen, Vec<TermId>), Fail>
    ensures { IfOk result (λ p. AreTerms p.0 p.1.items) }
{
    let mut base = Base::new(alloc);
    let types = types_of(rt, &mut base, types)?;
    let terms = terms_of(rt, &mut base, types.as_slice(), terms)?;
    Ok((base.freeze(), terms))
}

#[tactic(auto, using(hol_formulas::proofs::SmallLemmas::no_formulas_there, hol_formulas::proofs::SmallLemmas::no_context, crate::proofs::TestLemmas::terms_kept))]
fn over_store(
    rt: &impl Abort,
    alloc: Global,
    frozen: &Frozen,
    terms: &[TermId],
    lines: &[Line<'_>],
) -> Result<(), Fail>
    requires { AreTerms frozen.now terms.now }
{
    let mut k = Kernel::new(alloc, frozen, &[], &[])?;
    let _records = run(rt, &mut k, terms, lines)?;
    Ok(())
}

/// A script over the terms of a table, without facts and context.
pub(crate) fn script(
    rt: &impl Abort,
    alloc: Global,
    types: &[TypeRow<'_>],
    terms: &[TermRow<'_>],
    lines: &[Line<'_>],
) -> Result<(), Fail> {
    let made = store(rt, alloc, types, terms)?;
    over_store(rt, alloc, &made.0, made.1.as_slice(), lines)
}
