//! A kernel whose context has a formula: what the rules ask of the context, worked by hand in natural deduction.
ghost use Rattle.std.specs.Prelude.{IfOk, ◌∷◌, []};
ghost use Rattle.hol_terms.specs.TermStore.{Keeps};
ghost use Rattle.hol_formulas.specs.Formulas.{IsContext};
ghost use Rattle.kernel_tests.specs.Tables.{AreTerms};

use crate::calls::{Call, OfTerm, TwoAndTerm, WithTerm};
use crate::script::{Answer, Line, run};
use crate::tables::{TermRow, TypeRow, terms_of, types_of};
use hol_terms::{Base, FreeKind, Frozen, Node, TermId, Terms};
use hol_types::TypeNode;
use lcf_kernel::Kernel;
use std::alloc::Global;
use std::process::Abort;
use std::test::Fail;

// p, of type Bool
#[tactic(auto, using(crate::proofs::TestLemmas::symbol_context, hol_terms::proofs::KeepsLemmas::keeps_trans))]
fn symbol_formula<S: Terms>(store: &mut S) -> Result<TermId, Fail>
    ensures context { IfOk result (λ t. IsContext (S.store store.new) (t ∷ [])) }
    ensures keeps { IfOk result (λ _. Keeps (S.store store.old) (S.store store.new)) }
{
    let bool = store.intern_type(TypeNode::Bool)?;
    let name = store.name(b"p")?;
    let t = store.intern(Node::Free(FreeKind::Symbol, name, bool))?;
    Ok(t)
}

fn terms_in<S: Terms>(rt: &impl Abort, store: &mut S) -> Result<Vec<TermId>, Fail>
    ensures { IfOk result (λ ts. AreTerms (S.store store.new) ts.items) }
{
    let types = types_of(
        rt,
        store,
        &[TypeRow::Bool, TypeRow::Fun(0, 0), TypeRow::Fun(1, 0)],
    )?;
    let rows = [
        TermRow::Free(FreeKind::Symbol, b"p", 0),
        TermRow::Free(FreeKind::Symbol, b"q", 0),
        TermRow::Const(b"true", 0),
        TermRow::Bound(0, 0),
        TermRow::Lam(0, 3),
        TermRow::Const(b"ex", 2),
        TermRow::App(5, 4),
        TermRow::Const(b"not", 1),
        TermRow::App(7, 3),
        TermRow::Lam(0, 8),
        TermRow::App(5, 9),
        TermRow::Const(b"all", 2),
        TermRow::Lam(0, 2),
        TermRow::App(11, 12),
    ];
    let terms = terms_of(rt, store, types.as_slice(), &rows)?;
    Ok(terms)
}

#[tactic(auto, using(crate::proofs::TestLemmas::terms_kept))]
fn store(rt: &impl Abort, alloc: Global) -> Result<(Frozen, Vec<TermId>, TermId), Fail>
    ensures terms { IfOk result (λ m. AreTerms m.0 m.1.items) }
    ensures context { IfOk result (λ m. IsContext m.0 (m.2 ∷ [])) }
{
    let mut base = Base::new(alloc);
    let terms = terms_in(rt, &mut base)?;
    let p = symbol_formula(&mut base)?;
    Ok((base.freeze(), terms, p))
}

#[tactic(auto, using(hol_formulas::proofs::SmallLemmas::no_formulas_there, crate::proofs::TestLemmas::terms_kept))]
fn over_store(
    rt: &impl Abort,
    alloc: Global,
    frozen: &Frozen,
    terms: &[TermId],
    p: TermId,
    lines: &[Line<'_>],
) -> Result<(), Fail>
    requires terms { AreTerms frozen.now terms.now }
    requires context { IsContext frozen.now (p ∷ []) }
{
    let mut k = Kernel::new(alloc, frozen, &[], &[p])?;
    let _records = run(rt, &mut k, terms, lines)?;
    Ok(())
}

// p is given, so it isn't arbitrary; but it may be the one of which nothing is known where a lambda's body with p is p
// itself.
#[test]
fn given(rt: HostRuntime) -> Result<(), Fail> {
    let lines = [
        (Call::OfTerm(OfTerm::Assume, 0), Answer::Says(&[], 0)),
        (Call::TrueI, Answer::Says(&[], 2)),
        (Call::WithTerm(WithTerm::AllI, 1, 0), Answer::Shape),
        (Call::WithTerm(WithTerm::AllI, 1, 1), Answer::Says(&[], 13)),
        (Call::OfTerm(OfTerm::Assume, 6), Answer::Says(&[6], 6)),
        (
            Call::TwoAndTerm(TwoAndTerm::ExE, 3, 1, 0),
            Answer::Says(&[6], 2),
        ),
        (Call::OfTerm(OfTerm::Assume, 10), Answer::Says(&[10], 10)),
        (Call::TwoAndTerm(TwoAndTerm::ExE, 5, 1, 0), Answer::Shape),
        (
            Call::TwoAndTerm(TwoAndTerm::ExE, 5, 1, 1),
            Answer::Says(&[10], 2),
        ),
        (Call::WithTerm(WithTerm::Weaken, 1, 0), Answer::Says(&[], 2)),
    ];
    let made = store(&rt, rt.alloc())?;
    over_store(&rt, rt.alloc(), &made.0, made.1.as_slice(), made.2, &lines)
}
