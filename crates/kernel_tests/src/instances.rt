//! A conclusion at other types. The expected values are the rule of natural deduction, worked by hand.
ghost use Rattle.std.specs.Prelude.{IfOk};
ghost use Rattle.hol_types.specs.TypeStore.{HasType};
ghost use Rattle.hol_types.specs.TypeSubst.{HasSubst};
ghost use Rattle.hol_terms.specs.TermStore.{HasTerm, Keeps};

use crate::small_records::assert_record;
use hol_terms::{Base, FreeKind, Frozen, Node, TermId, Terms};
use hol_types::{List, Subst, TypeId, TypeNode};
use lcf_kernel::{Kernel, RuleFault};
use std::alloc::Global;
use std::process::Abort;
use std::test::Fail;

// x, of a type.
#[tactic(auto, using(hol_terms::proofs::KeepsLemmas::keeps_trans))]
fn variable<S: Terms>(store: &mut S, ty: TypeId) -> Result<TermId, Fail>
    requires { HasType (S.store store.old).types ty }
    ensures there { IfOk result (λ t. HasTerm (S.store store.new) t) }
    ensures keeps { IfOk result (λ _. Keeps (S.store store.old) (S.store store.new)) }
{
    let name = store.name(b"x")?;
    let t = store.intern(Node::Free(FreeKind::Open, name, ty))?;
    Ok(t)
}

// That x of type 'a equals itself gives that x of type Bool does. What is assumed of x of type 'a isn't known of others.
#[tactic(auto, using(lcf_kernel::proofs::KeptLemmas::has_kept, lcf_kernel::proofs::KeptLemmas::term_kept, crate::proofs::TestLemmas::subst_there))]
fn instances(
    rt: &impl Abort,
    k: &mut Kernel<'_>,
    s: &Subst,
    general: TermId,
    x: TermId,
) -> Result<(), Fail>
    requires subst { HasSubst k.old.store.types s.now }
    requires general { HasTerm k.old.store general }
    requires variable { HasTerm k.old.store x }
{
    assert!(rt; k.is_closed(general));
    let a = k.refl(general)?;
    let r = k.inst_type(a, s)?;
    assert!(rt; k.is_closed(x));
    let e = k.refl(x)?;
    assert_record(rt, k, r, &[], k.concl(e));
    let f = k.concl(a);
    let h = k.assume(f)?;
    assert_eq!(rt; k.inst_type(h, s), Err(RuleFault::Shape));
    Ok(())
}

// Bool for 'a, and x of type 'a.
#[tactic(auto, using(hol_terms::proofs::KeepsLemmas::keeps_trans))]
fn general<S: Terms>(store: &mut S) -> Result<(Subst, TermId), Fail>
    ensures subst { IfOk result (λ p. HasSubst (S.store store.new).types p.0) }
    ensures there { IfOk result (λ p. HasTerm (S.store store.new) p.1) }
    ensures keeps { IfOk result (λ _. Keeps (S.store store.old) (S.store store.new)) }
{
    let a = store.name(b"'a")?;
    let var = store.intern_type(TypeNode::Var(a))?;
    let x = variable(store, var)?;
    let bool = store.intern_type(TypeNode::Bool)?;
    let mut s = List::with_capacity(store.allocator(), 1)?;
    s.push((a, bool))?;
    Ok((s, x))
}

fn each_case(rt: &impl Abort, k: &mut Kernel<'_>) -> Result<(), Fail> {
    let bool = k.intern_type(TypeNode::Bool)?;
    let x = variable(k, bool)?;
    let given = general(k)?;
    instances(rt, k, &given.0, given.1, x)
}

#[tactic(auto, using(hol_formulas::proofs::SmallLemmas::no_formulas_there, hol_formulas::proofs::SmallLemmas::no_context))]
fn over_nothing(rt: &impl Abort, alloc: Global, frozen: &Frozen) -> Result<(), Fail> {
    let mut k = Kernel::new(alloc, frozen, &[], &[])?;
    each_case(rt, &mut k)
}

#[test]
fn retyped(rt: HostRuntime) -> Result<(), Fail> {
    let frozen = Base::new(rt.alloc()).freeze();
    over_nothing(&rt, rt.alloc(), &frozen)
}
