//! Matching: a pattern and a term in one store and in two. The expected values are worked by hand.
ghost use Rattle.std.specs.Prelude.{IfOk};
ghost use Rattle.hol_terms.specs.TermStore.{HasTerm, Keeps};

use hol_match::{Inst, apply, match_across, match_term};
use hol_terms::{Base, FreeKind, Node, Store, TermId, Terms};
use hol_types::TypeNode;
use std::process::Abort;
use std::rt::HostRuntime;
use std::test::Fail;

// A Schematic variable of type Int.
#[tactic(auto, using(hol_terms::proofs::KeepsLemmas::keeps_trans))]
fn variable<S: Terms>(store: &mut S, text: &[u8]) -> Result<TermId, Fail>
    ensures there { IfOk result (λ t. HasTerm (S.store store.new) t) }
    ensures keeps { IfOk result (λ _. Keeps (S.store store.old) (S.store store.new)) }
{
    let name = store.name(text)?;
    let int = store.intern_type(TypeNode::Int)?;
    let t = store.intern(Node::Free(FreeKind::Schematic, name, int))?;
    Ok(t)
}

// `+`
#[tactic(auto, using(hol_terms::proofs::KeepsLemmas::keeps_trans))]
fn plus<S: Terms>(store: &mut S) -> Result<TermId, Fail>
    ensures there { IfOk result (λ t. HasTerm (S.store store.new) t) }
    ensures keeps { IfOk result (λ _. Keeps (S.store store.old) (S.store store.new)) }
{
    let int = store.intern_type(TypeNode::Int)?;
    let inner = store.intern_type(TypeNode::Fun(int, int))?;
    let outer = store.intern_type(TypeNode::Fun(int, inner))?;
    let name = store.name(b"+")?;
    let t = store.intern(Node::Const(name, outer))?;
    Ok(t)
}

// `(+ a b)`
#[tactic(auto, using(hol_terms::proofs::KeepsLemmas::keeps_trans))]
fn sum<S: Terms>(store: &mut S, a: TermId, b: TermId) -> Result<TermId, Fail>
    requires left { HasTerm (S.store store.old) a }
    requires right { HasTerm (S.store store.old) b }
    ensures there { IfOk result (λ t. HasTerm (S.store store.new) t) }
    ensures keeps { IfOk result (λ _. Keeps (S.store store.old) (S.store store.new)) }
{
    let f = plus(store)?;
    let left = store.intern(Node::App(f, a))?;
    let t = store.intern(Node::App(left, b))?;
    Ok(t)
}

// `(+ m n)`
#[tactic(auto, using(hol_terms::proofs::KeepsLemmas::keeps_trans))]
fn numbers<S: Terms>(store: &mut S, m: i128, n: i128) -> Result<TermId, Fail>
    ensures there { IfOk result (λ t. HasTerm (S.store store.new) t) }
    ensures keeps { IfOk result (λ _. Keeps (S.store store.old) (S.store store.new)) }
{
    let a = store.intern(Node::Num(m))?;
    let b = store.intern(Node::Num(n))?;
    let t = sum(store, a, b)?;
    Ok(t)
}

// `(+ v v)`
#[tactic(auto, using(hol_terms::proofs::KeepsLemmas::keeps_trans))]
fn doubled<S: Terms>(store: &mut S) -> Result<TermId, Fail>
    ensures there { IfOk result (λ t. HasTerm (S.store store.new) t) }
    ensures keeps { IfOk result (λ _. Keeps (S.store store.old) (S.store store.new)) }
{
    let v = variable(store, b"v")?;
    let t = sum(store, v, v)?;
    Ok(t)
}

// The function that gives t, of an Int.
#[tactic(auto, using(hol_terms::proofs::KeepsLemmas::keeps_trans))]
fn constant_function<S: Terms>(store: &mut S, t: TermId) -> Result<TermId, Fail>
    requires { HasTerm (S.store store.old) t }
    ensures there { IfOk result (λ t. HasTerm (S.store store.new) t) }
    ensures keeps { IfOk result (λ _. Keeps (S.store store.old) (S.store store.new)) }
{
    let int = store.intern_type(TypeNode::Int)?;
    let r = store.intern(Node::Lam(int, t))?;
    Ok(r)
}

// How many variables have a term.
fn found(inst: Option<Inst>) -> Option<usize> {
    match inst {
        None => None,
        Some(inst) => Some(inst.len()),
    }
}

// The term of the first variable.
fn first(inst: &Inst) -> Option<TermId> {
    match inst.pair(0) {
        None => None,
        Some(pair) => Some(pair.1),
    }
}

// `(+ v v)` is `(+ 1 1)` for v = 1, and never `(+ 1 2)`.
fn sums<S: Terms>(rt: &impl Abort, store: &mut S) -> Result<(), Fail> {
    let pattern = doubled(store)?;
    let other = numbers(store, 1, 2)?;
    assert_eq!(rt; found(match_term(store, pattern, other)?), None);
    let term = numbers(store, 1, 1)?;
    let Some(inst) = match_term(store, pattern, term)? else {
        return Ok(assert!(rt; false));
    };
    assert_eq!(rt; inst.len(), 1);
    let one = store.intern(Node::Num(1))?;
    assert_eq!(rt; first(&inst), Some(one));
    Ok(())
}

// `(+ v v)` with 1 for v is `(+ 1 1)`.
fn instances<S: Terms>(rt: &impl Abort, store: &mut S) -> Result<(), Fail> {
    let pattern = doubled(store)?;
    let term = numbers(store, 1, 1)?;
    let Some(inst) = match_term(store, pattern, term)? else {
        return Ok(assert!(rt; false));
    };
    let made = apply(store, pattern, &inst)?;
    assert_eq!(rt; made, term);
    Ok(())
}

// `(lambda ((x Int)) v)`
#[tactic(auto, using(hol_terms::proofs::KeepsLemmas::keeps_trans))]
fn constant_pattern<S: Terms>(store: &mut S) -> Result<TermId, Fail>
    ensures there { IfOk result (λ t. HasTerm (S.store store.new) t) }
    ensures keeps { IfOk result (λ _. Keeps (S.store store.old) (S.store store.new)) }
{
    let v = variable(store, b"v")?;
    let t = constant_function(store, v)?;
    Ok(t)
}

// `(lambda ((x Int)) 1)`
#[tactic(auto, using(hol_terms::proofs::KeepsLemmas::keeps_trans))]
fn always_one<S: Terms>(store: &mut S) -> Result<TermId, Fail>
    ensures there { IfOk result (λ t. HasTerm (S.store store.new) t) }
    ensures keeps { IfOk result (λ _. Keeps (S.store store.old) (S.store store.new)) }
{
    let one = store.intern(Node::Num(1))?;
    let t = constant_function(store, one)?;
    Ok(t)
}

// `(lambda ((x Int)) x)`
#[tactic(auto, using(hol_terms::proofs::KeepsLemmas::keeps_trans))]
fn identity<S: Terms>(store: &mut S) -> Result<TermId, Fail>
    ensures there { IfOk result (λ t. HasTerm (S.store store.new) t) }
    ensures keeps { IfOk result (λ _. Keeps (S.store store.old) (S.store store.new)) }
{
    let int = store.intern_type(TypeNode::Int)?;
    let bound = store.intern(Node::Bound(0, int))?;
    let t = constant_function(store, bound)?;
    Ok(t)
}

// `(lambda ((x Int)) v)` is `(lambda ((x Int)) 1)`, and never `(lambda ((x Int)) x)`: no term for v holds a loose Bound.
fn lambdas<S: Terms>(rt: &impl Abort, store: &mut S) -> Result<(), Fail> {
    let pattern = constant_pattern(store)?;
    let term = always_one(store)?;
    assert_eq!(rt; found(match_term(store, pattern, term)?), Some(1));
    let other = identity(store)?;
    assert_eq!(rt; found(match_term(store, pattern, other)?), None);
    Ok(())
}

// A variable of type Int is no term of type Bool.
fn types<S: Terms>(rt: &impl Abort, store: &mut S) -> Result<(), Fail> {
    let v = variable(store, b"v")?;
    let bool = store.intern_type(TypeNode::Bool)?;
    let name = store.name(b"true")?;
    let truth = store.intern(Node::Const(name, bool))?;
    assert_eq!(rt; found(match_term(store, v, truth)?), None);
    Ok(())
}

fn each_match<S: Terms>(rt: &impl Abort, store: &mut S) -> Result<(), Fail> {
    sums(rt, store)?;
    instances(rt, store)?;
    lambdas(rt, store)?;
    types(rt, store)
}

#[test]
fn one_store(rt: HostRuntime) -> Result<(), Fail> {
    let mut base = Base::new(rt.alloc());
    each_match(&rt, &mut base)
}

// The pattern stands alone in its store, so that its numbers are others than in the term's.
fn across<P: Terms, S: Terms>(
    rt: &impl Abort,
    patterns: &mut P,
    terms: &mut S,
) -> Result<(), Fail> {
    let pattern = doubled(patterns)?;
    let other = numbers(terms, 1, 2)?;
    assert_eq!(rt; found(match_across(patterns, pattern, terms, other)?), None);
    let term = numbers(terms, 3, 3)?;
    assert_eq!(rt;
        found(match_across(patterns, pattern, terms, term)?),
        Some(1)
    );
    Ok(())
}

#[test]
fn two_stores(rt: HostRuntime) -> Result<(), Fail> {
    let mut patterns = Base::new(rt.alloc());
    let base = Base::new(rt.alloc()).freeze();
    let mut terms = Store::over(rt.alloc(), &base);
    across(&rt, &mut patterns, &mut terms)
}
