//! Terms by number: the calls of `Terms`, each through its bound, on a `Base`, a `Store` and a `Kernel`. The expected
//! values are worked by hand.
ghost use Rattle.std.specs.Prelude.{◌≡◌, IfOk};
ghost use Rattle.hol_terms.specs.TermStore.{HasTerm, Keeps};

use crate::type_calls::each_type_call;
use hol_terms::{Base, FreeKind, Frozen, Node, Store, TermFault, TermId, Terms};
use hol_types::{List, TypeFault, TypeNode};
use lcf_kernel::Kernel;
use std::alloc::{AllocError, Global};
use std::process::Abort;
use std::test::Fail;

// ---- types

// list is declared once, and is no type without its argument.
fn constructor<S: Terms>(rt: &impl Abort, store: &mut S) -> Result<(), Fail> {
    let list = store.name(b"list")?;
    assert!(rt; store.declare(list, 1)?);
    let list = store.name(b"list")?;
    assert!(rt; !store.declare(list, 1)?);
    let list = store.name(b"list")?;
    let none = List::new(Vec::new(store.allocator()));
    let bare = store.intern_type(TypeNode::Cons(list, none));
    assert_eq!(rt; bare, Err(TypeFault::Arity));
    Ok(())
}

// ---- terms

// A free variable of type Int.
#[tactic(auto, using(hol_terms::proofs::KeepsLemmas::keeps_trans))]
fn variable<S: Terms>(store: &mut S, text: &[u8]) -> Result<TermId, Fail>
    ensures there { IfOk result (λ t. HasTerm (S.store store.new) t) }
    ensures keeps { IfOk result (λ _. Keeps (S.store store.old) (S.store store.new)) }
    ensures rest { S.rest store.new ≡ S.rest store.old }
{
    let name = store.name(text)?;
    let int = store.intern_type(TypeNode::Int)?;
    let t = store.intern(Node::Free(FreeKind::Open, name, int))?;
    Ok(t)
}

// `+`
#[tactic(auto, using(hol_terms::proofs::KeepsLemmas::keeps_trans))]
fn plus<S: Terms>(store: &mut S) -> Result<TermId, Fail>
    ensures there { IfOk result (λ t. HasTerm (S.store store.new) t) }
    ensures keeps { IfOk result (λ _. Keeps (S.store store.old) (S.store store.new)) }
{
    let int = store.intern_type(TypeNode::Int)?;
    let inner = store.intern_type(TypeNode::Fun(int, int))?;
    let outer = store.intern_type(TypeNode::Fun(int, inner))?;
    let name = store.name(b"+")?;
    let t = store.intern(Node::Const(name, outer))?;
    Ok(t)
}

// `(+ a b)`
#[tactic(auto, using(hol_terms::proofs::KeepsLemmas::keeps_trans))]
fn added<S: Terms>(store: &mut S, a: TermId, b: TermId) -> Result<TermId, Fail>
    requires left { HasTerm (S.store store.old) a }
    requires right { HasTerm (S.store store.old) b }
    ensures there { IfOk result (λ t. HasTerm (S.store store.new) t) }
    ensures keeps { IfOk result (λ _. Keeps (S.store store.old) (S.store store.new)) }
{
    let f = plus(store)?;
    let left = store.intern(Node::App(f, a))?;
    let t = store.intern(Node::App(left, b))?;
    Ok(t)
}

// a added to itself, that to itself, and so on: a term of 2^length parts a.
fn doubled<S: Terms>(store: &mut S, a: TermId, length: u32) -> Result<TermId, Fail>
    requires { HasTerm (S.store store.old) a }
    ensures { IfOk result (λ t. HasTerm (S.store store.new) t) }
{
    if length == 0 {
        return Ok(a);
    }
    let double = added(store, a, a)?;
    let t = doubled(store, double, length - 1)?;
    Ok(t)
}

// t below so many functions: below half of them, and then below the others, so that calls don't nest as deep as the term.
#[tactic(auto, using(hol_terms::proofs::KeepsLemmas::keeps_trans))]
fn nested<S: Terms>(store: &mut S, f: TermId, t: TermId, length: u32) -> Result<TermId, Fail>
    requires function { HasTerm (S.store store.old) f }
    requires argument { HasTerm (S.store store.old) t }
    ensures there { IfOk result (λ t. HasTerm (S.store store.new) t) }
    ensures keeps { IfOk result (λ _. Keeps (S.store store.old) (S.store store.new)) }
{
    if length == 0 {
        return Ok(t);
    }
    if length == 1 {
        let t = store.intern(Node::App(f, t))?;
        return Ok(t);
    }
    let half = length / 2;
    let inner = nested(store, f, t, half)?;
    let t = nested(store, f, inner, length - half)?;
    Ok(t)
}

// `(+ v v)`, without its last argument.
#[tactic(auto, using(hol_terms::proofs::KeepsLemmas::keeps_trans))]
fn half<S: Terms>(store: &mut S, v: TermId) -> Result<TermId, Fail>
    requires { HasTerm (S.store store.old) v }
    ensures there { IfOk result (λ t. HasTerm (S.store store.new) t) }
    ensures keeps { IfOk result (λ _. Keeps (S.store store.old) (S.store store.new)) }
{
    let f = plus(store)?;
    let t = store.intern(Node::App(f, v))?;
    Ok(t)
}

// The variable 2^length times, or else below as many additions, one in the other.
pub(crate) fn many<S: Terms>(
    store: &mut S,
    text: &[u8],
    length: u32,
    wide: bool,
) -> Result<TermId, Fail>
    ensures { IfOk result (λ t. HasTerm (S.store store.new) t) }
{
    let v = variable(store, text)?;
    if wide {
        let t = doubled(store, v, length)?;
        return Ok(t);
    }
    let f = half(store, v)?;
    let t = nested(store, f, v, length)?;
    Ok(t)
}

// The term with u for v, where their types agree and u has no loose Bound.
fn replaced<S: Terms>(store: &mut S, t: TermId, v: TermId, u: TermId) -> Result<TermId, Fail>
    requires term { HasTerm (S.store store.old) t }
    requires variable { HasTerm (S.store store.old) v }
    requires new { HasTerm (S.store store.old) u }
{
    if !store.is_closed(u) {
        return Err(Fail::new("a loose Bound"));
    }
    let old = store.ty(v);
    let new = store.ty(u);
    if new != old {
        return Err(Fail::new("another type"));
    }
    let r = store.subst(t, v, u)?;
    Ok(r)
}

// The body of a lambda with x for the bound variable.
fn opened<S: Terms>(store: &mut S, body: TermId, x: TermId) -> Result<TermId, Fail>
    requires body { HasTerm (S.store store.old) body }
    requires value { HasTerm (S.store store.old) x }
{
    if !store.is_closed(x) {
        return Err(Fail::new("a loose Bound"));
    }
    let ty = store.ty(x);
    store.intern(Node::Lam(ty, body))?;
    let r = store.open(body, x)?;
    Ok(r)
}

// x applied to x isn't typed.
fn misfit<S: Terms>(rt: &impl Abort, store: &mut S) -> Result<(), Fail> {
    let x = variable(store, b"x")?;
    assert_eq!(rt; store.intern(Node::App(x, x)), Err(TermFault::Ill));
    Ok(())
}

// x occurs among many x, and y doesn't.
fn occurrence<S: Terms>(
    rt: &impl Abort,
    store: &mut S,
    length: u32,
    wide: bool,
) -> Result<(), Fail> {
    let t = many(store, b"x", length, wide)?;
    let x = variable(store, b"x")?;
    assert!(rt; store.free_in(x, t)?);
    let t = many(store, b"x", length, wide)?;
    let y = variable(store, b"y")?;
    assert!(rt; !store.free_in(y, t)?);
    Ok(())
}

// Many x, with y for x, are as many y.
fn replacement<S: Terms>(
    rt: &impl Abort,
    store: &mut S,
    length: u32,
    wide: bool,
) -> Result<(), Fail> {
    let t = many(store, b"x", length, wide)?;
    let x = variable(store, b"x")?;
    let y = variable(store, b"y")?;
    let r = replaced(store, t, x, y)?;
    assert_eq!(rt; many(store, b"y", length, wide)?, r);
    Ok(())
}

// `(+ x 1)` with 2 for x is `(+ 2 1)`.
fn number_for_variable<S: Terms>(rt: &impl Abort, store: &mut S) -> Result<(), Fail> {
    let unit = store.intern(Node::Num(1))?;
    let two = store.intern(Node::Num(2))?;
    let expected = added(store, two, unit)?;
    let x = variable(store, b"x")?;
    let unit = store.intern(Node::Num(1))?;
    let t = added(store, x, unit)?;
    let two = store.intern(Node::Num(2))?;
    let x = variable(store, b"x")?;
    let r = replaced(store, t, x, two)?;
    assert_eq!(rt; r, expected);
    Ok(())
}

// Many x, closed over x and opened with y, are as many y.
fn closing<S: Terms>(rt: &impl Abort, store: &mut S, length: u32, wide: bool) -> Result<(), Fail> {
    let t = many(store, b"x", length, wide)?;
    let x = variable(store, b"x")?;
    let body = store.close(t, x)?;
    assert!(rt; !store.is_closed(body));
    let y = variable(store, b"y")?;
    let r = opened(store, body, y)?;
    assert_eq!(rt; many(store, b"y", length, wide)?, r);
    Ok(())
}

fn each_call<S: Terms>(rt: &impl Abort, store: &mut S) -> Result<(), Fail> {
    constructor(rt, store)?;
    each_type_call(rt, store)?;
    misfit(rt, store)?;
    number_for_variable(rt, store)?;
    for (length, wide) in [(0, true), (1, true), (60, true), (5_000, false)] {
        occurrence(rt, store, length, wide)?;
        replacement(rt, store, length, wide)?;
        closing(rt, store, length, wide)?;
    }
    Ok(())
}

// After a reset a new variable has the number of the one that went, and what was there before is found.
#[tactic(auto, using(hol_terms::proofs::KeepsLemmas::may_reset_kept))]
fn reset(rt: &impl Abort, store: &mut Store<'_>) -> Result<(), Fail> {
    let five = store.intern(Node::Num(5))?;
    let mark = store.mark();
    let x = variable(store, b"new")?;
    store.reset(mark);
    let y = variable(store, b"newer")?;
    assert_eq!(rt; y, x);
    assert_eq!(rt; store.intern(Node::Num(5))?, five);
    Ok(())
}

// A kernel without facts.
fn kernel<'b>(alloc: Global, base: &'b Frozen) -> Result<Kernel<'b>, AllocError> {
    Kernel::new(alloc, base, &[], &[])
}

fn each_call_and_reset(rt: &impl Abort, store: &mut Store<'_>) -> Result<(), Fail> {
    each_call(rt, store)?;
    reset(rt, store)
}

#[test]
fn terms_of_a_base(rt: HostRuntime) -> Result<(), Fail> {
    let mut base = Base::new(rt.alloc());
    each_call(&rt, &mut base)
}

#[test]
fn terms_of_a_store(rt: HostRuntime) -> Result<(), Fail> {
    let frozen = Base::new(rt.alloc()).freeze();
    let mut store = Store::over(rt.alloc(), &frozen);
    each_call_and_reset(&rt, &mut store)
}

#[test]
fn terms_of_a_kernel(rt: HostRuntime) -> Result<(), Fail> {
    let frozen = Base::new(rt.alloc()).freeze();
    let mut kernel = kernel(rt.alloc(), &frozen)?;
    each_call(&rt, &mut kernel)
}
