//! What no clause says: that the calls succeed, and that the clauses mean what they should on small terms. The expected
//! values are the typing rules of simple type theory, worked by hand.
ghost use Rattle.std.specs.Prelude.{IfOk};
ghost use Rattle.hol_types.specs.TypeStore.{HasType};
ghost use Rattle.hol_terms.specs.TermStore.{HasTerm, Keeps};

use crate::lists::one;
use hol_terms::{Base, Node, Store, TermFault, TermId, Terms, built_in};
use hol_types::{TypeId, TypeNode};
use std::process::Abort;
use std::test::Fail;

// The variable 'a, or Int.
fn item_type<S: Terms>(store: &mut S, general: bool) -> Result<TypeId, Fail>
    ensures there { IfOk result (λ t. HasType (S.store store.new).types t) }
    ensures keeps { IfOk result (λ t. Keeps (S.store store.old) (S.store store.new)) }
{
    if !general {
        return Ok(store.intern_type(TypeNode::Int)?);
    }
    let letter = store.name(b"'a")?;
    let var = store.intern_type(TypeNode::Var(letter))?;
    Ok(var)
}

fn constant<S: Terms>(store: &mut S, general: bool) -> Result<TermId, Fail>
    ensures there { IfOk result (λ t. HasTerm (S.store store.new) t) }
    ensures keeps { IfOk result (λ t. Keeps (S.store store.old) (S.store store.new)) }
{
    let ty = item_type(store, general)?;
    let name = store.name(b"c")?;
    let t = store.intern(Node::Const(name, ty))?;
    Ok(t)
}

fn bound<S: Terms>(store: &mut S, general: bool) -> Result<TermId, Fail>
    ensures there { IfOk result (λ t. HasTerm (S.store store.new) t) }
    ensures keeps { IfOk result (λ t. Keeps (S.store store.old) (S.store store.new)) }
{
    let ty = item_type(store, general)?;
    let t = store.intern(Node::Bound(0, ty))?;
    Ok(t)
}

// The identity.
fn identity<S: Terms>(store: &mut S, general: bool) -> Result<TermId, Fail>
    ensures there { IfOk result (λ t. HasTerm (S.store store.new) t) }
{
    let b = bound(store, general)?;
    let ty = store.ty(b);
    let t = store.intern(Node::Lam(ty, b))?;
    Ok(t)
}

// A function of two items.
fn binary<S: Terms>(store: &mut S, general: bool) -> Result<TermId, Fail>
    ensures there { IfOk result (λ t. HasTerm (S.store store.new) t) }
{
    let ty = item_type(store, general)?;
    let inner = store.intern_type(TypeNode::Fun(ty, ty))?;
    let outer = store.intern_type(TypeNode::Fun(ty, inner))?;
    let name = store.name(b"f")?;
    let f = store.intern(Node::Const(name, outer))?;
    Ok(f)
}

// f applied to x and x, that to itself, and so on: a term of 2^length parts x.
fn pairs<S: Terms>(store: &mut S, f: TermId, x: TermId, length: u32) -> Result<TermId, Fail>
    requires function { HasTerm (S.store store.old) f }
    requires first { HasTerm (S.store store.old) x }
    ensures there { IfOk result (λ t. HasTerm (S.store store.new) t) }
{
    if length == 0 {
        return Ok(x);
    }
    let left = store.intern(Node::App(f, x))?;
    let pair = store.intern(Node::App(left, x))?;
    let t = pairs(store, f, pair, length - 1)?;
    Ok(t)
}

// 2^60 constants, of which with all that is made of them 121 are distinct.
fn constants<S: Terms>(store: &mut S, general: bool) -> Result<TermId, Fail>
    ensures there { IfOk result (λ t. HasTerm (S.store store.new) t) }
{
    let f = binary(store, general)?;
    let x = constant(store, general)?;
    let t = pairs(store, f, x, 60)?;
    Ok(t)
}

// The same of bound variables.
fn bounds<S: Terms>(store: &mut S) -> Result<TermId, Fail>
    ensures there { IfOk result (λ t. HasTerm (S.store store.new) t) }
{
    let f = binary(store, false)?;
    let x = bound(store, false)?;
    let t = pairs(store, f, x, 60)?;
    Ok(t)
}

// The term with Int for 'a.
fn at_int<S: Terms>(store: &mut S, t: TermId) -> Result<TermId, Fail>
    requires { HasTerm (S.store store.old) t }
{
    let letter = store.name(b"'a")?;
    let int = store.intern_type(TypeNode::Int)?;
    let subst = one(store.allocator(), (letter, int))?;
    let r = store.instantiate(t, &subst)?;
    Ok(r)
}

// The body of a lambda with x for the bound variable.
fn opened<S: Terms>(store: &mut S, body: TermId, x: TermId) -> Result<TermId, Fail>
    requires body { HasTerm (S.store store.old) body }
    requires value { HasTerm (S.store store.old) x }
{
    if !store.is_closed(x) {
        return Err(Fail::new("a loose Bound"));
    }
    let ty = store.ty(x);
    store.intern(Node::Lam(ty, body))?;
    let r = store.open(body, x)?;
    Ok(r)
}

fn all_of<S: Terms>(rt: &impl Abort, store: &mut S) -> Result<(), Fail> {
    assert_eq!(rt; store.intern(Node::Num(i128::MIN)), Err(TermFault::Ill));
    let name = store.name(b"x")?;
    assert_eq!(rt; store.text(name), b"x".as_slice());

    let c = constant(store, false)?;
    assert_eq!(rt; constant(store, false)?, c);
    assert_eq!(rt; at_int(store, c)?, c);
    let c = constant(store, false)?;
    assert!(rt; store.is_closed(c));
    assert_eq!(rt; store.intern(Node::App(c, c)), Err(TermFault::Ill));

    let b = bound(store, false)?;
    assert!(rt; !store.is_closed(b));
    let truth = store.intern_type(TypeNode::Bool)?;
    assert_eq!(rt; store.intern(Node::Lam(truth, b)), Err(TermFault::Ill));
    let same = identity(store, false)?;
    assert!(rt; store.is_closed(same));
    let ty = store.ty(same);
    let int = item_type(store, false)?;
    assert_eq!(rt; store.intern_type(TypeNode::Fun(int, int))?, ty);

    let general = identity(store, true)?;
    assert_eq!(rt; at_int(store, general)?, same);
    let general = constants(store, true)?;
    let found = at_int(store, general)?;
    assert_eq!(rt; constants(store, false)?, found);
    let body = bounds(store)?;
    let x = constant(store, false)?;
    assert_eq!(rt; opened(store, body, x)?, found);
    Ok(())
}

#[test]
fn terms_by_number(rt: HostRuntime) -> Result<(), Fail> {
    let mut base = Base::new(rt.alloc());
    let five = base.intern(Node::Num(5))?;
    let frozen = base.freeze();
    assert_eq!(rt; frozen.node(five), Node::Num(5));
    assert_eq!(rt; frozen.type_node(frozen.ty(five)), &TypeNode::Int);
    assert!(rt; frozen.is_closed(five));
    let mut store = Store::over(rt.alloc(), &frozen);
    let seven = store.intern(Node::Num(7))?;
    assert!(rt; seven != five);
    assert_eq!(rt; store.intern(Node::Num(5))?, five);
    all_of(&rt, &mut store)?;
    let mut base = Base::new(rt.alloc());
    all_of(&rt, &mut base)?;

    for text in [
        b"true".as_slice(),
        b"=>",
        b"choice",
        b"+",
        b"mod",
        b"frac",
        b"rlt",
    ] {
        assert!(rt; built_in(text));
    }
    for text in [b"".as_slice(), b"tru", b"True", b"p", b"mods", b"'a"] {
        assert!(rt; !built_in(text));
    }
    Ok(())
}
