//! The calls on types of `Terms`, and constants at other types, through the bound. The expected values are worked by hand.
ghost use Rattle.std.specs.Prelude.{IfOk};
ghost use Rattle.hol_types.specs.TypeStore.{HasName, HasType};
ghost use Rattle.hol_terms.specs.TermStore.{HasTerm, Keeps};

use crate::lists::one;
use hol_terms::{Node, TermId, Terms};
use hol_types::{List, NameId, Subst, TypeId, TypeNode};
use std::process::Abort;
use std::test::Fail;

// 'a, as a name and as a type.
#[tactic(auto, using(hol_terms::proofs::KeepsLemmas::keeps_trans))]
fn letter<S: Terms>(store: &mut S) -> Result<(NameId, TypeId), Fail>
    ensures name { IfOk result (λ p. HasName (S.store store.new).types p.0) }
    ensures there { IfOk result (λ p. HasType (S.store store.new).types p.1) }
    ensures keeps { IfOk result (λ _. Keeps (S.store store.old) (S.store store.new)) }
{
    let a = store.name(b"'a")?;
    let var = store.intern_type(TypeNode::Var(a))?;
    Ok((a, var))
}

// (list item), where list is declared with one argument.
#[tactic(auto, using(hol_terms::proofs::KeepsLemmas::keeps_trans))]
fn list_of<S: Terms>(store: &mut S, item: TypeId) -> Result<TypeId, Fail>
    requires { HasType (S.store store.old).types item }
    ensures there { IfOk result (λ t. HasType (S.store store.new).types t) }
    ensures keeps { IfOk result (λ _. Keeps (S.store store.old) (S.store store.new)) }
{
    let args = one(store.allocator(), item)?;
    let list = store.name(b"list")?;
    store.declare(list, 1)?;
    let t = store.intern_type(TypeNode::Cons(list, args))?;
    Ok(t)
}

// (list 'a) and (list Int).
fn lists<S: Terms>(store: &mut S) -> Result<(TypeId, TypeId), Fail>
    ensures pattern { IfOk result (λ p. HasType (S.store store.new).types p.0) }
    ensures there { IfOk result (λ p. HasType (S.store store.new).types p.1) }
{
    let a = letter(store)?;
    let pattern = list_of(store, a.1)?;
    let int = store.intern_type(TypeNode::Int)?;
    let there = list_of(store, int)?;
    Ok((pattern, there))
}

// What is given for 'a where the pattern is the type, or None where it isn't.
fn matched<S: Terms>(store: &S, pattern: TypeId, t: TypeId) -> Result<Option<Subst>, Fail>
    requires pattern { HasType (S.store store.now).types pattern }
    requires there { HasType (S.store store.now).types t }
{
    let none = List::new(Vec::new(store.allocator()));
    let found = store.match_type(pattern, t, &none)?;
    Ok(found)
}

// (list 'a) is (list Int) with Int for 'a; (list Int) is never (list 'a).
fn matching<S: Terms>(rt: &impl Abort, store: &mut S) -> Result<(), Fail> {
    let pair = lists(store)?;
    let found = matched(store, pair.0, pair.1)?;
    let refused = matched(store, pair.1, pair.0)?;
    assert!(rt; refused.is_none());
    let a = store.name(b"'a")?;
    let int = store.intern_type(TypeNode::Int)?;
    let expected = one(store.allocator(), (a, int))?;
    assert!(rt; found == Some(expected));
    Ok(())
}

// The type with Int for 'a.
fn type_at_int<S: Terms>(store: &mut S, t: TypeId) -> Result<TypeId, Fail>
    requires { HasType (S.store store.old).types t }
{
    let a = letter(store)?;
    let int = store.intern_type(TypeNode::Int)?;
    let subst = one(store.allocator(), (a.0, int))?;
    let r = store.instance(t, &subst)?;
    Ok(r)
}

// The term with Int for 'a.
fn term_at_int<S: Terms>(store: &mut S, t: TermId) -> Result<TermId, Fail>
    requires { HasTerm (S.store store.old) t }
{
    let a = letter(store)?;
    let int = store.intern_type(TypeNode::Int)?;
    let subst = one(store.allocator(), (a.0, int))?;
    let r = store.instantiate(t, &subst)?;
    Ok(r)
}

// The constant c of a type.
fn constant<S: Terms>(store: &mut S, ty: TypeId) -> Result<TermId, Fail>
    requires { HasType (S.store store.old).types ty }
    ensures { IfOk result (λ t. HasTerm (S.store store.new) t) }
{
    let name = store.name(b"c")?;
    let t = store.intern(Node::Const(name, ty))?;
    Ok(t)
}

// With Int for 'a, (list 'a) is (list Int), and c of type 'a is c of type Int.
fn instances<S: Terms>(rt: &impl Abort, store: &mut S) -> Result<(), Fail> {
    let pair = lists(store)?;
    let r = type_at_int(store, pair.0)?;
    assert_eq!(rt; r, pair.1);
    let a = letter(store)?;
    let general = constant(store, a.1)?;
    let r = term_at_int(store, general)?;
    let int = store.intern_type(TypeNode::Int)?;
    let expected = constant(store, int)?;
    assert_eq!(rt; r, expected);
    Ok(())
}

// The calls on types.
pub(crate) fn each_type_call<S: Terms>(rt: &impl Abort, store: &mut S) -> Result<(), Fail> {
    matching(rt, store)?;
    instances(rt, store)
}
