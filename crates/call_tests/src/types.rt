//! Types by number: constructors, matching, and types of many shared parts. The expected values are worked by hand.
ghost use Rattle.std.specs.Prelude.{IfOk};
ghost use Rattle.hol_types.specs.TypeStore.{HasName, HasType};
ghost use Rattle.hol_types.specs.KeepsTypes.{KeepsTypes};

use crate::lists::one;
use hol_types::{List, NameId, Subst, TypeFault, TypeId, TypeNode, Types};
use std::alloc::Global;
use std::process::Abort;
use std::test::Fail;

// 'a, as a name and as a type.
#[tactic(auto, using(hol_types::proofs::KeepsLemmas::keeps_types_trans))]
fn letter(types: &mut Types) -> Result<(NameId, TypeId), Fail>
    ensures name { IfOk result (λ p. HasName types.new p.0) }
    ensures there { IfOk result (λ p. HasType types.new p.1) }
    ensures keeps { IfOk result (λ _. KeepsTypes types.old types.new) }
{
    let a = types.name(b"'a")?;
    let var = types.intern(TypeNode::Var(a))?;
    Ok((a, var))
}

// (list item), where list is declared with one argument.
#[tactic(auto, using(hol_types::proofs::KeepsLemmas::keeps_types_trans))]
fn list_of(alloc: Global, types: &mut Types, item: TypeId) -> Result<TypeId, Fail>
    requires { HasType types.old item }
    ensures there { IfOk result (λ t. HasType types.new t) }
    ensures keeps { IfOk result (λ _. KeepsTypes types.old types.new) }
{
    let args = one(alloc, item)?;
    let list = types.name(b"list")?;
    types.declare(list, 1)?;
    let t = types.intern(TypeNode::Cons(list, args))?;
    Ok(t)
}

// (list 'a) and (list Int).
fn lists(alloc: Global, types: &mut Types) -> Result<(TypeId, TypeId), Fail>
    ensures pattern { IfOk result (λ p. HasType types.new p.0) }
    ensures there { IfOk result (λ p. HasType types.new p.1) }
{
    let a = letter(types)?;
    let pattern = list_of(alloc, types, a.1)?;
    let int = types.intern(TypeNode::Int)?;
    let there = list_of(alloc, types, int)?;
    Ok((pattern, there))
}

// What is given for 'a where the pattern is the type, or None where it isn't.
fn matched(alloc: Global, types: &Types, pattern: TypeId, t: TypeId) -> Result<Option<Subst>, Fail>
    requires pattern { HasType types.now pattern }
    requires there { HasType types.now t }
{
    let none = List::new(Vec::new(alloc));
    let found = types.match_type(pattern, t, &none)?;
    Ok(found)
}

// (list 'a) is (list Int) with Int for 'a, and never Int.
fn matching(rt: &impl Abort, alloc: Global, types: &mut Types) -> Result<(), Fail> {
    let pair = lists(alloc, types)?;
    let found = matched(alloc, types, pair.0, pair.1)?;
    let refused = matched(alloc, types, pair.1, pair.0)?;
    assert!(rt; refused.is_none());
    let a = types.name(b"'a")?;
    let int = types.intern(TypeNode::Int)?;
    let expected = one(alloc, (a, int))?;
    assert!(rt; found == Some(expected));
    Ok(())
}

// (list) and (list Int Int) aren't types.
fn arity(rt: &impl Abort, alloc: Global, types: &mut Types) -> Result<(), Fail> {
    let list = types.name(b"list")?;
    types.declare(list, 1)?;
    let none = List::new(Vec::new(alloc));
    let bare = types.intern(TypeNode::Cons(list, none));
    assert_eq!(rt; bare, Err(TypeFault::Arity));
    Ok(())
}

// t -> t, that to itself, and so on: a type of 2^length parts t.
fn functions(types: &mut Types, t: TypeId, length: u32) -> Result<TypeId, Fail>
    requires { HasType types.old t }
    ensures { IfOk result (λ r. HasType types.new r) }
{
    if length == 0 {
        return Ok(t);
    }
    let double = types.intern(TypeNode::Fun(t, t))?;
    let r = functions(types, double, length - 1)?;
    Ok(r)
}

// 2^60 letters, of which with all that is made of them 61 are distinct.
fn letters(types: &mut Types) -> Result<TypeId, Fail>
    ensures { IfOk result (λ r. HasType types.new r) }
{
    let a = letter(types)?;
    let t = functions(types, a.1, 60)?;
    Ok(t)
}

// With Int for 'a these are 2^60 times Int.
fn shared(rt: &impl Abort, alloc: Global, types: &mut Types) -> Result<(), Fail> {
    let general = letters(types)?;
    let a = letter(types)?;
    let int = types.intern(TypeNode::Int)?;
    let subst = one(alloc, (a.0, int))?;
    let r = types.instance(general, &subst)?;
    let int = types.intern(TypeNode::Int)?;
    let numbers = functions(types, int, 60)?;
    assert_eq!(rt; r, numbers);
    let general = letters(types)?;
    let found = matched(alloc, types, general, general)?;
    assert!(rt; found.is_some());
    Ok(())
}

#[test]
fn types_by_number(rt: HostRuntime) -> Result<(), Fail> {
    let mut types = Types::new(rt.alloc());
    arity(&rt, rt.alloc(), &mut types)?;
    matching(&rt, rt.alloc(), &mut types)?;
    shared(&rt, rt.alloc(), &mut types)
}
