//! What no clause says: that the calls succeed, and that the clauses mean what they should on small types.
ghost use Rattle.std.specs.Prelude.{IfOk};
ghost use Rattle.hol_types.specs.TypeStore.{HasName, HasType};

use crate::lists::one;
use hol_types::{Bytes, FileName, List, NameId, Room, TypeFault, TypeId, TypeNode, Types};
use std::alloc::Global;
use std::process::Abort;
use std::test::Fail;

// A name has one number and its text.
fn names(rt: &impl Abort, types: &mut Types) -> Result<(), Fail> {
    let a = types.name(b"'a")?;
    let list = types.name(b"list")?;
    assert!(rt; a != list);
    assert_eq!(rt; types.text(list), b"list".as_slice());
    let again = types.name(b"list")?;
    assert_eq!(rt; again, list);
    Ok(())
}

// A name is declared once.
fn declared(rt: &impl Abort, types: &mut Types) -> Result<(), Fail> {
    let list = types.name(b"list")?;
    let fresh = types.declare(list, 1)?;
    let again = types.declare(list, 1)?;
    assert!(rt; fresh);
    assert!(rt; !again);
    Ok(())
}

// A type has one number.
fn nodes(rt: &impl Abort, types: &mut Types) -> Result<(), Fail> {
    let int = types.intern(TypeNode::Int)?;
    let bool = types.intern(TypeNode::Bool)?;
    let again = types.intern(TypeNode::Int)?;
    assert!(rt; bool != int);
    assert_eq!(rt; again, int);
    Ok(())
}

// (set) isn't a type where set isn't declared.
fn undeclared(rt: &impl Abort, alloc: Global, types: &mut Types) -> Result<(), Fail> {
    let set = types.name(b"set")?;
    let none = List::new(Vec::new(alloc));
    let bare = types.intern(TypeNode::Cons(set, none));
    assert_eq!(rt; bare, Err(TypeFault::Arity));
    Ok(())
}

// 'a, as a name and as a type.
fn variable(types: &mut Types) -> Result<(NameId, TypeId), Fail>
    ensures name { IfOk result (λ p. HasName types.new p.0) }
    ensures there { IfOk result (λ p. HasType types.new p.1) }
{
    let a = types.name(b"'a")?;
    let var = types.intern(TypeNode::Var(a))?;
    Ok((a, var))
}

// The type with Int for the variable.
fn with_int(alloc: Global, types: &mut Types, t: TypeId, variable: NameId) -> Result<TypeId, Fail>
    requires t { HasType types.old t }
    requires variable { HasName types.old variable }
{
    let int = types.intern(TypeNode::Int)?;
    let subst = one(alloc, (variable, int))?;
    let r = types.instance(t, &subst)?;
    Ok(r)
}

// 'a with Int for 'a is Int.
fn instance_of_variable(rt: &impl Abort, alloc: Global, types: &mut Types) -> Result<(), Fail> {
    let a = variable(types)?;
    let r = with_int(alloc, types, a.1, a.0)?;
    let int = types.intern(TypeNode::Int)?;
    assert_eq!(rt; r, int);
    Ok(())
}

fn each_call(rt: &impl Abort, alloc: Global, types: &mut Types) -> Result<(), Fail> {
    undeclared(rt, alloc, types)?;
    names(rt, types)?;
    declared(rt, types)?;
    nodes(rt, types)?;
    instance_of_variable(rt, alloc, types)
}

#[test]
fn types_by_number(rt: HostRuntime) -> Result<(), Fail> {
    let mut types = Types::new(rt.alloc());
    each_call(&rt, rt.alloc(), &mut types)
}

#[test]
fn lists_and_names(rt: HostRuntime) -> Result<(), Fail> {
    let mut room = Room::with_capacity(rt.alloc(), 2)?;
    room.push_within(b'o');
    let mut bytes: Bytes = room.into_list();
    bytes.push(b'k')?;
    bytes.extend_from_slice(b"!")?;
    assert_eq!(rt; bytes.len(), 3);
    assert!(rt; bytes.clone()? == bytes && !bytes.is_empty());
    assert_eq!(rt; bytes.into_vec().as_slice(), b"ok!".as_slice());
    let name = FileName::new(String::from_str(rt.alloc(), "goal")?);
    assert_eq!(rt; name.as_str(), "goal");
    Ok(())
}
