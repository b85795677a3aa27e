//! Types for type variables.
ghost use Rattle.std.specs.Prelude.{◌≡◌, ◌<◌, ◌*◌, IfOk, OnOk, nat_eq};
ghost use Rattle.std.specs.Map.{lookup};
ghost use Rattle.std.specs.List.{AllByRecursion};
ghost use Rattle.hol_types.specs.TypeStore.{IsTypeStore, HasType, HasArity, HasTypeParts, joined, type_tree, tree_of};
ghost use Rattle.hol_types.specs.KeepsTypes.{KeepsTypes};
ghost use Rattle.hol_types.specs.TypeSubst.{HasSubst, subst_tree, instance_of};
ghost use Rattle.hol_types.specs.Instance.{AreInstances, AllTypeInstances};

use crate::deep::deep_parts;
use crate::list::List;
use crate::node::{NameId, TypeId, TypeNode};
use crate::tables::{TypeFault, TypeTables, intern_in, known_node_in};
use std::alloc::{AllocError, Global};
use std::collections::HashMap;

/// Types for type variables: names, each with a type. The first of a name counts.
pub type Subst = List<(NameId, TypeId)>;

/// What was made of types, with the types given for their variables.
pub type TypeInstances = HashMap<TypeId, TypeId>;

/// The type given for a name.
pub(crate) fn given(s: &[(NameId, TypeId)], n: NameId) -> Option<TypeId>
    ensures { result ≡ lookup (nat_eq n) s.now }
{
    for p in s {
        if n == p.0 {
            return Some(p.1);
        }
    }
    None
}

/// A type whose constructors are declared.
fn made(base: &TypeTables, own: &mut TypeTables, node: TypeNode) -> Result<TypeId, AllocError>
    requires lawful { IsTypeStore (joined base.now own.old) }
    requires parts { HasTypeParts (joined base.now own.old) node }
    requires arity { HasArity (joined base.now own.old) node }
    ensures there { IfOk result (λ t. HasType (joined base.now own.new) t) }
    ensures tree { IfOk result (λ t. type_tree (joined base.now own.new) t ≡ tree_of (joined base.now own.old) node) }
    ensures lawful { IsTypeStore (joined base.now own.new) }
    ensures keeps { KeepsTypes (joined base.now own.old) (joined base.now own.new) }
{
    match intern_in(base, own, node) {
        Ok(t) => Ok(t),
        Err(TypeFault::Memory) => Err(AllocError),
        Err(TypeFault::Arity) => unreachable!(),
    }
}

/// The type with the given types for its variables, where the memo has what was made of types before.
#[cycle(instance)]
fn part_instance(
    base: &TypeTables,
    own: &mut TypeTables,
    alloc: Global,
    memo: &mut TypeInstances,
    t: TypeId,
    s: &[(NameId, TypeId)],
) -> Result<TypeId, AllocError>
    requires lawful { IsTypeStore (joined base.now own.old) }
    requires there { HasType (joined base.now own.old) t }
    requires subst { HasSubst (joined base.now own.old) s.now }
    requires memo { AllTypeInstances (joined base.now own.old) s.now memo.old }
    ensures there { IfOk result (λ r. HasType (joined base.now own.new) r) }
    ensures tree { IfOk result (λ r. type_tree (joined base.now own.new) r ≡ instance_of (subst_tree (joined base.now own.old) s.now) (type_tree (joined base.now own.old) t)) }
    ensures lawful { IsTypeStore (joined base.now own.new) }
    ensures keeps { KeepsTypes (joined base.now own.old) (joined base.now own.new) }
    ensures memo { OnOk result (AllTypeInstances (joined base.now own.new) s.now memo.new) }
{
    let found = memo.get(&t).copied();
    match found {
        Some(r) => Ok(r),
        None => {
            let r = instance_node(base, own, alloc, memo, t, s)?;
            memo.insert(t, r)?;
            Ok(r)
        }
    }
}

/// The same, by the part's node.
#[cycle(instance)]
fn instance_node(
    base: &TypeTables,
    own: &mut TypeTables,
    alloc: Global,
    memo: &mut TypeInstances,
    t: TypeId,
    s: &[(NameId, TypeId)],
) -> Result<TypeId, AllocError>
    requires lawful { IsTypeStore (joined base.now own.old) }
    requires there { HasType (joined base.now own.old) t }
    requires subst { HasSubst (joined base.now own.old) s.now }
    requires memo { AllTypeInstances (joined base.now own.old) s.now memo.old }
    ensures there { IfOk result (λ r. HasType (joined base.now own.new) r) }
    ensures tree { IfOk result (λ r. type_tree (joined base.now own.new) r ≡ instance_of (subst_tree (joined base.now own.old) s.now) (type_tree (joined base.now own.old) t)) }
    ensures lawful { IsTypeStore (joined base.now own.new) }
    ensures keeps { KeepsTypes (joined base.now own.old) (joined base.now own.new) }
    ensures memo { OnOk result (AllTypeInstances (joined base.now own.new) s.now memo.new) }
{
    match known_node_in(base, own, t) {
        TypeNode::Bool => Ok(t),
        TypeNode::Int => Ok(t),
        TypeNode::Var(n) => match given(s, *n) {
            Some(u) => Ok(u),
            None => Ok(t),
        },
        TypeNode::Fun(a, b) => {
            let from = *a;
            let to = *b;
            let from = part_instance(base, own, alloc, memo, from, s)?;
            let to = part_instance(base, own, alloc, memo, to, s)?;
            let r = made(base, own, TypeNode::Fun(from, to))?;
            Ok(r)
        }
        TypeNode::Cons(n, ts) => {
            let n = *n;
            let ts = Vec::from_slice(alloc, ts.as_slice())?;
            let us = instances_in(base, own, alloc, memo, t, ts.as_slice(), s)?;
            let r = made(base, own, TypeNode::Cons(n, List::new(us)))?;
            Ok(r)
        }
    }
}

/// The types of a list, each with the given types for its variables.
#[cycle(instance)]
fn instances_in(
    base: &TypeTables,
    own: &mut TypeTables,
    alloc: Global,
    memo: &mut TypeInstances,
    above: TypeId,
    ts: &[TypeId],
    s: &[(NameId, TypeId)],
) -> Result<Vec<TypeId>, AllocError>
    requires lawful { IsTypeStore (joined base.now own.old) }
    requires above { HasType (joined base.now own.old) above }
    requires below { AllByRecursion (λ t. t < above) ts.now }
    requires subst { HasSubst (joined base.now own.old) s.now }
    requires memo { AllTypeInstances (joined base.now own.old) s.now memo.old }
    ensures instances { IfOk result (λ us. AreInstances (subst_tree (joined base.now own.old) s.now) (joined base.now own.old) (joined base.now own.new) ts.now us.items) }
    ensures lawful { IsTypeStore (joined base.now own.new) }
    ensures keeps { KeepsTypes (joined base.now own.old) (joined base.now own.new) }
    ensures memo { OnOk result (AllTypeInstances (joined base.now own.new) s.now memo.new) }
{
    let mut us = Vec::new(alloc);
    for t in ts {
        let u = part_instance(base, own, alloc, memo, *t, s)?;
        us.push(u)?;
    }
    Ok(us)
}

/// Puts what is made of the parts of a deep type into the memo.
fn instances_beneath(
    base: &TypeTables,
    own: &mut TypeTables,
    alloc: Global,
    memo: &mut TypeInstances,
    t: TypeId,
    s: &[(NameId, TypeId)],
) -> Result<(), AllocError>
    requires lawful { IsTypeStore (joined base.now own.old) }
    requires there { HasType (joined base.now own.old) t }
    requires subst { HasSubst (joined base.now own.old) s.now }
    requires memo { AllTypeInstances (joined base.now own.old) s.now memo.old }
    ensures lawful { IsTypeStore (joined base.now own.new) }
    ensures keeps { KeepsTypes (joined base.now own.old) (joined base.now own.new) }
    ensures memo { OnOk result (AllTypeInstances (joined base.now own.new) s.now memo.new) }
{
    if memo.contains_key(&t) {
        return Ok(());
    }
    let parts = deep_parts(base, own, alloc, t)?;
    for part in parts.as_slice() {
        part_instance(base, own, alloc, memo, *part, s)?;
    }
    Ok(())
}

/// The type with the given types for its variables, where the memo has what was made of types before. It takes one step
/// for each distinct part that isn't among these.
pub fn instance_part(
    base: &TypeTables,
    own: &mut TypeTables,
    alloc: Global,
    memo: &mut TypeInstances,
    t: TypeId,
    s: &[(NameId, TypeId)],
) -> Result<TypeId, AllocError>
    requires lawful { IsTypeStore (joined base.now own.old) }
    requires there { HasType (joined base.now own.old) t }
    requires subst { HasSubst (joined base.now own.old) s.now }
    requires memo { AllTypeInstances (joined base.now own.old) s.now memo.old }
    ensures there { IfOk result (λ r. HasType (joined base.now own.new) r) }
    ensures tree { IfOk result (λ r. type_tree (joined base.now own.new) r ≡ instance_of (subst_tree (joined base.now own.old) s.now) (type_tree (joined base.now own.old) t)) }
    ensures lawful { IsTypeStore (joined base.now own.new) }
    ensures keeps { KeepsTypes (joined base.now own.old) (joined base.now own.new) }
    ensures memo { OnOk result (AllTypeInstances (joined base.now own.new) s.now memo.new) }
{
    instances_beneath(base, own, alloc, memo, t, s)?;
    let r = part_instance(base, own, alloc, memo, t, s)?;
    Ok(r)
}

/// The type with the given types for its variables. It takes one step for each distinct part.
pub fn instance_in(
    base: &TypeTables,
    own: &mut TypeTables,
    alloc: Global,
    t: TypeId,
    s: &[(NameId, TypeId)],
) -> Result<TypeId, AllocError>
    requires lawful { IsTypeStore (joined base.now own.old) }
    requires there { HasType (joined base.now own.old) t }
    requires subst { HasSubst (joined base.now own.old) s.now }
    ensures there { IfOk result (λ r. HasType (joined base.now own.new) r) }
    ensures tree { IfOk result (λ r. type_tree (joined base.now own.new) r ≡ instance_of (subst_tree (joined base.now own.old) s.now) (type_tree (joined base.now own.old) t)) }
    ensures lawful { IsTypeStore (joined base.now own.new) }
    ensures keeps { KeepsTypes (joined base.now own.old) (joined base.now own.new) }
{
    let mut memo = HashMap::new(alloc);
    let r = instance_part(base, own, alloc, &mut memo, t, s)?;
    Ok(r)
}
