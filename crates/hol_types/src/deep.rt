//! The parts of deep types. A walk that remembers what it did and goes through them first calls itself a few levels deep
//! only.
ghost use Rattle.std.specs.Prelude.{IfOk, OnOk};
ghost use Rattle.std.specs.List.{AllByRecursion};
ghost use Rattle.hol_types.specs.Deep.{IsTypePart};
ghost use Rattle.hol_types.specs.Once.{IsAdded};
ghost use Rattle.hol_types.specs.Ty.{Ty};
ghost use Rattle.hol_types.specs.TypeStore.{IsTypeStore, HasType, joined, type_tree};

use crate::node::{TypeId, TypeNode};
use crate::tables::{TypeTables, height_in, known_node_in};
use std::alloc::{AllocError, Global};
use std::collections::HashSet;

/// How many levels a walk may go down by calling itself.
pub(crate) const SHALLOW: u32 = 1000;

/// Adds a part to those found, unless it is there.
fn add_part(
    found: &mut HashSet<TypeId>,
    parts: &mut Vec<TypeId>,
    t: TypeId,
) -> Result<(), AllocError>
    ensures { OnOk result (IsAdded t parts.old.items parts.new.items) }
{
    let fresh = found.insert(t)?;
    if fresh {
        parts.push(t)?;
        return Ok(());
    }
    Ok(())
}

/// Adds the types of a list to the parts found.
fn add_all(
    base: &TypeTables,
    own: &TypeTables,
    found: &mut HashSet<TypeId>,
    parts: &mut Vec<TypeId>,
    ts: &[TypeId],
) -> Result<(), AllocError>
    ensures { OnOk result ((whole : Ty) → AllByRecursion (IsTypePart (joined base.now own.now) whole) ts.now → AllByRecursion (IsTypePart (joined base.now own.now) whole) parts.old.items → AllByRecursion (IsTypePart (joined base.now own.now) whole) parts.new.items) }
{
    for t in ts {
        add_part(found, parts, *t)?;
    }
    Ok(())
}

/// Adds what a type is made of to the parts found.
fn add_beneath(
    base: &TypeTables,
    own: &TypeTables,
    found: &mut HashSet<TypeId>,
    parts: &mut Vec<TypeId>,
    t: TypeId,
) -> Result<(), AllocError>
    requires lawful { IsTypeStore (joined base.now own.now) }
    requires there { HasType (joined base.now own.now) t }
    ensures { OnOk result ((whole : Ty) → IsTypePart (joined base.now own.now) whole t → AllByRecursion (IsTypePart (joined base.now own.now) whole) parts.old.items → AllByRecursion (IsTypePart (joined base.now own.now) whole) parts.new.items) }
{
    match known_node_in(base, own, t) {
        TypeNode::Fun(a, b) => {
            add_part(found, parts, *a)?;
            add_part(found, parts, *b)?;
            Ok(())
        }
        TypeNode::Cons(_, ts) => {
            add_all(base, own, found, parts, ts.as_slice())?;
            Ok(())
        }
        TypeNode::Bool => Ok(()),
        TypeNode::Int => Ok(()),
        TypeNode::Var(_) => Ok(()),
    }
}

/// The distinct parts of a type, as they are met. No part has a greater number than the type, so there are no more of
/// them than that.
fn parts_of(
    base: &TypeTables,
    own: &TypeTables,
    alloc: Global,
    t: TypeId,
) -> Result<Vec<TypeId>, AllocError>
    requires lawful { IsTypeStore (joined base.now own.now) }
    requires there { HasType (joined base.now own.now) t }
    ensures { IfOk result (λ parts. AllByRecursion (IsTypePart (joined base.now own.now) (type_tree (joined base.now own.now) t)) parts.items) }
{
    let mut found = HashSet::new(alloc);
    let mut parts = Vec::new(alloc);
    add_part(&mut found, &mut parts, t)?;
    for at in 0..t.index() as usize {
        if at >= parts.len() {
            return Ok(parts);
        }
        let part = parts[at];
        add_beneath(base, own, &mut found, &mut parts, part)?;
    }
    Ok(parts)
}

/// The distinct parts of a deep type, smaller numbers first, and none of a type that isn't deep. A part has a smaller
/// number than the type that it is part of. That each part is there serves no result: a walk gives the same without.
pub fn deep_parts(
    base: &TypeTables,
    own: &TypeTables,
    alloc: Global,
    t: TypeId,
) -> Result<Vec<TypeId>, AllocError>
    requires lawful { IsTypeStore (joined base.now own.now) }
    requires there { HasType (joined base.now own.now) t }
    ensures { IfOk result (λ parts. AllByRecursion (IsTypePart (joined base.now own.now) (type_tree (joined base.now own.now) t)) parts.items) }
{
    if height_in(base, own, t) <= SHALLOW {
        return Ok(Vec::new(alloc));
    }
    let mut parts = parts_of(base, own, alloc, t)?;
    parts.sort_unstable();
    Ok(parts)
}
