//! The parts of deep patterns, each with the part of the type that it has to be.
ghost use Rattle.std.specs.Prelude.{IfOk, OnOk};
ghost use Rattle.std.specs.List.{AllByRecursion};
ghost use Rattle.hol_types.specs.Once.{IsAdded};
ghost use Rattle.hol_types.specs.Ty.{Ty};
ghost use Rattle.hol_types.specs.TypeStore.{IsTypeStore, HasType, joined, type_tree};
ghost use Rattle.hol_types.specs.Pairs.{IsPair};

use crate::deep::SHALLOW;
use crate::matching::function_sides;
use crate::node::{TypeId, TypeNode};
use crate::tables::{TypeTables, height_in, known_node_in};
use std::alloc::{AllocError, Global};
use std::collections::HashSet;

/// Adds a part of the pattern with what it has to be, unless the part is there.
fn add_pair(
    found: &mut HashSet<TypeId>,
    pairs: &mut Vec<(TypeId, TypeId)>,
    part: TypeId,
    t: TypeId,
) -> Result<(), AllocError>
    ensures { OnOk result (IsAdded (part, t) pairs.old.items pairs.new.items) }
{
    let fresh = found.insert(part)?;
    if fresh {
        pairs.push((part, t))?;
        return Ok(());
    }
    Ok(())
}

/// Adds the two sides of a function type that has to be another.
fn add_sides(
    base: &TypeTables,
    own: &TypeTables,
    found: &mut HashSet<TypeId>,
    pairs: &mut Vec<(TypeId, TypeId)>,
    part: TypeId,
    t: TypeId,
) -> Result<(), AllocError>
    requires lawful { IsTypeStore (joined base.now own.now) }
    requires part { HasType (joined base.now own.now) part }
    requires there { HasType (joined base.now own.now) t }
    ensures { OnOk result ((pattern type : Ty) → IsPair (joined base.now own.now) pattern type (part, t) → AllByRecursion (IsPair (joined base.now own.now) pattern type) pairs.old.items → AllByRecursion (IsPair (joined base.now own.now) pattern type) pairs.new.items) }
{
    match known_node_in(base, own, part) {
        TypeNode::Fun(a, b) => match function_sides(base, own, t) {
            None => Ok(()),
            Some(sides) => {
                add_pair(found, pairs, *a, sides.0)?;
                add_pair(found, pairs, *b, sides.1)?;
                Ok(())
            }
        },
        TypeNode::Bool => Ok(()),
        TypeNode::Int => Ok(()),
        TypeNode::Var(_) => Ok(()),
        TypeNode::Cons(_, _) => Ok(()),
    }
}

/// The distinct parts of a pattern that are sides of function types, each with what it has to be, as they are met.
fn pairs_of(
    base: &TypeTables,
    own: &TypeTables,
    alloc: Global,
    pattern: TypeId,
    t: TypeId,
) -> Result<Vec<(TypeId, TypeId)>, AllocError>
    requires lawful { IsTypeStore (joined base.now own.now) }
    requires pattern { HasType (joined base.now own.now) pattern }
    requires there { HasType (joined base.now own.now) t }
    ensures { IfOk result (λ pairs. AllByRecursion (IsPair (joined base.now own.now) (type_tree (joined base.now own.now) pattern) (type_tree (joined base.now own.now) t)) pairs.items) }
{
    let mut found = HashSet::new(alloc);
    let mut pairs = Vec::new(alloc);
    add_pair(&mut found, &mut pairs, pattern, t)?;
    for at in 0..pattern.index() as usize {
        if at >= pairs.len() {
            return Ok(pairs);
        }
        let pair = pairs[at];
        add_sides(base, own, &mut found, &mut pairs, pair.0, pair.1)?;
    }
    Ok(pairs)
}

/// The distinct parts of a deep pattern that are sides of function types, each with what it has to be, smaller numbers
/// first, and none of a pattern that isn't deep. That each is there serves no result.
pub(crate) fn deep_pairs(
    base: &TypeTables,
    own: &TypeTables,
    alloc: Global,
    pattern: TypeId,
    t: TypeId,
) -> Result<Vec<(TypeId, TypeId)>, AllocError>
    requires lawful { IsTypeStore (joined base.now own.now) }
    requires pattern { HasType (joined base.now own.now) pattern }
    requires there { HasType (joined base.now own.now) t }
    ensures { IfOk result (λ pairs. AllByRecursion (IsPair (joined base.now own.now) (type_tree (joined base.now own.now) pattern) (type_tree (joined base.now own.now) t)) pairs.items) }
{
    if height_in(base, own, pattern) <= SHALLOW {
        return Ok(Vec::new(alloc));
    }
    let mut pairs = pairs_of(base, own, alloc, pattern, t)?;
    pairs.sort_unstable();
    Ok(pairs)
}
