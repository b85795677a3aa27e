//! The parts of deep terms. A walk that remembers what it did and goes through them first calls itself a few levels deep
//! only.
ghost use Rattle.std.specs.Prelude.{IfOk, OnOk};
ghost use Rattle.std.specs.List.{AllByRecursion};
ghost use Rattle.hol_types.specs.Once.{IsAdded};
ghost use Rattle.hol_types.specs.Deep.{IsTypePart};
ghost use Rattle.hol_types.specs.TypeStore.{HasType, type_tree};
ghost use Rattle.hol_terms.specs.Term.{Term};
ghost use Rattle.hol_terms.specs.Deep.{IsPart};
ghost use Rattle.hol_terms.specs.TermStore.{IsTermStore, HasTerm, joined, term_tree};

use crate::node::{Node, TermId};
use crate::tables::{TermTables, height_in, known_node_in};
use hol_types as types;
use hol_types::TypeId;
use std::alloc::AllocError;
use std::collections::HashSet;

/// How many levels a walk may go down by calling itself.
pub(crate) const SHALLOW: u32 = 2500;

/// Adds a part to those found, unless it is there.
fn add_part(
    found: &mut HashSet<TermId>,
    parts: &mut Vec<TermId>,
    t: TermId,
) -> Result<(), AllocError>
    ensures { OnOk result (IsAdded t parts.old.items parts.new.items) }
{
    let fresh = found.insert(t)?;
    if fresh {
        parts.push(t)?;
        return Ok(());
    }
    Ok(())
}

/// Adds what a term is made of to the parts found.
fn add_beneath(
    base: &TermTables,
    own: &TermTables,
    found: &mut HashSet<TermId>,
    parts: &mut Vec<TermId>,
    t: TermId,
) -> Result<(), AllocError>
    requires lawful { IsTermStore (joined base.now own.now) }
    requires there { HasTerm (joined base.now own.now) t }
    ensures { OnOk result ((whole : Term) → IsPart (joined base.now own.now) whole t → AllByRecursion (IsPart (joined base.now own.now) whole) parts.old.items → AllByRecursion (IsPart (joined base.now own.now) whole) parts.new.items) }
{
    match known_node_in(base, own, t) {
        Node::App(f, x) => {
            add_part(found, parts, f)?;
            add_part(found, parts, x)?;
            Ok(())
        }
        Node::Lam(_, b) => {
            add_part(found, parts, b)?;
            Ok(())
        }
        Node::Free(_, _, _) => Ok(()),
        Node::Bound(_, _) => Ok(()),
        Node::Const(_, _) => Ok(()),
        Node::Num(_) => Ok(()),
    }
}

/// The distinct parts of a term, as they are met. No part has a greater number than the term, so there are no more of
/// them than that.
fn parts_of(base: &TermTables, own: &TermTables, t: TermId) -> Result<Vec<TermId>, AllocError>
    requires lawful { IsTermStore (joined base.now own.now) }
    requires there { HasTerm (joined base.now own.now) t }
    ensures { IfOk result (λ parts. AllByRecursion (IsPart (joined base.now own.now) (term_tree (joined base.now own.now) t)) parts.items) }
{
    let mut found = HashSet::new(own.allocator());
    let mut parts = Vec::new(own.allocator());
    add_part(&mut found, &mut parts, t)?;
    for at in 0..t.index() as usize {
        if at >= parts.len() {
            return Ok(parts);
        }
        let part = parts[at];
        add_beneath(base, own, &mut found, &mut parts, part)?;
    }
    Ok(parts)
}

/// The distinct parts of a deep term, smaller numbers first, and none of a term that isn't deep. That each part is there
/// serves no result: a walk gives the same without.
pub(crate) fn deep_parts_in(
    base: &TermTables,
    own: &TermTables,
    t: TermId,
) -> Result<Vec<TermId>, AllocError>
    requires lawful { IsTermStore (joined base.now own.now) }
    requires there { HasTerm (joined base.now own.now) t }
    ensures { IfOk result (λ parts. AllByRecursion (IsPart (joined base.now own.now) (term_tree (joined base.now own.now) t)) parts.items) }
{
    if height_in(base, own, t) <= SHALLOW {
        return Ok(Vec::new(own.allocator()));
    }
    let mut parts = parts_of(base, own, t)?;
    parts.sort_unstable();
    Ok(parts)
}

/// The distinct parts of a deep type, smaller numbers first, and none of a type that isn't deep. That each part is there
/// serves no result.
pub(crate) fn deep_type_parts_in(
    base: &TermTables,
    own: &TermTables,
    t: TypeId,
) -> Result<Vec<TypeId>, AllocError>
    requires lawful { IsTermStore (joined base.now own.now) }
    requires there { HasType (joined base.now own.now).types t }
    ensures { IfOk result (λ parts. AllByRecursion (IsTypePart (joined base.now own.now).types (type_tree (joined base.now own.now).types t)) parts.items) }
{
    let alloc = own.allocator();
    types::deep_parts(&base.types, &own.types, alloc, t)
}
