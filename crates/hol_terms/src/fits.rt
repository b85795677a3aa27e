//! Whether the Bounds of a body have their binder's type.
ghost use Rattle.std.specs.Prelude.{◌≡◌, ◌^◌, ◌<◌, ◌+◌, ◌↔◌, false, IsTrue, IfOk};
ghost use Rattle.hol_types.specs.TypeStore.{type_tree, HasType};
ghost use Rattle.hol_terms.specs.Term.{BoundsFit};
ghost use Rattle.hol_terms.specs.Memo.{AllFit};
ghost use Rattle.hol_terms.specs.TermStore.{IsTermStore, joined, term_tree, HasTerm};

use crate::memo::{Part, Parts};
use crate::node::{Node, TermId};
use crate::places::deep_places_in;
use crate::tables::{TermTables, known_node_in, reach_in};
use hol_types::TypeId;
use std::alloc::AllocError;
use std::collections::HashSet;

/// Whether each loose Bound of the part's index has the type. Each shared part is walked once: `seen` has the parts
/// whose Bounds have it. A part that reaches no further than the index has no such Bound.
#[cycle(fits)]
fn part_fits(
    base: &TermTables,
    own: &TermTables,
    seen: &mut Parts,
    part: Part,
    ty: TypeId,
) -> Result<bool, AllocError>
    requires lawful { IsTermStore (joined base.now own.now) }
    requires there { HasTerm (joined base.now own.now) part.term }
    requires ty { HasType (joined base.now own.now).types ty }
    requires room { part.index + part.term < 2 ^ 32 }
    requires seen { AllFit (joined base.now own.now) (type_tree (joined base.now own.now).types ty) seen.old }
    ensures fits { IfOk result (λ r. IsTrue r ↔ BoundsFit (term_tree (joined base.now own.now) part.term) part.index (type_tree (joined base.now own.now).types ty)) }
    ensures seen { AllFit (joined base.now own.now) (type_tree (joined base.now own.now).types ty) seen.new }
{
    if reach_in(base, own, part.term) <= part.index {
        return Ok(true);
    }
    if seen.contains(&part) {
        return Ok(true);
    }
    let fits = node_fits(base, own, seen, part, ty)?;
    if fits {
        seen.insert(part)?;
    }
    Ok(fits)
}

/// The same, by the part's node.
#[cycle(fits)]
fn node_fits(
    base: &TermTables,
    own: &TermTables,
    seen: &mut Parts,
    part: Part,
    ty: TypeId,
) -> Result<bool, AllocError>
    requires lawful { IsTermStore (joined base.now own.now) }
    requires there { HasTerm (joined base.now own.now) part.term }
    requires ty { HasType (joined base.now own.now).types ty }
    requires room { part.index + part.term < 2 ^ 32 }
    requires seen { AllFit (joined base.now own.now) (type_tree (joined base.now own.now).types ty) seen.old }
    ensures fits { IfOk result (λ r. IsTrue r ↔ BoundsFit (term_tree (joined base.now own.now) part.term) part.index (type_tree (joined base.now own.now).types ty)) }
    ensures seen { AllFit (joined base.now own.now) (type_tree (joined base.now own.now).types ty) seen.new }
{
    let index = part.index;
    match known_node_in(base, own, part.term) {
        Node::Bound(i, u) => Ok(i != index || u == ty),
        Node::App(f, x) => {
            if !part_fits(base, own, seen, Part { term: f, index }, ty)? {
                return Ok(false);
            }
            let fits = part_fits(base, own, seen, Part { term: x, index }, ty)?;
            Ok(fits)
        }
        Node::Lam(_, b) => {
            let body = Part {
                term: b,
                index: index + 1,
            };
            let fits = part_fits(base, own, seen, body, ty)?;
            Ok(fits)
        }
        Node::Free(_, _, _) => Ok(true),
        Node::Const(_, _) => Ok(true),
        Node::Num(_) => Ok(true),
    }
}

/// Goes through the parts of a deep body, as long as they fit. False only where the body doesn't.
fn places_fit(
    base: &TermTables,
    own: &TermTables,
    seen: &mut Parts,
    body: TermId,
    ty: TypeId,
) -> Result<bool, AllocError>
    requires lawful { IsTermStore (joined base.now own.now) }
    requires there { HasTerm (joined base.now own.now) body }
    requires ty { HasType (joined base.now own.now).types ty }
    requires seen { AllFit (joined base.now own.now) (type_tree (joined base.now own.now).types ty) seen.old }
    ensures fits { IfOk result (λ r. r ≡ false → BoundsFit (term_tree (joined base.now own.now) body) 0 (type_tree (joined base.now own.now).types ty) → ⊥) }
    ensures seen { AllFit (joined base.now own.now) (type_tree (joined base.now own.now).types ty) seen.new }
{
    let places = deep_places_in(base, own, body, true)?;
    for place in places.as_slice() {
        if !part_fits(base, own, seen, *place, ty)? {
            return Ok(false);
        }
    }
    Ok(true)
}

/// Whether each Bound of a body that stands for its binder has the type. It takes one step for each distinct part of
/// the body and each number of binders around it, and none for a closed part.
pub(crate) fn bounds_fit(
    base: &TermTables,
    own: &TermTables,
    body: TermId,
    ty: TypeId,
) -> Result<bool, AllocError>
    requires lawful { IsTermStore (joined base.now own.now) }
    requires there { HasTerm (joined base.now own.now) body }
    requires ty { HasType (joined base.now own.now).types ty }
    ensures { IfOk result (λ r. IsTrue r ↔ BoundsFit (term_tree (joined base.now own.now) body) 0 (type_tree (joined base.now own.now).types ty)) }
{
    let mut seen = HashSet::new(own.allocator());
    if !places_fit(base, own, &mut seen, body, ty)? {
        return Ok(false);
    }
    let part = Part {
        term: body,
        index: 0,
    };
    let fits = part_fits(base, own, &mut seen, part, ty)?;
    Ok(fits)
}
