//! The parts of deep terms, each with the number of binders around it.
ghost use Rattle.std.specs.Prelude.{◌+◌, ◌<◌, ◌^◌, IfOk, OnOk};
ghost use Rattle.std.specs.List.{AllByRecursion};
ghost use Rattle.hol_types.specs.Once.{IsAdded};
ghost use Rattle.hol_terms.specs.Term.{Term};
ghost use Rattle.hol_terms.specs.Deep.{IsPlace};
ghost use Rattle.hol_terms.specs.TermStore.{IsTermStore, HasTerm, joined, term_tree};

use crate::deep::SHALLOW;
use crate::memo::{Part, Parts};
use crate::node::{Node, TermId};
use crate::tables::{TermTables, height_in, known_node_in, reach_in};
use std::alloc::AllocError;
use std::collections::HashSet;

/// Adds a part to those found, unless it is there.
fn add_place(found: &mut Parts, places: &mut Vec<Part>, part: Part) -> Result<(), AllocError>
    ensures { OnOk result (IsAdded part places.old.items places.new.items) }
{
    let term = part.term;
    let index = part.index;
    let fresh = found.insert(Part { term, index })?;
    if fresh {
        places.push(Part { term, index })?;
        return Ok(());
    }
    Ok(())
}

/// Whether a part adds nothing: it reaches no further than its index, and only loose parts are wanted.
fn is_left_out(base: &TermTables, own: &TermTables, t: TermId, index: u32, loose: bool) -> bool
    requires lawful { IsTermStore (joined base.now own.now) }
    requires there { HasTerm (joined base.now own.now) t }
{
    if !loose {
        return false;
    }
    reach_in(base, own, t) <= index
}

/// Adds what a part is made of to those found. Where only loose parts are wanted, one that reaches no further than its
/// index adds nothing.
fn add_places(
    base: &TermTables,
    own: &TermTables,
    found: &mut Parts,
    places: &mut Vec<Part>,
    part: Part,
    loose: bool,
) -> Result<(), AllocError>
    requires lawful { IsTermStore (joined base.now own.now) }
    requires there { HasTerm (joined base.now own.now) part.term }
    requires room { part.index + part.term < 2 ^ 32 }
    ensures { OnOk result ((whole : Term) → IsPlace (joined base.now own.now) whole part → AllByRecursion (IsPlace (joined base.now own.now) whole) places.old.items → AllByRecursion (IsPlace (joined base.now own.now) whole) places.new.items) }
{
    let index = part.index;
    if is_left_out(base, own, part.term, index, loose) {
        return Ok(());
    }
    match known_node_in(base, own, part.term) {
        Node::App(f, x) => {
            add_place(found, places, Part { term: f, index })?;
            add_place(found, places, Part { term: x, index })?;
            Ok(())
        }
        Node::Lam(_, b) => {
            let body = Part {
                term: b,
                index: index + 1,
            };
            add_place(found, places, body)?;
            Ok(())
        }
        Node::Free(_, _, _) => Ok(()),
        Node::Bound(_, _) => Ok(()),
        Node::Const(_, _) => Ok(()),
        Node::Num(_) => Ok(()),
    }
}

/// The distinct parts of a term and numbers of binders around them, as they are met.
fn places_of(
    base: &TermTables,
    own: &TermTables,
    t: TermId,
    loose: bool,
) -> Result<Vec<Part>, AllocError>
    requires lawful { IsTermStore (joined base.now own.now) }
    requires there { HasTerm (joined base.now own.now) t }
    ensures { IfOk result (λ places. AllByRecursion (IsPlace (joined base.now own.now) (term_tree (joined base.now own.now) t)) places.items) }
{
    let mut found = HashSet::new(own.allocator());
    let mut places = Vec::new(own.allocator());
    add_place(&mut found, &mut places, Part { term: t, index: 0 })?;
    for at in 0..usize::MAX {
        if at >= places.len() {
            return Ok(places);
        }
        let part = places[at];
        add_places(base, own, &mut found, &mut places, part, loose)?;
    }
    Ok(places)
}

/// The distinct parts of a deep term, each with each number of binders around it, those of smaller numbers first, and
/// none of a term that isn't deep. Where only loose parts are wanted, what stands in a part that reaches no further than
/// its index is left out. That each part is there serves no result: a walk gives the same without.
pub(crate) fn deep_places_in(
    base: &TermTables,
    own: &TermTables,
    t: TermId,
    loose: bool,
) -> Result<Vec<Part>, AllocError>
    requires lawful { IsTermStore (joined base.now own.now) }
    requires there { HasTerm (joined base.now own.now) t }
    ensures { IfOk result (λ places. AllByRecursion (IsPlace (joined base.now own.now) (term_tree (joined base.now own.now) t)) places.items) }
{
    if height_in(base, own, t) <= SHALLOW {
        return Ok(Vec::new(own.allocator()));
    }
    let mut places = places_of(base, own, t, loose)?;
    places.sort_unstable();
    Ok(places)
}
