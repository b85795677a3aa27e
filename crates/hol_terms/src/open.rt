//! A term for a bound variable, each shared part once.
ghost use Rattle.std.specs.Prelude.{◌≡◌, ◌+◌, ◌*◌, ◌<◌, ◌^◌, IfOk, OnOk};
ghost use Rattle.hol_terms.specs.Term.{BoundsFit, Typed, ty_of};
ghost use Rattle.hol_terms.specs.TermStore.{Keeps, term_tree, HasTerm};
ghost use Rattle.hol_terms.specs.Substitution.{subst_bound, IsClosed};
ghost use Rattle.hol_terms.specs.Memo.{AllOpened};

use crate::memo::{Memo, Part};
use crate::node::{Node, TermId};
use crate::terms::Terms;
use crate::typed_terms::make;
use std::alloc::AllocError;
use std::collections::HashMap;

/// The part with u for the Bound of its index. A part that reaches no further has no such Bound, and stays.
#[cycle(open)]
fn open_part<S: Terms>(
    store: &mut S,
    memo: &mut Memo,
    part: Part,
    u: TermId,
) -> Result<TermId, AllocError>
    requires term { HasTerm (S.store store.old) part.term }
    requires new { HasTerm (S.store store.old) u }
    requires typed { Typed (term_tree (S.store store.old) u) }
    requires closed { IsClosed (term_tree (S.store store.old) u) }
    requires fits { BoundsFit (term_tree (S.store store.old) part.term) part.index (ty_of (term_tree (S.store store.old) u)) }
    requires room { part.index + part.term < 2 ^ 32 }
    requires memo { AllOpened (S.store store.old) (term_tree (S.store store.old) u) memo.old }
    ensures there { IfOk result (λ r. HasTerm (S.store store.new) r) }
    ensures tree { IfOk result (λ r. term_tree (S.store store.new) r ≡ subst_bound (term_tree (S.store store.old) part.term) part.index (term_tree (S.store store.old) u)) }
    ensures keeps { Keeps (S.store store.old) (S.store store.new) }
    ensures rest { S.rest store.new ≡ S.rest store.old }
    ensures memo { AllOpened (S.store store.new) (term_tree (S.store store.old) u) memo.new }
{
    if store.reach(part.term) <= part.index {
        return Ok(part.term);
    }
    let found = memo.get(&part).copied();
    match found {
        Some(r) => Ok(r),
        None => {
            let r = open_node(store, memo, part, u)?;
            memo.insert(part, r)?;
            Ok(r)
        }
    }
}

/// The same, by the part's node.
#[cycle(open)]
fn open_node<S: Terms>(
    store: &mut S,
    memo: &mut Memo,
    part: Part,
    u: TermId,
) -> Result<TermId, AllocError>
    requires term { HasTerm (S.store store.old) part.term }
    requires new { HasTerm (S.store store.old) u }
    requires typed { Typed (term_tree (S.store store.old) u) }
    requires closed { IsClosed (term_tree (S.store store.old) u) }
    requires fits { BoundsFit (term_tree (S.store store.old) part.term) part.index (ty_of (term_tree (S.store store.old) u)) }
    requires room { part.index + part.term < 2 ^ 32 }
    requires memo { AllOpened (S.store store.old) (term_tree (S.store store.old) u) memo.old }
    ensures there { IfOk result (λ r. HasTerm (S.store store.new) r) }
    ensures tree { IfOk result (λ r. term_tree (S.store store.new) r ≡ subst_bound (term_tree (S.store store.old) part.term) part.index (term_tree (S.store store.old) u)) }
    ensures keeps { Keeps (S.store store.old) (S.store store.new) }
    ensures rest { S.rest store.new ≡ S.rest store.old }
    ensures memo { AllOpened (S.store store.new) (term_tree (S.store store.old) u) memo.new }
{
    let index = part.index;
    match store.node(part.term) {
        Node::Bound(i, _) => { if i == index { Ok(u) } else { Ok(part.term) } }
        Node::App(f, x) => {
            let f = open_part(store, memo, Part { term: f, index }, u)?;
            let x = open_part(store, memo, Part { term: x, index }, u)?;
            let r = make(store, Node::App(f, x))?;
            Ok(r)
        }
        Node::Lam(ty, b) => {
            let body = Part {
                term: b,
                index: index + 1,
            };
            let b = open_part(store, memo, body, u)?;
            let r = make(store, Node::Lam(ty, b))?;
            Ok(r)
        }
        Node::Free(_, _, _) => Ok(part.term),
        Node::Const(_, _) => Ok(part.term),
        Node::Num(_) => Ok(part.term),
    }
}

/// Puts what is made of the parts of a deep body into the memo.
fn open_beneath<S: Terms>(
    store: &mut S,
    memo: &mut Memo,
    body: TermId,
    u: TermId,
) -> Result<(), AllocError>
    requires body { HasTerm (S.store store.old) body }
    requires new { HasTerm (S.store store.old) u }
    requires typed { Typed (term_tree (S.store store.old) u) }
    requires closed { IsClosed (term_tree (S.store store.old) u) }
    requires fits { BoundsFit (term_tree (S.store store.old) body) 0 (ty_of (term_tree (S.store store.old) u)) }
    requires memo { AllOpened (S.store store.old) (term_tree (S.store store.old) u) memo.old }
    ensures keeps { Keeps (S.store store.old) (S.store store.new) }
    ensures rest { S.rest store.new ≡ S.rest store.old }
    ensures memo { OnOk result (AllOpened (S.store store.new) (term_tree (S.store store.old) u) memo.new) }
{
    let places = store.deep_places(body, true)?;
    for place in places.as_slice() {
        open_part(store, memo, *place, u)?;
    }
    Ok(())
}

/// The body with u for its Bound of index 0.
pub(crate) fn opened<S: Terms>(store: &mut S, body: TermId, u: TermId) -> Result<TermId, AllocError>
    requires body { HasTerm (S.store store.old) body }
    requires new { HasTerm (S.store store.old) u }
    requires typed { Typed (term_tree (S.store store.old) u) }
    requires closed { IsClosed (term_tree (S.store store.old) u) }
    requires fits { BoundsFit (term_tree (S.store store.old) body) 0 (ty_of (term_tree (S.store store.old) u)) }
    ensures there { IfOk result (λ r. HasTerm (S.store store.new) r) }
    ensures tree { IfOk result (λ r. term_tree (S.store store.new) r ≡ subst_bound (term_tree (S.store store.old) body) 0 (term_tree (S.store store.old) u)) }
    ensures keeps { Keeps (S.store store.old) (S.store store.new) }
    ensures rest { S.rest store.new ≡ S.rest store.old }
{
    let mut memo = HashMap::new(store.allocator());
    open_beneath(store, &mut memo, body, u)?;
    let part = Part {
        term: body,
        index: 0,
    };
    let r = open_part(store, &mut memo, part, u)?;
    Ok(r)
}
