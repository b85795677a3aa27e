//! A bound variable for a free one, each shared part once.
ghost use Rattle.std.specs.Prelude.{◌≡◌, ◌+◌, ◌*◌, ◌<◌, ◌^◌, IfOk, OnOk};
ghost use Rattle.hol_terms.specs.TermStore.{Keeps, term_tree, HasTerm};
ghost use Rattle.hol_terms.specs.Substitution.{close_free};
ghost use Rattle.hol_terms.specs.Memo.{AllClosed};

use crate::memo::{Memo, Part};
use crate::node::{Node, TermId};
use crate::terms::Terms;
use crate::typed_terms::make;
use std::alloc::AllocError;
use std::collections::HashMap;

/// The part with the Bound of its index for v.
#[cycle(close)]
fn close_part<S: Terms>(
    store: &mut S,
    memo: &mut Memo,
    part: Part,
    v: TermId,
) -> Result<TermId, AllocError>
    requires term { HasTerm (S.store store.old) part.term }
    requires variable { HasTerm (S.store store.old) v }
    requires room { part.index + part.term < 2 ^ 32 }
    requires memo { AllClosed (S.store store.old) (term_tree (S.store store.old) v) memo.old }
    ensures there { IfOk result (λ r. HasTerm (S.store store.new) r) }
    ensures tree { IfOk result (λ r. term_tree (S.store store.new) r ≡ close_free (term_tree (S.store store.old) part.term) part.index (term_tree (S.store store.old) v)) }
    ensures keeps { Keeps (S.store store.old) (S.store store.new) }
    ensures rest { S.rest store.new ≡ S.rest store.old }
    ensures memo { AllClosed (S.store store.new) (term_tree (S.store store.old) v) memo.new }
{
    let found = memo.get(&part).copied();
    match found {
        Some(r) => Ok(r),
        None => {
            let r = close_node(store, memo, part, v)?;
            memo.insert(part, r)?;
            Ok(r)
        }
    }
}

/// The same, by the part's node.
#[cycle(close)]
fn close_node<S: Terms>(
    store: &mut S,
    memo: &mut Memo,
    part: Part,
    v: TermId,
) -> Result<TermId, AllocError>
    requires term { HasTerm (S.store store.old) part.term }
    requires variable { HasTerm (S.store store.old) v }
    requires room { part.index + part.term < 2 ^ 32 }
    requires memo { AllClosed (S.store store.old) (term_tree (S.store store.old) v) memo.old }
    ensures there { IfOk result (λ r. HasTerm (S.store store.new) r) }
    ensures tree { IfOk result (λ r. term_tree (S.store store.new) r ≡ close_free (term_tree (S.store store.old) part.term) part.index (term_tree (S.store store.old) v)) }
    ensures keeps { Keeps (S.store store.old) (S.store store.new) }
    ensures rest { S.rest store.new ≡ S.rest store.old }
    ensures memo { AllClosed (S.store store.new) (term_tree (S.store store.old) v) memo.new }
{
    let index = part.index;
    match store.node(part.term) {
        Node::Free(_, _, ty) => {
            if part.term != v {
                return Ok(part.term);
            }
            let r = make(store, Node::Bound(index, ty))?;
            Ok(r)
        }
        Node::App(f, x) => {
            let f = close_part(store, memo, Part { term: f, index }, v)?;
            let x = close_part(store, memo, Part { term: x, index }, v)?;
            let r = make(store, Node::App(f, x))?;
            Ok(r)
        }
        Node::Lam(ty, b) => {
            let body = Part {
                term: b,
                index: index + 1,
            };
            let b = close_part(store, memo, body, v)?;
            let r = make(store, Node::Lam(ty, b))?;
            Ok(r)
        }
        Node::Bound(_, _) => Ok(part.term),
        Node::Const(_, _) => Ok(part.term),
        Node::Num(_) => Ok(part.term),
    }
}

/// Puts what is made of the parts of a deep term into the memo.
fn close_beneath<S: Terms>(
    store: &mut S,
    memo: &mut Memo,
    t: TermId,
    v: TermId,
) -> Result<(), AllocError>
    requires term { HasTerm (S.store store.old) t }
    requires variable { HasTerm (S.store store.old) v }
    requires memo { AllClosed (S.store store.old) (term_tree (S.store store.old) v) memo.old }
    ensures keeps { Keeps (S.store store.old) (S.store store.new) }
    ensures rest { S.rest store.new ≡ S.rest store.old }
    ensures memo { OnOk result (AllClosed (S.store store.new) (term_tree (S.store store.old) v) memo.new) }
{
    let places = store.deep_places(t, false)?;
    for place in places.as_slice() {
        close_part(store, memo, *place, v)?;
    }
    Ok(())
}

/// The term with the Bound of index 0 for v.
pub(crate) fn closed<S: Terms>(store: &mut S, t: TermId, v: TermId) -> Result<TermId, AllocError>
    requires term { HasTerm (S.store store.old) t }
    requires variable { HasTerm (S.store store.old) v }
    ensures there { IfOk result (λ r. HasTerm (S.store store.new) r) }
    ensures tree { IfOk result (λ r. term_tree (S.store store.new) r ≡ close_free (term_tree (S.store store.old) t) 0 (term_tree (S.store store.old) v)) }
    ensures keeps { Keeps (S.store store.old) (S.store store.new) }
    ensures rest { S.rest store.new ≡ S.rest store.old }
{
    let mut memo = HashMap::new(store.allocator());
    close_beneath(store, &mut memo, t, v)?;
    let part = Part { term: t, index: 0 };
    let r = close_part(store, &mut memo, part, v)?;
    Ok(r)
}
