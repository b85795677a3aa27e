//! A term for a free variable, each shared part once.
ghost use Rattle.std.specs.Prelude.{◌≡◌, ◌*◌, ◌<◌, IfOk, OnOk};
ghost use Rattle.hol_terms.specs.Term.{Typed, ty_of};
ghost use Rattle.hol_terms.specs.TermStore.{Keeps, term_tree, HasTerm};
ghost use Rattle.hol_terms.specs.Substitution.{subst_free, IsClosed};
ghost use Rattle.hol_terms.specs.Memo.{AllReplaced};

use crate::node::{Node, TermId};
use crate::terms::Terms;
use crate::typed_terms::make;
use std::alloc::AllocError;
use std::collections::HashMap;

/// What was made of each part.
type Replaced = HashMap<TermId, TermId>;

/// The part with u for the free variable v.
#[cycle(subst)]
fn subst_part<S: Terms>(
    store: &mut S,
    memo: &mut Replaced,
    t: TermId,
    v: TermId,
    u: TermId,
) -> Result<TermId, AllocError>
    requires term { HasTerm (S.store store.old) t }
    requires variable { HasTerm (S.store store.old) v }
    requires new { HasTerm (S.store store.old) u }
    requires typed { Typed (term_tree (S.store store.old) u) }
    requires closed { IsClosed (term_tree (S.store store.old) u) }
    requires same_type { ty_of (term_tree (S.store store.old) u) ≡ ty_of (term_tree (S.store store.old) v) }
    requires memo { AllReplaced (S.store store.old) (term_tree (S.store store.old) v) (term_tree (S.store store.old) u) memo.old }
    ensures there { IfOk result (λ r. HasTerm (S.store store.new) r) }
    ensures tree { IfOk result (λ r. term_tree (S.store store.new) r ≡ subst_free (term_tree (S.store store.old) v) (term_tree (S.store store.old) u) (term_tree (S.store store.old) t)) }
    ensures keeps { Keeps (S.store store.old) (S.store store.new) }
    ensures rest { S.rest store.new ≡ S.rest store.old }
    ensures memo { AllReplaced (S.store store.new) (term_tree (S.store store.old) v) (term_tree (S.store store.old) u) memo.new }
{
    let found = memo.get(&t).copied();
    match found {
        Some(r) => Ok(r),
        None => {
            let r = subst_node(store, memo, t, v, u)?;
            memo.insert(t, r)?;
            Ok(r)
        }
    }
}

/// The same, by the part's node.
#[cycle(subst)]
fn subst_node<S: Terms>(
    store: &mut S,
    memo: &mut Replaced,
    t: TermId,
    v: TermId,
    u: TermId,
) -> Result<TermId, AllocError>
    requires term { HasTerm (S.store store.old) t }
    requires variable { HasTerm (S.store store.old) v }
    requires new { HasTerm (S.store store.old) u }
    requires typed { Typed (term_tree (S.store store.old) u) }
    requires closed { IsClosed (term_tree (S.store store.old) u) }
    requires same_type { ty_of (term_tree (S.store store.old) u) ≡ ty_of (term_tree (S.store store.old) v) }
    requires memo { AllReplaced (S.store store.old) (term_tree (S.store store.old) v) (term_tree (S.store store.old) u) memo.old }
    ensures there { IfOk result (λ r. HasTerm (S.store store.new) r) }
    ensures tree { IfOk result (λ r. term_tree (S.store store.new) r ≡ subst_free (term_tree (S.store store.old) v) (term_tree (S.store store.old) u) (term_tree (S.store store.old) t)) }
    ensures keeps { Keeps (S.store store.old) (S.store store.new) }
    ensures rest { S.rest store.new ≡ S.rest store.old }
    ensures memo { AllReplaced (S.store store.new) (term_tree (S.store store.old) v) (term_tree (S.store store.old) u) memo.new }
{
    match store.node(t) {
        Node::Free(_, _, _) => {
            if t != v {
                return Ok(t);
            }
            Ok(u)
        }
        Node::App(f, x) => {
            let f = subst_part(store, memo, f, v, u)?;
            let x = subst_part(store, memo, x, v, u)?;
            let r = make(store, Node::App(f, x))?;
            Ok(r)
        }
        Node::Lam(ty, b) => {
            let b = subst_part(store, memo, b, v, u)?;
            let r = make(store, Node::Lam(ty, b))?;
            Ok(r)
        }
        Node::Bound(_, _) => Ok(t),
        Node::Const(_, _) => Ok(t),
        Node::Num(_) => Ok(t),
    }
}

/// Puts what is made of the parts of a deep term into the memo.
fn subst_beneath<S: Terms>(
    store: &mut S,
    memo: &mut Replaced,
    t: TermId,
    v: TermId,
    u: TermId,
) -> Result<(), AllocError>
    requires term { HasTerm (S.store store.old) t }
    requires variable { HasTerm (S.store store.old) v }
    requires new { HasTerm (S.store store.old) u }
    requires typed { Typed (term_tree (S.store store.old) u) }
    requires closed { IsClosed (term_tree (S.store store.old) u) }
    requires same_type { ty_of (term_tree (S.store store.old) u) ≡ ty_of (term_tree (S.store store.old) v) }
    requires memo { AllReplaced (S.store store.old) (term_tree (S.store store.old) v) (term_tree (S.store store.old) u) memo.old }
    ensures keeps { Keeps (S.store store.old) (S.store store.new) }
    ensures rest { S.rest store.new ≡ S.rest store.old }
    ensures memo { OnOk result (AllReplaced (S.store store.new) (term_tree (S.store store.old) v) (term_tree (S.store store.old) u) memo.new) }
{
    let parts = store.deep_parts(t)?;
    for part in parts.as_slice() {
        subst_part(store, memo, *part, v, u)?;
    }
    Ok(())
}

/// The term with u for the free variable v.
pub(crate) fn replaced<S: Terms>(
    store: &mut S,
    t: TermId,
    v: TermId,
    u: TermId,
) -> Result<TermId, AllocError>
    requires term { HasTerm (S.store store.old) t }
    requires variable { HasTerm (S.store store.old) v }
    requires new { HasTerm (S.store store.old) u }
    requires typed { Typed (term_tree (S.store store.old) u) }
    requires closed { IsClosed (term_tree (S.store store.old) u) }
    requires same_type { ty_of (term_tree (S.store store.old) u) ≡ ty_of (term_tree (S.store store.old) v) }
    ensures there { IfOk result (λ r. HasTerm (S.store store.new) r) }
    ensures tree { IfOk result (λ r. term_tree (S.store store.new) r ≡ subst_free (term_tree (S.store store.old) v) (term_tree (S.store store.old) u) (term_tree (S.store store.old) t)) }
    ensures keeps { Keeps (S.store store.old) (S.store store.new) }
    ensures rest { S.rest store.new ≡ S.rest store.old }
{
    let mut memo = HashMap::new(store.allocator());
    subst_beneath(store, &mut memo, t, v, u)?;
    let r = subst_part(store, &mut memo, t, v, u)?;
    Ok(r)
}
