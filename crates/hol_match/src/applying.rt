//! The instance of a term under given terms for its variables.
ghost use Rattle.std.specs.Prelude.{◌≡◌, IfOk, OnOk};
ghost use Rattle.hol_terms.specs.Term.{Typed, ty_of};
ghost use Rattle.hol_terms.specs.Substitution.{IsClosed};
ghost use Rattle.hol_terms.specs.TermStore.{HasTerm, Keeps, term_tree};
ghost use Rattle.hol_match.specs.Instance.{instance_by};
ghost use Rattle.hol_match.specs.Inst.{HasInst, inst_tree, term_for};
ghost use Rattle.hol_match.specs.Applying.{AllApplied};

use crate::inst::Inst;
use hol_terms::{Node, TermId, Terms, make};
use std::alloc::AllocError;
use std::collections::HashMap;

/// What was made of each part.
type Applied = HashMap<TermId, TermId>;

/// The instance of a part, where the memo has what was made of parts before.
#[cycle(apply)]
fn apply_part<S: Terms>(
    store: &mut S,
    memo: &mut Applied,
    t: TermId,
    inst: &Inst,
) -> Result<TermId, AllocError>
    requires term { HasTerm (S.store store.old) t }
    requires terms { HasInst (S.store store.old) (S.store store.old) inst.now }
    requires memo { AllApplied (S.store store.old) (term_for (inst_tree (S.store store.old) (S.store store.old) inst.now)) memo.old }
    ensures there { IfOk result (λ r. HasTerm (S.store store.new) r) }
    ensures tree { IfOk result (λ r. term_tree (S.store store.new) r ≡ instance_by (term_for (inst_tree (S.store store.old) (S.store store.old) inst.now)) (term_tree (S.store store.old) t)) }
    ensures typed { IfOk result (λ r. Typed (term_tree (S.store store.new) r)) }
    ensures keeps { Keeps (S.store store.old) (S.store store.new) }
    ensures rest { S.rest store.new ≡ S.rest store.old }
    ensures memo { OnOk result (AllApplied (S.store store.new) (term_for (inst_tree (S.store store.old) (S.store store.old) inst.now)) memo.new) }
{
    let found = memo.get(&t).copied();
    match found {
        Some(r) => Ok(r),
        None => {
            let r = apply_node(store, memo, t, inst)?;
            memo.insert(t, r)?;
            Ok(r)
        }
    }
}

/// The same, by the part's node.
#[cycle(apply)]
fn apply_node<S: Terms>(
    store: &mut S,
    memo: &mut Applied,
    t: TermId,
    inst: &Inst,
) -> Result<TermId, AllocError>
    requires term { HasTerm (S.store store.old) t }
    requires terms { HasInst (S.store store.old) (S.store store.old) inst.now }
    requires memo { AllApplied (S.store store.old) (term_for (inst_tree (S.store store.old) (S.store store.old) inst.now)) memo.old }
    ensures there { IfOk result (λ r. HasTerm (S.store store.new) r) }
    ensures tree { IfOk result (λ r. term_tree (S.store store.new) r ≡ instance_by (term_for (inst_tree (S.store store.old) (S.store store.old) inst.now)) (term_tree (S.store store.old) t)) }
    ensures typed { IfOk result (λ r. Typed (term_tree (S.store store.new) r)) }
    ensures keeps { Keeps (S.store store.old) (S.store store.new) }
    ensures rest { S.rest store.new ≡ S.rest store.old }
    ensures memo { OnOk result (AllApplied (S.store store.new) (term_for (inst_tree (S.store store.old) (S.store store.old) inst.now)) memo.new) }
{
    match store.node(t) {
        Node::Free(_, _, _) => {
            match inst.get(t) {
                None => Ok(t),
                Some(u) => {
                    let _typed = store.ty(u);
                    Ok(u)
                }
            }
        }
        Node::App(f, x) => {
            let f = apply_part(store, memo, f, inst)?;
            let x = apply_part(store, memo, x, inst)?;
            let r = make(store, Node::App(f, x))?;
            Ok(r)
        }
        Node::Lam(ty, b) => {
            let b = apply_part(store, memo, b, inst)?;
            let r = make(store, Node::Lam(ty, b))?;
            Ok(r)
        }
        Node::Bound(_, _) => Ok(t),
        Node::Const(_, _) => Ok(t),
        Node::Num(_) => Ok(t),
    }
}

/// The term with the given terms for its Schematic variables, each of its variable's type and without a loose Bound; a
/// variable that has none stays. It has the term's type, and no loose Bound where the term has none. It goes once through
/// each distinct part.
pub fn apply<S: Terms>(store: &mut S, t: TermId, inst: &Inst) -> Result<TermId, AllocError>
    requires term { HasTerm (S.store store.old) t }
    requires terms { HasInst (S.store store.old) (S.store store.old) inst.now }
    ensures there { IfOk result (λ r. HasTerm (S.store store.new) r) }
    ensures tree { IfOk result (λ r. term_tree (S.store store.new) r ≡ instance_by (term_for (inst_tree (S.store store.old) (S.store store.old) inst.now)) (term_tree (S.store store.old) t)) }
    ensures typed { IfOk result (λ r. Typed (term_tree (S.store store.new) r)) }
    ensures has_type { IfOk result (λ r. ty_of (term_tree (S.store store.new) r) ≡ ty_of (term_tree (S.store store.old) t)) }
    ensures closed { IfOk result (λ r. IsClosed (term_tree (S.store store.old) t) → IsClosed (term_tree (S.store store.new) r)) }
    ensures keeps { Keeps (S.store store.old) (S.store store.new) }
    ensures rest { S.rest store.new ≡ S.rest store.old }
{
    let mut memo = HashMap::new(store.allocator());
    let r = apply_part(store, &mut memo, t, inst)?;
    Ok(r)
}
