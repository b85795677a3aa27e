//! A stack of terms that a walk still has to go through, the first one on top.
ghost use Rattle.std.specs.Prelude.{◌+◌, OnOk};
ghost use Rattle.hol_terms.specs.TermStore.{HasTerm, term_tree};
ghost use Rattle.part_numbers.specs.Parts.{met_at_head, met_beneath};
ghost use Rattle.part_numbers.specs.Walk.{Pushes};

use hol_terms::{Node, TermId, Terms};
use std::alloc::AllocError;

/// Puts what is met in a term that is applied on the stack.
fn push_head<S: Terms>(store: &S, stack: &mut Vec<TermId>, t: TermId) -> Result<(), AllocError>
    requires { HasTerm (S.store store.now) t }
    ensures { OnOk result (Pushes (S.store store.now) (t + 1) stack.old.items stack.new.items (met_at_head (term_tree (S.store store.now) t))) }
{
    let mut head = t;
    while let Node::App(f, x) = store.node(head) {
        stack.push(x)?;
        head = f;
    }
    if let Node::Lam(_, _) = store.node(head) {
        stack.push(head)?;
    }
    Ok(())
}

/// Puts what is met beneath a term, given by its node, on the stack.
pub(crate) fn push_beneath<S: Terms>(
    store: &S,
    stack: &mut Vec<TermId>,
    t: TermId,
) -> Result<(), AllocError>
    requires { HasTerm (S.store store.now) t }
    ensures { OnOk result (Pushes (S.store store.now) t stack.old.items stack.new.items (met_beneath (term_tree (S.store store.now) t))) }
{
    match store.node(t) {
        Node::App(f, x) => {
            stack.push(x)?;
            push_head(store, stack, f)?;
            Ok(())
        }
        Node::Lam(_, b) => {
            stack.push(b)?;
            Ok(())
        }
        Node::Free(_, _, _) => Ok(()),
        Node::Bound(_, _) => Ok(()),
        Node::Const(_, _) => Ok(()),
        Node::Num(_) => Ok(()),
    }
}
