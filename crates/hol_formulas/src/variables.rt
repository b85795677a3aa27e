//! The free variables of formulas, by number.
ghost use Rattle.std.specs.Prelude.{◌*◌, OnOk, IfOk};
ghost use Rattle.hol_terms.specs.TermStore.{HasTerm, term_tree};
ghost use Rattle.hol_formulas.specs.Formulas.{HasFormulas, trees};
ghost use Rattle.hol_formulas.specs.Found.{AreVariables, Finds, AllFound, Adds};

use hol_terms::{Node, TermId, Terms};
use std::alloc::AllocError;
use std::collections::HashSet;

/// Adds the free variables of the part that aren't there yet.
#[cycle(find)]
fn find_in_part<S: Terms>(
    store: &S,
    seen: &mut HashSet<TermId>,
    found: &mut Vec<TermId>,
    t: TermId,
) -> Result<(), AllocError>
    requires term { HasTerm (S.store store.now) t }
    requires seen { AllFound (S.store store.now) found.old.items seen.old }
    ensures finds { OnOk result (Finds (S.store store.now) found.new.items (term_tree (S.store store.now) t)) }
    ensures adds { OnOk result (Adds (S.store store.now) found.old.items found.new.items (term_tree (S.store store.now) t)) }
    ensures seen { OnOk result (AllFound (S.store store.now) found.new.items seen.new) }
{
    if seen.contains(&t) {
        return Ok(());
    }
    find_in_node(store, seen, found, t)?;
    seen.insert(t)?;
    Ok(())
}

/// The same, by the part's node.
#[cycle(find)]
fn find_in_node<S: Terms>(
    store: &S,
    seen: &mut HashSet<TermId>,
    found: &mut Vec<TermId>,
    t: TermId,
) -> Result<(), AllocError>
    requires term { HasTerm (S.store store.now) t }
    requires seen { AllFound (S.store store.now) found.old.items seen.old }
    ensures finds { OnOk result (Finds (S.store store.now) found.new.items (term_tree (S.store store.now) t)) }
    ensures adds { OnOk result (Adds (S.store store.now) found.old.items found.new.items (term_tree (S.store store.now) t)) }
    ensures seen { OnOk result (AllFound (S.store store.now) found.new.items seen.new) }
{
    match store.node(t) {
        Node::Free(_, _, _) => {
            found.push(t)?;
            Ok(())
        }
        Node::App(f, x) => {
            find_in_part(store, seen, found, f)?;
            find_in_part(store, seen, found, x)?;
            Ok(())
        }
        Node::Lam(_, b) => {
            find_in_part(store, seen, found, b)?;
            Ok(())
        }
        Node::Bound(_, _) => Ok(()),
        Node::Const(_, _) => Ok(()),
        Node::Num(_) => Ok(()),
    }
}

/// The same, for a whole term, which may be deep.
fn find_in_term<S: Terms>(
    store: &S,
    seen: &mut HashSet<TermId>,
    found: &mut Vec<TermId>,
    t: TermId,
) -> Result<(), AllocError>
    requires term { HasTerm (S.store store.now) t }
    requires seen { AllFound (S.store store.now) found.old.items seen.old }
    ensures finds { OnOk result (Finds (S.store store.now) found.new.items (term_tree (S.store store.now) t)) }
    ensures adds { OnOk result (Adds (S.store store.now) found.old.items found.new.items (term_tree (S.store store.now) t)) }
    ensures seen { OnOk result (AllFound (S.store store.now) found.new.items seen.new) }
{
    let parts = store.deep_parts(t)?;
    for part in parts.as_slice() {
        find_in_part(store, seen, found, *part)?;
    }
    find_in_part(store, seen, found, t)?;
    Ok(())
}

/// The free variables of formulas, each at least once. It takes one step for each distinct part of them.
pub fn variables_of<S: Terms>(store: &S, ts: &[TermId]) -> Result<Vec<TermId>, AllocError>
    requires { HasFormulas (S.store store.now) ts.now }
    ensures { IfOk result (λ c. AreVariables (S.store store.now) c.items (trees (S.store store.now) ts.now)) }
{
    let mut seen = HashSet::new(store.allocator());
    let mut found = Vec::new(store.allocator());
    for t in ts {
        find_in_term(store, &mut seen, &mut found, *t)?;
    }
    Ok(found)
}
