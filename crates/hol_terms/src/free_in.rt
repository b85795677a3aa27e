//! Whether a free variable occurs in a term, each shared part once.
ghost use Rattle.std.specs.Prelude.{◌≡◌, ◌↔◌, ◌*◌, true, IsTrue, IfOk, OnOk};
ghost use Rattle.hol_terms.specs.Formula.{In};
ghost use Rattle.hol_terms.specs.TermStore.{term_tree, HasTerm};
ghost use Rattle.hol_terms.specs.Substitution.{free_variables};
ghost use Rattle.hol_terms.specs.Memo.{AllWithout};

use crate::node::{Node, TermId};
use crate::terms::Terms;
use std::alloc::AllocError;
use std::collections::HashSet;

/// The parts that are known to be without the variable.
type Without = HashSet<TermId>;

/// Whether the free variable v occurs in the part.
#[cycle(free_in)]
fn part_has<S: Terms>(
    store: &S,
    seen: &mut Without,
    v: TermId,
    t: TermId,
) -> Result<bool, AllocError>
    requires variable { HasTerm (S.store store.now) v }
    requires term { HasTerm (S.store store.now) t }
    requires seen { AllWithout (S.store store.now) (term_tree (S.store store.now) v) seen.old }
    ensures free { IfOk result (λ r. IsTrue r ↔ In (term_tree (S.store store.now) v) (free_variables (term_tree (S.store store.now) t))) }
    ensures seen { AllWithout (S.store store.now) (term_tree (S.store store.now) v) seen.new }
{
    if seen.contains(&t) {
        return Ok(false);
    }
    let has = node_has(store, seen, v, t)?;
    if has {
        return Ok(true);
    }
    seen.insert(t)?;
    Ok(false)
}

/// The same, by the part's node.
#[cycle(free_in)]
fn node_has<S: Terms>(
    store: &S,
    seen: &mut Without,
    v: TermId,
    t: TermId,
) -> Result<bool, AllocError>
    requires variable { HasTerm (S.store store.now) v }
    requires term { HasTerm (S.store store.now) t }
    requires seen { AllWithout (S.store store.now) (term_tree (S.store store.now) v) seen.old }
    ensures free { IfOk result (λ r. IsTrue r ↔ In (term_tree (S.store store.now) v) (free_variables (term_tree (S.store store.now) t))) }
    ensures seen { AllWithout (S.store store.now) (term_tree (S.store store.now) v) seen.new }
{
    match store.node(t) {
        Node::Free(_, _, _) => Ok(t == v),
        Node::App(f, x) => {
            let left = part_has(store, seen, v, f)?;
            if left {
                return Ok(true);
            }
            let right = part_has(store, seen, v, x)?;
            Ok(right)
        }
        Node::Lam(_, b) => {
            let body = part_has(store, seen, v, b)?;
            Ok(body)
        }
        Node::Bound(_, _) => Ok(false),
        Node::Const(_, _) => Ok(false),
        Node::Num(_) => Ok(false),
    }
}

/// Goes through the parts of a deep term, as long as they are without the variable. True only where it occurs in the
/// term.
fn parts_have<S: Terms>(
    store: &S,
    seen: &mut Without,
    v: TermId,
    t: TermId,
) -> Result<bool, AllocError>
    requires variable { HasTerm (S.store store.now) v }
    requires term { HasTerm (S.store store.now) t }
    requires seen { AllWithout (S.store store.now) (term_tree (S.store store.now) v) seen.old }
    ensures free { IfOk result (λ r. r ≡ true → In (term_tree (S.store store.now) v) (free_variables (term_tree (S.store store.now) t))) }
    ensures seen { OnOk result (AllWithout (S.store store.now) (term_tree (S.store store.now) v) seen.new) }
{
    let parts = store.deep_parts(t)?;
    for part in parts.as_slice() {
        let has = part_has(store, seen, v, *part)?;
        if has {
            return Ok(true);
        }
    }
    Ok(false)
}

/// Whether the free variable v occurs in the term.
pub(crate) fn term_has<S: Terms>(store: &S, v: TermId, t: TermId) -> Result<bool, AllocError>
    requires variable { HasTerm (S.store store.now) v }
    requires term { HasTerm (S.store store.now) t }
    ensures { IfOk result (λ r. IsTrue r ↔ In (term_tree (S.store store.now) v) (free_variables (term_tree (S.store store.now) t))) }
{
    let mut seen = HashSet::new(store.allocator());
    let found = parts_have(store, &mut seen, v, t)?;
    if found {
        return Ok(true);
    }
    let has = part_has(store, &mut seen, v, t)?;
    Ok(has)
}
