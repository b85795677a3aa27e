//! Whether types for type variables change other types.
ghost use Rattle.std.specs.Prelude.{◌≡◌, ◌↔◌, ℕ, List, true, false, IsTrue, IfOk};
ghost use Rattle.hol_types.specs.TypeSubst.{HasSubst, subst_tree, instance_of};
ghost use Rattle.hol_terms.specs.TermStore.{Keeps};
ghost use Rattle.hol_terms.specs.Formula.{In};
ghost use Rattle.hol_types.specs.TypeStore.{HasType, type_tree};
ghost use Rattle.hol_formulas.specs.FoundTypes.{AreTypeVariables, LeavesEach};

use hol_terms::Terms;
use hol_types::{Subst, TypeId};
use std::alloc::AllocError;

/// Whether types for type variables leave a type as it is.
fn type_stays<S: Terms>(store: &mut S, t: TypeId, s: &Subst) -> Result<bool, AllocError>
    requires there { HasType (S.store store.old).types t }
    requires subst { HasSubst (S.store store.old).types s.now }
    ensures is { IfOk result (λ r. IsTrue r ↔ (instance_of (subst_tree (S.store store.old).types s.now) (type_tree (S.store store.old).types t) ≡ type_tree (S.store store.old).types t)) }
    ensures keeps { Keeps (S.store store.old) (S.store store.new) }
    ensures rest { S.rest store.new ≡ S.rest store.old }
{
    let u = store.instance(t, s)?;
    let _node = store.type_node(u);
    Ok(u == t)
}

/// Whether types for type variables leave each of the type variables as it is.
pub fn leaves_each<S: Terms>(store: &mut S, ts: &[TypeId], s: &Subst) -> Result<bool, AllocError>
    requires there { (t : ℕ) → In t ts.now → HasType (S.store store.old).types t }
    requires subst { HasSubst (S.store store.old).types s.now }
    ensures is { IfOk result (λ r. r ≡ true → (names : List (List ℕ)) → AreTypeVariables (S.store store.old).types ts.now names → LeavesEach (subst_tree (S.store store.old).types s.now) names) }
    ensures isnt { IfOk result (λ r. r ≡ false → (names : List (List ℕ)) → AreTypeVariables (S.store store.old).types ts.now names → LeavesEach (subst_tree (S.store store.old).types s.now) names → ⊥) }
    ensures keeps { Keeps (S.store store.old) (S.store store.new) }
    ensures rest { S.rest store.new ≡ S.rest store.old }
{
    for t in ts {
        let same = type_stays(store, *t, s)?;
        if !same {
            return Ok(false);
        }
    }
    Ok(true)
}
