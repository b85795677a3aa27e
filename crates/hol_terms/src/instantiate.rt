//! Types for the type variables of a term, each shared part once.
ghost use Rattle.std.specs.Prelude.{◌≡◌, ◌*◌, IfOk, OnOk};
ghost use Rattle.hol_types.specs.TypeStore.{HasType, type_tree};
ghost use Rattle.hol_types.specs.TypeSubst.{HasSubst, subst_tree, instance_of};
ghost use Rattle.hol_types.specs.Instance.{AllTypeInstances};
ghost use Rattle.hol_terms.specs.TermStore.{Keeps, term_tree, HasTerm};
ghost use Rattle.hol_terms.specs.Substitution.{subst_types};
ghost use Rattle.hol_terms.specs.Memo.{AllInstances};

use crate::node::{Node, TermId};
use crate::terms::Terms;
use crate::typed_terms::make;
use hol_types::{Subst, TypeId, TypeInstances};
use std::alloc::AllocError;
use std::collections::HashMap;

/// What was made of each part.
type Instances = HashMap<TermId, TermId>;

/// The type with the given types for its variables; the store still has these. `types` has what was made of types before.
fn type_instance<S: Terms>(
    store: &mut S,
    types: &mut TypeInstances,
    t: TypeId,
    s: &Subst,
) -> Result<TypeId, AllocError>
    requires there { HasType (S.store store.old).types t }
    requires subst { HasSubst (S.store store.old).types s.now }
    requires types { AllTypeInstances (S.store store.old).types s.now types.old }
    ensures there { IfOk result (λ r. HasType (S.store store.new).types r) }
    ensures tree { IfOk result (λ r. type_tree (S.store store.new).types r ≡ instance_of (subst_tree (S.store store.old).types s.now) (type_tree (S.store store.old).types t)) }
    ensures subst { HasSubst (S.store store.new).types s.now }
    ensures same { subst_tree (S.store store.new).types s.now ≡ subst_tree (S.store store.old).types s.now }
    ensures keeps { Keeps (S.store store.old) (S.store store.new) }
    ensures rest { S.rest store.new ≡ S.rest store.old }
    ensures types { OnOk result (AllTypeInstances (S.store store.new).types s.now types.new) }
{
    store.instance_part(types, t, s)
}

/// The part with the given types for its type variables.
#[cycle(instantiate)]
fn instantiate_part<S: Terms>(
    store: &mut S,
    memo: &mut Instances,
    types: &mut TypeInstances,
    t: TermId,
    s: &Subst,
) -> Result<TermId, AllocError>
    requires term { HasTerm (S.store store.old) t }
    requires subst { HasSubst (S.store store.old).types s.now }
    requires memo { AllInstances (S.store store.old) (subst_tree (S.store store.old).types s.now) memo.old }
    requires types { AllTypeInstances (S.store store.old).types s.now types.old }
    ensures there { IfOk result (λ r. HasTerm (S.store store.new) r) }
    ensures tree { IfOk result (λ r. term_tree (S.store store.new) r ≡ subst_types (subst_tree (S.store store.old).types s.now) (term_tree (S.store store.old) t)) }
    ensures subst { HasSubst (S.store store.new).types s.now }
    ensures same { subst_tree (S.store store.new).types s.now ≡ subst_tree (S.store store.old).types s.now }
    ensures memo { AllInstances (S.store store.new) (subst_tree (S.store store.old).types s.now) memo.new }
    ensures keeps { Keeps (S.store store.old) (S.store store.new) }
    ensures rest { S.rest store.new ≡ S.rest store.old }
    ensures types { OnOk result (AllTypeInstances (S.store store.new).types s.now types.new) }
{
    let found = memo.get(&t).copied();
    match found {
        Some(r) => Ok(r),
        None => {
            let r = instantiate_node(store, memo, types, t, s)?;
            memo.insert(t, r)?;
            Ok(r)
        }
    }
}

/// The same, by the part's node.
#[cycle(instantiate)]
fn instantiate_node<S: Terms>(
    store: &mut S,
    memo: &mut Instances,
    types: &mut TypeInstances,
    t: TermId,
    s: &Subst,
) -> Result<TermId, AllocError>
    requires term { HasTerm (S.store store.old) t }
    requires subst { HasSubst (S.store store.old).types s.now }
    requires memo { AllInstances (S.store store.old) (subst_tree (S.store store.old).types s.now) memo.old }
    requires types { AllTypeInstances (S.store store.old).types s.now types.old }
    ensures there { IfOk result (λ r. HasTerm (S.store store.new) r) }
    ensures tree { IfOk result (λ r. term_tree (S.store store.new) r ≡ subst_types (subst_tree (S.store store.old).types s.now) (term_tree (S.store store.old) t)) }
    ensures memo { AllInstances (S.store store.new) (subst_tree (S.store store.old).types s.now) memo.new }
    ensures keeps { Keeps (S.store store.old) (S.store store.new) }
    ensures rest { S.rest store.new ≡ S.rest store.old }
    ensures types { OnOk result (AllTypeInstances (S.store store.new).types s.now types.new) }
{
    match store.node(t) {
        Node::Free(kind, name, ty) => {
            let ty = type_instance(store, types, ty, s)?;
            let r = make(store, Node::Free(kind, name, ty))?;
            Ok(r)
        }
        Node::Bound(index, ty) => {
            let ty = type_instance(store, types, ty, s)?;
            let r = make(store, Node::Bound(index, ty))?;
            Ok(r)
        }
        Node::Const(name, ty) => {
            let ty = type_instance(store, types, ty, s)?;
            let r = make(store, Node::Const(name, ty))?;
            Ok(r)
        }
        Node::App(f, x) => {
            let f = instantiate_part(store, memo, types, f, s)?;
            let x = instantiate_part(store, memo, types, x, s)?;
            let r = make(store, Node::App(f, x))?;
            Ok(r)
        }
        Node::Lam(ty, b) => {
            let b = instantiate_part(store, memo, types, b, s)?;
            let domain = type_instance(store, types, ty, s)?;
            let r = make(store, Node::Lam(domain, b))?;
            Ok(r)
        }
        Node::Num(_) => Ok(t),
    }
}

/// Puts what is made of the parts of a deep term into the memo.
fn instantiate_beneath<S: Terms>(
    store: &mut S,
    memo: &mut Instances,
    types: &mut TypeInstances,
    t: TermId,
    s: &Subst,
) -> Result<(), AllocError>
    requires term { HasTerm (S.store store.old) t }
    requires subst { HasSubst (S.store store.old).types s.now }
    requires memo { AllInstances (S.store store.old) (subst_tree (S.store store.old).types s.now) memo.old }
    requires types { AllTypeInstances (S.store store.old).types s.now types.old }
    ensures subst { OnOk result (HasSubst (S.store store.new).types s.now) }
    ensures same { OnOk result (subst_tree (S.store store.new).types s.now ≡ subst_tree (S.store store.old).types s.now) }
    ensures memo { OnOk result (AllInstances (S.store store.new) (subst_tree (S.store store.old).types s.now) memo.new) }
    ensures keeps { Keeps (S.store store.old) (S.store store.new) }
    ensures rest { S.rest store.new ≡ S.rest store.old }
    ensures types { OnOk result (AllTypeInstances (S.store store.new).types s.now types.new) }
{
    let parts = store.deep_parts(t)?;
    for part in parts.as_slice() {
        instantiate_part(store, memo, types, *part, s)?;
    }
    Ok(())
}

/// The term with the given types for its type variables.
pub(crate) fn instantiated<S: Terms>(
    store: &mut S,
    t: TermId,
    s: &Subst,
) -> Result<TermId, AllocError>
    requires term { HasTerm (S.store store.old) t }
    requires subst { HasSubst (S.store store.old).types s.now }
    ensures there { IfOk result (λ r. HasTerm (S.store store.new) r) }
    ensures tree { IfOk result (λ r. term_tree (S.store store.new) r ≡ subst_types (subst_tree (S.store store.old).types s.now) (term_tree (S.store store.old) t)) }
    ensures keeps { Keeps (S.store store.old) (S.store store.new) }
    ensures rest { S.rest store.new ≡ S.rest store.old }
{
    let mut memo = HashMap::new(store.allocator());
    let mut types = HashMap::new(store.allocator());
    instantiate_beneath(store, &mut memo, &mut types, t, s)?;
    let r = instantiate_part(store, &mut memo, &mut types, t, s)?;
    Ok(r)
}
