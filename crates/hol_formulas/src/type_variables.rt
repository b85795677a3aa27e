//! The type variables of formulas, by number.
ghost use Rattle.std.specs.Prelude.{◌<◌, ◌*◌, OnOk, IfOk};
ghost use Rattle.std.specs.List.{AllByRecursion};
ghost use Rattle.hol_types.specs.TypeStore.{HasType, type_tree, trees_at};
ghost use Rattle.hol_types.specs.TypeSubst.{variables_of, variables_of_all};
ghost use Rattle.hol_terms.specs.Substitution.{type_variables};
ghost use Rattle.hol_terms.specs.TermStore.{HasTerm, term_tree};
ghost use Rattle.hol_formulas.specs.Formulas.{HasFormulas, trees};
ghost use Rattle.hol_formulas.specs.FoundTypes.{type_variables_in, AreTypeVariables, FindsTypes, AddsTypes, AllTypesFound, AllTermsFound};

use hol_terms::{Node, TermId, Terms};
use hol_types::{TypeId, TypeNode};
use std::alloc::AllocError;
use std::collections::HashSet;

/// Adds the type variables of the part of a type that aren't there yet.
#[cycle(types)]
fn find_in_type<S: Terms>(
    store: &S,
    seen: &mut HashSet<TypeId>,
    found: &mut Vec<TypeId>,
    t: TypeId,
) -> Result<(), AllocError>
    requires there { HasType (S.store store.now).types t }
    requires seen { AllTypesFound (S.store store.now).types found.old.items seen.old }
    ensures finds { OnOk result (FindsTypes (S.store store.now).types found.new.items (variables_of (type_tree (S.store store.now).types t))) }
    ensures adds { OnOk result (AddsTypes (S.store store.now).types found.old.items found.new.items (variables_of (type_tree (S.store store.now).types t))) }
    ensures seen { OnOk result (AllTypesFound (S.store store.now).types found.new.items seen.new) }
{
    if seen.contains(&t) {
        return Ok(());
    }
    find_in_type_node(store, seen, found, t)?;
    seen.insert(t)?;
    Ok(())
}

/// The same, by the part's node.
#[cycle(types)]
fn find_in_type_node<S: Terms>(
    store: &S,
    seen: &mut HashSet<TypeId>,
    found: &mut Vec<TypeId>,
    t: TypeId,
) -> Result<(), AllocError>
    requires there { HasType (S.store store.now).types t }
    requires seen { AllTypesFound (S.store store.now).types found.old.items seen.old }
    ensures finds { OnOk result (FindsTypes (S.store store.now).types found.new.items (variables_of (type_tree (S.store store.now).types t))) }
    ensures adds { OnOk result (AddsTypes (S.store store.now).types found.old.items found.new.items (variables_of (type_tree (S.store store.now).types t))) }
    ensures seen { OnOk result (AllTypesFound (S.store store.now).types found.new.items seen.new) }
{
    match store.type_node(t) {
        TypeNode::Bool => Ok(()),
        TypeNode::Int => Ok(()),
        TypeNode::Var(_) => {
            found.push(t)?;
            Ok(())
        }
        TypeNode::Fun(a, b) => {
            find_in_type(store, seen, found, *a)?;
            find_in_type(store, seen, found, *b)?;
            Ok(())
        }
        TypeNode::Cons(_, ts) => {
            find_in_types(store, seen, found, t, ts.as_slice())?;
            Ok(())
        }
    }
}

/// Adds the type variables of the types of a list, which stand below a number.
#[cycle(types)]
fn find_in_types<S: Terms>(
    store: &S,
    seen: &mut HashSet<TypeId>,
    found: &mut Vec<TypeId>,
    above: TypeId,
    ts: &[TypeId],
) -> Result<(), AllocError>
    requires above { HasType (S.store store.now).types above }
    requires below { AllByRecursion (λ t. t < above) ts.now }
    requires seen { AllTypesFound (S.store store.now).types found.old.items seen.old }
    ensures finds { OnOk result (FindsTypes (S.store store.now).types found.new.items (variables_of_all (trees_at (S.store store.now).types ts.now))) }
    ensures adds { OnOk result (AddsTypes (S.store store.now).types found.old.items found.new.items (variables_of_all (trees_at (S.store store.now).types ts.now))) }
    ensures seen { OnOk result (AllTypesFound (S.store store.now).types found.new.items seen.new) }
{
    for t in ts {
        find_in_type(store, seen, found, *t)?;
    }
    Ok(())
}

/// Adds the type variables of the parts of a deep type that isn't seen.
fn find_beneath<S: Terms>(
    store: &S,
    seen: &mut HashSet<TypeId>,
    found: &mut Vec<TypeId>,
    t: TypeId,
) -> Result<(), AllocError>
    requires there { HasType (S.store store.now).types t }
    requires seen { AllTypesFound (S.store store.now).types found.old.items seen.old }
    ensures adds { OnOk result (AddsTypes (S.store store.now).types found.old.items found.new.items (variables_of (type_tree (S.store store.now).types t))) }
    ensures seen { OnOk result (AllTypesFound (S.store store.now).types found.new.items seen.new) }
{
    if seen.contains(&t) {
        return Ok(());
    }
    let parts = store.deep_type_parts(t)?;
    for part in parts.as_slice() {
        find_in_type(store, seen, found, *part)?;
    }
    Ok(())
}

/// Adds the type variables of a whole type, which may be deep.
fn find_in_whole_type<S: Terms>(
    store: &S,
    seen: &mut HashSet<TypeId>,
    found: &mut Vec<TypeId>,
    t: TypeId,
) -> Result<(), AllocError>
    requires there { HasType (S.store store.now).types t }
    requires seen { AllTypesFound (S.store store.now).types found.old.items seen.old }
    ensures finds { OnOk result (FindsTypes (S.store store.now).types found.new.items (variables_of (type_tree (S.store store.now).types t))) }
    ensures adds { OnOk result (AddsTypes (S.store store.now).types found.old.items found.new.items (variables_of (type_tree (S.store store.now).types t))) }
    ensures seen { OnOk result (AllTypesFound (S.store store.now).types found.new.items seen.new) }
{
    find_beneath(store, seen, found, t)?;
    find_in_type(store, seen, found, t)?;
    Ok(())
}

/// Adds the type variables of a type, beside the terms that were seen.
fn find_beside<S: Terms>(
    store: &S,
    types: &mut HashSet<TypeId>,
    terms: &HashSet<TermId>,
    found: &mut Vec<TypeId>,
    t: TypeId,
) -> Result<(), AllocError>
    requires there { HasType (S.store store.now).types t }
    requires types { AllTypesFound (S.store store.now).types found.old.items types.old }
    requires terms { AllTermsFound (S.store store.now) found.old.items terms.now }
    ensures finds { OnOk result (FindsTypes (S.store store.now).types found.new.items (variables_of (type_tree (S.store store.now).types t))) }
    ensures adds { OnOk result (AddsTypes (S.store store.now).types found.old.items found.new.items (variables_of (type_tree (S.store store.now).types t))) }
    ensures types { OnOk result (AllTypesFound (S.store store.now).types found.new.items types.new) }
    ensures terms { OnOk result (AllTermsFound (S.store store.now) found.new.items terms.now) }
{
    find_in_whole_type(store, types, found, t)?;
    Ok(())
}

/// Adds the type variables of the part of a term that aren't there yet.
#[cycle(terms)]
fn find_in_part<S: Terms>(
    store: &S,
    types: &mut HashSet<TypeId>,
    terms: &mut HashSet<TermId>,
    found: &mut Vec<TypeId>,
    t: TermId,
) -> Result<(), AllocError>
    requires there { HasTerm (S.store store.now) t }
    requires types { AllTypesFound (S.store store.now).types found.old.items types.old }
    requires terms { AllTermsFound (S.store store.now) found.old.items terms.old }
    ensures finds { OnOk result (FindsTypes (S.store store.now).types found.new.items (type_variables (term_tree (S.store store.now) t))) }
    ensures adds { OnOk result (AddsTypes (S.store store.now).types found.old.items found.new.items (type_variables (term_tree (S.store store.now) t))) }
    ensures types { OnOk result (AllTypesFound (S.store store.now).types found.new.items types.new) }
    ensures terms { OnOk result (AllTermsFound (S.store store.now) found.new.items terms.new) }
{
    if terms.contains(&t) {
        return Ok(());
    }
    find_in_node(store, types, terms, found, t)?;
    terms.insert(t)?;
    Ok(())
}

/// The same, by the part's node.
#[cycle(terms)]
fn find_in_node<S: Terms>(
    store: &S,
    types: &mut HashSet<TypeId>,
    terms: &mut HashSet<TermId>,
    found: &mut Vec<TypeId>,
    t: TermId,
) -> Result<(), AllocError>
    requires there { HasTerm (S.store store.now) t }
    requires types { AllTypesFound (S.store store.now).types found.old.items types.old }
    requires terms { AllTermsFound (S.store store.now) found.old.items terms.old }
    ensures finds { OnOk result (FindsTypes (S.store store.now).types found.new.items (type_variables (term_tree (S.store store.now) t))) }
    ensures adds { OnOk result (AddsTypes (S.store store.now).types found.old.items found.new.items (type_variables (term_tree (S.store store.now) t))) }
    ensures types { OnOk result (AllTypesFound (S.store store.now).types found.new.items types.new) }
    ensures terms { OnOk result (AllTermsFound (S.store store.now) found.new.items terms.new) }
{
    match store.node(t) {
        Node::Free(_, _, ty) => {
            find_beside(store, types, terms, found, ty)?;
            Ok(())
        }
        Node::Bound(_, ty) => {
            find_beside(store, types, terms, found, ty)?;
            Ok(())
        }
        Node::Const(_, ty) => {
            find_beside(store, types, terms, found, ty)?;
            Ok(())
        }
        Node::Num(_) => Ok(()),
        Node::App(f, x) => {
            find_in_part(store, types, terms, found, f)?;
            find_in_part(store, types, terms, found, x)?;
            Ok(())
        }
        Node::Lam(ty, b) => {
            find_beside(store, types, terms, found, ty)?;
            find_in_part(store, types, terms, found, b)?;
            Ok(())
        }
    }
}

/// The same, for a whole term, which may be deep.
fn find_in_term<S: Terms>(
    store: &S,
    types: &mut HashSet<TypeId>,
    terms: &mut HashSet<TermId>,
    found: &mut Vec<TypeId>,
    t: TermId,
) -> Result<(), AllocError>
    requires there { HasTerm (S.store store.now) t }
    requires types { AllTypesFound (S.store store.now).types found.old.items types.old }
    requires terms { AllTermsFound (S.store store.now) found.old.items terms.old }
    ensures finds { OnOk result (FindsTypes (S.store store.now).types found.new.items (type_variables (term_tree (S.store store.now) t))) }
    ensures adds { OnOk result (AddsTypes (S.store store.now).types found.old.items found.new.items (type_variables (term_tree (S.store store.now) t))) }
    ensures types { OnOk result (AllTypesFound (S.store store.now).types found.new.items types.new) }
    ensures terms { OnOk result (AllTermsFound (S.store store.now) found.new.items terms.new) }
{
    let parts = store.deep_parts(t)?;
    for part in parts.as_slice() {
        find_in_part(store, types, terms, found, *part)?;
    }
    find_in_part(store, types, terms, found, t)?;
    Ok(())
}

/// The type variables of formulas, as types. It takes one step for each distinct part of them and of their types.
pub fn type_variables_of<S: Terms>(store: &S, ts: &[TermId]) -> Result<Vec<TypeId>, AllocError>
    requires { HasFormulas (S.store store.now) ts.now }
    ensures { IfOk result (λ c. AreTypeVariables (S.store store.now).types c.items (type_variables_in (trees (S.store store.now) ts.now))) }
{
    let mut types = HashSet::new(store.allocator());
    let mut terms = HashSet::new(store.allocator());
    let mut found = Vec::new(store.allocator());
    for t in ts {
        find_in_term(store, &mut types, &mut terms, &mut found, *t)?;
    }
    Ok(found)
}
