//! The types for a constant's type variables.
ghost use Rattle.std.specs.Prelude.{◌≡◌, ◌<◌, [], None, Some, map, bytes_eq, is_some, IfOk, IfNone, IfSome};
ghost use Rattle.std.specs.List.{AllByRecursion, list_all};
ghost use Rattle.std.specs.Map.{lookup};
ghost use Rattle.hol_types.specs.TypeStore.{HasName, HasType, text_of, type_tree};
ghost use Rattle.hol_types.specs.TypeStore as store;
ghost use Rattle.hol_types.specs.TypeSubst.{HasSubst, TypeSubst, subst_tree, variables_of_all};
ghost use Rattle.hol_types.specs.TypeMatch.{Extends};
ghost use Rattle.hol_terms.specs.Term.{ty_of};
ghost use Rattle.hol_terms.specs.TermStore.{Keeps, HasTerm, term_tree};
ghost use Rattle.goal_text.specs.Matching as matching;
ghost use Rattle.goal_text.specs.Read.{Gives};
ghost use Rattle.goal_text.specs.Scope.{AreTerms, terms_at};

use crate::fault::{GoalFailure, GoalKind, refuse};
use crate::made::typed;
use hol_terms::{Base, Node, TermId, Terms};
use hol_types::{NameId, Subst, TypeId, TypeNode};
use std::alloc::AllocError;

/// Whether a type has no type variables.
pub fn is_ground(base: &Base, t: TypeId) -> bool
    requires { HasType base.now.types t }
    ensures { result ≡ matching.is_ground (type_tree base.now.types t) }
{
    covers(base, &[], t)
}

/// Whether a type is an instance of another.
pub fn is_instance(base: &Base, pattern: TypeId, t: TypeId) -> Result<bool, AllocError>
    requires pattern { HasType base.now.types pattern }
    requires there { HasType base.now.types t }
    ensures { IfOk result (λ is. is ≡ matching.is_instance (type_tree base.now.types pattern) (type_tree base.now.types t)) }
{
    let none = Subst::with_capacity(base.allocator(), 0)?;
    let found = base.match_type(pattern, t, &none)?;
    Ok(found.is_some())
}

/// The least types under which the parameters of a type are those of the terms.
fn match_parameters(base: &Base, ty: TypeId, terms: &[TermId]) -> Result<Option<Subst>, AllocError>
    requires ty { HasType base.now.types ty }
    requires terms { AreTerms base.now terms.now }
    ensures there { IfOk result (λ found. IfSome found (HasSubst base.now.types)) }
    ensures found { IfOk result (λ found. IfSome found (λ s. (u : TypeSubst) × (matching.match_parameters [] (type_tree base.now.types ty) (map ty_of (terms_at base.now terms.now)) ≡ Some u) × Extends u (subst_tree base.now.types s) × Extends (subst_tree base.now.types s) u)) }
    ensures none { IfOk result (λ found. IfNone found (matching.match_parameters [] (type_tree base.now.types ty) (map ty_of (terms_at base.now terms.now)) ≡ None)) }
{
    let mut s = Subst::with_capacity(base.allocator(), 0)?;
    let mut u = ty;
    for term in terms {
        let TypeNode::Fun(from, to) = base.type_node(u) else {
            return Ok(Some(s));
        };
        match base.match_type(*from, base.ty(*term), &s)? {
            Some(more) => s = more,
            None => return Ok(None),
        }
        u = *to;
    }
    Ok(Some(s))
}

/// The constant at the instance of its type that its arguments give.
pub fn instance_for(
    base: &mut Base,
    at: u32,
    head: u32,
    name: NameId,
    ty: TypeId,
    terms: &[TermId],
) -> Result<TermId, GoalFailure>
    requires name { HasName base.old.types name }
    requires ty { HasType base.old.types ty }
    requires terms { AreTerms base.old terms.now }
    ensures read { Gives (term_tree base.new) result (matching.instance_for at head (text_of base.old.types name) (type_tree base.old.types ty) (map ty_of (terms_at base.old terms.now))) }
    ensures there { IfOk result (HasTerm base.new) }
    ensures keeps { Keeps base.old base.new }
{
    let Some(s) = match_parameters(base, ty, terms)? else {
        return refuse(at, GoalKind::IllTyped);
    };
    if !covers(base, s.as_slice(), ty) {
        return refuse(head, GoalKind::FreeTypeVariable);
    }
    let instance = base.instance(ty, &s)?;
    typed(base, Node::Const(name, instance))
}

/// Whether a variable is given a type.
fn gives(base: &Base, s: &[(NameId, TypeId)], n: NameId) -> bool
    requires subst { HasSubst base.now.types s.now }
    requires name { HasName base.now.types n }
    ensures { result ≡ is_some (lookup (bytes_eq (text_of base.now.types n)) (subst_tree base.now.types s.now)) }
{
    let _text = base.text(n);
    for pair in s {
        if pair.0 == n {
            return true;
        }
    }
    false
}

/// Whether each variable of a type is given a type.
#[cycle(covers)]
fn covers(base: &Base, s: &[(NameId, TypeId)], t: TypeId) -> bool
    requires subst { HasSubst base.now.types s.now }
    requires there { HasType base.now.types t }
    ensures { result ≡ matching.covers (subst_tree base.now.types s.now) (type_tree base.now.types t) }
{
    let mut u = t;
    loop {
        match base.type_node(u) {
            TypeNode::Bool => return true,
            TypeNode::Int => return true,
            TypeNode::Var(n) => return gives(base, s, *n),
            TypeNode::Fun(a, b) => {
                if !covers(base, s, *a) {
                    return false;
                }
                u = *b;
            }
            TypeNode::Cons(_, args) => return covers_all(base, s, u, args.as_slice()),
        }
    }
}

/// Whether each variable of the types, which stand before another, is given a type.
#[cycle(covers)]
fn covers_all(base: &Base, s: &[(NameId, TypeId)], above: TypeId, ts: &[TypeId]) -> bool
    requires subst { HasSubst base.now.types s.now }
    requires above { HasType base.now.types above }
    requires below { AllByRecursion (λ t. t < above) ts.now }
    ensures { result ≡ list_all (λ n. is_some (lookup (bytes_eq n) (subst_tree base.now.types s.now))) (variables_of_all (store.trees_at base.now.types ts.now)) }
{
    for t in ts {
        if !covers(base, s, *t) {
            return false;
        }
    }
    true
}
