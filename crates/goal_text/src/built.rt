//! What a list is read as, once its parts are.
ghost use Rattle.std.specs.Prelude.{◌≡◌, ◌∷◌, [], List, true, drop, take, IfOk, OnOk, Ok};
ghost use Rattle.hol_types.specs.TypeStore.{HasName, HasType, text_of, type_tree};
ghost use Rattle.hol_terms.specs.Term.{BoundsFit, Term, ty_of};
ghost use Rattle.hol_terms.specs.TermStore.{Keeps, HasTerm, term_tree};
ghost use Rattle.goal_text.specs.Bounds.{AllFit, FitsAll};
ghost use Rattle.goal_text.specs.Forms as forms;
ghost use Rattle.goal_text.specs.Operations as operations;
ghost use Rattle.goal_text.specs.Read.{Gives};
ghost use Rattle.goal_text.specs.Scope.{AreTerms, HasHead, IsScope, KeepsDeclared, binders_in, bound_by, form_at, terms_at};
ghost use Rattle.goal_text.specs.Terms as terms;

use crate::constants::quantifier;
use crate::fault::{GoalFailure, GoalKind, refuse};
use crate::form::Head;
use crate::made::{apply, typed};
use crate::matching::{instance_for, is_instance};
use crate::operations::{fits, is_bool, meaning};
use crate::scope::Scope;
use crate::word::{Binder, Operator};
use hol_terms::{Base, Node, TermFault, TermId, Terms};
use hol_types::{NameId, TypeId};

/// One term applied to another.
#[tactic(auto, unfolding(crate::specs::Terms::apply_all))]
fn apply_at(base: &mut Base, at: u32, f: TermId, x: TermId) -> Result<TermId, GoalFailure>
    requires function { HasTerm base.old f }
    requires argument { HasTerm base.old x }
    ensures read { Gives (term_tree base.new) result (terms.apply_all at (term_tree base.old f) (term_tree base.old x ∷ [])) }
    ensures there { IfOk result (HasTerm base.new) }
    ensures keeps { Keeps base.old base.new }
{
    let _function = base.ty(f);
    let _argument = base.ty(x);
    match base.intern(Node::App(f, x)) {
        Ok(t) => Ok(t),
        Err(TermFault::Memory) => Err(GoalFailure::Memory),
        Err(TermFault::Ill) => refuse(at, GoalKind::IllTyped),
    }
}

/// One term applied to others, from left to right.
#[tactic(auto, using(hol_terms::proofs::KeepsLemmas::keeps_trans))]
fn apply_all(base: &mut Base, at: u32, f: TermId, xs: &[TermId]) -> Result<TermId, GoalFailure>
    requires function { HasTerm base.old f }
    requires arguments { AreTerms base.old xs.now }
    ensures read { Gives (term_tree base.new) result (terms.apply_all at (term_tree base.old f) (terms_at base.old xs.now)) }
    ensures there { IfOk result (HasTerm base.new) }
    ensures keeps { Keeps base.old base.new }
{
    let mut t = f;
    for x in xs {
        t = apply_at(base, at, t, *x)?;
    }
    Ok(t)
}

/// The first part applied to the others.
#[tactic(auto, unfolding(crate::specs::Terms::built))]
fn applied(base: &mut Base, at: u32, parts: &[TermId]) -> Result<TermId, GoalFailure>
    requires { AreTerms base.old parts.now }
    ensures read { Gives (term_tree base.new) result (terms.built at forms.Applied (terms_at base.old parts.now)) }
    ensures there { IfOk result (HasTerm base.new) }
    ensures keeps { Keeps base.old base.new }
{
    match parts {
        [f, xs @ ..] => apply_all(base, at, *f, xs),
        [] => refuse(at, GoalKind::Syntax),
    }
}

/// A constant at the instance that its arguments give, applied to them.
#[tactic(auto, unfolding(crate::specs::Terms::built), using(hol_terms::proofs::KeepsLemmas::keeps_trans))]
fn instance(
    base: &mut Base,
    at: u32,
    head: u32,
    name: NameId,
    ty: TypeId,
    parts: &[TermId],
) -> Result<TermId, GoalFailure>
    requires name { HasName base.old.types name }
    requires ty { HasType base.old.types ty }
    requires parts { AreTerms base.old parts.now }
    ensures read { Gives (term_tree base.new) result (terms.built at (forms.Instance head (text_of base.old.types name) (type_tree base.old.types ty)) (terms_at base.old parts.now)) }
    ensures there { IfOk result (HasTerm base.new) }
    ensures keeps { Keeps base.old base.new }
{
    let f = instance_for(base, at, head, name, ty, parts)?;
    let t = apply_all(base, at, f, parts)?;
    Ok(t)
}

/// The negative of a literal, and any other term.
#[tactic(auto, unfolding(crate::specs::Terms::built))]
fn negative(base: &mut Base, at: u32, parts: &[TermId]) -> Result<TermId, GoalFailure>
    requires { AreTerms base.old parts.now }
    ensures read { Gives (term_tree base.new) result (terms.built at forms.Negative (terms_at base.old parts.now)) }
    ensures there { IfOk result (HasTerm base.new) }
    ensures keeps { Keeps base.old base.new }
{
    match parts {
        [t, ..] => match base.node(*t) {
            Node::Num(z) => typed(base, Node::Num(-z)),
            _ => Ok(*t),
        },
        [] => refuse(at, GoalKind::Syntax),
    }
}

/// An operation on its parts.
#[tactic(auto, unfolding(crate::specs::Terms::built))]
fn operation(
    base: &mut Base,
    at: u32,
    operator: Operator,
    parts: &[TermId],
) -> Result<TermId, GoalFailure>
    requires { AreTerms base.old parts.now }
    ensures read { Gives (term_tree base.new) result (terms.built at (forms.Operation operator) (terms_at base.old parts.now)) }
    ensures there { IfOk result (HasTerm base.new) }
    ensures keeps { Keeps base.old base.new }
{
    if !fits(base, operator, parts) {
        return refuse(at, GoalKind::IllTyped);
    }
    if parts.is_empty() {
        return refuse(at, GoalKind::Syntax);
    }
    meaning(base, operator, parts)
}

/// A constant at a type.
#[tactic(auto, unfolding(crate::specs::Terms::built))]
fn ascription(
    base: &mut Base,
    at: u32,
    name: NameId,
    declared: TypeId,
    ty: TypeId,
) -> Result<TermId, GoalFailure>
    requires name { HasName base.old.types name }
    requires declared { HasType base.old.types declared }
    requires ty { HasType base.old.types ty }
    ensures read { (parts : List Term) → Gives (term_tree base.new) result (terms.built at (forms.Ascription (text_of base.old.types name) (type_tree base.old.types declared) (type_tree base.old.types ty)) parts) }
    ensures there { IfOk result (HasTerm base.new) }
    ensures keeps { Keeps base.old base.new }
{
    if is_instance(base, declared, ty)? {
        typed(base, Node::Const(name, ty))
    } else {
        refuse(at, GoalKind::IllTyped)
    }
}

/// Whether a binder takes a body of the type of the term.
fn fits_body(base: &Base, binder: Binder, body: TermId) -> bool
    requires { HasTerm base.now body }
    ensures { result ≡ operations.fits_body binder (ty_of (term_tree base.now body)) }
{
    match binder {
        Binder::Forall => is_bool(base, body),
        Binder::Exists => is_bool(base, body),
        Binder::Lambda => true,
    }
}

/// A body under one variable of the type.
#[tactic(auto, using(hol_terms::proofs::KeepsLemmas::keeps_trans))]
fn under(base: &mut Base, binder: Binder, ty: TypeId, body: TermId) -> Result<TermId, GoalFailure>
    requires ty { HasType base.old.types ty }
    requires body { HasTerm base.old body }
    requires bounds { BoundsFit (term_tree base.old body) 0 (type_tree base.old.types ty) }
    requires fits { operations.fits_body binder (ty_of (term_tree base.old body)) ≡ true }
    ensures read { Gives (term_tree base.new) result (Ok (operations.under binder (type_tree base.old.types ty) (term_tree base.old body))) }
    ensures there { IfOk result (HasTerm base.new) }
    ensures keeps { Keeps base.old base.new }
{
    let _typed = base.ty(body);
    let lambda = typed(base, Node::Lam(ty, body))?;
    match binder {
        Binder::Forall => {
            let f = quantifier(base, b"all".as_slice(), ty)?;
            apply(base, f, lambda)
        }
        Binder::Exists => {
            let f = quantifier(base, b"ex".as_slice(), ty)?;
            apply(base, f, lambda)
        }
        Binder::Lambda => Ok(lambda),
    }
}

/// A body under the innermost variables of the scope, which they leave.
#[tactic(auto, using(hol_terms::proofs::KeepsLemmas::keeps_trans))]
fn under_all(
    base: &mut Base,
    scope: &mut Scope,
    binder: Binder,
    n: u32,
    body: TermId,
) -> Result<TermId, GoalFailure>
    requires scope { IsScope base.old scope.old }
    requires body { HasTerm base.old body }
    requires bounds { FitsAll (binders_in base.old (take n scope.old.binders)) (term_tree base.old body) 0 }
    requires fits { operations.fits_body binder (ty_of (term_tree base.old body)) ≡ true }
    ensures read { Gives (term_tree base.new) result (Ok (operations.under_all binder (binders_in base.old (take n scope.old.binders)) (term_tree base.old body))) }
    ensures there { IfOk result (HasTerm base.new) }
    ensures binders { OnOk result (scope.new.binders ≡ drop n scope.old.binders) }
    ensures others { OnOk result (KeepsDeclared scope.old scope.new) }
    ensures keeps { Keeps base.old base.new }
{
    let mut t = body;
    let mut left = n;
    while left > 0 {
        let Some(ty) = scope.binders.leave() else {
            return Ok(t);
        };
        t = under(base, binder, ty, t)?;
        left -= 1;
    }
    Ok(t)
}

/// A binder over its body.
#[tactic(auto, unfolding(crate::specs::Terms::built))]
fn binding(
    base: &mut Base,
    scope: &mut Scope,
    at: u32,
    binder: Binder,
    n: u32,
    parts: &[TermId],
) -> Result<TermId, GoalFailure>
    requires scope { IsScope base.old scope.old }
    requires parts { AreTerms base.old parts.now }
    requires bounds { AllFit (binders_in base.old (take n scope.old.binders)) (terms_at base.old parts.now) }
    ensures read { Gives (term_tree base.new) result (terms.built at (forms.Binding binder (binders_in base.old (take n scope.old.binders))) (terms_at base.old parts.now)) }
    ensures there { IfOk result (HasTerm base.new) }
    ensures binders { OnOk result (scope.new.binders ≡ drop n scope.old.binders) }
    ensures others { OnOk result (KeepsDeclared scope.old scope.new) }
    ensures keeps { Keeps base.old base.new }
{
    let [body, ..] = parts else {
        return refuse(at, GoalKind::Syntax);
    };
    if !fits_body(base, binder, *body) {
        return refuse(at, GoalKind::IllTyped);
    }
    under_all(base, scope, binder, n, *body)
}

/// What a list is read as, its parts being these terms. The variables that it binds leave the scope.
pub fn leave(
    base: &mut Base,
    scope: &mut Scope,
    at: u32,
    head: Head,
    parts: &[TermId],
) -> Result<TermId, GoalFailure>
    requires scope { IsScope base.old scope.old }
    requires head { HasHead base.old head }
    requires parts { AreTerms base.old parts.now }
    requires bounds { AllFit (binders_in base.old (take (bound_by head) scope.old.binders)) (terms_at base.old parts.now) }
    ensures read { Gives (term_tree base.new) result (terms.built at (form_at base.old scope.old head) (terms_at base.old parts.now)) }
    ensures there { IfOk result (HasTerm base.new) }
    ensures binders { OnOk result (scope.new.binders ≡ drop (bound_by head) scope.old.binders) }
    ensures others { OnOk result (KeepsDeclared scope.old scope.new) }
    ensures keeps { Keeps base.old base.new }
{
    match head {
        Head::Applied => applied(base, at, parts),
        Head::Instance(place, name, ty) => instance(base, at, place, name, ty, parts),
        Head::Negative => negative(base, at, parts),
        Head::Operation(operator) => operation(base, at, operator, parts),
        Head::Binding(binder, n) => binding(base, scope, at, binder, n, parts),
        Head::Ascription(name, declared, ty) => ascription(base, at, name, declared, ty),
    }
}
