//! The terms that operations are read as.
ghost use Rattle.std.specs.Prelude.{◌≡◌, ◌<◌, ◌+◌, ◌++◌, true, Ok, IfOk, OnOk, drop, length, map, slice_index_or};
ghost use Rattle.hol_types.specs.Ty.{BoolTy, IntTy};
ghost use Rattle.hol_types.specs.TyEq.{ty_eq};
ghost use Rattle.hol_types.specs.TypeStore.{HasType, type_tree};
ghost use Rattle.hol_terms.specs.Constants as hol;
ghost use Rattle.hol_terms.specs.Constants.{FunTy2};
ghost use Rattle.hol_terms.specs.Term.{ty_of, result_ty, ConstTm};
ghost use Rattle.hol_terms.specs.TermStore.{Keeps, HasTerm, term_tree};
ghost use Rattle.goal_text.specs.Operations as operations;
ghost use Rattle.goal_text.specs.Read.{Gives};
ghost use Rattle.goal_text.specs.Scope.{AreTerms, AreTyped, HasTyped, IsNumberOf, terms_at};

use crate::constants::{
    arithmetic, comparison, conditional, connective, equality, negation, opposite, truth_value,
};
use crate::fault::GoalFailure;
use crate::made::apply;
use crate::word::Operator;
use hol_terms::{Base, TermId, Terms};
use hol_types::{TypeId, TypeNode};

/// A function of two arguments that it takes, applied to them.
#[tactic(auto, using(hol_terms::proofs::KeepsLemmas::keeps_trans))]
fn apply_two(base: &mut Base, f: TermId, a: TermId, b: TermId) -> Result<TermId, GoalFailure>
    requires function { HasTerm base.old f }
    requires first { HasTerm base.old a }
    requires second { HasTerm base.old b }
    requires fits { ty_of (term_tree base.old f) ≡ FunTy2 (ty_of (term_tree base.old a)) (ty_of (term_tree base.old b)) (result_ty (result_ty (ty_of (term_tree base.old f)))) }
    ensures read { Gives (term_tree base.new) result (Ok (hol.apply_two (term_tree base.old f) (term_tree base.old a) (term_tree base.old b))) }
    ensures there { IfOk result (HasTerm base.new) }
    ensures keeps { Keeps base.old base.new }
{
    let given = apply(base, f, a)?;
    let t = apply(base, given, b)?;
    Ok(t)
}

/// Whether a term is a formula.
pub fn is_bool(base: &Base, t: TermId) -> bool
    requires { HasTerm base.now t }
    ensures { result ≡ ty_eq BoolTy (ty_of (term_tree base.now t)) }
{
    match base.type_node(base.ty(t)) {
        TypeNode::Bool => true,
        TypeNode::Int => false,
        TypeNode::Var(_) => false,
        TypeNode::Fun(_, _) => false,
        TypeNode::Cons(_, _) => false,
    }
}

/// Whether a term is an integer.
fn is_int(base: &Base, t: TermId) -> bool
    requires { HasTerm base.now t }
    ensures { result ≡ ty_eq IntTy (ty_of (term_tree base.now t)) }
{
    match base.type_node(base.ty(t)) {
        TypeNode::Bool => false,
        TypeNode::Int => true,
        TypeNode::Var(_) => false,
        TypeNode::Fun(_, _) => false,
        TypeNode::Cons(_, _) => false,
    }
}

/// Whether two terms have one type.
fn is_alike(base: &Base, t: TermId, u: TermId) -> bool
    requires first { HasTerm base.now t }
    requires second { HasTerm base.now u }
    ensures { result ≡ ty_eq (ty_of (term_tree base.now t)) (ty_of (term_tree base.now u)) }
{
    base.ty(t) == base.ty(u)
}

/// Whether all terms are formulas.
fn all_bool(base: &Base, terms: &[TermId]) -> bool
    requires { AreTerms base.now terms.now }
    ensures { result ≡ operations.all_are BoolTy (map ty_of (terms_at base.now terms.now)) }
{
    for t in terms {
        if !is_bool(base, *t) {
            return false;
        }
    }
    true
}

/// Whether all terms are integers.
fn all_int(base: &Base, terms: &[TermId]) -> bool
    requires { AreTerms base.now terms.now }
    ensures { result ≡ operations.all_are IntTy (map ty_of (terms_at base.now terms.now)) }
{
    for t in terms {
        if !is_int(base, *t) {
            return false;
        }
    }
    true
}

/// Whether all terms have the type of one.
fn all_as(base: &Base, first: TermId, terms: &[TermId]) -> bool
    requires first { HasTerm base.now first }
    requires terms { AreTerms base.now terms.now }
    ensures { result ≡ operations.all_are (ty_of (term_tree base.now first)) (map ty_of (terms_at base.now terms.now)) }
{
    for t in terms {
        if !is_alike(base, first, *t) {
            return false;
        }
    }
    true
}

/// Whether all terms have one type.
fn are_alike(base: &Base, terms: &[TermId]) -> bool
    requires { AreTerms base.now terms.now }
    ensures { result ≡ operations.are_alike (map ty_of (terms_at base.now terms.now)) }
{
    match terms {
        [first, others @ ..] => all_as(base, *first, others),
        [] => true,
    }
}

/// Whether terms are a formula and then terms of one type.
fn are_choice(base: &Base, terms: &[TermId]) -> bool
    requires { AreTerms base.now terms.now }
    ensures { result ≡ operations.are_choice (map ty_of (terms_at base.now terms.now)) }
{
    match terms {
        [first, others @ ..] => is_bool(base, *first) && are_alike(base, others),
        [] => true,
    }
}

/// Whether an operation takes terms of these types.
pub fn fits(base: &Base, operator: Operator, terms: &[TermId]) -> bool
    requires { AreTerms base.now terms.now }
    ensures { result ≡ operations.fits operator (map ty_of (terms_at base.now terms.now)) }
{
    match operator {
        Operator::Not => all_bool(base, terms),
        Operator::And => all_bool(base, terms),
        Operator::Or => all_bool(base, terms),
        Operator::Implies => all_bool(base, terms),
        Operator::Equals => are_alike(base, terms),
        Operator::Distinct => are_alike(base, terms),
        Operator::Xor => all_bool(base, terms),
        Operator::Ite => are_choice(base, terms),
        Operator::Plus => all_int(base, terms),
        Operator::Times => all_int(base, terms),
        Operator::Minus => all_int(base, terms),
        Operator::AtMost => all_int(base, terms),
        Operator::Less => all_int(base, terms),
        Operator::AtLeast => all_int(base, terms),
        Operator::Greater => all_int(base, terms),
        Operator::Div => all_int(base, terms),
        Operator::Mod => all_int(base, terms),
    }
}

/// A connective between each two neighbours of formulas, nested to the right.
#[tactic(auto, using(hol_terms::proofs::KeepsLemmas::keeps_trans))]
fn to_the_right(base: &mut Base, f: TermId, parts: &[TermId]) -> Result<TermId, GoalFailure>
    requires function { HasTyped base.old (FunTy2 BoolTy BoolTy BoolTy) f }
    requires parts { AreTyped base.old BoolTy parts.now }
    requires some { 0 < length parts.now }
    ensures read { Gives (term_tree base.new) result (Ok (operations.to_the_right (hol.apply_two (term_tree base.old f)) (term_tree base.old (slice_index_or parts.now 0 0)) (terms_at base.old (drop 1 parts.now)))) }
    ensures there { IfOk result (HasTyped base.new BoolTy) }
    ensures keeps { Keeps base.old base.new }
{
    let last = parts.len() - 1;
    let mut t = parts[last];
    let mut n = last;
    while n > 0 {
        n -= 1;
        t = apply_two(base, f, parts[n], t)?;
    }
    Ok(t)
}

/// An operation between each two neighbours of integers, nested to the left.
#[tactic(auto, using(hol_terms::proofs::KeepsLemmas::keeps_trans))]
fn to_the_left(base: &mut Base, f: TermId, parts: &[TermId]) -> Result<TermId, GoalFailure>
    requires function { HasTyped base.old (FunTy2 IntTy IntTy IntTy) f }
    requires parts { AreTyped base.old IntTy parts.now }
    requires some { 0 < length parts.now }
    ensures read { Gives (term_tree base.new) result (Ok (operations.to_the_left (hol.apply_two (term_tree base.old f)) (term_tree base.old (slice_index_or parts.now 0 0)) (terms_at base.old (drop 1 parts.now)))) }
    ensures there { IfOk result (HasTyped base.new IntTy) }
    ensures keeps { Keeps base.old base.new }
{
    let mut t = parts[0];
    let mut i = 1;
    while i < parts.len() {
        t = apply_two(base, f, t, parts[i])?;
        i += 1;
    }
    Ok(t)
}

/// A relation of each two neighbours.
#[tactic(auto, using(hol_terms::proofs::KeepsLemmas::keeps_trans))]
fn neighbours(base: &mut Base, f: TermId, parts: &[TermId]) -> Result<Vec<TermId>, GoalFailure>
    requires some { 0 < length parts.now }
    requires first { HasTerm base.old (slice_index_or parts.now 0 0) }
    requires parts { AreTyped base.old (ty_of (term_tree base.old (slice_index_or parts.now 0 0))) parts.now }
    requires function { HasTyped base.old (FunTy2 (ty_of (term_tree base.old (slice_index_or parts.now 0 0))) (ty_of (term_tree base.old (slice_index_or parts.now 0 0))) BoolTy) f }
    ensures read { Gives (λ ts. terms_at base.new ts.items) result (Ok (operations.neighbours (hol.apply_two (term_tree base.old f)) (term_tree base.old (slice_index_or parts.now 0 0)) (terms_at base.old (drop 1 parts.now)))) }
    ensures there { IfOk result (λ ts. AreTyped base.new BoolTy ts.items) }
    ensures keeps { Keeps base.old base.new }
{
    let mut formulas = Vec::new(base.allocator());
    let mut i = 1;
    while i < parts.len() {
        let previous = i - 1;
        let t = apply_two(base, f, parts[previous], parts[i])?;
        formulas.push(t)?;
        i += 1;
    }
    Ok(formulas)
}

/// The conjunction of formulas.
#[tactic(auto, using(hol_terms::proofs::KeepsLemmas::keeps_trans))]
fn all_of(base: &mut Base, formulas: &[TermId]) -> Result<TermId, GoalFailure>
    requires { AreTyped base.old BoolTy formulas.now }
    ensures read { Gives (term_tree base.new) result (Ok (operations.all_of (terms_at base.old formulas.now))) }
    ensures there { IfOk result (HasTerm base.new) }
    ensures keeps { Keeps base.old base.new }
{
    if formulas.is_empty() {
        truth_value(base, b"true".as_slice())
    } else {
        let f = connective(base, b"and".as_slice())?;
        let t = to_the_right(base, f, formulas)?;
        Ok(t)
    }
}

/// The conjunction of a relation of each two neighbours.
#[tactic(auto, using(hol_terms::proofs::KeepsLemmas::keeps_trans))]
fn chain(base: &mut Base, f: TermId, parts: &[TermId]) -> Result<TermId, GoalFailure>
    requires some { 0 < length parts.now }
    requires first { HasTerm base.old (slice_index_or parts.now 0 0) }
    requires parts { AreTyped base.old (ty_of (term_tree base.old (slice_index_or parts.now 0 0))) parts.now }
    requires function { HasTyped base.old (FunTy2 (ty_of (term_tree base.old (slice_index_or parts.now 0 0))) (ty_of (term_tree base.old (slice_index_or parts.now 0 0))) BoolTy) f }
    ensures read { Gives (term_tree base.new) result (Ok (operations.all_of (operations.neighbours (hol.apply_two (term_tree base.old f)) (term_tree base.old (slice_index_or parts.now 0 0)) (terms_at base.old (drop 1 parts.now))))) }
    ensures there { IfOk result (HasTerm base.new) }
    ensures keeps { Keeps base.old base.new }
{
    let formulas = neighbours(base, f, parts)?;
    let t = all_of(base, &formulas)?;
    Ok(t)
}

/// That two terms of a type differ, given equality at the type.
#[tactic(auto, using(hol_terms::proofs::KeepsLemmas::keeps_trans))]
fn unequal(base: &mut Base, equality: TermId, a: TermId, b: TermId) -> Result<TermId, GoalFailure>
    requires first { HasTerm base.old a }
    requires second { HasTyped base.old (ty_of (term_tree base.old a)) b }
    requires equality { IsNumberOf base.old equality (hol.eq_tm (ty_of (term_tree base.old a))) }
    ensures read { Gives (term_tree base.new) result (Ok (hol.negation (hol.equation (ty_of (term_tree base.old a)) (term_tree base.old a) (term_tree base.old b)))) }
    ensures there { IfOk result (HasTyped base.new BoolTy) }
    ensures keeps { Keeps base.old base.new }
{
    let not = negation(base)?;
    let equation = apply_two(base, equality, a, b)?;
    let t = apply(base, not, equation)?;
    Ok(t)
}

/// Adds that the term of a place differs from each behind it.
#[tactic(auto, using(hol_terms::proofs::KeepsLemmas::keeps_trans))]
fn differs(
    base: &mut Base,
    equality: TermId,
    parts: &[TermId],
    i: usize,
    formulas: &mut Vec<TermId>,
) -> Result<(), GoalFailure>
    requires below { i < length parts.now }
    requires there { HasTerm base.old (slice_index_or parts.now i 0) }
    requires parts { AreTyped base.old (ty_of (term_tree base.old (slice_index_or parts.now i 0))) parts.now }
    requires equality { IsNumberOf base.old equality (hol.eq_tm (ty_of (term_tree base.old (slice_index_or parts.now i 0)))) }
    requires formulas { AreTyped base.old BoolTy formulas.old.items }
    ensures read { Gives (λ _. terms_at base.new formulas.new.items) result (Ok (terms_at base.old formulas.old.items ++ operations.differs (term_tree base.old (slice_index_or parts.now i 0)) (terms_at base.old (drop (i + 1) parts.now)))) }
    ensures formulas { OnOk result (AreTyped base.new BoolTy formulas.new.items) }
    ensures keeps { Keeps base.old base.new }
{
    let mut j = i + 1;
    while j < parts.len() {
        let t = unequal(base, equality, parts[i], parts[j])?;
        formulas.push(t)?;
        j += 1;
    }
    Ok(())
}

/// That each term differs from each behind it.
#[tactic(auto, using(hol_terms::proofs::KeepsLemmas::keeps_trans))]
fn differences(
    base: &mut Base,
    equality: TermId,
    parts: &[TermId],
) -> Result<Vec<TermId>, GoalFailure>
    requires some { 0 < length parts.now }
    requires first { HasTerm base.old (slice_index_or parts.now 0 0) }
    requires parts { AreTyped base.old (ty_of (term_tree base.old (slice_index_or parts.now 0 0))) parts.now }
    requires equality { IsNumberOf base.old equality (hol.eq_tm (ty_of (term_tree base.old (slice_index_or parts.now 0 0)))) }
    ensures read { Gives (λ ts. terms_at base.new ts.items) result (Ok (operations.differences (terms_at base.old parts.now))) }
    ensures there { IfOk result (λ ts. AreTyped base.new BoolTy ts.items) }
    ensures keeps { Keeps base.old base.new }
{
    let mut formulas = Vec::new(base.allocator());
    let mut i = 0;
    while i < parts.len() {
        differs(base, equality, parts, i, &mut formulas)?;
        i += 1;
    }
    Ok(formulas)
}

/// The conjunction of the equations of neighbours.
#[tactic(auto, using(hol_terms::proofs::KeepsLemmas::keeps_trans))]
fn equal(base: &mut Base, parts: &[TermId]) -> Result<TermId, GoalFailure>
    requires some { 0 < length parts.now }
    requires first { HasTerm base.old (slice_index_or parts.now 0 0) }
    requires parts { AreTyped base.old (ty_of (term_tree base.old (slice_index_or parts.now 0 0))) parts.now }
    ensures read { Gives (term_tree base.new) result (Ok (operations.meaning Operator.Equals (term_tree base.old (slice_index_or parts.now 0 0)) (terms_at base.old (drop 1 parts.now)))) }
    ensures there { IfOk result (HasTerm base.new) }
    ensures keeps { Keeps base.old base.new }
{
    let ty = base.ty(parts[0]);
    let f = equality(base, ty)?;
    let t = chain(base, f, parts)?;
    Ok(t)
}

/// That terms are distinct.
#[tactic(auto, using(hol_terms::proofs::KeepsLemmas::keeps_trans))]
fn distinct(base: &mut Base, parts: &[TermId]) -> Result<TermId, GoalFailure>
    requires some { 0 < length parts.now }
    requires first { HasTerm base.old (slice_index_or parts.now 0 0) }
    requires parts { AreTyped base.old (ty_of (term_tree base.old (slice_index_or parts.now 0 0))) parts.now }
    ensures read { Gives (term_tree base.new) result (Ok (operations.all_of (operations.differences (terms_at base.old parts.now)))) }
    ensures there { IfOk result (HasTerm base.new) }
    ensures keeps { Keeps base.old base.new }
{
    let ty = base.ty(parts[0]);
    let f = equality(base, ty)?;
    let formulas = differences(base, f, parts)?;
    let t = all_of(base, &formulas)?;
    Ok(t)
}

/// An operation on the first two of integers.
#[tactic(auto, using(hol_terms::proofs::KeepsLemmas::keeps_trans))]
fn on_two(base: &mut Base, name: &[u8], parts: &[TermId]) -> Result<TermId, GoalFailure>
    requires some { 0 < length parts.now }
    requires parts { AreTyped base.old IntTy parts.now }
    ensures read { Gives (term_tree base.new) result (Ok (operations.on_two (hol.apply_two (ConstTm name.now (FunTy2 IntTy IntTy IntTy))) (term_tree base.old (slice_index_or parts.now 0 0)) (terms_at base.old (drop 1 parts.now)))) }
    ensures there { IfOk result (HasTerm base.new) }
    ensures keeps { Keeps base.old base.new }
{
    if parts.len() < 2 {
        return Ok(parts[0]);
    }
    let f = arithmetic(base, name)?;
    let t = apply_two(base, f, parts[0], parts[1])?;
    Ok(t)
}

/// A comparison of the first two of integers, exchanged.
#[tactic(auto, using(hol_terms::proofs::KeepsLemmas::keeps_trans))]
fn exchanged(base: &mut Base, name: &[u8], parts: &[TermId]) -> Result<TermId, GoalFailure>
    requires some { 0 < length parts.now }
    requires parts { AreTyped base.old IntTy parts.now }
    ensures read { Gives (term_tree base.new) result (Ok (operations.on_two (λ a b. hol.apply_two (ConstTm name.now (FunTy2 IntTy IntTy BoolTy)) b a) (term_tree base.old (slice_index_or parts.now 0 0)) (terms_at base.old (drop 1 parts.now)))) }
    ensures there { IfOk result (HasTerm base.new) }
    ensures keeps { Keeps base.old base.new }
{
    if parts.len() < 2 {
        return Ok(parts[0]);
    }
    let f = comparison(base, name)?;
    let t = apply_two(base, f, parts[1], parts[0])?;
    Ok(t)
}

/// That the first two formulas differ.
#[tactic(auto, using(hol_terms::proofs::KeepsLemmas::keeps_trans))]
fn either(base: &mut Base, parts: &[TermId]) -> Result<TermId, GoalFailure>
    requires some { 0 < length parts.now }
    requires parts { AreTyped base.old BoolTy parts.now }
    ensures read { Gives (term_tree base.new) result (Ok (operations.meaning Operator.Xor (term_tree base.old (slice_index_or parts.now 0 0)) (terms_at base.old (drop 1 parts.now)))) }
    ensures there { IfOk result (HasTerm base.new) }
    ensures keeps { Keeps base.old base.new }
{
    if parts.len() < 2 {
        return Ok(parts[0]);
    }
    let ty = base.ty(parts[0]);
    let f = equality(base, ty)?;
    let t = unequal(base, f, parts[0], parts[1])?;
    Ok(t)
}

/// The choice between two terms of a type by a formula.
#[tactic(auto, using(hol_terms::proofs::KeepsLemmas::keeps_trans))]
fn choose(
    base: &mut Base,
    ty: TypeId,
    condition: TermId,
    first: TermId,
    second: TermId,
) -> Result<TermId, GoalFailure>
    requires ty { HasType base.old.types ty }
    requires condition { HasTyped base.old BoolTy condition }
    requires first { HasTyped base.old (type_tree base.old.types ty) first }
    requires second { HasTyped base.old (type_tree base.old.types ty) second }
    ensures read { Gives (term_tree base.new) result (Ok (hol.conditional (type_tree base.old.types ty) (term_tree base.old condition) (term_tree base.old first) (term_tree base.old second))) }
    ensures there { IfOk result (HasTerm base.new) }
    ensures keeps { Keeps base.old base.new }
{
    let f = conditional(base, ty)?;
    let given = apply_two(base, f, condition, first)?;
    let t = apply(base, given, second)?;
    Ok(t)
}

/// The choice between two terms by a formula, where there are so many.
#[tactic(auto, using(hol_terms::proofs::KeepsLemmas::keeps_trans))]
fn choice(base: &mut Base, parts: &[TermId]) -> Result<TermId, GoalFailure>
    requires some { 0 < length parts.now }
    requires parts { AreTerms base.old parts.now }
    requires fits { operations.are_choice (map ty_of (terms_at base.old parts.now)) ≡ true }
    ensures read { Gives (term_tree base.new) result (Ok (operations.meaning Operator.Ite (term_tree base.old (slice_index_or parts.now 0 0)) (terms_at base.old (drop 1 parts.now)))) }
    ensures there { IfOk result (HasTerm base.new) }
    ensures keeps { Keeps base.old base.new }
{
    if parts.len() < 3 {
        return Ok(parts[0]);
    }
    let ty = base.ty(parts[1]);
    let t = choose(base, ty, parts[0], parts[1], parts[2])?;
    Ok(t)
}

/// The negative of one integer, the difference of more.
#[tactic(auto, using(hol_terms::proofs::KeepsLemmas::keeps_trans))]
fn minus(base: &mut Base, parts: &[TermId]) -> Result<TermId, GoalFailure>
    requires some { 0 < length parts.now }
    requires parts { AreTyped base.old IntTy parts.now }
    ensures read { Gives (term_tree base.new) result (Ok (operations.meaning Operator.Minus (term_tree base.old (slice_index_or parts.now 0 0)) (terms_at base.old (drop 1 parts.now)))) }
    ensures there { IfOk result (HasTerm base.new) }
    ensures keeps { Keeps base.old base.new }
{
    if parts.len() == 1 {
        let f = opposite(base)?;
        let t = apply(base, f, parts[0])?;
        Ok(t)
    } else {
        arithmetic_of(base, b"sub".as_slice(), parts)
    }
}

/// A connective of formulas, nested to the right.
#[tactic(auto, using(hol_terms::proofs::KeepsLemmas::keeps_trans))]
fn connective_of(base: &mut Base, name: &[u8], parts: &[TermId]) -> Result<TermId, GoalFailure>
    requires some { 0 < length parts.now }
    requires parts { AreTyped base.old BoolTy parts.now }
    ensures read { Gives (term_tree base.new) result (Ok (operations.to_the_right (hol.apply_two (ConstTm name.now (FunTy2 BoolTy BoolTy BoolTy))) (term_tree base.old (slice_index_or parts.now 0 0)) (terms_at base.old (drop 1 parts.now)))) }
    ensures there { IfOk result (HasTerm base.new) }
    ensures keeps { Keeps base.old base.new }
{
    let f = connective(base, name)?;
    let t = to_the_right(base, f, parts)?;
    Ok(t)
}

/// An operation on integers, nested to the left.
#[tactic(auto, using(hol_terms::proofs::KeepsLemmas::keeps_trans))]
fn arithmetic_of(base: &mut Base, name: &[u8], parts: &[TermId]) -> Result<TermId, GoalFailure>
    requires some { 0 < length parts.now }
    requires parts { AreTyped base.old IntTy parts.now }
    ensures read { Gives (term_tree base.new) result (Ok (operations.to_the_left (hol.apply_two (ConstTm name.now (FunTy2 IntTy IntTy IntTy))) (term_tree base.old (slice_index_or parts.now 0 0)) (terms_at base.old (drop 1 parts.now)))) }
    ensures there { IfOk result (HasTerm base.new) }
    ensures keeps { Keeps base.old base.new }
{
    let f = arithmetic(base, name)?;
    let t = to_the_left(base, f, parts)?;
    Ok(t)
}

/// The conjunction of a comparison of neighbours.
#[tactic(auto, using(hol_terms::proofs::KeepsLemmas::keeps_trans))]
fn compared(base: &mut Base, name: &[u8], parts: &[TermId]) -> Result<TermId, GoalFailure>
    requires some { 0 < length parts.now }
    requires parts { AreTyped base.old IntTy parts.now }
    ensures read { Gives (term_tree base.new) result (Ok (operations.all_of (operations.neighbours (hol.apply_two (ConstTm name.now (FunTy2 IntTy IntTy BoolTy))) (term_tree base.old (slice_index_or parts.now 0 0)) (terms_at base.old (drop 1 parts.now))))) }
    ensures there { IfOk result (HasTerm base.new) }
    ensures keeps { Keeps base.old base.new }
{
    let f = comparison(base, name)?;
    let t = chain(base, f, parts)?;
    Ok(t)
}

/// The negation of the first formula.
#[tactic(auto, using(hol_terms::proofs::KeepsLemmas::keeps_trans))]
fn negated(base: &mut Base, parts: &[TermId]) -> Result<TermId, GoalFailure>
    requires some { 0 < length parts.now }
    requires parts { AreTyped base.old BoolTy parts.now }
    ensures read { Gives (term_tree base.new) result (Ok (hol.negation (term_tree base.old (slice_index_or parts.now 0 0)))) }
    ensures there { IfOk result (HasTerm base.new) }
    ensures keeps { Keeps base.old base.new }
{
    let f = negation(base)?;
    let t = apply(base, f, parts[0])?;
    Ok(t)
}

/// The term that an operation on terms of its types is read as.
pub fn meaning(base: &mut Base, operator: Operator, parts: &[TermId]) -> Result<TermId, GoalFailure>
    requires some { 0 < length parts.now }
    requires parts { AreTerms base.old parts.now }
    requires fits { operations.fits operator (map ty_of (terms_at base.old parts.now)) ≡ true }
    ensures read { Gives (term_tree base.new) result (Ok (operations.meaning operator (term_tree base.old (slice_index_or parts.now 0 0)) (terms_at base.old (drop 1 parts.now)))) }
    ensures there { IfOk result (HasTerm base.new) }
    ensures keeps { Keeps base.old base.new }
{
    match operator {
        Operator::Not => negated(base, parts),
        Operator::And => connective_of(base, b"and".as_slice(), parts),
        Operator::Or => connective_of(base, b"or".as_slice(), parts),
        Operator::Implies => connective_of(base, b"=>".as_slice(), parts),
        Operator::Equals => equal(base, parts),
        Operator::Distinct => distinct(base, parts),
        Operator::Xor => either(base, parts),
        Operator::Ite => choice(base, parts),
        Operator::Plus => arithmetic_of(base, b"+".as_slice(), parts),
        Operator::Times => arithmetic_of(base, b"*".as_slice(), parts),
        Operator::Minus => minus(base, parts),
        Operator::AtMost => compared(base, b"le".as_slice(), parts),
        Operator::Less => compared(base, b"lt".as_slice(), parts),
        Operator::AtLeast => exchanged(base, b"le".as_slice(), parts),
        Operator::Greater => exchanged(base, b"lt".as_slice(), parts),
        Operator::Div => on_two(base, b"div".as_slice(), parts),
        Operator::Mod => on_two(base, b"mod".as_slice(), parts),
    }
}
