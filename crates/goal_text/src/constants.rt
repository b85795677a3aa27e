//! The constants of HOL.
ghost use Rattle.std.specs.Prelude.{Ok, IfOk};
ghost use Rattle.hol_types.specs.Ty.{BoolTy, IntTy, FunTy};
ghost use Rattle.hol_types.specs.TypeStore.{HasType, type_tree};
ghost use Rattle.hol_terms.specs.Constants.{FunTy2, eq_tm, ite_tm, not_tm, neg_tm};
ghost use Rattle.hol_terms.specs.Term.{ConstTm};
ghost use Rattle.hol_terms.specs.TermStore.{Keeps, HasTerm, term_tree};
ghost use Rattle.goal_text.specs.Read.{Gives};

use crate::fault::GoalFailure;
use crate::made::{constant, type_of};
use hol_terms::{Base, TermId};
use hol_types::{TypeId, TypeNode};

/// A function's type.
fn function(base: &mut Base, from: TypeId, to: TypeId) -> Result<TypeId, GoalFailure>
    requires from { HasType base.old.types from }
    requires to { HasType base.old.types to }
    ensures read { Gives (type_tree base.new.types) result (Ok (FunTy (type_tree base.old.types from) (type_tree base.old.types to))) }
    ensures there { IfOk result (HasType base.new.types) }
    ensures keeps { Keeps base.old base.new }
{
    type_of(base, TypeNode::Fun(from, to))
}

/// The type of functions of two arguments.
#[tactic(auto, using(hol_terms::proofs::KeepsLemmas::keeps_trans))]
fn binary(base: &mut Base, a: TypeId, b: TypeId, c: TypeId) -> Result<TypeId, GoalFailure>
    requires first { HasType base.old.types a }
    requires second { HasType base.old.types b }
    requires value { HasType base.old.types c }
    ensures read { Gives (type_tree base.new.types) result (Ok (FunTy2 (type_tree base.old.types a) (type_tree base.old.types b) (type_tree base.old.types c))) }
    ensures there { IfOk result (HasType base.new.types) }
    ensures keeps { Keeps base.old base.new }
{
    let inner = function(base, b, c)?;
    let t = function(base, a, inner)?;
    Ok(t)
}

/// Bool.
pub fn bool_type(base: &mut Base) -> Result<TypeId, GoalFailure>
    ensures read { Gives (type_tree base.new.types) result (Ok BoolTy) }
    ensures there { IfOk result (HasType base.new.types) }
    ensures keeps { Keeps base.old base.new }
{
    type_of(base, TypeNode::Bool)
}

/// Int.
pub fn int_type(base: &mut Base) -> Result<TypeId, GoalFailure>
    ensures read { Gives (type_tree base.new.types) result (Ok IntTy) }
    ensures there { IfOk result (HasType base.new.types) }
    ensures keeps { Keeps base.old base.new }
{
    type_of(base, TypeNode::Int)
}

/// A constant of type Bool.
#[tactic(auto, using(hol_terms::proofs::KeepsLemmas::keeps_trans))]
pub fn truth_value(base: &mut Base, name: &[u8]) -> Result<TermId, GoalFailure>
    ensures read { Gives (term_tree base.new) result (Ok (ConstTm name.now BoolTy)) }
    ensures there { IfOk result (HasTerm base.new) }
    ensures keeps { Keeps base.old base.new }
{
    let bool = bool_type(base)?;
    let t = constant(base, name, bool)?;
    Ok(t)
}

/// The constant `not`.
#[tactic(auto, using(hol_terms::proofs::KeepsLemmas::keeps_trans))]
pub fn negation(base: &mut Base) -> Result<TermId, GoalFailure>
    ensures read { Gives (term_tree base.new) result (Ok not_tm) }
    ensures there { IfOk result (HasTerm base.new) }
    ensures keeps { Keeps base.old base.new }
{
    let bool = bool_type(base)?;
    let unary = function(base, bool, bool)?;
    let t = constant(base, b"not".as_slice(), unary)?;
    Ok(t)
}

/// The constant `neg`.
#[tactic(auto, using(hol_terms::proofs::KeepsLemmas::keeps_trans))]
pub fn opposite(base: &mut Base) -> Result<TermId, GoalFailure>
    ensures read { Gives (term_tree base.new) result (Ok neg_tm) }
    ensures there { IfOk result (HasTerm base.new) }
    ensures keeps { Keeps base.old base.new }
{
    let int = int_type(base)?;
    let unary = function(base, int, int)?;
    let t = constant(base, b"neg".as_slice(), unary)?;
    Ok(t)
}

/// A connective of two formulas.
#[tactic(auto, using(hol_terms::proofs::KeepsLemmas::keeps_trans))]
pub fn connective(base: &mut Base, name: &[u8]) -> Result<TermId, GoalFailure>
    ensures read { Gives (term_tree base.new) result (Ok (ConstTm name.now (FunTy2 BoolTy BoolTy BoolTy))) }
    ensures there { IfOk result (HasTerm base.new) }
    ensures keeps { Keeps base.old base.new }
{
    let bool = bool_type(base)?;
    let both = binary(base, bool, bool, bool)?;
    let t = constant(base, name, both)?;
    Ok(t)
}

/// An operation on two integers.
#[tactic(auto, using(hol_terms::proofs::KeepsLemmas::keeps_trans))]
pub fn arithmetic(base: &mut Base, name: &[u8]) -> Result<TermId, GoalFailure>
    ensures read { Gives (term_tree base.new) result (Ok (ConstTm name.now (FunTy2 IntTy IntTy IntTy))) }
    ensures there { IfOk result (HasTerm base.new) }
    ensures keeps { Keeps base.old base.new }
{
    let int = int_type(base)?;
    let both = binary(base, int, int, int)?;
    let t = constant(base, name, both)?;
    Ok(t)
}

/// The type of relations of a type.
#[tactic(auto, using(hol_terms::proofs::KeepsLemmas::keeps_trans))]
fn relation(base: &mut Base, ty: TypeId) -> Result<TypeId, GoalFailure>
    requires { HasType base.old.types ty }
    ensures read { Gives (type_tree base.new.types) result (Ok (FunTy2 (type_tree base.old.types ty) (type_tree base.old.types ty) BoolTy)) }
    ensures there { IfOk result (HasType base.new.types) }
    ensures keeps { Keeps base.old base.new }
{
    let bool = bool_type(base)?;
    let t = binary(base, ty, ty, bool)?;
    Ok(t)
}

/// A comparison of two integers.
#[tactic(auto, using(hol_terms::proofs::KeepsLemmas::keeps_trans))]
pub fn comparison(base: &mut Base, name: &[u8]) -> Result<TermId, GoalFailure>
    ensures read { Gives (term_tree base.new) result (Ok (ConstTm name.now (FunTy2 IntTy IntTy BoolTy))) }
    ensures there { IfOk result (HasTerm base.new) }
    ensures keeps { Keeps base.old base.new }
{
    let int = int_type(base)?;
    let both = relation(base, int)?;
    let t = constant(base, name, both)?;
    Ok(t)
}

/// Equality at a type.
#[tactic(auto, using(hol_terms::proofs::KeepsLemmas::keeps_trans))]
pub fn equality(base: &mut Base, ty: TypeId) -> Result<TermId, GoalFailure>
    requires { HasType base.old.types ty }
    ensures read { Gives (term_tree base.new) result (Ok (eq_tm (type_tree base.old.types ty))) }
    ensures there { IfOk result (HasTerm base.new) }
    ensures keeps { Keeps base.old base.new }
{
    let both = relation(base, ty)?;
    let t = constant(base, b"eq".as_slice(), both)?;
    Ok(t)
}

/// The choice between two of a type by a formula.
#[tactic(auto, using(hol_terms::proofs::KeepsLemmas::keeps_trans))]
pub fn conditional(base: &mut Base, ty: TypeId) -> Result<TermId, GoalFailure>
    requires { HasType base.old.types ty }
    ensures read { Gives (term_tree base.new) result (Ok (ite_tm (type_tree base.old.types ty))) }
    ensures there { IfOk result (HasTerm base.new) }
    ensures keeps { Keeps base.old base.new }
{
    let branches = binary(base, ty, ty, ty)?;
    let bool = bool_type(base)?;
    let whole = function(base, bool, branches)?;
    let t = constant(base, b"ite".as_slice(), whole)?;
    Ok(t)
}

/// The type of predicates of a type.
#[tactic(auto, using(hol_terms::proofs::KeepsLemmas::keeps_trans))]
fn predicate(base: &mut Base, ty: TypeId) -> Result<TypeId, GoalFailure>
    requires { HasType base.old.types ty }
    ensures read { Gives (type_tree base.new.types) result (Ok (FunTy (type_tree base.old.types ty) BoolTy)) }
    ensures there { IfOk result (HasType base.new.types) }
    ensures keeps { Keeps base.old base.new }
{
    let bool = bool_type(base)?;
    let t = function(base, ty, bool)?;
    Ok(t)
}

/// A quantifier over a type.
#[tactic(auto, using(hol_terms::proofs::KeepsLemmas::keeps_trans))]
pub fn quantifier(base: &mut Base, name: &[u8], ty: TypeId) -> Result<TermId, GoalFailure>
    requires { HasType base.old.types ty }
    ensures read { Gives (term_tree base.new) result (Ok (ConstTm name.now (FunTy (FunTy (type_tree base.old.types ty) BoolTy) BoolTy))) }
    ensures there { IfOk result (HasTerm base.new) }
    ensures keeps { Keeps base.old base.new }
{
    let of = predicate(base, ty)?;
    let whole = predicate(base, of)?;
    let t = constant(base, name, whole)?;
    Ok(t)
}
