//! Terms that the derived rules make in a kernel.
ghost use Rattle.std.specs.Prelude.{◌≡◌, IfOk};
ghost use Rattle.hol_types.specs.Ty.{BoolTy, FunTy};
ghost use Rattle.hol_types.specs.TypeStore.{HasType, type_tree};
ghost use Rattle.hol_terms.specs.Term.{BoundTm, AppTm, LamTm, BoundsFit, Typed, ty_of};
ghost use Rattle.hol_terms.specs.Substitution.{IsClosed, subst_bound};
ghost use Rattle.hol_terms.specs.TermStore.{HasTerm, term_tree};
ghost use Rattle.hol_terms.specs.Constants.{equation, ex_tm, exists, for_all, chosen, negation, disjunction};
ghost use Rattle.hol_formulas.specs.Constants.{IsAt, IsType};
ghost use Rattle.lcf_kernel.specs.KernelState.{KeepsAll};

use hol_formulas::binder::{make_all, make_choice, of_predicates};
use hol_formulas::equation::make_eq;
use hol_formulas::formula::{function_type, make_not, make_or};
use hol_terms::{Node, TermId, Terms, make};
use hol_types::TypeId;
use lcf_kernel::Kernel;
use std::alloc::AllocError;

/// The Bound 0 of a type: the place that a marking lambda marks.
#[tactic(auto, using(lcf_kernel::proofs::KeepLemmas::keeps_all_rest))]
pub(crate) fn place(k: &mut Kernel<'_>, ty: TypeId) -> Result<TermId, AllocError>
    requires { HasType k.old.store.types ty }
    ensures is { IfOk result (λ t. IsAt k.new.store t (BoundTm 0 (type_tree k.old.store.types ty))) }
    ensures keeps { KeepsAll k.old k.new }
{
    let _constants = k.constants();
    let t = make(k, Node::Bound(0, ty))?;
    Ok(t)
}

/// The equation of two terms of one type, which may have loose Bounds.
#[tactic(auto, using(lcf_kernel::proofs::KeepLemmas::keeps_all_rest))]
pub(crate) fn equal(k: &mut Kernel<'_>, a: TermId, b: TermId) -> Result<TermId, AllocError>
    requires left { HasTerm k.old.store a }
    requires right { HasTerm k.old.store b }
    requires same { ty_of (term_tree k.old.store b) ≡ ty_of (term_tree k.old.store a) }
    ensures is { IfOk result (λ t. IsAt k.new.store t (equation (ty_of (term_tree k.old.store a)) (term_tree k.old.store a) (term_tree k.old.store b))) }
    ensures keeps { KeepsAll k.old k.new }
{
    let constants = k.constants();
    let t = make_eq(k, constants, a, b)?;
    Ok(t)
}

/// The lambda of a type with a body.
#[tactic(auto, using(lcf_kernel::proofs::KeepLemmas::keeps_all_rest))]
pub(crate) fn lambda(k: &mut Kernel<'_>, ty: TypeId, body: TermId) -> Result<TermId, AllocError>
    requires ty { HasType k.old.store.types ty }
    requires body { HasTerm k.old.store body }
    requires typed { Typed (LamTm (type_tree k.old.store.types ty) (term_tree k.old.store body)) }
    ensures is { IfOk result (λ t. IsAt k.new.store t (LamTm (type_tree k.old.store.types ty) (term_tree k.old.store body))) }
    ensures keeps { KeepsAll k.old k.new }
{
    let _constants = k.constants();
    let t = make(k, Node::Lam(ty, body))?;
    Ok(t)
}

/// One term applied to another.
#[tactic(auto, using(lcf_kernel::proofs::KeepLemmas::keeps_all_rest))]
pub(crate) fn application(k: &mut Kernel<'_>, f: TermId, x: TermId) -> Result<TermId, AllocError>
    requires function { HasTerm k.old.store f }
    requires argument { HasTerm k.old.store x }
    requires typed { Typed (AppTm (term_tree k.old.store f) (term_tree k.old.store x)) }
    ensures is { IfOk result (λ t. IsAt k.new.store t (AppTm (term_tree k.old.store f) (term_tree k.old.store x))) }
    ensures keeps { KeepsAll k.old k.new }
{
    let _constants = k.constants();
    let t = make(k, Node::App(f, x))?;
    Ok(t)
}

/// A body with a closed term for its place.
#[tactic(auto, using(lcf_kernel::proofs::KeepLemmas::keeps_all_rest))]
pub(crate) fn opened(k: &mut Kernel<'_>, body: TermId, u: TermId) -> Result<TermId, AllocError>
    requires body { HasTerm k.old.store body }
    requires new { HasTerm k.old.store u }
    requires closed { IsClosed (term_tree k.old.store u) }
    requires fits { BoundsFit (term_tree k.old.store body) 0 (ty_of (term_tree k.old.store u)) }
    ensures is { IfOk result (λ t. IsAt k.new.store t (subst_bound (term_tree k.old.store body) 0 (term_tree k.old.store u))) }
    ensures keeps { KeepsAll k.old k.new }
{
    let _constants = k.constants();
    let t = k.open(body, u)?;
    Ok(t)
}

/// The type of predicates on a type.
#[tactic(auto, using(lcf_kernel::proofs::KeepLemmas::keeps_all_rest))]
fn predicates(k: &mut Kernel<'_>, ty: TypeId) -> Result<TypeId, AllocError>
    requires { HasType k.old.store.types ty }
    ensures is { IfOk result (λ t. IsType k.new.store t (FunTy (type_tree k.old.store.types ty) BoolTy)) }
    ensures keeps { KeepsAll k.old k.new }
{
    let constants = k.constants();
    let t = function_type(k, ty, constants.bool)?;
    Ok(t)
}

/// That a predicate on a type, which may have loose Bounds, holds of each.
#[tactic(auto, using(lcf_kernel::proofs::KeepLemmas::keeps_all_rest))]
pub(crate) fn every(k: &mut Kernel<'_>, p: TermId, ty: TypeId) -> Result<TermId, AllocError>
    requires there { HasTerm k.old.store p }
    requires ty { HasType k.old.store.types ty }
    requires predicate { ty_of (term_tree k.old.store p) ≡ FunTy (type_tree k.old.store.types ty) BoolTy }
    ensures is { IfOk result (λ t. IsAt k.new.store t (for_all (type_tree k.old.store.types ty) (term_tree k.old.store p))) }
    ensures keeps { KeepsAll k.old k.new }
{
    let constants = k.constants();
    let t = make_all(k, constants, p, ty)?;
    Ok(t)
}

/// The constant `ex` over a type.
#[tactic(auto, using(lcf_kernel::proofs::KeepLemmas::keeps_all_rest))]
fn existence(k: &mut Kernel<'_>, ty: TypeId) -> Result<TermId, AllocError>
    requires { HasType k.old.store.types ty }
    ensures is { IfOk result (λ t. IsAt k.new.store t (ex_tm (type_tree k.old.store.types ty))) }
    ensures keeps { KeepsAll k.old k.new }
{
    let constants = k.constants();
    let bool = constants.bool;
    let t = of_predicates(k, bool, constants.names.ex, ty, bool)?;
    Ok(t)
}

/// That a predicate on a type, which may have loose Bounds, holds of some.
#[tactic(auto, using(lcf_kernel::proofs::KeepLemmas::keeps_all_same, lcf_kernel::proofs::KeepLemmas::keeps_all_trans))]
pub(crate) fn some(k: &mut Kernel<'_>, p: TermId, ty: TypeId) -> Result<TermId, AllocError>
    requires there { HasTerm k.old.store p }
    requires typed { Typed (term_tree k.old.store p) }
    requires ty { HasType k.old.store.types ty }
    requires predicate { ty_of (term_tree k.old.store p) ≡ FunTy (type_tree k.old.store.types ty) BoolTy }
    ensures is { IfOk result (λ t. IsAt k.new.store t (exists (type_tree k.old.store.types ty) (term_tree k.old.store p))) }
    ensures keeps { KeepsAll k.old k.new }
{
    let f = existence(k, ty)?;
    let t = application(k, f, p)?;
    Ok(t)
}

/// A place for predicates on a type.
#[tactic(auto, using(lcf_kernel::proofs::KeepLemmas::keeps_all_same, lcf_kernel::proofs::KeepLemmas::keeps_all_trans))]
pub(crate) fn place_of_predicate(k: &mut Kernel<'_>, ty: TypeId) -> Result<TermId, AllocError>
    requires { HasType k.old.store.types ty }
    ensures is { IfOk result (λ t. IsAt k.new.store t (BoundTm 0 (FunTy (type_tree k.old.store.types ty) BoolTy))) }
    ensures keeps { KeepsAll k.old k.new }
{
    let predicates = predicates(k, ty)?;
    let t = place(k, predicates)?;
    Ok(t)
}

/// `(all _)` over the type of a variable, the place marked.
#[tactic(auto, using(lcf_kernel::proofs::KeepLemmas::keeps_all_same, lcf_kernel::proofs::KeepLemmas::keeps_all_trans))]
pub(crate) fn place_all(k: &mut Kernel<'_>, v: TermId) -> Result<TermId, AllocError>
    requires { HasTerm k.old.store v }
    ensures is { IfOk result (λ t. IsAt k.new.store t (for_all (ty_of (term_tree k.old.store v)) (BoundTm 0 (FunTy (ty_of (term_tree k.old.store v)) BoolTy)))) }
    ensures keeps { KeepsAll k.old k.new }
{
    let ty = k.ty(v);
    let hole = place_of_predicate(k, ty)?;
    let t = every(k, hole, ty)?;
    Ok(t)
}

/// `(ex _)` over the type of a variable, the place marked.
#[tactic(auto, using(lcf_kernel::proofs::KeepLemmas::keeps_all_same, lcf_kernel::proofs::KeepLemmas::keeps_all_trans))]
pub(crate) fn place_some(k: &mut Kernel<'_>, v: TermId) -> Result<TermId, AllocError>
    requires { HasTerm k.old.store v }
    ensures is { IfOk result (λ t. IsAt k.new.store t (exists (ty_of (term_tree k.old.store v)) (BoundTm 0 (FunTy (ty_of (term_tree k.old.store v)) BoolTy)))) }
    ensures keeps { KeepsAll k.old k.new }
{
    let ty = k.ty(v);
    let hole = place_of_predicate(k, ty)?;
    let t = some(k, hole, ty)?;
    Ok(t)
}

/// `(= _ t)`, the place marked.
#[tactic(auto, using(lcf_kernel::proofs::KeepLemmas::keeps_all_same, lcf_kernel::proofs::KeepLemmas::keeps_all_trans))]
pub(crate) fn place_left(k: &mut Kernel<'_>, t: TermId) -> Result<TermId, AllocError>
    requires { HasTerm k.old.store t }
    ensures is { IfOk result (λ r. IsAt k.new.store r (equation (ty_of (term_tree k.old.store t)) (BoundTm 0 (ty_of (term_tree k.old.store t))) (term_tree k.old.store t))) }
    ensures typed { Typed (term_tree k.old.store t) }
    ensures keeps { KeepsAll k.old k.new }
{
    let ty = k.ty(t);
    let left = place(k, ty)?;
    let r = equal(k, left, t)?;
    Ok(r)
}

/// `(= t _)`, the place marked.
#[tactic(auto, using(lcf_kernel::proofs::KeepLemmas::keeps_all_same, lcf_kernel::proofs::KeepLemmas::keeps_all_trans))]
pub(crate) fn place_right(k: &mut Kernel<'_>, t: TermId) -> Result<TermId, AllocError>
    requires { HasTerm k.old.store t }
    ensures is { IfOk result (λ r. IsAt k.new.store r (equation (ty_of (term_tree k.old.store t)) (term_tree k.old.store t) (BoundTm 0 (ty_of (term_tree k.old.store t))))) }
    ensures typed { Typed (term_tree k.old.store t) }
    ensures keeps { KeepsAll k.old k.new }
{
    let ty = k.ty(t);
    let right = place(k, ty)?;
    let r = equal(k, t, right)?;
    Ok(r)
}

/// The negation of a formula.
#[tactic(auto, using(lcf_kernel::proofs::KeepLemmas::keeps_all_rest))]
pub(crate) fn negated(k: &mut Kernel<'_>, a: TermId) -> Result<TermId, AllocError>
    requires there { HasTerm k.old.store a }
    requires bool { ty_of (term_tree k.old.store a) ≡ BoolTy }
    ensures is { IfOk result (λ t. IsAt k.new.store t (negation (term_tree k.old.store a))) }
    ensures keeps { KeepsAll k.old k.new }
{
    let constants = k.constants();
    let t = make_not(k, constants, a)?;
    Ok(t)
}

/// The disjunction of two formulas.
#[tactic(auto, using(lcf_kernel::proofs::KeepLemmas::keeps_all_rest))]
pub(crate) fn either(k: &mut Kernel<'_>, a: TermId, b: TermId) -> Result<TermId, AllocError>
    requires left { HasTerm k.old.store a }
    requires right { HasTerm k.old.store b }
    requires left_bool { ty_of (term_tree k.old.store a) ≡ BoolTy }
    requires right_bool { ty_of (term_tree k.old.store b) ≡ BoolTy }
    ensures is { IfOk result (λ t. IsAt k.new.store t (disjunction (term_tree k.old.store a) (term_tree k.old.store b))) }
    ensures keeps { KeepsAll k.old k.new }
{
    let constants = k.constants();
    let t = make_or(k, constants, a, b)?;
    Ok(t)
}

/// One of which a predicate on a type holds, where there is one.
#[tactic(auto, using(lcf_kernel::proofs::KeepLemmas::keeps_all_rest))]
pub(crate) fn chosen(k: &mut Kernel<'_>, p: TermId, ty: TypeId) -> Result<TermId, AllocError>
    requires there { HasTerm k.old.store p }
    requires ty { HasType k.old.store.types ty }
    requires predicate { ty_of (term_tree k.old.store p) ≡ FunTy (type_tree k.old.store.types ty) BoolTy }
    ensures is { IfOk result (λ t. IsAt k.new.store t (chosen (type_tree k.old.store.types ty) (term_tree k.old.store p))) }
    ensures keeps { KeepsAll k.old k.new }
{
    let constants = k.constants();
    let t = make_choice(k, constants, p, ty)?;
    Ok(t)
}
