//! Equal functions of equal arguments.
ghost use Rattle.std.specs.Prelude.{◌≡◌, ◌↔◌, ◌++◌, ◌&&◌, IsTrue, IfOk, IfErr};
ghost use Rattle.hol_terms.specs.Term.{BoundTm, AppTm, Typed, result_ty, ty_of};
ghost use Rattle.hol_terms.specs.TermStore.{HasTerm, term_tree};
ghost use Rattle.hol_terms.specs.Formula.{IsTerm};
ghost use Rattle.hol_terms.specs.Constants.{equation};
ghost use Rattle.hol_formulas.specs.Constants.{IsAt};
ghost use Rattle.lcf_kernel.specs.KernelState.{HasThm, concl_of, hyps_of, bare_of, KeepsAll};
ghost use Rattle.hol_logic.specs.States.{States, Equates};
ghost use Rattle.hol_logic.specs.DerivedForms.{Takes, AreCongruent};

use crate::equality::{carried, rewritten, sides_of};
use crate::makers::{application, equal, place};
use hol_formulas::formula::Sides;
use hol_terms::{TermId, Terms};
use hol_types::TypeNode;
use lcf_kernel::{Kernel, RuleFault, ThmId};
use std::alloc::AllocError;

/// Whether a term is a function on the type of another.
fn takes(k: &Kernel<'_>, f: TermId, x: TermId) -> bool
    requires function { HasTerm k.now.store f }
    requires argument { HasTerm k.now.store x }
    ensures { IsTrue result ↔ Takes (term_tree k.now.store f) (term_tree k.now.store x) }
{
    match k.type_node(k.ty(f)) {
        TypeNode::Fun(from, _) => *from == k.ty(x),
        TypeNode::Bool => false,
        TypeNode::Int => false,
        TypeNode::Var(_) => false,
        TypeNode::Cons(_, _) => false,
    }
}

//       G |- (= f g)
//  ---------------------- of_functions
//   G |- (= (f x) (g x))
/// Equal functions of one argument, by the ids of the functions. There is no Shape.
#[tactic(auto, using(lcf_kernel::proofs::KeepLemmas::keeps_all_same, lcf_kernel::proofs::KeepLemmas::keeps_all_trans))]
fn of_functions(k: &mut Kernel<'_>, a: ThmId, sides: Sides, x: TermId) -> Result<ThmId, RuleFault>
    requires equates { Equates k.old a sides }
    requires argument { HasTerm k.old.store x }
    requires term { IsTerm (term_tree k.old.store x) }
    requires takes { Takes (term_tree k.old.store sides.left) (term_tree k.old.store x) }
    ensures states { IfOk result (λ r. States k.new r (equation (result_ty (ty_of (term_tree k.old.store sides.left))) (AppTm (term_tree k.old.store sides.left) (term_tree k.old.store x)) (AppTm (term_tree k.old.store sides.right) (term_tree k.old.store x))) (hyps_of k.old a) (bare_of k.old a)) }
    ensures shape { IfErr result (λ e. e ≡ RuleFault.Shape → ⊥) }
    ensures keeps { KeepsAll k.old k.new }
{
    let ty = k.ty(sides.left);
    let hole = place(k, ty)?;
    let body = application(k, hole, x)?;
    let r = carried(k, a, sides, body)?;
    Ok(r)
}

/// `(f _)`, the place marked, for an argument of x's type.
#[tactic(auto, using(lcf_kernel::proofs::KeepLemmas::keeps_all_same, lcf_kernel::proofs::KeepLemmas::keeps_all_trans))]
fn place_argument(k: &mut Kernel<'_>, f: TermId, x: TermId) -> Result<TermId, AllocError>
    requires function { HasTerm k.old.store f }
    requires argument { HasTerm k.old.store x }
    requires typed { Typed (term_tree k.old.store f) }
    requires takes { Takes (term_tree k.old.store f) (term_tree k.old.store x) }
    ensures is { IfOk result (λ r. IsAt k.new.store r (AppTm (term_tree k.old.store f) (BoundTm 0 (ty_of (term_tree k.old.store x))))) }
    ensures keeps { KeepsAll k.old k.new }
{
    let ty = k.ty(x);
    let hole = place(k, ty)?;
    let r = application(k, f, hole)?;
    Ok(r)
}

/// `(= (f x) (g _))`, the place marked.
#[tactic(auto, using(lcf_kernel::proofs::KeepLemmas::keeps_all_same, lcf_kernel::proofs::KeepLemmas::keeps_all_trans))]
fn place_other(k: &mut Kernel<'_>, f: TermId, g: TermId, x: TermId) -> Result<TermId, AllocError>
    requires function { HasTerm k.old.store f }
    requires other { HasTerm k.old.store g }
    requires argument { HasTerm k.old.store x }
    requires function_typed { Typed (term_tree k.old.store f) }
    requires other_typed { Typed (term_tree k.old.store g) }
    requires argument_typed { Typed (term_tree k.old.store x) }
    requires takes { Takes (term_tree k.old.store f) (term_tree k.old.store x) }
    requires same { ty_of (term_tree k.old.store g) ≡ ty_of (term_tree k.old.store f) }
    ensures is { IfOk result (λ r. IsAt k.new.store r (equation (result_ty (ty_of (term_tree k.old.store f))) (AppTm (term_tree k.old.store f) (term_tree k.old.store x)) (AppTm (term_tree k.old.store g) (BoundTm 0 (ty_of (term_tree k.old.store x)))))) }
    ensures keeps { KeepsAll k.old k.new }
{
    let left = application(k, f, x)?;
    let right = place_argument(k, g, x)?;
    let r = equal(k, left, right)?;
    Ok(r)
}

//   G |- (= f g)    H |- (= x y)
//  ------------------------------ congruent
//     G, H |- (= (f x) (g y))
/// Equal functions of equal arguments, by the ids of the sides. There is no Shape.
#[tactic(auto, using(lcf_kernel::proofs::KeepLemmas::keeps_all_same, lcf_kernel::proofs::KeepLemmas::keeps_all_trans))]
fn congruent(
    k: &mut Kernel<'_>,
    a: ThmId,
    b: ThmId,
    functions: Sides,
    arguments: Sides,
) -> Result<ThmId, RuleFault>
    requires functions { Equates k.old a functions }
    requires arguments { Equates k.old b arguments }
    requires takes { Takes (term_tree k.old.store functions.left) (term_tree k.old.store arguments.left) }
    ensures states { IfOk result (λ r. States k.new r (equation (result_ty (ty_of (term_tree k.old.store functions.left))) (AppTm (term_tree k.old.store functions.left) (term_tree k.old.store arguments.left)) (AppTm (term_tree k.old.store functions.right) (term_tree k.old.store arguments.right))) (hyps_of k.old a ++ hyps_of k.old b) (bare_of k.old a && bare_of k.old b)) }
    ensures shape { IfErr result (λ e. e ≡ RuleFault.Shape → ⊥) }
    ensures keeps { KeepsAll k.old k.new }
{
    let f = functions.left;
    let g = functions.right;
    let x = arguments.left;
    let first = of_functions(k, a, functions, x)?;
    let body = place_other(k, f, g, x)?;
    let r = rewritten(k, b, first, arguments, body)?;
    Ok(r)
}

//   G |- (= f g)    H |- (= x y)
//  ------------------------------ cong
//     G, H |- (= (f x) (g y))
/// Equal functions of equal arguments. Shape exactly where the conclusions aren't equations of functions, and of
/// arguments of the type that these take.
#[tactic(auto, using(lcf_kernel::proofs::KeepLemmas::keeps_all_same, lcf_kernel::proofs::KeepLemmas::keeps_all_trans))]
pub fn cong(k: &mut Kernel<'_>, f: ThmId, x: ThmId) -> Result<ThmId, RuleFault>
    requires functions { HasThm k.old f }
    requires arguments { HasThm k.old x }
    ensures states { IfOk result (λ r. (e : AreCongruent (concl_of k.old f) (concl_of k.old x)) × States k.new r (equation e.result_type (AppTm e.f e.x) (AppTm e.g e.y)) (hyps_of k.old f ++ hyps_of k.old x) (bare_of k.old f && bare_of k.old x)) }
    ensures shape { IfErr result (λ e. e ≡ RuleFault.Shape → AreCongruent (concl_of k.old f) (concl_of k.old x) → ⊥) }
    ensures keeps { KeepsAll k.old k.new }
{
    let Some(functions) = sides_of(k, f) else {
        return Err(RuleFault::Shape);
    };
    let Some(arguments) = sides_of(k, x) else {
        return Err(RuleFault::Shape);
    };
    if !takes(k, functions.left, arguments.left) {
        return Err(RuleFault::Shape);
    }
    let r = congruent(k, f, x, functions, arguments)?;
    Ok(r)
}
