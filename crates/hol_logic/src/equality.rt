//! Rules of equality.
ghost use Rattle.std.specs.Prelude.{◌≡◌, ◌++◌, ◌&&◌, IfOk, IfErr, IfSome, IfNone};
ghost use Rattle.hol_terms.specs.Term.{LamTm, ty_of};
ghost use Rattle.hol_terms.specs.Substitution.{subst_bound};
ghost use Rattle.hol_terms.specs.TermStore.{HasTerm, TermsApart, term_tree};
ghost use Rattle.hol_terms.specs.Formula.{IsTerm};
ghost use Rattle.hol_terms.specs.Constants.{equation};
ghost use Rattle.lcf_kernel.specs.KernelState.{HasThm, concl_of, hyps_of, bare_of, KeepsAll};
ghost use Rattle.hol_logic.specs.States.{States, Equates, Equal};
ghost use Rattle.hol_logic.specs.DerivedForms.{IsEquation, IsChain};

use crate::makers::{equal, lambda, opened, place_left, place_right};
use hol_formulas::equation::eq_parts;
use hol_formulas::formula::Sides;
use hol_terms::{TermId, Terms};
use lcf_kernel::{Kernel, RuleFault, ThmId};

/// The sides of a conclusion that is an equation. None exactly where it isn't one.
pub(crate) fn sides_of(k: &Kernel<'_>, a: ThmId) -> Option<Sides>
    requires { HasThm k.now a }
    ensures none { IfNone result (IsEquation (concl_of k.now a) → ⊥) }
    ensures some { IfSome result (λ p. Equates k.now a p) }
    ensures apart { TermsApart k.now.store }
{
    eq_parts(k, k.constants(), k.concl(a))
}

//   G |- (= t u)    H |- b with t
//  ------------------------------- rewritten
//         G, H |- b with u
/// Equals for equals in a body whose place is Bound 0, by the ids of the sides. There is no Shape.
#[tactic(auto, using(lcf_kernel::proofs::KeepLemmas::keeps_all_same, lcf_kernel::proofs::KeepLemmas::keeps_all_trans))]
pub(crate) fn rewritten(
    k: &mut Kernel<'_>,
    a: ThmId,
    b: ThmId,
    sides: Sides,
    body: TermId,
) -> Result<ThmId, RuleFault>
    requires equates { Equates k.old a sides }
    requires thm { HasThm k.old b }
    requires body { HasTerm k.old.store body }
    requires function { IsTerm (LamTm (ty_of (term_tree k.old.store sides.left)) (term_tree k.old.store body)) }
    requires marked { concl_of k.old b ≡ subst_bound (term_tree k.old.store body) 0 (term_tree k.old.store sides.left) }
    ensures states { IfOk result (λ r. States k.new r (subst_bound (term_tree k.old.store body) 0 (term_tree k.old.store sides.right)) (hyps_of k.old a ++ hyps_of k.old b) (bare_of k.old a && bare_of k.old b)) }
    ensures shape { IfErr result (λ e. e ≡ RuleFault.Shape → ⊥) }
    ensures keeps { KeepsAll k.old k.new }
{
    let ty = k.ty(sides.left);
    let p = lambda(k, ty, body)?;
    let r = k.subst(a, b, p)?;
    Ok(r)
}

//   G |- (= x y)
//  -------------- reversed
//   G |- (= y x)
/// An equation the other way round, by the ids of its sides. There is no Shape.
#[tactic(auto, using(lcf_kernel::proofs::KeepLemmas::keeps_all_same, lcf_kernel::proofs::KeepLemmas::keeps_all_trans))]
pub(crate) fn reversed(k: &mut Kernel<'_>, a: ThmId, sides: Sides) -> Result<ThmId, RuleFault>
    requires { Equates k.old a sides }
    ensures states { IfOk result (λ r. States k.new r (equation (ty_of (term_tree k.old.store sides.left)) (term_tree k.old.store sides.right) (term_tree k.old.store sides.left)) (hyps_of k.old a) (bare_of k.old a)) }
    ensures shape { IfErr result (λ e. e ≡ RuleFault.Shape → ⊥) }
    ensures keeps { KeepsAll k.old k.new }
{
    let same = k.refl(sides.left)?;
    let body = place_left(k, sides.left)?;
    let r = rewritten(k, a, same, sides, body)?;
    Ok(r)
}

//   G |- (= x y)    H |- (= y z)
//  ------------------------------ chained
//         G, H |- (= x z)
/// Two equations as one, by the ids of their sides. There is no Shape.
#[tactic(auto, using(lcf_kernel::proofs::KeepLemmas::keeps_all_same, lcf_kernel::proofs::KeepLemmas::keeps_all_trans))]
pub(crate) fn chained(
    k: &mut Kernel<'_>,
    a: ThmId,
    b: ThmId,
    first: Sides,
    second: Sides,
) -> Result<ThmId, RuleFault>
    requires one { Equates k.old a first }
    requires other { Equates k.old b second }
    requires middle { term_tree k.old.store first.right ≡ term_tree k.old.store second.left }
    ensures states { IfOk result (λ r. States k.new r (equation (ty_of (term_tree k.old.store first.left)) (term_tree k.old.store first.left) (term_tree k.old.store second.right)) (hyps_of k.old a ++ hyps_of k.old b) (bare_of k.old a && bare_of k.old b)) }
    ensures shape { IfErr result (λ e. e ≡ RuleFault.Shape → ⊥) }
    ensures keeps { KeepsAll k.old k.new }
{
    let body = place_right(k, first.left)?;
    let r = rewritten(k, b, a, second, body)?;
    Ok(r)
}

//            G |- (= t u)
//  -------------------------------- carried
//   G |- (= (b with t) (b with u))
/// An equation carried into a body whose place is Bound 0, by the ids of its sides. There is no Shape.
#[tactic(auto, using(lcf_kernel::proofs::KeepLemmas::keeps_all_same, lcf_kernel::proofs::KeepLemmas::keeps_all_trans))]
pub(crate) fn carried(
    k: &mut Kernel<'_>,
    a: ThmId,
    sides: Sides,
    body: TermId,
) -> Result<ThmId, RuleFault>
    requires equates { Equates k.old a sides }
    requires body { HasTerm k.old.store body }
    requires function { IsTerm (LamTm (ty_of (term_tree k.old.store sides.left)) (term_tree k.old.store body)) }
    ensures states { IfOk result (λ r. States k.new r (equation (ty_of (term_tree k.old.store body)) (subst_bound (term_tree k.old.store body) 0 (term_tree k.old.store sides.left)) (subst_bound (term_tree k.old.store body) 0 (term_tree k.old.store sides.right))) (hyps_of k.old a) (bare_of k.old a)) }
    ensures shape { IfErr result (λ e. e ≡ RuleFault.Shape → ⊥) }
    ensures keeps { KeepsAll k.old k.new }
{
    let start = opened(k, body, sides.left)?;
    let same = k.refl(start)?;
    let whole = equal(k, start, body)?;
    let r = rewritten(k, a, same, sides, whole)?;
    Ok(r)
}

//            G |- (= t u)
//  -------------------------------- carry
//   G |- (= (b with t) (b with u))
/// An equation carried into a body whose place is Bound 0. There is no Shape.
#[tactic(auto, using(lcf_kernel::proofs::KeepLemmas::keeps_all_same, lcf_kernel::proofs::KeepLemmas::keeps_all_trans))]
pub(crate) fn carry(k: &mut Kernel<'_>, a: ThmId, body: TermId) -> Result<ThmId, RuleFault>
    requires equal { Equal k.old a }
    requires body { HasTerm k.old.store body }
    requires function { (e : IsEquation (concl_of k.old a)) → IsTerm (LamTm e.type (term_tree k.old.store body)) }
    ensures states { IfOk result (λ r. (e : IsEquation (concl_of k.old a)) × States k.new r (equation (ty_of (term_tree k.old.store body)) (subst_bound (term_tree k.old.store body) 0 e.left) (subst_bound (term_tree k.old.store body) 0 e.right)) (hyps_of k.old a) (bare_of k.old a)) }
    ensures shape { IfErr result (λ e. e ≡ RuleFault.Shape → ⊥) }
    ensures keeps { KeepsAll k.old k.new }
{
    let Some(sides) = sides_of(k, a) else {
        return Err(RuleFault::Shape);
    };
    let r = carried(k, a, sides, body)?;
    Ok(r)
}

//   G |- (= x y)
//  -------------- sym
//   G |- (= y x)
/// An equation the other way round. Shape exactly where the conclusion isn't an equation.
#[tactic(auto, using(lcf_kernel::proofs::KeepLemmas::keeps_all_same, lcf_kernel::proofs::KeepLemmas::keeps_all_trans))]
pub fn sym(k: &mut Kernel<'_>, a: ThmId) -> Result<ThmId, RuleFault>
    requires { HasThm k.old a }
    ensures states { IfOk result (λ r. (e : IsEquation (concl_of k.old a)) × States k.new r (equation e.type e.right e.left) (hyps_of k.old a) (bare_of k.old a)) }
    ensures shape { IfErr result (λ e. e ≡ RuleFault.Shape → IsEquation (concl_of k.old a) → ⊥) }
    ensures keeps { KeepsAll k.old k.new }
{
    let Some(sides) = sides_of(k, a) else {
        return Err(RuleFault::Shape);
    };
    let r = reversed(k, a, sides)?;
    Ok(r)
}

//   G |- (= x y)    H |- (= y z)
//  ------------------------------ trans
//         G, H |- (= x z)
/// Two equations as one. Shape exactly where the conclusions aren't equations of which the second goes on from the right
/// side of the first.
#[tactic(auto, using(lcf_kernel::proofs::KeepLemmas::keeps_all_same, lcf_kernel::proofs::KeepLemmas::keeps_all_trans))]
pub fn trans(k: &mut Kernel<'_>, a: ThmId, b: ThmId) -> Result<ThmId, RuleFault>
    requires first { HasThm k.old a }
    requires second { HasThm k.old b }
    ensures states { IfOk result (λ r. (e : IsChain (concl_of k.old a) (concl_of k.old b)) × States k.new r (equation e.type e.left e.right) (hyps_of k.old a ++ hyps_of k.old b) (bare_of k.old a && bare_of k.old b)) }
    ensures shape { IfErr result (λ e. e ≡ RuleFault.Shape → IsChain (concl_of k.old a) (concl_of k.old b) → ⊥) }
    ensures keeps { KeepsAll k.old k.new }
{
    let Some(first) = sides_of(k, a) else {
        return Err(RuleFault::Shape);
    };
    let Some(second) = sides_of(k, b) else {
        return Err(RuleFault::Shape);
    };
    if first.right != second.left {
        return Err(RuleFault::Shape);
    }
    let r = chained(k, a, b, first, second)?;
    Ok(r)
}
