//! De Morgan's laws: each row once, with the dual worked out by hand, and a formula that has none. Here x is a Schematic
//! variable of type Bool.
ghost use Rattle.std.specs.Prelude.{◌≡◌, IfOk};
ghost use Rattle.hol_types.specs.TypeStore.{HasType};
ghost use Rattle.hol_terms.specs.TermStore.{HasTerm, Keeps};
ghost use Rattle.lcf_kernel.specs.KernelState.{records_of};

use crate::rules::{equality, quantifier, variable};
use hol_logic::de_morgan;
use hol_terms::{Node, TermId, Terms};
use hol_types::TypeId;
use lcf_kernel::{Kernel, RuleFault};
use std::process::Abort;
use std::test::Fail;

/// What is denied.
#[derive(Clone, Copy)]
enum Form {
    /// `(and true x)`
    And,
    /// `(or true x)`
    Or,
    /// `(=> true x)`
    Implies,
    /// `(all (lambda. _))`
    All,
    /// `(ex not)`
    Some,
}

// One term applied to another.
#[tactic(auto, using(hol_terms::proofs::KeepsLemmas::keeps_trans))]
fn application(k: &mut Kernel<'_>, f: TermId, x: TermId) -> Result<TermId, Fail>
    requires function { HasTerm k.old.store f }
    requires argument { HasTerm k.old.store x }
    ensures there { IfOk result (λ t. HasTerm k.new.store t) }
    ensures keeps { Keeps k.old.store k.new.store }
    ensures records { records_of k.new ≡ records_of k.old }
{
    let t = k.intern(Node::App(f, x))?;
    Ok(t)
}

// A constant applied to two.
#[tactic(auto, using(hol_terms::proofs::KeepsLemmas::keeps_trans))]
fn joined(k: &mut Kernel<'_>, head: TermId, a: TermId, b: TermId) -> Result<TermId, Fail>
    requires head { HasTerm k.old.store head }
    requires left { HasTerm k.old.store a }
    requires right { HasTerm k.old.store b }
    ensures there { IfOk result (λ t. HasTerm k.new.store t) }
    ensures keeps { Keeps k.old.store k.new.store }
    ensures records { records_of k.new ≡ records_of k.old }
{
    let f = application(k, head, a)?;
    let t = application(k, f, b)?;
    Ok(t)
}

// `(not t)`
#[tactic(auto, using(hol_terms::proofs::KeepsLemmas::keeps_trans))]
fn denial(k: &mut Kernel<'_>, t: TermId) -> Result<TermId, Fail>
    requires { HasTerm k.old.store t }
    ensures there { IfOk result (λ r. HasTerm k.new.store r) }
    ensures keeps { Keeps k.old.store k.new.store }
    ensures records { records_of k.new ≡ records_of k.old }
{
    let not = k.constants().not;
    let r = application(k, not, t)?;
    Ok(r)
}

// The type Bool.
fn truth_type(k: &Kernel<'_>) -> TypeId
    ensures { HasType k.now.store.types result }
{
    k.ty(k.constants().truth)
}

// The place of a lambda on Bool.
fn place(k: &mut Kernel<'_>) -> Result<TermId, Fail>
    ensures there { IfOk result (λ t. HasTerm k.new.store t) }
    ensures keeps { Keeps k.old.store k.new.store }
    ensures records { records_of k.new ≡ records_of k.old }
{
    let ty = truth_type(k);
    let t = k.intern(Node::Bound(0, ty))?;
    Ok(t)
}

// A quantifier over Bool of the lambda with a body.
#[tactic(auto, using(hol_terms::proofs::KeepsLemmas::keeps_trans))]
fn quantified(k: &mut Kernel<'_>, name: &[u8], body: TermId) -> Result<TermId, Fail>
    requires { HasTerm k.old.store body }
    ensures there { IfOk result (λ t. HasTerm k.new.store t) }
    ensures keeps { Keeps k.old.store k.new.store }
    ensures records { records_of k.new ≡ records_of k.old }
{
    let ty = truth_type(k);
    let p = k.intern(Node::Lam(ty, body))?;
    let head = quantifier(k, name)?;
    let t = application(k, head, p)?;
    Ok(t)
}

// `(ex not)`
#[tactic(auto, using(hol_terms::proofs::KeepsLemmas::keeps_trans))]
fn some_denied(k: &mut Kernel<'_>) -> Result<TermId, Fail>
    ensures there { IfOk result (λ t. HasTerm k.new.store t) }
    ensures keeps { Keeps k.old.store k.new.store }
    ensures records { records_of k.new ≡ records_of k.old }
{
    let head = quantifier(k, b"ex")?;
    let not = k.constants().not;
    let t = application(k, head, not)?;
    Ok(t)
}

// What a form denies.
#[tactic(auto, using(hol_terms::proofs::KeepsLemmas::keeps_trans))]
fn given(k: &mut Kernel<'_>, form: Form) -> Result<TermId, Fail>
    ensures there { IfOk result (λ t. HasTerm k.new.store t) }
    ensures keeps { Keeps k.old.store k.new.store }
    ensures records { records_of k.new ≡ records_of k.old }
{
    let x = variable(k)?;
    let hole = place(k)?;
    let constants = k.constants();
    match form {
        Form::And => joined(k, constants.and, constants.truth, x),
        Form::Or => joined(k, constants.or, constants.truth, x),
        Form::Implies => joined(k, constants.imp, constants.truth, x),
        Form::All => quantified(k, b"all", hole),
        Form::Some => some_denied(k),
    }
}

// `(or (not true) (not x))`, or the same with `and`.
#[tactic(auto, using(hol_terms::proofs::KeepsLemmas::keeps_trans))]
fn of_denials(k: &mut Kernel<'_>, either: bool) -> Result<TermId, Fail>
    ensures there { IfOk result (λ t. HasTerm k.new.store t) }
    ensures keeps { Keeps k.old.store k.new.store }
    ensures records { records_of k.new ≡ records_of k.old }
{
    let x = variable(k)?;
    let second = denial(k, x)?;
    let truth = k.constants().truth;
    let first = denial(k, truth)?;
    let constants = k.constants();
    if either {
        joined(k, constants.or, first, second)
    } else {
        joined(k, constants.and, first, second)
    }
}

// `(and true (not x))`
#[tactic(auto, using(hol_terms::proofs::KeepsLemmas::keeps_trans))]
fn without_x(k: &mut Kernel<'_>) -> Result<TermId, Fail>
    ensures there { IfOk result (λ t. HasTerm k.new.store t) }
    ensures keeps { Keeps k.old.store k.new.store }
    ensures records { records_of k.new ≡ records_of k.old }
{
    let x = variable(k)?;
    let second = denial(k, x)?;
    let constants = k.constants();
    let t = joined(k, constants.and, constants.truth, second)?;
    Ok(t)
}

// `(ex (lambda. (not _)))`
#[tactic(auto, using(hol_terms::proofs::KeepsLemmas::keeps_trans))]
fn some_not(k: &mut Kernel<'_>) -> Result<TermId, Fail>
    ensures there { IfOk result (λ t. HasTerm k.new.store t) }
    ensures keeps { Keeps k.old.store k.new.store }
    ensures records { records_of k.new ≡ records_of k.old }
{
    let hole = place(k)?;
    let body = denial(k, hole)?;
    let t = quantified(k, b"ex", body)?;
    Ok(t)
}

// `(all (lambda. (not (not _))))`
#[tactic(auto, using(hol_terms::proofs::KeepsLemmas::keeps_trans))]
fn all_not_not(k: &mut Kernel<'_>) -> Result<TermId, Fail>
    ensures there { IfOk result (λ t. HasTerm k.new.store t) }
    ensures keeps { Keeps k.old.store k.new.store }
    ensures records { records_of k.new ≡ records_of k.old }
{
    let hole = place(k)?;
    let inner = denial(k, hole)?;
    let body = denial(k, inner)?;
    let t = quantified(k, b"all", body)?;
    Ok(t)
}

// The dual of the denied form.
fn dual(k: &mut Kernel<'_>, form: Form) -> Result<TermId, Fail>
    ensures there { IfOk result (λ t. HasTerm k.new.store t) }
    ensures keeps { Keeps k.old.store k.new.store }
    ensures records { records_of k.new ≡ records_of k.old }
{
    match form {
        Form::And => of_denials(k, true),
        Form::Or => of_denials(k, false),
        Form::Implies => without_x(k),
        Form::All => some_not(k),
        Form::Some => all_not_not(k),
    }
}

// The denied form, and its equation with its dual.
#[tactic(auto, using(hol_terms::proofs::KeepsLemmas::keeps_trans))]
fn law(k: &mut Kernel<'_>, form: Form) -> Result<(TermId, TermId), Fail>
    ensures there { IfOk result (λ p. HasTerm k.new.store p.0) }
{
    let part = given(k, form)?;
    let t = denial(k, part)?;
    let other = dual(k, form)?;
    let head = equality(k)?;
    let said = joined(k, head, t, other)?;
    Ok((t, said))
}

fn assert_law(rt: &impl Abort, k: &mut Kernel<'_>, form: Form) -> Result<(), Fail> {
    let pair = law(k, form)?;
    assert!(rt; k.is_closed(pair.0));
    let r = de_morgan(k, pair.0)?;
    assert_eq!(rt; k.concl(r), pair.1);
    assert!(rt; k.hyps(r).is_empty());
    Ok(())
}

// x isn't a denied formula.
fn no_dual(rt: &impl Abort, k: &mut Kernel<'_>) -> Result<(), Fail> {
    let x = variable(k)?;
    assert!(rt; k.is_closed(x));
    assert_eq!(rt; de_morgan(k, x), Err(RuleFault::Shape));
    Ok(())
}

// `(not x)` denies none of the forms.
fn no_form(rt: &impl Abort, k: &mut Kernel<'_>) -> Result<(), Fail> {
    let x = variable(k)?;
    let t = denial(k, x)?;
    assert!(rt; k.is_closed(t));
    assert_eq!(rt; de_morgan(k, t), Err(RuleFault::Shape));
    Ok(())
}

pub(crate) fn each_law(rt: &impl Abort, k: &mut Kernel<'_>) -> Result<(), Fail> {
    let forms = [Form::And, Form::Or, Form::Implies, Form::All, Form::Some];
    for form in forms {
        assert_law(rt, k, form)?;
    }
    no_dual(rt, k)?;
    no_form(rt, k)
}
