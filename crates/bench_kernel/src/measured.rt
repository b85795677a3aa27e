//! What the rules are called on.
ghost use Rattle.std.specs.Prelude.{IfOk, IfSome};
ghost use Rattle.hol_terms.specs.Substitution.{IsClosed};
ghost use Rattle.hol_terms.specs.TermStore.{HasTerm, Keeps, term_tree};
ghost use Rattle.lcf_kernel.specs.KernelState.{KeepsAll};
ghost use Rattle.bench_kernel.specs.Given.{HasGiven};

use hol_terms::{FreeKind, Node, TermId, Terms};
use hol_types::TypeNode;
use lcf_kernel::{Kernel, RuleFault, ThmId};

/// The rules that are measured.
#[derive(Clone, Copy, Debug)]
pub enum Rule {
    Refl,
    Assume,
    ImpE,
    ImpI,
    AndI,
    Subst,
    AllE,
}

/// The rule of a name.
pub fn rule_of(name: &str) -> Option<Rule> {
    match name {
        "refl" => Some(Rule::Refl),
        "assume" => Some(Rule::Assume),
        "imp_e" => Some(Rule::ImpE),
        "imp_i" => Some(Rule::ImpI),
        "and_i" => Some(Rule::AndI),
        "subst" => Some(Rule::Subst),
        "all_e" => Some(Rule::AllE),
        _ => None,
    }
}

/// A formula x, the lambda `(lambda (y Bool) y)`, and records on them.
#[derive(Clone, Copy, Debug)]
pub struct Given {
    pub x: TermId,
    pub lambda: TermId,
    /// From x, x.
    pub assumed: ThmId,
    /// `(=> x x)`
    pub implication: ThmId,
    /// `(= x x)`
    pub equation: ThmId,
    /// `(all (lambda (y Bool) (= y y)))`
    pub universal: ThmId,
}

/// x, of type Bool.
#[tactic(auto, using(hol_terms::proofs::KeepsLemmas::keeps_trans))]
fn variable<S: Terms>(store: &mut S) -> Option<TermId>
    ensures there { IfSome result (λ t. HasTerm (S.store store.new) t) }
{
    let name = store.name(b"x").ok()?;
    let bool = store.intern_type(TypeNode::Bool).ok()?;
    let t = store.intern(Node::Free(FreeKind::Symbol, name, bool)).ok()?;
    Some(t)
}

/// `(lambda (y Bool) y)`
#[tactic(auto, using(hol_terms::proofs::KeepsLemmas::keeps_trans))]
fn identity<S: Terms>(store: &mut S) -> Option<TermId>
    ensures there { IfSome result (λ t. HasTerm (S.store store.new) t) }
    ensures keeps { IfSome result (λ _. Keeps (S.store store.old) (S.store store.new)) }
{
    let bool = store.intern_type(TypeNode::Bool).ok()?;
    let bound = store.intern(Node::Bound(0, bool)).ok()?;
    let t = store.intern(Node::Lam(bool, bound)).ok()?;
    Some(t)
}

/// What the rules are called on, made of a variable and a lambda.
#[tactic(auto, using(lcf_kernel::proofs::KeptLemmas::has_kept, lcf_kernel::proofs::KeptLemmas::term_kept, lcf_kernel::proofs::KeptLemmas::closed_kept))]
fn records(k: &mut Kernel<'_>, x: TermId, lambda: TermId) -> Result<Given, RuleFault>
    requires there { HasTerm k.old.store x }
    requires lambda_there { HasTerm k.old.store lambda }
    requires closed { IsClosed (term_tree k.old.store x) }
    requires lambda_closed { IsClosed (term_tree k.old.store lambda) }
    ensures { IfOk result (λ g. HasGiven k.new g) }
{
    let assumed = k.assume(x)?;
    let implication = k.imp_i(assumed, x)?;
    let equation = k.refl(x)?;
    let universal = k.all_i(equation, x)?;
    Ok(Given {
        x,
        lambda,
        assumed,
        implication,
        equation,
        universal,
    })
}

/// What the rules are called on.
#[tactic(auto, using(crate::proofs::GivenLemmas::term_stays))]
pub fn make_given(k: &mut Kernel<'_>) -> Option<Given>
    ensures { IfSome result (λ g. HasGiven k.new g) }
{
    let x = variable(k)?;
    let lambda = identity(k)?;
    if k.is_closed(x) && k.is_closed(lambda) {
        records(k, x, lambda).ok()
    } else {
        None
    }
}

/// One call of a rule.
pub fn call(k: &mut Kernel<'_>, g: &Given, rule: Rule) -> Option<ThmId>
    requires { HasGiven k.old g.now }
    ensures keeps { KeepsAll k.old k.new }
{
    match rule {
        Rule::Refl => k.refl(g.x).ok(),
        Rule::Assume => k.assume(g.x).ok(),
        Rule::ImpE => k.imp_e(g.implication, g.assumed).ok(),
        Rule::ImpI => k.imp_i(g.assumed, g.x).ok(),
        Rule::AndI => k.and_i(g.assumed, g.implication).ok(),
        Rule::Subst => k.subst(g.equation, g.assumed, g.lambda).ok(),
        Rule::AllE => k.all_e(g.universal, g.x).ok(),
    }
}
