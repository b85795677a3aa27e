//! Terms with many shared parts.
ghost use Rattle.std.specs.Prelude.{IfSome};
ghost use Rattle.hol_terms.specs.TermStore.{HasTerm, Keeps};

use hol_terms::{Base, FreeKind, Node, TermId, Terms};
use hol_types::TypeNode;

/// So many sums stand one in the other.
pub const DEPTH: u32 = 1_000;

/// A free variable of type Int.
#[tactic(auto, using(hol_terms::proofs::KeepsLemmas::keeps_trans))]
pub fn variable(base: &mut Base, text: &[u8]) -> Option<TermId>
    ensures there { IfSome result (λ t. HasTerm base.new t) }
    ensures keeps { IfSome result (λ _. Keeps base.old base.new) }
{
    let int = base.intern_type(TypeNode::Int).ok()?;
    let name = base.name(text).ok()?;
    let t = base.intern(Node::Free(FreeKind::Symbol, name, int)).ok()?;
    Some(t)
}

/// `+`
#[tactic(auto, using(hol_terms::proofs::KeepsLemmas::keeps_trans))]
fn plus(base: &mut Base) -> Option<TermId>
    ensures there { IfSome result (λ t. HasTerm base.new t) }
    ensures keeps { IfSome result (λ _. Keeps base.old base.new) }
{
    let int = base.intern_type(TypeNode::Int).ok()?;
    let inner = base.intern_type(TypeNode::Fun(int, int)).ok()?;
    let outer = base.intern_type(TypeNode::Fun(int, inner)).ok()?;
    let name = base.name(b"+").ok()?;
    let t = base.intern(Node::Const(name, outer)).ok()?;
    Some(t)
}

/// The sum of two terms.
#[tactic(auto, using(hol_terms::proofs::KeepsLemmas::keeps_trans))]
fn sum(base: &mut Base, a: TermId, b: TermId) -> Option<TermId>
    requires left { HasTerm base.old a }
    requires right { HasTerm base.old b }
    ensures there { IfSome result (λ t. HasTerm base.new t) }
    ensures keeps { IfSome result (λ _. Keeps base.old base.new) }
{
    let f = plus(base)?;
    let left = base.intern(Node::App(f, a)).ok()?;
    let t = base.intern(Node::App(left, b)).ok()?;
    Some(t)
}

/// The sum of a term and a number.
#[tactic(auto, using(hol_terms::proofs::KeepsLemmas::keeps_trans))]
fn shifted(base: &mut Base, t: TermId, by: u32) -> Option<TermId>
    requires { HasTerm base.old t }
    ensures there { IfSome result (λ t. HasTerm base.new t) }
    ensures keeps { IfSome result (λ _. Keeps base.old base.new) }
{
    let n = base.intern(Node::Num(by as i128)).ok()?;
    let r = sum(base, t, n)?;
    Some(r)
}

/// A term added to itself, that to itself, and so on.
#[tactic(auto, using(hol_terms::proofs::KeepsLemmas::keeps_trans))]
fn doubled(base: &mut Base, t: TermId, length: u32) -> Option<TermId>
    requires { HasTerm base.old t }
    ensures there { IfSome result (λ t. HasTerm base.new t) }
    ensures keeps { IfSome result (λ _. Keeps base.old base.new) }
{
    if length == 0 {
        return Some(t);
    }
    let double = sum(base, t, t)?;
    let r = doubled(base, double, length - 1)?;
    Some(r)
}

/// The sum of a term and of so many chains, each of a thousand sums over x.
#[tactic(auto, using(hol_terms::proofs::KeepsLemmas::keeps_trans))]
pub fn chains(base: &mut Base, x: TermId, t: TermId, count: u32) -> Option<TermId>
    requires variable { HasTerm base.old x }
    requires term { HasTerm base.old t }
    ensures there { IfSome result (λ t. HasTerm base.new t) }
    ensures keeps { IfSome result (λ _. Keeps base.old base.new) }
{
    if count == 0 {
        return Some(t);
    }
    let start = shifted(base, x, count)?;
    let chain = doubled(base, start, DEPTH)?;
    let more = sum(base, t, chain)?;
    let r = chains(base, x, more, count - 1)?;
    Some(r)
}
