//! `bench_terms CALL N` makes a term of N thousand sums, each of which adds a term to itself, and goes through it by a call:
//! `free_in`, `subst`, `close`, `open` or `instantiate`; or by none. It is here for its time, which `bench/terms` measures.
#![tactic(auto)]

ghost use Rattle.hol_terms.specs.TermStore.{HasTerm};

mod made;

use hol_terms::{Base, Node, TermId, Terms};
use hol_types::{List, Subst};
use made::{chains, variable};
use std::env;
use std::process::ExitCode;

/// The term with another variable for x.
fn replace(base: &mut Base, t: TermId, x: TermId) -> Option<TermId>
    requires term { HasTerm base.old t }
    requires variable { HasTerm base.old x }
{
    let y = variable(base, b"y")?;
    if !base.is_closed(y) || base.ty(y) != base.ty(x) {
        return None;
    }
    base.subst(t, x, y).ok()
}

/// The body of a lambda with x for the bound variable.
fn open(base: &mut Base, body: TermId, x: TermId) -> Option<TermId>
    requires body { HasTerm base.old body }
    requires value { HasTerm base.old x }
{
    if !base.is_closed(x) {
        return None;
    }
    let ty = base.ty(x);
    let Ok(_) = base.intern(Node::Lam(ty, body)) else {
        return None;
    };
    base.open(body, x).ok()
}

/// The term closed over x and opened again.
fn reopen(base: &mut Base, t: TermId, x: TermId) -> Option<TermId>
    requires term { HasTerm base.old t }
    requires variable { HasTerm base.old x }
{
    let body = base.close(t, x).ok()?;
    let r = open(base, body, x)?;
    Some(r)
}

/// Whether another variable is in the term.
fn search(base: &mut Base, t: TermId) -> Option<bool>
    requires { HasTerm base.old t }
{
    let y = variable(base, b"y")?;
    base.free_in(y, t).ok()
}

/// The term at the types of no substitution.
fn instance(base: &mut Base, t: TermId) -> Option<TermId>
    requires { HasTerm base.old t }
{
    let none: Subst = List::with_capacity(base.allocator(), 0).ok()?;
    base.instantiate(t, &none).ok()
}

/// Goes through the term by the call of the name. None: there is no such call, or no memory.
fn go(base: &mut Base, call: &str, t: TermId, x: TermId) -> Option<()>
    requires term { HasTerm base.old t }
    requires variable { HasTerm base.old x }
{
    match call {
        "none" => Some(()),
        "free_in" => search(base, t).map(|_| ()),
        "subst" => replace(base, t, x).map(|_| ()),
        "close" => base.close(t, x).ok().map(|_| ()),
        "open" => reopen(base, t, x).map(|_| ()),
        "instantiate" => instance(base, t).map(|_| ()),
        _ => None,
    }
}

/// Makes the term, and goes through it.
fn run(base: &mut Base, call: &str, count: u32) -> Option<()> {
    let x = variable(base, b"x")?;
    let t = chains(base, x, x, count)?;
    go(base, call, t, x)
}

/// The call and the number that the words say.
fn said(rt: &HostRuntime) -> Option<(String, u32)> {
    let mut words = env::args(rt).ok()?;
    let call = words.nth(1)?;
    let number = words.next()?;
    let count = number.as_str().parse::<u32>().ok()?;
    Some((call, count))
}

/// Ends with 0, with 2 where the words say no call and number, and with 7 without memory.
fn main(rt: HostRuntime) -> ExitCode {
    let Some((call, count)) = said(&rt) else {
        return ExitCode::from(2);
    };
    let mut base = Base::new(rt.alloc());
    match run(&mut base, call.as_str(), count) {
        Some(()) => ExitCode::from(0),
        None => ExitCode::from(7),
    }
}
