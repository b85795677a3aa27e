//! `bench_kernel RULE RECORDS CALLS` makes a kernel with so many records, and calls a rule of it so often: `refl`, `assume`, `imp_e`,
//! `imp_i`, `and_i`, `subst` or `all_e`. It is here for its time and memory, which `bench/kernel` measures.
#![tactic(auto)]

ghost use Rattle.bench_kernel.specs.Given.{HasGiven};

mod measured;

use hol_terms::{Base, Frozen};
use lcf_kernel::Kernel;
use measured::{Given, Rule, call, make_given, rule_of};
use std::alloc::Global;
use std::env;
use std::process::ExitCode;

/// The rule, called so often.
#[tactic(auto, using(crate::proofs::GivenLemmas::given_kept))]
fn calls(k: &mut Kernel<'_>, g: &Given, rule: Rule, count: u32) -> Option<()>
    requires { HasGiven k.old g.now }
{
    for _ in 0..count {
        call(k, g, rule)?;
    }
    Some(())
}

/// A kernel with so many records more, and so many calls of the rule.
#[tactic(auto, using(crate::proofs::GivenLemmas::given_kept))]
fn go(k: &mut Kernel<'_>, words: &Words) -> Option<()> {
    let g = make_given(k)?;
    calls(k, &g, Rule::Refl, words.records)?;
    let g = make_given(k)?;
    calls(k, &g, words.rule, words.calls)
}

/// The kernel over no terms, without facts and context.
#[tactic(auto, using(hol_formulas::proofs::SmallLemmas::no_formulas_there, hol_formulas::proofs::SmallLemmas::no_context))]
fn run(alloc: Global, frozen: &Frozen, words: &Words) -> Option<()> {
    let mut k = Kernel::new(alloc, frozen, &[], &[]).ok()?;
    go(&mut k, words)
}

/// What the words say.
#[derive(Clone, Copy, Debug)]
struct Words {
    rule: Rule,
    records: u32,
    calls: u32,
}

fn said(rt: &HostRuntime) -> Option<Words> {
    let mut words = env::args(rt).ok()?;
    let name = words.nth(1)?;
    let rule = rule_of(name.as_str())?;
    let first = words.next()?;
    let records = first.as_str().parse::<u32>().ok()?;
    let second = words.next()?;
    let calls = second.as_str().parse::<u32>().ok()?;
    Some(Words {
        rule,
        records,
        calls,
    })
}

/// Ends with 0, with 2 where the words say no rule and numbers, and with 7 without memory.
fn main(rt: HostRuntime) -> ExitCode {
    let Some(words) = said(&rt) else {
        return ExitCode::from(2);
    };
    let frozen = Base::new(rt.alloc()).freeze();
    match run(rt.alloc(), &frozen, &words) {
        Some(()) => ExitCode::from(0),
        None => ExitCode::from(7),
    }
}
