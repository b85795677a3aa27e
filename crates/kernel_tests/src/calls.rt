//! The kernel's calls as rows of a table: records and terms are named by place.
ghost use Rattle.std.specs.Prelude.{IfOk};
ghost use Rattle.hol_terms.specs.Substitution.{IsClosed};
ghost use Rattle.hol_terms.specs.TermStore.{HasTerm, term_tree};
ghost use Rattle.lcf_kernel.specs.KernelState.{HasThm, KeepsAll};
ghost use Rattle.kernel_tests.specs.Tables.{AreTerms, AreThms};

use crate::tables::term_at;
use hol_terms::{TermId, Terms};
use lcf_kernel::{Kernel, RuleFault, ThmId};
use std::process::Abort;

/// A call of a term.
#[derive(Clone, Copy, Debug)]
pub(crate) enum OfTerm {
    Assume,
    Refl,
    Beta,
}

/// A call of a record.
#[derive(Clone, Copy, Debug)]
pub(crate) enum OfRecord {
    AndE1,
    AndE2,
    Choice,
}

/// A call of a record and a term.
#[derive(Clone, Copy, Debug)]
pub(crate) enum WithTerm {
    Weaken,
    ImpI,
    OrI1,
    OrI2,
    NotI,
    FalseE,
    Classical,
    AllI,
    AllE,
    Ext,
}

/// A call of two records.
#[derive(Clone, Copy, Debug)]
pub(crate) enum OfTwo {
    ImpE,
    AndI,
    NotE,
    IffI,
}

/// A call of a record and two terms.
#[derive(Clone, Copy, Debug)]
pub(crate) enum WithTwo {
    ExI,
    IteT,
    IteF,
}

/// A call of two records and a term.
#[derive(Clone, Copy, Debug)]
pub(crate) enum TwoAndTerm {
    ExE,
    Subst,
}

/// A call: records first, then terms.
#[derive(Clone, Copy, Debug)]
pub(crate) enum Call {
    TrueI,
    OrE(usize, usize, usize),
    OfTerm(OfTerm, usize),
    OfRecord(OfRecord, usize),
    WithTerm(WithTerm, usize, usize),
    OfTwo(OfTwo, usize, usize),
    WithTwo(WithTwo, usize, usize, usize),
    TwoAndTerm(TwoAndTerm, usize, usize, usize),
}

#[tactic(auto, using(crate::proofs::TestLemmas::thm_read))]
fn record_at(rt: &impl Abort, k: &Kernel<'_>, records: &[ThmId], i: usize) -> ThmId
    requires { AreThms k.now records.now }
    ensures { HasThm k.now result }
{
    assert!(rt; i < records.len());
    records[i]
}

fn closed_at(rt: &impl Abort, k: &Kernel<'_>, terms: &[TermId], i: usize) -> TermId
    requires { AreTerms k.now.store terms.now }
    ensures there { HasTerm k.now.store result }
    ensures closed { IsClosed (term_tree k.now.store result) }
{
    let t = term_at(rt, k, terms, i);
    assert!(rt; k.is_closed(t));
    t
}

fn of_term(k: &mut Kernel<'_>, rule: OfTerm, t: TermId) -> Result<ThmId, RuleFault>
    requires there { HasTerm k.old.store t }
    requires closed { IsClosed (term_tree k.old.store t) }
    ensures there { IfOk result (λ r. HasThm k.new r) }
    ensures keeps { KeepsAll k.old k.new }
{
    match rule {
        OfTerm::Assume => k.assume(t),
        OfTerm::Refl => k.refl(t),
        OfTerm::Beta => k.beta(t),
    }
}

fn of_record(k: &mut Kernel<'_>, rule: OfRecord, a: ThmId) -> Result<ThmId, RuleFault>
    requires { HasThm k.old a }
    ensures there { IfOk result (λ r. HasThm k.new r) }
    ensures keeps { KeepsAll k.old k.new }
{
    match rule {
        OfRecord::AndE1 => k.and_e1(a),
        OfRecord::AndE2 => k.and_e2(a),
        OfRecord::Choice => k.choice(a),
    }
}

fn with_term(k: &mut Kernel<'_>, rule: WithTerm, a: ThmId, t: TermId) -> Result<ThmId, RuleFault>
    requires thm { HasThm k.old a }
    requires there { HasTerm k.old.store t }
    requires closed { IsClosed (term_tree k.old.store t) }
    ensures there { IfOk result (λ r. HasThm k.new r) }
    ensures keeps { KeepsAll k.old k.new }
{
    match rule {
        WithTerm::Weaken => k.weaken(a, t),
        WithTerm::ImpI => k.imp_i(a, t),
        WithTerm::OrI1 => k.or_i1(a, t),
        WithTerm::OrI2 => k.or_i2(t, a),
        WithTerm::NotI => k.not_i(a, t),
        WithTerm::FalseE => k.false_e(a, t),
        WithTerm::Classical => k.classical(a, t),
        WithTerm::AllI => k.all_i(a, t),
        WithTerm::AllE => k.all_e(a, t),
        WithTerm::Ext => k.ext(a, t),
    }
}

fn of_two(k: &mut Kernel<'_>, rule: OfTwo, a: ThmId, b: ThmId) -> Result<ThmId, RuleFault>
    requires first { HasThm k.old a }
    requires second { HasThm k.old b }
    ensures there { IfOk result (λ r. HasThm k.new r) }
    ensures keeps { KeepsAll k.old k.new }
{
    match rule {
        OfTwo::ImpE => k.imp_e(a, b),
        OfTwo::AndI => k.and_i(a, b),
        OfTwo::NotE => k.not_e(a, b),
        OfTwo::IffI => k.iff_i(a, b),
    }
}

fn with_two(
    k: &mut Kernel<'_>,
    rule: WithTwo,
    a: ThmId,
    t: TermId,
    u: TermId,
) -> Result<ThmId, RuleFault>
    requires thm { HasThm k.old a }
    requires first { HasTerm k.old.store t }
    requires first_closed { IsClosed (term_tree k.old.store t) }
    requires second { HasTerm k.old.store u }
    requires second_closed { IsClosed (term_tree k.old.store u) }
    ensures there { IfOk result (λ r. HasThm k.new r) }
    ensures keeps { KeepsAll k.old k.new }
{
    match rule {
        WithTwo::ExI => k.ex_i(a, t, u),
        WithTwo::IteT => k.ite_t(a, t, u),
        WithTwo::IteF => k.ite_f(a, t, u),
    }
}

fn two_and_term(
    k: &mut Kernel<'_>,
    rule: TwoAndTerm,
    a: ThmId,
    b: ThmId,
    t: TermId,
) -> Result<ThmId, RuleFault>
    requires first { HasThm k.old a }
    requires second { HasThm k.old b }
    requires there { HasTerm k.old.store t }
    requires closed { IsClosed (term_tree k.old.store t) }
    ensures there { IfOk result (λ r. HasThm k.new r) }
    ensures keeps { KeepsAll k.old k.new }
{
    match rule {
        TwoAndTerm::ExE => k.ex_e(a, b, t),
        TwoAndTerm::Subst => k.subst(a, b, t),
    }
}

/// Makes a call.
pub(crate) fn answer(
    rt: &impl Abort,
    k: &mut Kernel<'_>,
    terms: &[TermId],
    records: &[ThmId],
    call: Call,
) -> Result<ThmId, RuleFault>
    requires terms { AreTerms k.old.store terms.now }
    requires records { AreThms k.old records.now }
    ensures there { IfOk result (λ r. HasThm k.new r) }
    ensures keeps { KeepsAll k.old k.new }
{
    match call {
        Call::TrueI => k.true_i(),
        Call::OrE(a, b, c) => {
            let a = record_at(rt, k, records, a);
            let b = record_at(rt, k, records, b);
            let c = record_at(rt, k, records, c);
            k.or_e(a, b, c)
        }
        Call::OfTerm(rule, t) => {
            let t = closed_at(rt, k, terms, t);
            of_term(k, rule, t)
        }
        Call::OfRecord(rule, a) => {
            let a = record_at(rt, k, records, a);
            of_record(k, rule, a)
        }
        Call::WithTerm(rule, a, t) => {
            let a = record_at(rt, k, records, a);
            let t = closed_at(rt, k, terms, t);
            with_term(k, rule, a, t)
        }
        Call::OfTwo(rule, a, b) => {
            let a = record_at(rt, k, records, a);
            let b = record_at(rt, k, records, b);
            of_two(k, rule, a, b)
        }
        Call::WithTwo(rule, a, t, u) => {
            let a = record_at(rt, k, records, a);
            let t = closed_at(rt, k, terms, t);
            let u = closed_at(rt, k, terms, u);
            with_two(k, rule, a, t, u)
        }
        Call::TwoAndTerm(rule, a, b, t) => {
            let a = record_at(rt, k, records, a);
            let b = record_at(rt, k, records, b);
            let t = closed_at(rt, k, terms, t);
            two_and_term(k, rule, a, b, t)
        }
    }
}
