//! Derivations with quantifiers and choice, worked by hand in natural deduction.
use crate::calls::{Call, OfRecord, OfTerm, TwoAndTerm, WithTerm, WithTwo};
use crate::script::{Answer, Line, script};
use crate::tables::{TermRow, TypeRow};
use hol_terms::FreeKind;
use std::alloc::Global;
use std::process::Abort;
use std::test::Fail;

// P of type 'a => Bool, x of type 'a, and what the quantifiers and choice say of P.
fn predicates(rt: &impl Abort, alloc: Global, lines: &[Line<'_>]) -> Result<(), Fail> {
    let types = [
        TypeRow::Bool,
        TypeRow::Var(b"'a"),
        TypeRow::Fun(1, 0),
        TypeRow::Fun(2, 0),
        TypeRow::Fun(2, 1),
    ];
    let terms = [
        TermRow::Free(FreeKind::Symbol, b"P", 2),
        TermRow::Free(FreeKind::Open, b"x", 1),
        TermRow::Bound(0, 1),
        TermRow::App(0, 2),
        TermRow::Lam(1, 3),
        TermRow::Const(b"ex", 3),
        TermRow::Const(b"all", 3),
        TermRow::App(5, 4),
        TermRow::App(6, 4),
        TermRow::App(0, 1),
        TermRow::Const(b"choice", 4),
        TermRow::App(10, 4),
        TermRow::App(0, 11),
        TermRow::App(6, 0),
    ];
    script(rt, alloc, &types, &terms, lines)
}

// Where some x is in P, some is, and the chosen one is.
#[test]
fn existences(rt: HostRuntime) -> Result<(), Fail> {
    let lines = [
        (Call::OfTerm(OfTerm::Assume, 9), Answer::Says(&[9], 9)),
        (Call::WithTwo(WithTwo::ExI, 0, 7, 1), Answer::Says(&[9], 7)),
        (Call::OfTerm(OfTerm::Assume, 7), Answer::Says(&[7], 7)),
        (
            Call::TwoAndTerm(TwoAndTerm::ExE, 2, 1, 1),
            Answer::Says(&[7], 7),
        ),
        (Call::OfRecord(OfRecord::Choice, 2), Answer::Says(&[7], 12)),
        (Call::WithTwo(WithTwo::ExI, 4, 7, 11), Answer::Says(&[7], 7)),
        (Call::TwoAndTerm(TwoAndTerm::ExE, 2, 0, 1), Answer::Shape),
        (Call::TwoAndTerm(TwoAndTerm::ExE, 0, 1, 1), Answer::Shape),
        (Call::TwoAndTerm(TwoAndTerm::ExE, 2, 1, 0), Answer::Shape),
        (Call::TwoAndTerm(TwoAndTerm::ExE, 2, 1, 9), Answer::Shape),
        (Call::WithTwo(WithTwo::ExI, 0, 7, 11), Answer::Shape),
        (Call::WithTwo(WithTwo::ExI, 0, 8, 1), Answer::Shape),
        (Call::OfRecord(OfRecord::Choice, 0), Answer::Shape),
        (
            Call::WithTerm(WithTerm::Weaken, 1, 9),
            Answer::Says(&[9], 7),
        ),
        (Call::WithTerm(WithTerm::ImpI, 1, 0), Answer::Shape),
    ];
    predicates(&rt, rt.alloc(), &lines)
}

// Where all are in P, x is, and so all are.
#[test]
fn generality(rt: HostRuntime) -> Result<(), Fail> {
    let lines = [
        (Call::OfTerm(OfTerm::Assume, 8), Answer::Says(&[8], 8)),
        (Call::WithTerm(WithTerm::AllE, 0, 1), Answer::Says(&[8], 9)),
        (Call::WithTerm(WithTerm::AllI, 1, 1), Answer::Says(&[8], 8)),
        (Call::OfTerm(OfTerm::Assume, 13), Answer::Says(&[13], 13)),
        (Call::WithTerm(WithTerm::AllE, 3, 1), Answer::Says(&[13], 9)),
        (
            Call::WithTerm(WithTerm::AllE, 3, 11),
            Answer::Says(&[13], 12),
        ),
        (Call::OfTerm(OfTerm::Assume, 9), Answer::Says(&[9], 9)),
        (Call::WithTerm(WithTerm::AllI, 6, 1), Answer::Shape),
        (Call::WithTerm(WithTerm::AllI, 1, 9), Answer::Shape),
        (Call::WithTerm(WithTerm::AllE, 0, 0), Answer::Shape),
        (Call::WithTerm(WithTerm::AllE, 6, 1), Answer::Shape),
    ];
    predicates(&rt, rt.alloc(), &lines)
}
