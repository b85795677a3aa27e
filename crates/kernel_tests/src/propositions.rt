//! Derivations of propositions, worked by hand in natural deduction.
use crate::calls::{Call, OfRecord, OfTerm, OfTwo, WithTerm};
use crate::script::{Answer, script};
use crate::tables::{TermRow, TypeRow};
use hol_terms::FreeKind;
use std::test::Fail;

// `(=> (and p q) (and q p))`
#[test]
fn commuted(rt: HostRuntime) -> Result<(), Fail> {
    let types = [TypeRow::Bool, TypeRow::Fun(0, 0), TypeRow::Fun(0, 1)];
    let terms = [
        TermRow::Free(FreeKind::Symbol, b"p", 0),
        TermRow::Free(FreeKind::Symbol, b"q", 0),
        TermRow::Const(b"and", 2),
        TermRow::Const(b"=>", 2),
        TermRow::App(2, 0),
        TermRow::App(4, 1),
        TermRow::App(2, 1),
        TermRow::App(6, 0),
        TermRow::App(3, 5),
        TermRow::App(8, 7),
    ];
    let lines = [
        (Call::OfTerm(OfTerm::Assume, 5), Answer::Says(&[5], 5)),
        (Call::OfRecord(OfRecord::AndE1, 0), Answer::Says(&[5], 0)),
        (Call::OfRecord(OfRecord::AndE2, 0), Answer::Says(&[5], 1)),
        (Call::OfTwo(OfTwo::AndI, 2, 1), Answer::Says(&[5], 7)),
        (Call::WithTerm(WithTerm::ImpI, 3, 5), Answer::Says(&[], 9)),
        (Call::OfTwo(OfTwo::ImpE, 4, 0), Answer::Says(&[5], 7)),
        (Call::OfTwo(OfTwo::ImpE, 4, 1), Answer::Shape),
        (Call::OfTwo(OfTwo::ImpE, 0, 0), Answer::Shape),
        (Call::OfRecord(OfRecord::AndE1, 4), Answer::Shape),
        (Call::OfRecord(OfRecord::AndE2, 1), Answer::Shape),
        (Call::WithTerm(WithTerm::ImpI, 0, 2), Answer::Shape),
        (
            Call::WithTerm(WithTerm::Weaken, 4, 0),
            Answer::Says(&[0], 9),
        ),
        (Call::WithTerm(WithTerm::Weaken, 4, 3), Answer::Shape),
        (Call::OfTerm(OfTerm::Assume, 2), Answer::Shape),
    ];
    script(&rt, rt.alloc(), &types, &terms, &lines)
}

// `(or p (not p))`, and from it, by cases, the same again.
#[test]
fn excluded_middle(rt: HostRuntime) -> Result<(), Fail> {
    let types = [TypeRow::Bool, TypeRow::Fun(0, 0), TypeRow::Fun(0, 1)];
    let terms = [
        TermRow::Free(FreeKind::Symbol, b"p", 0),
        TermRow::Const(b"not", 1),
        TermRow::Const(b"or", 2),
        TermRow::Const(b"false", 0),
        TermRow::App(1, 0),
        TermRow::App(2, 0),
        TermRow::App(5, 4),
        TermRow::App(1, 6),
    ];
    let lines = [
        (Call::OfTerm(OfTerm::Assume, 7), Answer::Says(&[7], 7)),
        (Call::OfTerm(OfTerm::Assume, 0), Answer::Says(&[0], 0)),
        (Call::WithTerm(WithTerm::OrI1, 1, 4), Answer::Says(&[0], 6)),
        (Call::OfTwo(OfTwo::NotE, 0, 2), Answer::Says(&[7, 0], 3)),
        (Call::WithTerm(WithTerm::NotI, 3, 0), Answer::Says(&[7], 4)),
        (Call::WithTerm(WithTerm::OrI2, 4, 0), Answer::Says(&[7], 6)),
        (Call::OfTwo(OfTwo::NotE, 0, 5), Answer::Says(&[7], 3)),
        (
            Call::WithTerm(WithTerm::Classical, 6, 6),
            Answer::Says(&[], 6),
        ),
        (Call::OfTerm(OfTerm::Assume, 4), Answer::Says(&[4], 4)),
        (Call::WithTerm(WithTerm::OrI2, 8, 0), Answer::Says(&[4], 6)),
        (Call::OrE(7, 2, 9), Answer::Says(&[], 6)),
        (Call::OrE(7, 9, 2), Answer::Says(&[0, 4], 6)),
        (Call::OrE(7, 2, 1), Answer::Shape),
        (Call::OrE(0, 2, 9), Answer::Shape),
        (Call::OfTwo(OfTwo::NotE, 0, 1), Answer::Shape),
        (Call::OfTwo(OfTwo::NotE, 1, 1), Answer::Shape),
        (Call::WithTerm(WithTerm::NotI, 7, 0), Answer::Shape),
        (Call::WithTerm(WithTerm::Classical, 7, 0), Answer::Shape),
        (
            Call::WithTerm(WithTerm::FalseE, 3, 4),
            Answer::Says(&[0, 7], 4),
        ),
        (Call::WithTerm(WithTerm::FalseE, 7, 0), Answer::Shape),
        (Call::WithTerm(WithTerm::OrI1, 7, 2), Answer::Shape),
        (Call::WithTerm(WithTerm::OrI2, 7, 1), Answer::Shape),
    ];
    script(&rt, rt.alloc(), &types, &terms, &lines)
}
